// Numbers 2 to 4 at one record of a file that is read as a graph, property, rules or interface: the parsed record is taken apart, and the refusal otherwise
// returned with its place. States of `look` that it finds the lowest of the three that applies at the record.
ghost use Rattle.std.specs.Prelude.{◌≡◌, ◌+◌, ◌*◌, ◌≤◌, ◌<◌, length};
ghost use Rattle.files.specs.Outcome.{refusal_at};
ghost use Rattle.files.specs.Places.{usize_end, record_len};
ghost use Rattle.files.specs.Record.{kind_at};
ghost use Rattle.files.specs.Refusal.{graph, property, rules, interface, edge_before, disordered};
ghost use Rattle.files.specs.FileKind.{kind_of};
ghost use Rattle.files.specs.Checking.{test, unread_number, found_at};

use crate::parse::{kind_at, parse_as, read};
use crate::record::{Parsed, Record};
use crate::refusal::Refusal;

// What a file is read as. Where it is a parameter the function matches it once, or hands it to one that does.
#[derive(Clone, Copy)]
pub enum FileKind {
    Graph,
    Property,
    Rules,
    Interface,
}

// The record before record i is an edge.
fn edge_before(records: &[u8], i: usize) -> bool
    requires { record_len * i + record_len ≤ length records.now }
    ensures { result ≡ edge_before records.now i }
{
    if i == 0 {
        return false;
    }
    kind_at(records, i - 1) == Record::EDGE
}

// 4: two edges of a graph, or two rules, in a row whose keys do not ascend. In line at both calls, as each names a constant kind.
#[inline(always)]
fn disordered(kind: FileKind, records: &[u8], i: usize) -> bool
    requires { record_len * i + record_len ≤ length records.now }
    ensures { result ≡ disordered (kind_of kind) records.now i }
{
    if i == 0 {
        return false;
    }
    let r = read(records, i - 1);
    let s = read(records, i);
    match kind {
        FileKind::Graph => {
            let before = (r.first, r.second, r.third);
            let key = (s.first, s.second, s.third);
            (r.kind == Record::EDGE) & ((s.kind == Record::EDGE) & (before >= key))
        }
        FileKind::Rules => {
            let before = (r.first, r.second, r.third, r.fourth);
            let key = (s.first, s.second, s.third, s.fourth);
            (r.kind == Record::RULE) & ((s.kind == Record::RULE) & (before >= key))
        }
        FileKind::Property | FileKind::Interface => false,
    }
}

// The refusal of what does not read as its place asks for: by the number after `low` where it is there and wrong, by `low` where it is not there.
pub(crate) fn unread(p: Parsed, low: u8, position: u8, record: usize) -> Refusal
    requires { low < 255 }
    ensures { result ≡ refusal_at (unread_number low p) position «record» }
{
    let Parsed::Wrong = p else {
        return Refusal::at(low, position, record);
    };
    Refusal::at(low + 1, position, record)
}

// A record of kind 1 in a graph.
fn look_node(records: &[u8], i: usize, first: usize, position: u8) -> Result<(), Refusal>
    requires { (record_len * i + record_len ≤ length records.now) × ((first + i < usize_end) × (kind_at records.now i ≡ 1)) }
    ensures { result ≡ found_at 3 2 (test graph records.now) first position i }
{
    if edge_before(records, i) {
        return Err(Refusal::at(2, position, first + i));
    }
    let p = parse_as(Record::NODE, records, i);
    let Parsed::Node { .. } = p else {
        return Err(unread(p, 2, position, first + i));
    };
    Ok(())
}

// A record of a graph that is no node: an edge, or misplaced.
fn look_edge(records: &[u8], i: usize, first: usize, position: u8) -> Result<(), Refusal>
    requires { (record_len * i + record_len ≤ length records.now) × ((first + i < usize_end) × (kind_at records.now i ≡ 1 → ⊥)) }
    ensures { result ≡ found_at 3 2 (test graph records.now) first position i }
{
    let p = parse_as(Record::EDGE, records, i);
    let Parsed::Edge { .. } = p else {
        return Err(unread(p, 2, position, first + i));
    };
    if disordered(FileKind::Graph, records, i) {
        return Err(Refusal::at(4, position, first + i));
    }
    Ok(())
}

pub(crate) fn look_graph(
    records: &[u8],
    i: usize,
    first: usize,
    position: u8,
) -> Result<(), Refusal>
    requires { (record_len * i + record_len ≤ length records.now) × (first + i < usize_end) }
    ensures { result ≡ found_at 3 2 (test graph records.now) first position i }
{
    if kind_at(records, i) == Record::NODE {
        return look_node(records, i, first, position);
    }
    look_edge(records, i, first, position)
}

// A record of a property. This, an edge and a rule are looked at alike but for the pattern, which is what is tested: one function would match twice.
fn look_row(records: &[u8], i: usize, first: usize, position: u8) -> Result<(), Refusal>
    requires { (record_len * i + record_len ≤ length records.now) × (first + i < usize_end) }
    ensures { result ≡ found_at 3 2 (test property records.now) first position i }
{
    let p = parse_as(Record::ROW, records, i);
    let Parsed::Row { .. } = p else {
        return Err(unread(p, 2, position, first + i));
    };
    Ok(())
}

fn look_rule(records: &[u8], i: usize, first: usize, position: u8) -> Result<(), Refusal>
    requires { (record_len * i + record_len ≤ length records.now) × (first + i < usize_end) }
    ensures { result ≡ found_at 3 2 (test rules records.now) first position i }
{
    let p = parse_as(Record::RULE, records, i);
    let Parsed::Rule { .. } = p else {
        return Err(unread(p, 2, position, first + i));
    };
    if disordered(FileKind::Rules, records, i) {
        return Err(Refusal::at(4, position, first + i));
    }
    Ok(())
}

// An interface file holds one record: a second one is out of place.
fn look_interface(records: &[u8], i: usize, first: usize, position: u8) -> Result<(), Refusal>
    requires { (record_len * i + record_len ≤ length records.now) × (first + i < usize_end) }
    ensures { result ≡ found_at 3 2 (test interface records.now) first position i }
{
    if 1 <= i {
        return Err(Refusal::at(2, position, first + i));
    }
    let p = parse_as(Record::INTERFACE, records, i);
    let Parsed::Interface { .. } = p else {
        return Err(unread(p, 2, position, first + i));
    };
    Ok(())
}

// Numbers 2 to 4 at record i, which is record `first + i` of the file: the lowest that applies, or nothing.
pub(crate) fn look(
    kind: FileKind,
    records: &[u8],
    i: usize,
    first: usize,
    position: u8,
) -> Result<(), Refusal>
    requires { (record_len * i + record_len ≤ length records.now) × (first + i < usize_end) }
    ensures { result ≡ found_at 3 2 (test (kind_of kind) records.now) first position i }
{
    match kind {
        FileKind::Graph => look_graph(records, i, first, position),
        FileKind::Property => look_row(records, i, first, position),
        FileKind::Rules => look_rule(records, i, first, position),
        FileKind::Interface => look_interface(records, i, first, position),
    }
}
