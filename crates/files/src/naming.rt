// Numbers 7 and 8 at one record of a file in which 2 to 4 found nothing: the nodes that an edge names, and the rows that a row names, are looked up. States of
// `name` that it finds the lower of the two that applies at the record.
ghost use Rattle.std.specs.Prelude.{◌≡◌, cond, ◌+◌, ◌*◌, ◌≤◌, ◌<◌, leb, eqb, length};
ghost use Rattle.files.specs.Places.{usize_end, record_len};
ghost use Rattle.files.specs.Record.{record_at, count, parsed_as};
ghost use Rattle.files.specs.Refusal.{graph, property, nodes_of, method_at};
ghost use Rattle.files.specs.FileKind.{kind_of};
ghost use Rattle.files.specs.Checking.{test, found_at, bound_of, names_past, Sound};
ghost use Rattle.files.specs.declared.record.Parsed.TheVariants.{Wrong, Other};

use crate::offence::{FileKind, unread};
use crate::parse::{parse_as, read};
use crate::record::{Operator, Parsed, Record};
use crate::refusal::Refusal;

// Node g; Other past the last.
fn node_named(records: &[u8], nodes: usize, g: usize) -> Parsed
    requires { record_len * nodes ≤ length records.now }
    ensures { result ≡ cond (leb nodes g) Other (parsed_as 1 (record_at records.now g)) }
{
    if nodes <= g {
        return Parsed::Other;
    }
    parse_as(Record::NODE, records, g)
}

// Node g; Other past the last, Wrong in another method.
fn node_beside(records: &[u8], nodes: usize, g: usize, method: u8) -> Parsed
    requires { record_len * nodes ≤ length records.now }
    ensures { result ≡ cond (leb nodes g) Other (cond (eqb (method_at records.now g) method) (parsed_as 1 (record_at records.now g)) Wrong) }
{
    if nodes <= g {
        return Parsed::Other;
    }
    let r = read(records, g);
    if r.first == method {
        return parse_as(Record::NODE, records, g);
    }
    Parsed::Wrong
}

// 7 and 8 of an edge: both of its nodes are there, the second beside the first. A node names nothing.
pub(crate) fn name_nodes(
    records: &[u8],
    nodes: usize,
    i: usize,
    first: usize,
    position: u8,
) -> Result<(), Refusal>
    requires { (Sound graph records.now) × ((nodes ≡ nodes_of records.now) × ((i < count records.now) × (first + i < usize_end))) }
    ensures { result ≡ found_at 2 7 (test graph records.now) first position i }
{
    let Parsed::Edge { from, to, .. } = parse_as(Record::EDGE, records, i) else {
        return Ok(());
    };
    let Parsed::Node { method, .. } = node_named(records, nodes, from) else {
        return Err(Refusal::at(7, position, first + i));
    };
    let beside = node_beside(records, nodes, to, method);
    let Parsed::Node { .. } = beside else {
        return Err(unread(beside, 7, position, first + i));
    };
    Ok(())
}

// A row's record names a row that is not below n.
fn names_past(r: Record, n: usize) -> bool
    ensures { result ≡ names_past n r }
{
    let x = r.first;
    let past_a = n <= (r.second as usize);
    let past_b = n <= (r.third as usize);
    (((x == Operator::AND) | (x == Operator::OR)) & (past_a | past_b))
        | (((x == Operator::BOX) & past_b) | ((x == Operator::BOX_ALL) & past_a))
}

// Row i; Other where it names a row past the last.
fn row_within(records: &[u8], rows: usize, i: usize) -> Parsed
    requires { record_len * i + record_len ≤ length records.now }
    ensures { result ≡ cond (names_past rows (record_at records.now i)) Other (parsed_as 3 (record_at records.now i)) }
{
    let r = read(records, i);
    if names_past(r, rows) {
        return Parsed::Other;
    }
    parse_as(Record::ROW, records, i)
}

// 7 of a row: the rows that it names are there.
fn name_rows(
    records: &[u8],
    rows: usize,
    i: usize,
    first: usize,
    position: u8,
) -> Result<(), Refusal>
    requires { (Sound property records.now) × ((rows ≡ count records.now) × ((i < count records.now) × (first + i < usize_end))) }
    ensures { result ≡ found_at 2 7 (test property records.now) first position i }
{
    let Parsed::Row { .. } = row_within(records, rows, i) else {
        return Err(Refusal::at(7, position, first + i));
    };
    Ok(())
}

// Numbers 7 and 8 at record i, where so many nodes or rows can be named: the lower that applies, or nothing. Rules and interfaces name none.
pub(crate) fn name(
    kind: FileKind,
    records: &[u8],
    bound: usize,
    i: usize,
    first: usize,
    position: u8,
) -> Result<(), Refusal>
    requires { (Sound (kind_of kind) records.now) × ((bound ≡ bound_of (kind_of kind) records.now) × ((i < count records.now) × (first + i < usize_end))) }
    ensures { result ≡ found_at 2 7 (test (kind_of kind) records.now) first position i }
{
    match kind {
        FileKind::Graph => name_nodes(records, bound, i, first, position),
        FileKind::Property => name_rows(records, bound, i, first, position),
        FileKind::Rules | FileKind::Interface => Ok(()),
    }
}
