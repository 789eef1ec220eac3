// Reading one record from a slice into the parsed-record enum. Raw byte reads are private to this file.
ghost use Rattle.std.specs.Prelude.{◌≡◌, ◌+◌, ◌*◌, ◌≤◌, length};
ghost use Rattle.files.specs.Places.{record_len};
ghost use Rattle.files.specs.Record.{record_at, kind_at, node_wrong, edge_wrong, row_wrong, rule_wrong, interface_wrong, parsed, parsed_as};

use crate::record::{Operator, Parsed, Record};

// The six bytes of record i.
pub(crate) fn read(records: &[u8], i: usize) -> Record
    requires { record_len * i + record_len ≤ length records.now }
    ensures { result ≡ record_at records.now i }
{
    let p = Record::LEN * i;
    Record {
        kind: records[p],
        first: records[p + 1],
        second: records[p + 2],
        third: records[p + 3],
        fourth: records[p + 4],
        fifth: records[p + 5],
    }
}

// The kind of record i, whatever its fields.
pub(crate) fn kind_at(records: &[u8], i: usize) -> u8
    requires { record_len * i + record_len ≤ length records.now }
    ensures { result ≡ kind_at records.now i }
{
    records[Record::LEN * i]
}

pub(crate) fn node_wrong(r: Record) -> bool
    ensures { result ≡ node_wrong r }
{
    ((r.first < 1) | (8 < r.first))
        | ((1 < r.second) | ((1 < r.third) | (!(r.fourth == 0) | !(r.fifth == 0))))
}

pub(crate) fn edge_wrong(r: Record) -> bool
    ensures { result ≡ edge_wrong r }
{
    (8 < r.second) | (!(r.fourth == 0) | !(r.fifth == 0))
}

fn row_wrong(r: Record) -> bool
    ensures { result ≡ row_wrong r }
{
    let x = r.first;
    let none = (x == Operator::TRUE)
        | ((x == Operator::FALSE) | ((x == Operator::RETURNS) | (x == Operator::NOT_RETURNS)));
    let method = (x == Operator::IN_METHOD) | (x == Operator::NOT_IN_METHOD);
    let spare = !(r.fourth == 0) | !(r.fifth == 0);
    let method_out = (r.second < 1) | (8 < r.second);
    let no_second = (x < Operator::AND) | (Operator::BOX < x);
    ((x < Operator::TRUE) | (Operator::BOX_ALL < x))
        | ((none & !(r.second == 0))
            | ((no_second & !(r.third == 0))
                | ((method & method_out) | (((x == Operator::BOX) & (8 < r.second)) | spare))))
}

fn rule_wrong(r: Record) -> bool
    ensures { result ≡ rule_wrong r }
{
    let m1 = (r.third < 1) | (8 < r.third);
    let m2 = (r.fourth < 1) | (8 < r.fourth);
    (6 < r.first) | (((r.second < 1) | (2 < r.second)) | (m1 | (m2 | (7 < r.fifth))))
}

fn interface_wrong(r: Record) -> bool
    ensures { result ≡ interface_wrong r }
{
    !(r.third == 0) | (!(r.fourth == 0) | !(r.fifth == 0))
}

// A node, or a wrong one.
fn read_node(r: Record) -> Parsed
    requires { r.kind ≡ 1 }
    ensures { result ≡ parsed r }
{
    if node_wrong(r) {
        return Parsed::Wrong;
    }
    Parsed::Node {
        method: r.first,
        returns: r.second == 1,
        entry: r.third == 1,
    }
}

// An edge, or a wrong one.
fn read_edge(r: Record) -> Parsed
    requires { r.kind ≡ 2 }
    ensures { result ≡ parsed r }
{
    if edge_wrong(r) {
        return Parsed::Wrong;
    }
    Parsed::Edge {
        from: r.first as usize,
        label: r.second,
        to: r.third as usize,
    }
}

// A row, or a wrong one.
fn read_row(r: Record) -> Parsed
    requires { r.kind ≡ 3 }
    ensures { result ≡ parsed r }
{
    if row_wrong(r) {
        return Parsed::Wrong;
    }
    Parsed::Row {
        operator: r.first,
        a: r.second,
        b: r.third,
    }
}

// A rule, or a wrong one.
fn read_rule(r: Record) -> Parsed
    requires { r.kind ≡ 4 }
    ensures { result ≡ parsed r }
{
    if rule_wrong(r) {
        return Parsed::Wrong;
    }
    Parsed::Rule {
        state: r.first,
        event: r.second,
        m1: r.third,
        m2: r.fourth,
        next: r.fifth,
    }
}

// An interface, or a wrong one.
fn read_interface(r: Record) -> Parsed
    requires { r.kind ≡ 5 }
    ensures { result ≡ parsed r }
{
    if interface_wrong(r) {
        return Parsed::Wrong;
    }
    Parsed::Interface {
        provided: r.first,
        required: r.second,
    }
}

// The record parsed: its kind's own tests are made, and a record of none of the five kinds is Other.
#[inline(always)]
pub(crate) fn parsed(r: Record) -> Parsed
    ensures { result ≡ parsed r }
{
    match r.kind {
        Record::NODE => read_node(r),
        Record::EDGE => read_edge(r),
        Record::ROW => read_row(r),
        Record::RULE => read_rule(r),
        Record::INTERFACE => read_interface(r),
        _ => Parsed::Other,
    }
}

// Record i where one kind is looked for: any other record is Other. Every call names a constant kind and has the body in line, so the tests of the other kinds
// are not made.
#[inline(always)]
pub(crate) fn parse_as(kind: u8, records: &[u8], i: usize) -> Parsed
    requires { record_len * i + record_len ≤ length records.now }
    ensures { result ≡ parsed_as kind (record_at records.now i) }
{
    let r = read(records, i);
    if r.kind == kind {
        return parsed(r);
    }
    Parsed::Other
}
