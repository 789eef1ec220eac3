// A graph file that is plainly in order, told in one pass: nodes with nothing wrong, then edges with nothing wrong, ascending, each between two of those
// nodes and inside one method. Most graphs that are handed in are so. Of any other file nothing is said here: the check looks at it number by number.
// `leading_nodes` and `plain_edges` state what of this they found.
ghost use Rattle.std.specs.Prelude.{◌≡◌, ℕ, ◌*◌, ◌≤◌, ◌<◌, T, length};
ghost use Rattle.files.specs.Places.{record_len};
ghost use Rattle.files.specs.Record.{count};
ghost use Rattle.files.specs.Plain.{PlainNode, Inside, PlainEdges, edge_number};

use crate::parse::{edge_wrong, node_wrong, read};
use crate::record::Record;

// How many records, from the first on, are nodes with nothing wrong.
pub(crate) fn leading_nodes(records: &[u8]) -> usize
    ensures { (result ≤ count records.now) × ((i : ℕ) → i < result → PlainNode records.now i) }
{
    let n = records.len() / Record::LEN;
    for i in 0..n {
        let r = read(records, i);
        if !(r.kind == Record::NODE) | node_wrong(r) {
            return i;
        }
    }
    n
}

// An edge's key as one number, which ascends with it. (By `from_be_bytes` checking a graph takes up to a fifth longer.)
fn edge_number(r: Record) -> u32
    ensures { result ≡ edge_number r }
{
    256 * (256 * (r.first as u32) + (r.second as u32)) + (r.third as u32)
}

// Whether an edge is between two of so many nodes, of one method.
fn inside(records: &[u8], nodes: usize, r: Record) -> bool
    requires { record_len * nodes ≤ length records.now }
    ensures { T result → Inside records.now nodes r }
{
    let from = r.first as usize;
    let to = r.third as usize;
    if (nodes <= from) | (nodes <= to) {
        return false;
    }
    let here = read(records, from);
    let there = read(records, to);
    there.first == here.first
}

// Whether all records after so many nodes are edges in order between them.
pub(crate) fn plain_edges(records: &[u8], nodes: usize) -> bool
    requires { nodes ≤ count records.now }
    ensures { T result → PlainEdges records.now nodes (count records.now) }
{
    let n = records.len() / Record::LEN;
    let mut least = 0;
    for i in nodes..n {
        let r = read(records, i);
        let number = edge_number(r);
        let right = (r.kind == Record::EDGE) & !edge_wrong(r) & (least <= number);
        if !right | !inside(records, nodes, r) {
            return false;
        }
        least = number + 1;
    }
    true
}
