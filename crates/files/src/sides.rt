// Refusals 9, 10 and 16 of accepted graphs and interfaces: the first record of a graph that is not of its interface, a method that two sides provide, one that nobody
// provides, and one that has no entry.
ghost use Rattle.std.specs.Option.{unwrap_or};
ghost use Rattle.std.specs.Prelude.{◌≡◌, ◌+◌, ◌*◌, ◌≤◌, ◌<◌, IfSome, length};
ghost use Rattle.files.specs.Places.{record_len};
ghost use Rattle.files.specs.Record.{count, parsed_at};
ghost use Rattle.files.specs.Decode.{decode_graph, decode_interface};
ghost use Rattle.files.specs.Sides.{foreign_of, first_foreign_record, shares, lacks, unprovided, has_entry, lacks_entry};
ghost use Rattle.files.specs.Refusal.{nodes_of};
ghost use Rattle.files.specs.Access.{GraphFile, InterfaceFile};

use crate::graph::node_at;
use crate::interface::{in_set, provided_methods, provides, required_methods};
use crate::parse::{parsed, read};
use crate::record::{Parsed, Record};

// Record i is not of the interface with these sets: a node whose method is not provided, or an edge that calls a method that is not required.
fn foreign(graph: &[u8], i: usize, provided: u8, required: u8) -> bool
    requires { record_len * i + record_len ≤ length graph.now }
    ensures { result ≡ foreign_of (record { provided = provided; required = required }) (parsed_at graph.now i) }
{
    match parsed(read(graph, i)) {
        Parsed::Node { method, .. } => !in_set(provided, method),
        Parsed::Edge { label, .. } => (0 < label) & !in_set(required, label),
        _ => false,
    }
}

// The first record of the graph that is not of the interface, if there is one.
pub(crate) fn first_foreign(graph: &[u8], interface: &[u8]) -> Option<usize>
    requires { (GraphFile graph.now) × (InterfaceFile interface.now) }
    ensures { (unwrap_or result (count graph.now) ≡ first_foreign_record (decode_interface interface.now) graph.now) × (IfSome result (λ i. i < count graph.now)) }
{
    let provided = provided_methods(interface);
    let required = required_methods(interface);
    for i in 0..graph.len() / Record::LEN {
        if foreign(graph, i, provided, required) {
            return Some(i);
        }
    }
    None
}

// Two sides provide one method.
pub(crate) fn shares(first: &[u8], second: &[u8]) -> bool
    requires { (InterfaceFile first.now) × (InterfaceFile second.now) }
    ensures { result ≡ shares (decode_interface first.now) (decode_interface second.now) }
{
    (1..9).any(|m| provides(first, m) & provides(second, m))
}

// A required method is not provided.
fn lacks(provided: u8, required: u8) -> bool
    ensures { result ≡ lacks (record { provided = provided; required = required }) }
{
    (1..9).any(|m| in_set(required, m) & !in_set(provided, m))
}

// A required method, or the start method, is provided by nobody, where these methods are provided and required.
pub(crate) fn unprovided(provided: u8, required: u8, start: u8) -> bool
    ensures { result ≡ unprovided (record { provided = provided; required = required }) start }
{
    !in_set(provided, start) | lacks(provided, required)
}

// Some entry is of method m.
fn has_entry(graph: &[u8], nodes: usize, m: u8) -> bool
    requires { (GraphFile graph.now) × (nodes ≡ nodes_of graph.now) }
    ensures { result ≡ has_entry (decode_graph graph.now) m }
{
    for n in 0..nodes {
        let v = node_at(graph, n);
        if v.entry & (v.method == m) {
            return true;
        }
    }
    false
}

// A method that the interface provides has no entry in the graph.
pub fn lacks_entry(interface: &[u8], graph: &[u8], nodes: usize) -> bool
    requires { (InterfaceFile interface.now) × ((GraphFile graph.now) × (nodes ≡ nodes_of graph.now)) }
    ensures { result ≡ lacks_entry (decode_interface interface.now) (decode_graph graph.now) }
{
    (1..9).any(|m| provides(interface, m) & !has_entry(graph, nodes, m))
}
