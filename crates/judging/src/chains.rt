// The chains of judging: edges by the node they lead to, operands by the row they name. `index` states that both stand in the lent buffer.
ghost use Rattle.std.specs.Prelude.{◌≡◌, ◌+◌, ◌*◌, ◌-◌, ◌/◌, ◌%◌, ◌≤◌, ◌<◌, length, get_or};
ghost use Rattle.files.specs.Access.{GraphFile, operator_of, first_of, second_of};
ghost use Rattle.files.specs.Places.{max_edges, two_bytes_last};
ghost use Rattle.files.specs.Record.{count};
ghost use Rattle.files.specs.Refusal.{nodes_of};
ghost use Rattle.files.specs.Graph.{size, no_edge};
ghost use Rattle.files.specs.Property.{row};
ghost use Rattle.files.specs.Decode.{decode_graph, decode_property};
ghost use Rattle.judging.specs.Chains.{Chained, Outside, linked, into, uses, named, named_or, operand_of, Index};
ghost use Rattle.judging.specs.Places.{judge_room, row_heads_base, row_nexts_base};
ghost use Rattle.judging.specs.Ranking.{Ready};

use crate::shape::Shape;
use files::cells::{clear, get, put};
use files::graph::edge_at;
use files::property::{PropertyRow, row_at};

// Puts an item at the head of a key's chain.
pub fn link(work: &mut [u8], heads: usize, nexts: usize, key: usize, item: usize)
    requires { (heads + 2 * key + 2 ≤ length work.old) × ((nexts + 2 * item + 2 ≤ length work.old) × (item < two_bytes_last)) }
    ensures { work.new ≡ linked work.old heads nexts key item }
{
    let before = get::<u16>(work, heads, key);
    put(work, nexts, item, before);
    put(work, heads, key, (item + 1) as u16);
}

// The node that edge e leads to.
fn edge_target(graph: &[u8], nodes: usize, e: usize) -> usize
    requires { (GraphFile graph.now) × ((nodes ≡ nodes_of graph.now) × (e < count graph.now - nodes)) }
    ensures { result ≡ (get_or (decode_graph graph.now).edges e no_edge).to }
{
    let edge = edge_at(graph, nodes, e);
    edge.to
}

// Operand i of row x where it is a row, or n: both operands of an "and" and an "or", the second of a box of one label, the first of a box of all.
fn operand(x: PropertyRow, i: usize, n: usize) -> usize
    ensures { result ≡ operand_of (operator_of x) (first_of x) (second_of x) i n }
{
    match x {
        PropertyRow::And(a, b) | PropertyRow::Or(a, b) => {
            if i == 0 { a as usize } else { b as usize }
        }
        PropertyRow::Box { row, .. } => if i == 0 { n } else { row as usize },
        PropertyRow::BoxAll(row) => if i == 0 { row as usize } else { n },
        PropertyRow::True
        | PropertyRow::False
        | PropertyRow::InMethod(_)
        | PropertyRow::NotInMethod(_)
        | PropertyRow::Returns
        | PropertyRow::NotReturns => n,
    }
}

// The row that place j names: place 2 q + i is operand i of row q. `s.rows` where it names none.
fn row_named(graph: &[u8], property: &[u8], s: Shape, j: usize) -> usize
    requires { (Ready s graph.now property.now) × (j < 2 * s.rows) }
    ensures { result ≡ named_or (named (row (decode_property property.now) (j / 2)) (j % 2)) s.rows }
{
    operand(row_at(property, j / 2), j % 2, s.rows)
}

// Links every edge of a graph to the node that it leads to.
pub(crate) fn link_graph(
    graph: &[u8],
    nodes: usize,
    edges: usize,
    work: &mut [u8],
    heads: usize,
    nexts: usize,
)
    requires { (GraphFile graph.now) × ((nodes ≡ nodes_of graph.now) × ((edges ≡ count graph.now - nodes_of graph.now) × ((edges ≤ max_edges) × ((heads + 2 * nodes ≤ nexts) × ((nexts + 2 * edges ≤ length work.old) × (Chained work.old heads nexts (into (decode_graph graph.now)) (size (decode_graph graph.now)) 0)))))) }
    ensures { (Chained work.new heads nexts (into (decode_graph graph.now)) (size (decode_graph graph.now)) (length (decode_graph graph.now).edges)) × (Outside heads (nexts + 2 * edges) work.old work.new) }
{
    for e in 0..edges {
        let to = edge_target(graph, nodes, e);
        link(work, heads, nexts, to, e);
    }
}

// Links place j to the row that it names, if any.
fn link_place(graph: &[u8], property: &[u8], s: Shape, work: &mut [u8], j: usize)
    requires { (Ready s graph.now property.now) × ((j < 2 * s.rows) × ((judge_room ≤ length work.old) × (Chained work.old row_heads_base row_nexts_base (uses (decode_property property.now)) s.rows j))) }
    ensures { (Chained work.new row_heads_base row_nexts_base (uses (decode_property property.now)) s.rows (j + 1)) × (Outside row_heads_base judge_room work.old work.new) }
{
    let key = row_named(graph, property, s, j);
    if key < s.rows {
        link(work, Shape::ROW_HEADS, Shape::ROW_NEXTS, key, j);
    }
}

// Links every operand to the row that it names.
fn link_places(graph: &[u8], property: &[u8], s: Shape, work: &mut [u8])
    requires { (Ready s graph.now property.now) × ((judge_room ≤ length work.old) × (Chained work.old row_heads_base row_nexts_base (uses (decode_property property.now)) s.rows 0)) }
    ensures { (Chained work.new row_heads_base row_nexts_base (uses (decode_property property.now)) s.rows (2 * s.rows)) × (Outside row_heads_base judge_room work.old work.new) }
{
    for j in 0..2 * s.rows {
        link_place(graph, property, s, work, j);
    }
}

// Builds both chains, whatever the buffer held.
pub(crate) fn index(graph: &[u8], property: &[u8], s: Shape, work: &mut [u8])
    requires { (Ready s graph.now property.now) × (judge_room ≤ length work.old) }
    ensures { Index (decode_graph graph.now) (decode_property property.now) work.new }
{
    clear(&mut work[Shape::NODE_HEADS..Shape::NODE_NEXTS]);
    link_graph(
        graph,
        s.graph.nodes,
        s.graph.edges,
        work,
        Shape::NODE_HEADS,
        Shape::NODE_NEXTS,
    );
    clear(&mut work[Shape::ROW_HEADS..Shape::ROW_NEXTS]);
    link_places(graph, property, s, work);
}
