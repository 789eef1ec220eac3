// The relation at first, and what the search looks up beside it: the second graph's nodes by method and return flag, a row of bits each; the edges of the first graph by
// where they lead to and their label, as chains; the neighbours of each node of the second graph, as rows of bits. `prepare` states that all of it stands in the buffer.
ghost use Rattle.std.specs.Prelude.{◌≡◌, ◌&&◌, ℕ, ◌+◌, ◌*◌, ◌≤◌, ◌<◌, ltb, length, get_or};
ghost use Rattle.files.specs.Access.{GraphFile};
ghost use Rattle.files.specs.Cells.{put_bit};
ghost use Rattle.files.specs.Decode.{decode_graph};
ghost use Rattle.files.specs.Graph.{node};
ghost use Rattle.files.specs.Places.{line_bytes, max_nodes};
ghost use Rattle.files.specs.Refusal.{nodes_of};
ghost use Rattle.judging.specs.Chains.{Chained, Outside};
ghost use Rattle.judging.specs.Places.{compare_room, cursors_base, heads_base, held_base, kinds_base, neighbours_base, neighbours_end, nexts_base};
ghost use Rattle.judging.specs.Refinement.{Both, rel, edge, kind, KindRows, labelled_into, Neighbours, Refining};
ghost use Rattle.judging.specs.Simulation.{alike};

use crate::chains::link;
use crate::rows::{put_row, row_at};
use crate::sizes::Sizes;
use files::cells::{clear, put_bit};
use files::encode::LINE;
use files::graph::{edge_at, node_at};

// The kind of a node: twice its method, and one more where it returns.
fn kind_of(graph: &[u8], g: usize) -> usize
    requires { (GraphFile graph.now) × (g < nodes_of graph.now) }
    ensures { (result ≡ kind (node (decode_graph graph.now) g)) × (result < 18) }
{
    let v = node_at(graph, g);
    if v.returns {
        return 2 * (v.method as usize) + 1;
    }
    2 * (v.method as usize)
}

// Puts the second graph's nodes into the rows of their kinds.
fn put_kinds(first: &[u8], second: &[u8], s: Sizes, work: &mut [u8])
    requires { (Both s first.now second.now) × ((compare_room ≤ length work.old) × ((q : ℕ) → kinds_base ≤ q → q < heads_base → get_or work.old q 0 ≡ 0)) }
    ensures { (KindRows (decode_graph second.now) s.second.nodes work.new) × (Outside kinds_base heads_base work.old work.new) }
{
    for h in 0..s.second.nodes {
        let k = kind_of(second, h);
        put_bit(work, Sizes::KINDS + LINE * k, h);
    }
}

// Relates every node of the first graph to all of its kind.
fn relate(first: &[u8], second: &[u8], s: Sizes, work: &mut [u8])
    requires { (Both s first.now second.now) × ((compare_room ≤ length work.old) × (KindRows (decode_graph second.now) s.second.nodes work.old)) }
    ensures { ((g h : ℕ) → g < s.first.nodes → h < max_nodes → rel work.new g h ≡ (ltb h s.second.nodes && alike (node (decode_graph first.now) g) (node (decode_graph second.now) h))) × (Outside 0 held_base work.old work.new) }
{
    for g in 0..s.first.nodes {
        let k = kind_of(first, g);
        let row = row_at(work, Sizes::KINDS + LINE * k);
        put_row(work, LINE * g, &row);
    }
}

// The slot of edge e of the first graph: nine times the node it leads to, and its label.
fn slot_of(first: &[u8], second: &[u8], s: Sizes, e: usize) -> usize
    requires { (Both s first.now second.now) × (e < s.first.edges) }
    ensures { result ≡ 9 * (edge (decode_graph first.now) e).to + (edge (decode_graph first.now) e).label }
{
    let x = edge_at(first, s.first.nodes, e);
    9 * x.to + (x.label as usize)
}

// Links every edge of the first graph to its slot.
fn link_slots(first: &[u8], second: &[u8], s: Sizes, work: &mut [u8])
    requires { (Both s first.now second.now) × ((compare_room ≤ length work.old) × ((q : ℕ) → heads_base ≤ q → q < nexts_base → get_or work.old q 0 ≡ 0)) }
    ensures { (Chained work.new heads_base nexts_base (labelled_into (decode_graph first.now)) (9 * s.first.nodes) s.first.edges) × (Outside heads_base cursors_base work.old work.new) }
{
    for e in 0..s.first.edges {
        let slot = slot_of(first, second, s, e);
        link(work, Sizes::HEADS, Sizes::NEXTS, slot, e);
    }
}

// Puts edge j of the second graph into the successors of where it comes from and the predecessors of where it leads to.
fn put_edge(first: &[u8], second: &[u8], s: Sizes, work: &mut [u8], j: usize)
    requires { (Both s first.now second.now) × ((j < s.second.edges) × (compare_room ≤ length work.old)) }
    ensures { work.new ≡ put_bit (put_bit work.old (neighbours_base + line_bytes * (10 * (edge (decode_graph second.now) j).from + (edge (decode_graph second.now) j).label)) (edge (decode_graph second.now) j).to) (neighbours_base + line_bytes * (10 * (edge (decode_graph second.now) j).to + 9)) (edge (decode_graph second.now) j).from }
{
    let x = edge_at(second, s.second.nodes, j);
    let label = x.label as usize;
    put_bit(
        work,
        Sizes::NEIGHBOURS + LINE * (Sizes::ROWS * x.from + label),
        x.to,
    );
    put_bit(
        work,
        Sizes::NEIGHBOURS + LINE * (Sizes::ROWS * x.to + Sizes::BEFORE),
        x.from,
    );
}

// Puts all edges of the second graph.
fn put_edges(first: &[u8], second: &[u8], s: Sizes, work: &mut [u8])
    requires { (Both s first.now second.now) × ((compare_room ≤ length work.old) × ((q : ℕ) → neighbours_base ≤ q → q < neighbours_base + 320 * s.second.nodes → get_or work.old q 0 ≡ 0)) }
    ensures { (Neighbours (decode_graph second.now) s.second.nodes work.new) × (Outside neighbours_base neighbours_end work.old work.new) }
{
    for j in 0..s.second.edges {
        put_edge(first, second, s, work, j);
    }
}

// All that the search starts from, whatever the buffer held.
pub(crate) fn prepare(first: &[u8], second: &[u8], s: Sizes, work: &mut [u8])
    requires { (Both s first.now second.now) × (compare_room ≤ length work.old) }
    ensures { Refining (decode_graph first.now) (decode_graph second.now) work.new }
{
    clear(&mut work[Sizes::KINDS..Sizes::NEIGHBOURS + Sizes::ROWS * LINE * s.second.nodes]);
    put_kinds(first, second, s, work);
    link_slots(first, second, s, work);
    put_edges(first, second, s, work);
    relate(first, second, s, work);
}
