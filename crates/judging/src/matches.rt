// What a row of the relation hands on. Node v of the first graph has a row; an edge into v with some label is matched, for a node x, where an edge of x with that label leads
// into the row. `hand_on` states that all edges into v are matched by the row once it is handed on: nodes that may have lost their match are found, those that have another are
// sifted out, the rest is dropped.
ghost use Rattle.std.specs.Prelude.{◌≡◌, ℕ, ◌+◌, ◌*◌, ◌-◌, ◌≤◌, ◌<◌, T, length, replicate};
ghost use Rattle.files.specs.Access.{GraphFile};
ghost use Rattle.files.specs.Cells.{has_bit};
ghost use Rattle.files.specs.Decode.{decode_graph};
ghost use Rattle.files.specs.Places.{line_bytes, max_nodes};
ghost use Rattle.files.specs.Record.{count};
ghost use Rattle.files.specs.Refusal.{nodes_of};
ghost use Rattle.judging.specs.Places.{compare_room};
ghost use Rattle.judging.specs.Refinement.{Both, rel, edge, labelled_into, Within, Preceded, Preceding, Asked, Sifted, LostMet, Contained, Refining, Shrank, NodeMatched, LabelMatched};
ghost use Rattle.judging.specs.Simulation.{related};

use crate::rows::{any_at, common, drop_row, meets, row_at, row_with, row_without, size_of_row};
use crate::sizes::Sizes;
use files::cells::{get, put_bit};
use files::encode::LINE;
use files::graph::edge_at;

// The node that edge e comes from.
pub(crate) fn source_of(graph: &[u8], nodes: usize, e: usize) -> usize
    requires { (GraphFile graph.now) × ((nodes ≡ nodes_of graph.now) × (e < count graph.now - nodes)) }
    ensures { result ≡ (edge (decode_graph graph.now) e).from }
{
    let x = edge_at(graph, nodes, e);
    x.from
}

// All that the sources of a slot's edges are related to.
fn related_to_sources(first: &[u8], second: &[u8], s: Sizes, work: &[u8], slot: usize) -> [u8; LINE]
    requires { (Both s first.now second.now) × ((slot < 9 * s.first.nodes) × (Refining (decode_graph first.now) (decode_graph second.now) work.now)) }
    ensures { (length result ≡ line_bytes) × ((Within s.second.nodes result) × ((e h : ℕ) → e < s.first.edges → T (labelled_into (decode_graph first.now) slot e) → h < max_nodes → T (rel work.now (edge (decode_graph first.now) e).from h) → T (has_bit result 0 h))) }
{
    let mut found = [0u8; LINE];
    let mut at = get::<u16>(work, Sizes::HEADS, slot) as usize;
    // A chain's links are read as they are walked; an iterator of our own with its laws would be no plainer than this line.
    while at > 0 {
        let e = at - 1;
        let u = source_of(first, s.first.nodes, e);
        found = row_with(&found, work, LINE * u);
        at = get::<u16>(work, Sizes::NEXTS, e) as usize;
    }
    found
}

// A row together with the predecessors of those nodes of another that stand in its word k.
fn with_predecessors(work: &[u8], nodes: &[u8], row: &[u8], k: usize) -> [u8; LINE]
    requires { ((32 ≤ length nodes.now) × (32 ≤ length row.now)) × ((compare_room ≤ length work.now) × (k < 8)) }
    ensures { (length result ≡ line_bytes) × (Preceded work.now nodes.now row.now result (32 * k) (32 * k + 32)) }
{
    let mut met = row_at(row, 0);
    let mut rest = get::<u32>(nodes, 0, k);
    // Bits are taken until none is left: their number is known only when they are, and an iterator of our own would be no plainer.
    while rest != 0 {
        let h = 32 * k + (u32::trailing_zeros(rest) as usize);
        let at = Sizes::NEIGHBOURS + LINE * (Sizes::ROWS * h + Sizes::BEFORE);
        met = row_with(&met, work, at);
        rest = rest & (rest - 1);
    }
    met
}

// The predecessors of all nodes of a row.
fn predecessors(work: &[u8], nodes: &[u8]) -> [u8; LINE]
    requires { (32 ≤ length nodes.now) × (compare_room ≤ length work.now) }
    ensures { (length result ≡ line_bytes) × (Preceded work.now nodes.now (replicate line_bytes 0) result 0 256) }
{
    let mut met = [0u8; LINE];
    for k in 0..8 {
        met = with_predecessors(work, nodes, &met, k);
    }
    met
}

// A row that has every node with an edge into this one: its predecessors, or, where it has more nodes than were lost, all nodes. Either is right: the smaller part is less work.
fn nodes_near(
    first: &[u8],
    second: &[u8],
    s: Sizes,
    work: &[u8],
    row: &[u8],
    lost: &[u8],
) -> [u8; LINE]
    requires { ((32 ≤ length row.now) × (32 ≤ length lost.now)) × ((Both s first.now second.now) × (Refining (decode_graph first.now) (decode_graph second.now) work.now)) }
    ensures { (length result ≡ line_bytes) × (Preceding (decode_graph second.now) row.now result) }
{
    if size_of_row(lost) < size_of_row(row) {
        return [255u8; LINE];
    }
    predecessors(work, row)
}

// Adds node x, unless an edge of it with this label leads into the row.
fn sift_at(work: &[u8], label: usize, row: &[u8], gone: &mut [u8], x: usize)
    requires { ((32 ≤ length row.now) × (32 ≤ length gone.old)) × ((compare_room ≤ length work.now) × ((label < 9) × (x < max_nodes))) }
    ensures { Asked work.now label row.now gone.old gone.new x }
{
    if !meets(
        row,
        work,
        Sizes::NEIGHBOURS + LINE * (Sizes::ROWS * x + label),
    ) {
        put_bit(gone, 0, x);
    }
}

// The same for those nodes found that stand in word k of their row.
fn sift_word(work: &[u8], label: usize, row: &[u8], found: &[u8], gone: &mut [u8], k: usize)
    requires { ((32 ≤ length row.now) × ((32 ≤ length found.now) × (32 ≤ length gone.old))) × ((compare_room ≤ length work.now) × ((label < 9) × (k < 8))) }
    ensures { Sifted work.now label row.now found.now gone.old gone.new (32 * k) (32 * k + 32) }
{
    let mut rest = get::<u32>(found, 0, k);
    // Bits are taken until none is left: their number is known only when they are, and an iterator of our own would be no plainer.
    while rest != 0 {
        let x = 32 * k + (u32::trailing_zeros(rest) as usize);
        sift_at(work, label, row, gone, x);
        rest = rest & (rest - 1);
    }
}

// The same for all nodes found.
fn sift(work: &[u8], label: usize, row: &[u8], found: &[u8], gone: &mut [u8])
    requires { ((32 ≤ length row.now) × ((32 ≤ length found.now) × (32 ≤ length gone.old))) × ((compare_room ≤ length work.now) × (label < 9)) }
    ensures { Sifted work.now label row.now found.now gone.old gone.new 0 256 }
{
    for k in 0..8 {
        sift_word(work, label, row, found, gone, k);
    }
}

// Drops a row from what the sources of a slot's edges are related to.
pub(crate) fn drop_from(
    first: &[u8],
    second: &[u8],
    s: Sizes,
    work: &mut [u8],
    slot: usize,
    gone: &[u8],
)
    requires { (32 ≤ length gone.now) × ((Both s first.now second.now) × ((slot < 9 * s.first.nodes) × ((Refining (decode_graph first.now) (decode_graph second.now) work.old) × ((e h : ℕ) → e < s.first.edges → T (labelled_into (decode_graph first.now) slot e) → h < max_nodes → T (has_bit gone.now 0 h) → T (related (decode_graph first.now) (decode_graph second.now) (edge (decode_graph first.now) e).from h) → ⊥)))) }
    ensures { (Shrank (decode_graph first.now) (decode_graph second.now) work.old work.new) × ((e h : ℕ) → e < s.first.edges → T (labelled_into (decode_graph first.now) slot e) → h < max_nodes → T (rel work.new (edge (decode_graph first.now) e).from h) → T (has_bit gone.now 0 h) → ⊥) }
{
    let mut at = get::<u16>(work, Sizes::HEADS, slot) as usize;
    // The body writes to `work`, which an iterator over the chain would hold, so the next link is read by hand.
    while at > 0 {
        let e = at - 1;
        let u = source_of(first, s.first.nodes, e);
        drop_row(work, LINE * u, gone);
        at = get::<u16>(work, Sizes::NEXTS, e) as usize;
    }
}

// Hands on the row of node v by one label: what the sources are related to may have lost its match where it has an edge into what v has lost. Nodes that are not near have no
// edge into the row; the others are asked.
fn hand_on_by(
    first: &[u8],
    second: &[u8],
    s: Sizes,
    work: &mut [u8],
    v: usize,
    label: usize,
    row: &[u8],
    met: &[u8],
    near: &[u8],
)
    requires { ((32 ≤ length row.now) × ((32 ≤ length met.now) × (32 ≤ length near.now))) × ((Both s first.now second.now) × ((v < s.first.nodes) × ((label < 9) × ((Refining (decode_graph first.now) (decode_graph second.now) work.old) × ((((NodeMatched (decode_graph first.now) (decode_graph second.now) work.old v) × (LostMet (decode_graph second.now) work.old v row.now met.now)) × (Preceding (decode_graph second.now) row.now near.now)) × (Contained (decode_graph first.now) (decode_graph second.now) v row.now)))))) }
    ensures { (Shrank (decode_graph first.now) (decode_graph second.now) work.old work.new) × (LabelMatched (decode_graph first.now) (decode_graph second.now) work.new v label row.now) }
{
    let slot = 9 * v + label;
    if get::<u16>(work, Sizes::HEADS, slot) == 0 {
        return;
    }
    let related = related_to_sources(first, second, s, work, slot);
    let found = common(&related, met);
    let mut gone = row_without(&found, 0, near);
    let asked = common(&found, near);
    sift(work, label, row, &asked, &mut gone);
    if !any_at(&gone, 0) {
        return;
    }
    drop_from(first, second, s, work, slot, &gone);
}

// Hands on the row of node v by every label.
pub(crate) fn hand_on(first: &[u8], second: &[u8], s: Sizes, work: &mut [u8], v: usize, row: &[u8])
    requires { (32 ≤ length row.now) × ((Both s first.now second.now) × ((v < s.first.nodes) × ((Refining (decode_graph first.now) (decode_graph second.now) work.old) × ((NodeMatched (decode_graph first.now) (decode_graph second.now) work.old v) × (Contained (decode_graph first.now) (decode_graph second.now) v row.now))))) }
    ensures { (Shrank (decode_graph first.now) (decode_graph second.now) work.old work.new) × ((l : ℕ) → l < 9 → LabelMatched (decode_graph first.now) (decode_graph second.now) work.new v l row.now) }
{
    let lost = row_without(work, Sizes::HELD + LINE * v, row);
    let met = predecessors(work, &lost);
    let near = nodes_near(first, second, s, work, row, &lost);
    for label in 0..9 {
        hand_on_by(first, second, s, work, v, label, row, &met, &near);
    }
}
