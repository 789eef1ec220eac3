// The largest simulation: every node holds the whole second graph at first, and what lacks a label is dropped; then, until no row has lost anything since it was last taken,
// what it has lost is handed on. The order in which rows are taken changes no result. `refine` states that at the end the relation is the largest simulation.
ghost use Rattle.std.specs.Prelude.{◌≡◌, not, ℕ, ◌≤◌, ◌<◌, T, MatchOption, ltb, length};
ghost use Rattle.files.specs.Decode.{decode_graph};
ghost use Rattle.files.specs.Cells.{has_bit};
ghost use Rattle.files.specs.Places.{max_nodes, line_bytes};
ghost use Rattle.judging.specs.Chains.{Outside};
ghost use Rattle.judging.specs.Places.{compare_room, held_base, kinds_base};
ghost use Rattle.judging.specs.Refinement.{Both, rel, held, load, Lacking, Refining, Shrank, Leading, NodeMatched, Took, Matching, Settled};

use crate::matches::{drop_from, hand_on};
use crate::order::put_in_order;
use crate::relation::prepare;
use crate::rows::{any_at, exceeds, put_row, row_at};
use crate::sizes::Sizes;
use files::cells::{get, put_bit};
use files::encode::LINE;

// Takes the row of node v: hands on what it has lost, and holds it.
fn take(first: &[u8], second: &[u8], s: Sizes, work: &mut [u8], v: usize)
    requires { (Both s first.now second.now) × ((v < s.first.nodes) × ((Refining (decode_graph first.now) (decode_graph second.now) work.old) × (NodeMatched (decode_graph first.now) (decode_graph second.now) work.old v))) }
    ensures { Took (decode_graph first.now) (decode_graph second.now) v work.old work.new }
{
    let row = row_at(work, LINE * v);
    hand_on(first, second, s, work, v, &row);
    put_row(work, Sizes::HELD + LINE * v, &row);
}

// The nodes of the second graph without an edge of this label.
fn lacking(s: Sizes, work: &[u8], label: usize) -> [u8; LINE]
    requires { (compare_room ≤ length work.now) × ((s.second.nodes ≤ max_nodes) × (label < 9)) }
    ensures { (length result ≡ line_bytes) × (Lacking work.now label s.second.nodes result) }
{
    let mut row = [0u8; LINE];
    for x in 0..s.second.nodes {
        if !any_at(work, Sizes::NEIGHBOURS + LINE * (Sizes::ROWS * x + label)) {
            put_bit(&mut row, 0, x);
        }
    }
    row
}

// Drops the nodes without an edge of this label from the rows of all nodes with one.
fn drop_lacking_by(first: &[u8], second: &[u8], s: Sizes, work: &mut [u8], label: usize)
    requires { (Both s first.now second.now) × ((label < 9) × (Refining (decode_graph first.now) (decode_graph second.now) work.old)) }
    ensures { (Shrank (decode_graph first.now) (decode_graph second.now) work.old work.new) × (Leading (decode_graph first.now) (decode_graph second.now) work.new label) }
{
    let gone = lacking(s, work, label);
    for v in 0..s.first.nodes {
        drop_from(first, second, s, work, 9 * v + label, &gone);
    }
}

// The same for every label: what is left is matched somewhere in the second graph.
fn drop_lacking(first: &[u8], second: &[u8], s: Sizes, work: &mut [u8])
    requires { (Both s first.now second.now) × (Refining (decode_graph first.now) (decode_graph second.now) work.old) }
    ensures { (Shrank (decode_graph first.now) (decode_graph second.now) work.old work.new) × ((l : ℕ) → l < 9 → Leading (decode_graph first.now) (decode_graph second.now) work.new l) }
{
    for label in 0..9 {
        drop_lacking_by(first, second, s, work, label);
    }
}

// The row of all nodes of the second graph.
fn everything(s: Sizes) -> [u8; LINE]
    requires { s.second.nodes ≤ max_nodes }
    ensures { (length result ≡ line_bytes) × ((h : ℕ) → h < max_nodes → has_bit result 0 h ≡ ltb h s.second.nodes) }
{
    let mut row = [0u8; LINE];
    for x in 0..s.second.nodes {
        put_bit(&mut row, 0, x);
    }
    row
}

// Holds all nodes of the second graph for every node of the first.
fn hold_everything(first: &[u8], second: &[u8], s: Sizes, work: &mut [u8])
    requires { (Both s first.now second.now) × (compare_room ≤ length work.old) }
    ensures { ((v h : ℕ) → v < s.first.nodes → h < max_nodes → held work.new v h ≡ ltb h s.second.nodes) × (Outside held_base kinds_base work.old work.new) }
{
    let row = everything(s);
    for v in 0..s.first.nodes {
        put_row(work, Sizes::HELD + LINE * v, &row);
    }
}

// Whether node v has lost anything since its row was last taken.
fn has_lost(first: &[u8], second: &[u8], s: Sizes, work: &[u8], v: usize) -> bool
    requires { (Both s first.now second.now) × ((v < s.first.nodes) × (compare_room ≤ length work.now)) }
    ensures { (T result → (h : ℕ) × (h < max_nodes) × T (held work.now v h) × (T (rel work.now v h) → ⊥)) × (T (not result) → (h : ℕ) → h < max_nodes → T (held work.now v h) → T (rel work.now v h)) }
{
    exceeds(work, Sizes::HELD + LINE * v, LINE * v)
}

// Takes the row of node v until it has lost nothing, not even by an edge to itself.
fn settle_node(first: &[u8], second: &[u8], s: Sizes, work: &mut [u8], v: usize)
    requires { (Both s first.now second.now) × ((v < s.first.nodes) × (Matching (decode_graph first.now) (decode_graph second.now) s.first.nodes work.old)) }
    ensures { (Matching (decode_graph first.now) (decode_graph second.now) s.first.nodes work.new) × (load s.first.nodes work.new ≤ load s.first.nodes work.old) }
{
    // Until nothing is lost: how often is known only by the measure.
    while has_lost(first, second, s, work, v) {
        take(first, second, s, work, v);
    }
}

// Settles the nodes in the order in which the walk left them.
fn sweep(first: &[u8], second: &[u8], s: Sizes, work: &mut [u8])
    requires { (Both s first.now second.now) × (Matching (decode_graph first.now) (decode_graph second.now) s.first.nodes work.old) }
    ensures { (Matching (decode_graph first.now) (decode_graph second.now) s.first.nodes work.new) × (load s.first.nodes work.new ≤ load s.first.nodes work.old) }
{
    for i in 0..s.first.nodes {
        let v = get::<u8>(work, Sizes::ORDER, i) as usize;
        if v < s.first.nodes {
            settle_node(first, second, s, work, v);
        }
    }
}

// The lowest node that has lost anything, if there is one.
fn lowest_unsettled(first: &[u8], second: &[u8], s: Sizes, work: &[u8]) -> Option<usize>
    requires { (Both s first.now second.now) × (compare_room ≤ length work.now) }
    ensures { MatchOption result ((v h : ℕ) → v < s.first.nodes → h < max_nodes → T (held work.now v h) → T (rel work.now v h)) (λ v. (v < s.first.nodes) × ((h : ℕ) × (h < max_nodes) × T (held work.now v h) × (T (rel work.now v h) → ⊥))) }
{
    for v in 0..s.first.nodes {
        if has_lost(first, second, s, work, v) {
            return Some(v);
        }
    }
    None
}

// Takes rows until none has lost anything: sweep by sweep, and after each the lowest that is left.
fn settle(first: &[u8], second: &[u8], s: Sizes, work: &mut [u8])
    requires { (Both s first.now second.now) × (Matching (decode_graph first.now) (decode_graph second.now) s.first.nodes work.old) }
    ensures { Settled (decode_graph first.now) (decode_graph second.now) work.new }
{
    sweep(first, second, s, work);
    // Until nothing is lost: how often is known only by the measure.
    while let Some(v) = lowest_unsettled(first, second, s, work) {
        take(first, second, s, work, v);
        sweep(first, second, s, work);
    }
}

// The largest simulation, whatever the buffer held.
pub(crate) fn refine(first: &[u8], second: &[u8], s: Sizes, work: &mut [u8])
    requires { (Both s first.now second.now) × (compare_room ≤ length work.old) }
    ensures { Settled (decode_graph first.now) (decode_graph second.now) work.new }
{
    prepare(first, second, s, work);
    put_in_order(first, second, s, work);
    hold_everything(first, second, s, work);
    drop_lacking(first, second, s, work);
    settle(first, second, s, work);
}
