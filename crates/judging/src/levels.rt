// Levels on lent bytes: what is false by itself has rank 1; each next level pops the pairs of the level before from a queue and gives the next rank to what
// turns false with them. `levels` states that all ranks are found. One level is one call of `level`.
ghost use Rattle.std.specs.Prelude.{◌≡◌, not, ◌&&◌, ℕ, suc, ◌+◌, ◌*◌, ◌≤◌, ◌<◌, T, leb, length, get_or};
ghost use Rattle.files.specs.Access.{PropertyFile, row_held, aims_along, operator_of, first_of};
ghost use Rattle.files.specs.Graph.{no_edge};
ghost use Rattle.files.specs.Property.{row};
ghost use Rattle.files.specs.Record.{count};
ghost use Rattle.files.specs.Decode.{decode_graph, decode_property};
ghost use Rattle.judging.specs.Chains.{into};
ghost use Rattle.judging.specs.Levels.{level};
ghost use Rattle.judging.specs.Places.{judge_room, max_pairs};
ghost use Rattle.judging.specs.Ranking.{Ready, pair, rank_at, Given, given, tail_after, Finding, Grew, RowDone, Done, Found, Ranked, Names, leaf_false, may_fall};

use crate::shape::Shape;
use files::cells::{get, put};
use files::graph::{edge_at, node_at};
use files::property::{PropertyRow, row_at};

// Gives pair (g, r) rank k + 1 and puts it at the queue's end, unless it has a rank. The queue's end after it.
fn give(work: &mut [u8], tail: usize, g: usize, r: usize, k: u16) -> usize
    requires { (pair g r < max_pairs) × ((rank_at work.old g r ≡ 0 → tail < max_pairs) × ((judge_room ≤ length work.old) × (k ≤ max_pairs))) }
    ensures { (result ≡ tail_after work.old tail g r) × (work.new ≡ given work.old tail g r k) }
{
    let p = Shape::STRIDE * g + r;
    if get::<u16>(work, 0, p) == 0 {
        put(work, 0, p, k + 1);
        put(work, Shape::QUEUE, tail, p as u16);
        return tail + 1;
    }
    tail
}

// Whether pair (g, r) is false at level k, by its rank.
fn is_false(work: &[u8], g: usize, r: usize, k: u16) -> bool
    requires { (pair g r < max_pairs) × (judge_room ≤ length work.now) }
    ensures { result ≡ (leb 1 (rank_at work.now g r) && leb (rank_at work.now g r) k) }
{
    let x = get::<u16>(work, 0, Shape::STRIDE * g + r);
    (1 <= x) & (x <= k)
}

// ---- level 1

// Whether row x is false by itself of a node, by the node's method and its return flag: it names no row, and what it says of the node is not so.
fn leaf_false(x: PropertyRow, method: u8, returns: bool) -> bool
    ensures { result ≡ leaf_false (operator_of x) (first_of x) method returns }
{
    match x {
        PropertyRow::False => true,
        PropertyRow::InMethod(a) => method != a,
        PropertyRow::NotInMethod(a) => method == a,
        PropertyRow::Returns => !returns,
        PropertyRow::NotReturns => returns,
        PropertyRow::True
        | PropertyRow::And(..)
        | PropertyRow::Or(..)
        | PropertyRow::Box { .. }
        | PropertyRow::BoxAll(_) => false,
    }
}

// Whether row r is false at node g by itself, which is at level 1.
fn falls_alone(graph: &[u8], property: &[u8], s: Shape, g: usize, r: usize) -> bool
    requires { (Ready s graph.now property.now) × ((g < s.graph.nodes) × (r < s.rows)) }
    ensures { result ≡ not (level (decode_graph graph.now) (decode_property property.now) 1 g r) }
{
    let v = node_at(graph, g);
    leaf_false(row_at(property, r), v.method, v.returns)
}

// Gives rank 1 to row r at node g if it is false by itself.
fn start_pair(
    graph: &[u8],
    property: &[u8],
    s: Shape,
    work: &mut [u8],
    tail: usize,
    g: usize,
    r: usize,
) -> usize
    requires { (Ready s graph.now property.now) × ((g < s.graph.nodes) × ((r < s.rows) × (Finding (decode_graph graph.now) (decode_property property.now) 0 tail work.old))) }
    ensures { (Grew (decode_graph graph.now) (decode_property property.now) 0 tail result work.old work.new) × (T (not (level (decode_graph graph.now) (decode_property property.now) 1 g r)) → Given work.new g r) }
{
    if falls_alone(graph, property, s, g, r) {
        return give(work, tail, g, r, 0);
    }
    tail
}

// Whether row r may be false by itself: it names no row, and is not "true".
fn may_fall(property: &[u8], r: usize) -> bool
    requires { (PropertyFile property.now) × (r < count property.now) }
    ensures { result ≡ may_fall (operator_of (row_held (row (decode_property property.now) r))) }
{
    match row_at(property, r) {
        PropertyRow::False
        | PropertyRow::InMethod(_)
        | PropertyRow::NotInMethod(_)
        | PropertyRow::Returns
        | PropertyRow::NotReturns => true,
        PropertyRow::True
        | PropertyRow::And(..)
        | PropertyRow::Or(..)
        | PropertyRow::Box { .. }
        | PropertyRow::BoxAll(_) => false,
    }
}

// Gives rank 1 to row r at each node where it is false by itself.
fn start_row(
    graph: &[u8],
    property: &[u8],
    s: Shape,
    work: &mut [u8],
    tail: usize,
    r: usize,
) -> usize
    requires { (Ready s graph.now property.now) × ((r < s.rows) × (Finding (decode_graph graph.now) (decode_property property.now) 0 tail work.old)) }
    ensures { (Grew (decode_graph graph.now) (decode_property property.now) 0 tail result work.old work.new) × ((g : ℕ) → g < s.graph.nodes → T (not (level (decode_graph graph.now) (decode_property property.now) 1 g r)) → Given work.new g r) }
{
    if !may_fall(property, r) {
        return tail;
    }
    let mut end = tail;
    for g in 0..s.graph.nodes {
        end = start_pair(graph, property, s, work, end, g, r);
    }
    end
}

// Level 1, where no pair has a rank yet. The queue's end.
pub(crate) fn start(graph: &[u8], property: &[u8], s: Shape, work: &mut [u8]) -> usize
    requires { (Ready s graph.now property.now) × (Finding (decode_graph graph.now) (decode_property property.now) 0 0 work.old) }
    ensures { Found (decode_graph graph.now) (decode_property property.now) 1 0 result work.new }
{
    let mut end = 0;
    for r in 0..s.rows {
        end = start_row(graph, property, s, work, end, r);
    }
    end
}

// ---- the next level

// Gives the next rank to row q, read as x, at the node that edge e comes from, if the row looks along the edge.
fn arrive(
    graph: &[u8],
    property: &[u8],
    s: Shape,
    work: &mut [u8],
    tail: usize,
    e: usize,
    x: PropertyRow,
    q: usize,
    k: u16,
) -> usize
    requires { (Ready s graph.now property.now) × ((e < s.graph.edges) × ((q < s.rows) × ((Finding (decode_graph graph.now) (decode_property property.now) k tail work.old) × (T (aims_along x (get_or (decode_graph graph.now).edges e no_edge).label) → T (not (level (decode_graph graph.now) (decode_property property.now) (suc k) (get_or (decode_graph graph.now).edges e no_edge).from q)))))) }
    ensures { (Grew (decode_graph graph.now) (decode_property property.now) k tail result work.old work.new) × (T (aims_along x (get_or (decode_graph graph.now).edges e no_edge).label) → Given work.new (get_or (decode_graph graph.now).edges e no_edge).from q) }
{
    let edge = edge_at(graph, s.graph.nodes, e);
    if x.obliged(edge.label).is_some() {
        return give(work, tail, edge.from, q, k);
    }
    tail
}

// Gives the next rank to box row q, read as x, wherever an edge that it looks along leads to node v.
fn boxes(
    graph: &[u8],
    property: &[u8],
    s: Shape,
    work: &mut [u8],
    tail: usize,
    v: usize,
    x: PropertyRow,
    q: usize,
    k: u16,
) -> usize
    requires { (Ready s graph.now property.now) × ((v < s.graph.nodes) × ((q < s.rows) × ((Finding (decode_graph graph.now) (decode_property property.now) k tail work.old) × ((e : ℕ) → e < s.graph.edges → T (into (decode_graph graph.now) v e) → T (aims_along x (get_or (decode_graph graph.now).edges e no_edge).label) → T (not (level (decode_graph graph.now) (decode_property property.now) (suc k) (get_or (decode_graph graph.now).edges e no_edge).from q)))))) }
    ensures { (Grew (decode_graph graph.now) (decode_property property.now) k tail result work.old work.new) × ((e : ℕ) → e < s.graph.edges → T (into (decode_graph graph.now) v e) → T (aims_along x (get_or (decode_graph graph.now).edges e no_edge).label) → Given work.new (get_or (decode_graph graph.now).edges e no_edge).from q) }
{
    let mut at = get::<u16>(work, Shape::NODE_HEADS, v) as usize;
    let mut end = tail;
    // The body writes to `work`, which an iterator over the chain would hold, so the next link is read by hand.
    while at > 0 {
        let e = at - 1;
        end = arrive(graph, property, s, work, end, e, x, q, k);
        at = get::<u16>(work, Shape::NODE_NEXTS, e) as usize;
    }
    end
}

// Gives the next rank to what turns false of row q with pair (v, r), which the row names and which is false at level k.
fn row_on(
    graph: &[u8],
    property: &[u8],
    s: Shape,
    work: &mut [u8],
    tail: usize,
    v: usize,
    r: usize,
    q: usize,
    k: u16,
) -> usize
    requires { (Ready s graph.now property.now) × ((v < s.graph.nodes) × ((r < s.rows) × ((q < s.rows) × ((Finding (decode_graph graph.now) (decode_property property.now) k tail work.old) × ((T (not (level (decode_graph graph.now) (decode_property property.now) k v r))) × (Names (row (decode_property property.now) q) r)))))) }
    ensures { (Grew (decode_graph graph.now) (decode_property property.now) k tail result work.old work.new) × (RowDone (decode_graph graph.now) (decode_property property.now) k work.new v r q) }
{
    let x = row_at(property, q);
    match x {
        PropertyRow::Box { .. } | PropertyRow::BoxAll(_) => {
            boxes(graph, property, s, work, tail, v, x, q, k)
        }
        PropertyRow::And(..) => give(work, tail, v, q, k),
        PropertyRow::Or(a, b)
            if is_false(work, v, a as usize, k) & is_false(work, v, b as usize, k) => {
            give(work, tail, v, q, k)
        }
        _ => tail,
    }
}

// Gives the next rank to all that turns false with pair (v, r).
fn pop(
    graph: &[u8],
    property: &[u8],
    s: Shape,
    work: &mut [u8],
    tail: usize,
    v: usize,
    r: usize,
    k: u16,
) -> usize
    requires { (Ready s graph.now property.now) × ((v < s.graph.nodes) × ((r < s.rows) × ((Finding (decode_graph graph.now) (decode_property property.now) k tail work.old) × (T (not (level (decode_graph graph.now) (decode_property property.now) k v r)))))) }
    ensures { (Grew (decode_graph graph.now) (decode_property property.now) k tail result work.old work.new) × (Done (decode_graph graph.now) (decode_property property.now) k work.new v r) }
{
    let mut at = get::<u16>(work, Shape::ROW_HEADS, r) as usize;
    let mut end = tail;
    // The body writes to `work`, which an iterator over the chain would hold, so the next link is read by hand.
    while at > 0 {
        let j = at - 1;
        end = row_on(graph, property, s, work, end, v, r, j / 2, k);
        at = get::<u16>(work, Shape::ROW_NEXTS, j) as usize;
    }
    end
}

// One level: pops the pairs of rank k, which stand in the queue from `head` up to `tail`, and gives rank k + 1 to all that turns false with them. The queue's end.
pub(crate) fn level(
    graph: &[u8],
    property: &[u8],
    s: Shape,
    work: &mut [u8],
    head: usize,
    tail: usize,
    k: u16,
) -> usize
    requires { (Ready s graph.now property.now) × ((Found (decode_graph graph.now) (decode_property property.now) k head tail work.old) × ((head < tail) × (1 ≤ k))) }
    ensures { Found (decode_graph graph.now) (decode_property property.now) (suc k) tail result work.new }
{
    let mut end = tail;
    for i in head..tail {
        let p = get::<u16>(work, Shape::QUEUE, i) as usize;
        let v = p / Shape::STRIDE;
        let r = p % Shape::STRIDE;
        end = pop(graph, property, s, work, end, v, r, k);
    }
    end
}

// All levels, from level 1 on.
pub(crate) fn levels(graph: &[u8], property: &[u8], s: Shape, work: &mut [u8], first: usize)
    requires { (Ready s graph.now property.now) × (Found (decode_graph graph.now) (decode_property property.now) 1 0 first work.old) }
    ensures { Ranked (decode_graph graph.now) (decode_property property.now) work.new }
{
    let mut head = 0;
    let mut tail = first;
    let mut k = 1;
    // Each level sets where the next one begins and ends, until one is empty.
    while head < tail {
        let end = level(graph, property, s, work, head, tail, k);
        head = tail;
        tail = end;
        k += 1;
    }
}
