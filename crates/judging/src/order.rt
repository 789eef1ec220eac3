// The first graph's nodes in the order in which a walk in depth leaves them: a node comes after its successors wherever there is no cycle, so that what rows lose is handed on
// in few and large parts. What is proved of it is that it touches its own part of the buffer only: the search is right in every order, and ends in every order.
ghost use Rattle.std.specs.ControlFlow.{MatchControlFlow};
ghost use Rattle.std.specs.Prelude.{◌≤◌, ◌<◌, length, ⊤};
ghost use Rattle.judging.specs.Chains.{Outside};
ghost use Rattle.judging.specs.Places.{compare_room, cursors_base, neighbours_base};
ghost use Rattle.judging.specs.Refinement.{Both};

use crate::matches::source_of;
use crate::sizes::Sizes;
use files::cells::{get, has_bit, put, put_bit};
use files::graph::edge_at;
use std::ops::ControlFlow;

// The node at which the walk stands, and how many nodes it has left.
#[derive(Clone, Copy)]
struct Place {
    node: usize,
    left: usize,
}

// Leaves the node, for the one from which it was met. A root was met from itself: the walk breaks off with the number of nodes left.
fn leave(
    first: &[u8],
    second: &[u8],
    s: Sizes,
    work: &mut [u8],
    w: Place,
) -> ControlFlow<usize, Place>
    requires { (Both s first.now second.now) × ((w.node < s.first.nodes) × (compare_room ≤ length work.old)) }
    ensures { MatchControlFlow result (λ w. w.node < s.first.nodes) (λ left. ⊤) × (Outside cursors_base neighbours_base work.old work.new) }
{
    let at = w.node;
    let left = w.left;
    let up = get::<u8>(work, Sizes::PARENTS, at) as usize;
    if (s.first.nodes <= left) | (s.first.nodes <= up) {
        return ControlFlow::Break(left);
    }
    put(work, Sizes::ORDER, left, at as u8);
    if up == at {
        return ControlFlow::Break(left + 1);
    }
    ControlFlow::Continue(Place {
        node: up,
        left: left + 1,
    })
}

// Goes along the next edge of the node, or leaves it.
fn step(
    first: &[u8],
    second: &[u8],
    s: Sizes,
    work: &mut [u8],
    w: Place,
) -> ControlFlow<usize, Place>
    requires { (Both s first.now second.now) × ((w.node < s.first.nodes) × (compare_room ≤ length work.old)) }
    ensures { MatchControlFlow result (λ w. w.node < s.first.nodes) (λ left. ⊤) × (Outside cursors_base neighbours_base work.old work.new) }
{
    let at = w.node;
    let e = get::<u16>(work, Sizes::CURSORS, at) as usize;
    if s.first.edges <= e {
        return leave(first, second, s, work, w);
    }
    let x = edge_at(first, s.first.nodes, e);
    if x.from != at {
        return leave(first, second, s, work, w);
    }
    put(work, Sizes::CURSORS, at, (e + 1) as u16);
    if has_bit(work, Sizes::SEEN, x.to) {
        return ControlFlow::Continue(w);
    }
    put_bit(work, Sizes::SEEN, x.to);
    put(work, Sizes::PARENTS, x.to, at as u8);
    ControlFlow::Continue(Place {
        node: x.to,
        left: w.left,
    })
}

// Walks until the root is left: each step takes an edge or leaves a node, so there are no more steps than edges and nodes.
fn walk_from(
    first: &[u8],
    second: &[u8],
    s: Sizes,
    work: &mut [u8],
    root: usize,
    left: usize,
) -> usize
    requires { (Both s first.now second.now) × ((root < s.first.nodes) × (compare_room ≤ length work.old)) }
    ensures { Outside cursors_base neighbours_base work.old work.new }
{
    let mut w = Place { node: root, left };
    for _ in 0..s.first.edges + s.first.nodes {
        match step(first, second, s, work, w) {
            ControlFlow::Continue(next) => w = next,
            ControlFlow::Break(left) => return left,
        }
    }
    w.left
}

// Walks from a root that was not met. How many nodes are left by then.
fn visit(first: &[u8], second: &[u8], s: Sizes, work: &mut [u8], root: usize, left: usize) -> usize
    requires { (Both s first.now second.now) × ((root < s.first.nodes) × (compare_room ≤ length work.old)) }
    ensures { Outside cursors_base neighbours_base work.old work.new }
{
    if has_bit(work, Sizes::SEEN, root) {
        return left;
    }
    put_bit(work, Sizes::SEEN, root);
    put(work, Sizes::PARENTS, root, root as u8);
    walk_from(first, second, s, work, root, left)
}

// The first edge of each node is its next one.
fn put_cursors(first: &[u8], second: &[u8], s: Sizes, work: &mut [u8])
    requires { (Both s first.now second.now) × (compare_room ≤ length work.old) }
    ensures { Outside cursors_base neighbours_base work.old work.new }
{
    for e in (0..s.first.edges).rev() {
        let u = source_of(first, s.first.nodes, e);
        put(work, Sizes::CURSORS, u, e as u16);
    }
}

// Walks from every node that was not met.
pub(crate) fn put_in_order(first: &[u8], second: &[u8], s: Sizes, work: &mut [u8])
    requires { (Both s first.now second.now) × (compare_room ≤ length work.old) }
    ensures { Outside cursors_base neighbours_base work.old work.new }
{
    put_cursors(first, second, s, work);
    let mut left = 0;
    for root in 0..s.first.nodes {
        left = visit(first, second, s, work, root, left);
    }
}
