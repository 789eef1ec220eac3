// Why a pair of a node and a row is false, read off the ranks: its rank, the lowest failing entry, and its causes.
ghost use Rattle.files.specs.Access.{looked_at, aims_along};
ghost use Rattle.std.specs.Option.{unwrap_or};
ghost use Rattle.std.specs.Prelude.{◌≡◌, ◌+◌, ◌*◌, ◌≤◌, ◌<◌, IfSome, length, get_or};
ghost use Rattle.files.specs.Basics.First.{first_or};
ghost use Rattle.files.specs.Decode.{decode_graph, decode_property};
ghost use Rattle.judging.specs.Levels.{rank};
ghost use Rattle.judging.specs.Levels.Sheet.{no_cause, ahead, lower, failing};
ghost use Rattle.judging.specs.Places.{judge_room};
ghost use Rattle.judging.specs.Ranking.{Ready, Ranked};
ghost use Rattle.judging.specs.Sheets.{Settled, cause_held, AreCauses, as_causes, fails_at, best_target, better};

use crate::shape::Shape;
use files::cells::{get, put};
use files::graph::{edge_at, next_first, node_at};
use files::property::{PropertyRow, row_at};

// A pair of a node and a row; row 255 is none.
#[derive(Clone, Copy)]
pub struct Cause {
    pub node: usize,
    pub row: usize,
}

impl Cause {
    pub const NONE: usize = 255;
}

// The causes of a pair that is false: a second one only where the row is an "or".
#[derive(Clone, Copy)]
pub struct Causes {
    pub first: Cause,
    pub second: Cause,
}

// The rank of row r at node g; where the row holds, a number past every rank.
fn rank_of(graph: &[u8], property: &[u8], s: Shape, work: &[u8], g: usize, r: usize) -> usize
    requires { (Ready s graph.now property.now) × ((g < s.graph.nodes) × ((r < s.rows) × ((judge_room ≤ length work.now) × (Ranked (decode_graph graph.now) (decode_property property.now) work.now)))) }
    ensures { result ≡ rank (decode_graph graph.now) (decode_property property.now) g r }
{
    let x = get::<u16>(work, 0, Shape::STRIDE * g + r) as usize;
    if x == 0 {
        return s.graph.nodes * s.rows + 1;
    }
    x
}

// Whether node g is an entry at which row 0 is false.
fn fails_at(graph: &[u8], property: &[u8], s: Shape, work: &[u8], g: usize) -> bool
    requires { (Ready s graph.now property.now) × ((g < s.graph.nodes) × ((judge_room ≤ length work.now) × (Ranked (decode_graph graph.now) (decode_property property.now) work.now))) }
    ensures { result ≡ fails_at (decode_graph graph.now) (decode_property property.now) g }
{
    let v = node_at(graph, g);
    let x = get::<u16>(work, 0, Shape::STRIDE * g);
    v.entry & !(x == 0)
}

// The lowest failing entry, if there is one.
pub(crate) fn first_failing(graph: &[u8], property: &[u8], s: Shape, work: &[u8]) -> Option<usize>
    requires { (Ready s graph.now property.now) × ((judge_room ≤ length work.now) × (Ranked (decode_graph graph.now) (decode_property property.now) work.now)) }
    ensures { (unwrap_or result s.graph.nodes ≡ failing (decode_graph graph.now) (decode_property property.now)) × (IfSome result (λ g. g < s.graph.nodes)) }
{
    (0..s.graph.nodes).find(|g| fails_at(graph, property, s, work, *g))
}

// Puts the first edge of each node, and the number of edges, into the buffer.
pub(crate) fn first_edges(graph: &[u8], property: &[u8], s: Shape, work: &mut [u8])
    requires { (Ready s graph.now property.now) × ((judge_room ≤ length work.old) × (Ranked (decode_graph graph.now) (decode_property property.now) work.old)) }
    ensures { Settled (decode_graph graph.now) (decode_property property.now) work.new }
{
    let mut first = 0;
    put(work, Shape::FIRSTS, 0, 0u16);
    for g in 0..s.graph.nodes {
        first = next_first(graph, s.graph.nodes, g, first);
        put(work, Shape::FIRSTS, g + 1, first as u16);
    }
}

// Of two rows at node g the one of lower rank, a where they are level.
fn lower(
    graph: &[u8],
    property: &[u8],
    s: Shape,
    work: &[u8],
    g: usize,
    a: usize,
    b: usize,
) -> usize
    requires { (Ready s graph.now property.now) × ((g < s.graph.nodes) × ((a < s.rows) × ((b < s.rows) × (Settled (decode_graph graph.now) (decode_property property.now) work.now)))) }
    ensures { result ≡ lower (decode_graph graph.now) (decode_property property.now) g a b }
{
    let rank_a = rank_of(graph, property, s, work, g, a);
    let rank_b = rank_of(graph, property, s, work, g, b);
    if rank_a <= rank_b {
        return a;
    }
    b
}

// Whether row b at node x comes ahead of row b at node t: by rank, then by node.
fn is_ahead(
    graph: &[u8],
    property: &[u8],
    s: Shape,
    work: &[u8],
    b: usize,
    x: usize,
    t: usize,
) -> bool
    requires { (Ready s graph.now property.now) × ((b < s.rows) × ((x < s.graph.nodes) × ((t < s.graph.nodes) × (Settled (decode_graph graph.now) (decode_property property.now) work.now)))) }
    ensures { result ≡ ahead (decode_graph graph.now) (decode_property property.now) (x, b) (t, b) }
{
    let rank_x = rank_of(graph, property, s, work, x, b);
    let rank_t = rank_of(graph, property, s, work, t, b);
    (rank_x < rank_t) | ((rank_x == rank_t) & (x <= t))
}

// The better of the target found so far, the number of nodes while there is none, and the target of edge j, if row x looks along it.
fn better(
    graph: &[u8],
    property: &[u8],
    s: Shape,
    work: &[u8],
    x: PropertyRow,
    best: usize,
    j: usize,
) -> usize
    requires { (Ready s graph.now property.now) × ((looked_at x < s.rows) × ((best ≤ s.graph.nodes) × ((j < s.graph.edges) × (Settled (decode_graph graph.now) (decode_property property.now) work.now)))) }
    ensures { result ≡ better (decode_graph graph.now) (decode_property property.now) (aims_along x) (looked_at x) s.graph.nodes best j }
{
    let edge = edge_at(graph, s.graph.nodes, j);
    let Some(row) = x.obliged(edge.label) else {
        return best;
    };
    if best < s.graph.nodes && is_ahead(graph, property, s, work, row as usize, best, edge.to) {
        return best;
    }
    edge.to
}

// The foremost target at node g of box x, or the number of nodes.
fn foremost(graph: &[u8], property: &[u8], s: Shape, work: &[u8], g: usize, x: PropertyRow) -> usize
    requires { (Ready s graph.now property.now) × ((g < s.graph.nodes) × ((looked_at x < s.rows) × (Settled (decode_graph graph.now) (decode_property property.now) work.now))) }
    ensures { result ≡ first_or (best_target (decode_graph graph.now) (decode_property property.now) g (aims_along x) (looked_at x) s.graph.edges) s.graph.nodes }
{
    let end = get::<u16>(work, Shape::FIRSTS, g + 1) as usize;
    let start = get::<u16>(work, Shape::FIRSTS, g) as usize;
    let mut best = s.graph.nodes;
    for j in start..end {
        best = better(graph, property, s, work, x, best, j);
    }
    best
}

// The cause at node g of box x: its foremost target with the row that it looks at, whatever the label.
fn box_cause(
    graph: &[u8],
    property: &[u8],
    s: Shape,
    work: &[u8],
    g: usize,
    x: PropertyRow,
) -> Cause
    requires { (Ready s graph.now property.now) × ((g < s.graph.nodes) × ((looked_at x < s.rows) × (Settled (decode_graph graph.now) (decode_property property.now) work.now))) }
    ensures { result ≡ cause_held (get_or (as_causes (looked_at x) (best_target (decode_graph graph.now) (decode_property property.now) g (aims_along x) (looked_at x) s.graph.edges)) 0 no_cause) }
{
    let t = foremost(graph, property, s, work, g, x);
    if t < s.graph.nodes {
        return Cause {
            node: t,
            row: x.looked_at() as usize,
        };
    }
    Cause {
        node: 0,
        row: Cause::NONE,
    }
}

// The causes of row r at node g.
pub(crate) fn causes_of(
    graph: &[u8],
    property: &[u8],
    s: Shape,
    work: &[u8],
    g: usize,
    r: usize,
) -> Causes
    requires { (Ready s graph.now property.now) × ((g < s.graph.nodes) × ((r < s.rows) × (Settled (decode_graph graph.now) (decode_property property.now) work.now))) }
    ensures { AreCauses (decode_graph graph.now) (decode_property property.now) (g, r) result.first result.second }
{
    let none = Cause {
        node: 0,
        row: Cause::NONE,
    };
    let x = row_at(property, r);
    match x {
        PropertyRow::And(a, b) => {
            let c = lower(graph, property, s, work, g, a as usize, b as usize);
            Causes {
                first: Cause { node: g, row: c },
                second: none,
            }
        }
        PropertyRow::Or(a, b) => Causes {
            first: Cause {
                node: g,
                row: a as usize,
            },
            second: Cause {
                node: g,
                row: b as usize,
            },
        },
        PropertyRow::Box { .. } | PropertyRow::BoxAll(_) => Causes {
            first: box_cause(graph, property, s, work, g, x),
            second: none,
        },
        PropertyRow::True
        | PropertyRow::False
        | PropertyRow::InMethod(_)
        | PropertyRow::NotInMethod(_)
        | PropertyRow::Returns
        | PropertyRow::NotReturns => Causes {
            first: none,
            second: none,
        },
    }
}
