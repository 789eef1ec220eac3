// Showing: the record of a joined node, as six bytes of the file it came from. `show_within` gives the part, empty where it is refused; `show_refusal_within` says why.
// `find_place` says both at once, for a caller that has the files at hand.
ghost use Rattle.std.specs.Prelude.{◌≡◌, ◌+◌, ◌*◌, ◌≤◌, IfOk, length};
ghost use Rattle.files.specs.Outcome.{answer, written_of};
ghost use Rattle.files.specs.Places.{record_len};
ghost use Rattle.files.specs.Record.{part};
ghost use Rattle.files.specs.Settling.{Settles};
ghost use Rattle.files.specs.View.{Views};
ghost use Rattle.runs.specs.Showing.{shown, shown_answer, show_first, found_place, place_of, part_ptr};

use files::record::{Limits, Record};
use files::refusal::Refusal;
use files::settle::accept_graph;
use judging::sizes::Sizes;

// Where the record of a number stands: its place in the first file or in the second.
#[derive(Clone, Copy)]
pub enum Place {
    First(usize),
    Second(usize),
}

// The numbers of both files, in argument order.
fn check_show(graph1: &[u8], graph2: &[u8], limits: Limits) -> Result<Sizes, Refusal>
    ensures settles { Settles (show_first limits graph1.now graph2.now) result }
    ensures views { IfOk result (λ s. (Views s.first graph1.now) × (Views s.second graph2.now)) }
{
    let first = accept_graph(graph1, 1, limits)?;
    let second = accept_graph(graph2, 2, limits)?;
    Ok(Sizes { first, second })
}

// Where a number stands in two graphs of so many nodes, or 7.
fn place_of(number: usize, nodes1: usize, nodes2: usize) -> Result<Place, Refusal>
    ensures { result ≡ place_of number nodes1 nodes2 }
{
    if number < nodes1 {
        return Ok(Place::First(number));
    }
    if number - nodes1 < nodes2 {
        return Ok(Place::Second(number - nodes1));
    }
    Err(Refusal::whole(7))
}

// Both graphs' refusals, in argument order, then the place.
pub fn find_place(
    graph1: &[u8],
    graph2: &[u8],
    number: usize,
    limits: Limits,
) -> Result<Place, Refusal>
    ensures { result ≡ found_place limits graph1.now graph2.now number }
{
    let s = check_show(graph1, graph2, limits)?;
    place_of(number, s.first.nodes, s.second.nodes)
}

// Record i of a file.
pub fn record_at<'a>(graph: &'a [u8], i: usize) -> &'a [u8]
    requires { record_len * i + record_len ≤ length graph.now }
    ensures { (result.now ≡ part graph.now i 1) × (result.ref_ptr ≡ (graph.entry.ref_ptr.0, record_len * i + graph.entry.ref_ptr.1)) }
{
    &graph[Record::LEN * i..Record::LEN * i + Record::LEN]
}

// The six bytes of the node of this number in the joined graph, as a part of its file; empty where showing is refused.
pub(crate) fn show_within<'a>(
    graph1: &'a [u8],
    graph2: &'a [u8],
    number: usize,
    limits: Limits,
) -> &'a [u8]
    ensures { (result.now ≡ written_of (shown limits graph1.now graph2.now number)) × (result.ref_ptr ≡ part_ptr graph1.entry.ref_ptr graph2.entry.ref_ptr (found_place limits graph1.now graph2.now number)) }
{
    match find_place(graph1, graph2, number, limits) {
        Ok(Place::First(i)) => record_at(graph1, i),
        Ok(Place::Second(i)) => record_at(graph2, i),
        Err(_) => &graph2[..0],
    }
}

// Why the part is empty, or that it is not.
pub(crate) fn show_refusal_within(
    graph1: &[u8],
    graph2: &[u8],
    number: usize,
    limits: Limits,
) -> Result<(), Refusal>
    ensures { shown_answer result ≡ answer (shown limits graph1.now graph2.now number) }
{
    find_place(graph1, graph2, number, limits)?;
    Ok(())
}
