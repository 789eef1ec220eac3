// Joining two sides: all refusals in the published order, then the joined graph's bytes. States to the layer above that the answer and the output are those of
// the definition `joined`, for any limits within the strides of node numbers.
ghost use Rattle.std.specs.Prelude.{◌≡◌, ◌+◌, ◌*◌, ◌≤◌, IfOk, length};
ghost use Rattle.files.specs.Access.{InterfaceFile};
ghost use Rattle.files.specs.Cells.{put_at};
ghost use Rattle.files.specs.Decode.{decode_graph, graph_bytes};
ghost use Rattle.files.specs.Outcome.{Answers, answered};
ghost use Rattle.files.specs.Places.{record_len, max_nodes};
ghost use Rattle.files.specs.Settling.{Settles};
ghost use Rattle.files.specs.View.{Views};
ghost use Rattle.judging.specs.Judge.{Strides};
ghost use Rattle.judging.specs.Refinement.{Both};
ghost use Rattle.files.specs.Join.{join};
ghost use Rattle.runs.specs.Joining.{joined, joined_answer, join_said, join_first, from_size};

use crate::answers::Joined;
use files::cells::copy_at;
use files::check::check;
use files::interface::{provided_methods, required_methods};
use files::moved::write_all_moved;
use files::offence::FileKind;
use files::record::{Limits, Record};
use files::refusal::Refusal;
use files::settle::{accept_graph, check_apart, check_own};
use judging::sizes::Sizes;

// Writes the joined graph: the first graph's nodes, the second's, the first's edges, the second's moved.
pub(crate) fn write_join(graph1: &[u8], graph2: &[u8], s: Sizes, out: &mut [u8])
    requires { (Both s graph1.now graph2.now) × ((s.first.nodes + s.second.nodes ≤ max_nodes) × (record_len * (s.first.nodes + s.second.nodes + s.first.edges + s.second.edges) ≤ length out.old)) }
    ensures { out.new ≡ put_at out.old 0 (graph_bytes (join (decode_graph graph1.now) (decode_graph graph2.now))) }
{
    let cut1 = Record::LEN * s.first.nodes;
    let cut2 = Record::LEN * s.second.nodes;
    let end1 = Record::LEN * (s.first.nodes + s.first.edges);
    copy_at(out, 0, &graph1[..cut1]);
    copy_at(out, cut1, &graph2[..cut2]);
    copy_at(out, cut1 + cut2, &graph1[cut1..end1]);
    let end = s.first.nodes + s.second.nodes + s.first.edges;
    write_all_moved(graph2, s.second, s.first.nodes, out, end);
}

// 11 and 12, then the joined graph and its answer.
fn join_sizes(
    interface1: &[u8],
    graph1: &[u8],
    interface2: &[u8],
    graph2: &[u8],
    out: &mut [u8],
    limits: Limits,
    s: Sizes,
) -> Result<Joined, Refusal>
    requires { (InterfaceFile interface1.now) × ((InterfaceFile interface2.now) × ((Both s graph1.now graph2.now) × (Strides limits))) }
    ensures { Answers (answered (from_size limits interface1.now graph1.now interface2.now graph2.now (length out.old)) (join_said limits interface1.now graph1.now interface2.now graph2.now (length out.old))) out.old out.new (joined_answer result) }
{
    let nodes = s.first.nodes + s.second.nodes;
    let edges = s.first.edges + s.second.edges;
    if (limits.nodes < nodes) | (limits.edges < edges) {
        return Err(Refusal::whole(11));
    }
    if out.len() < Record::LEN * (nodes + edges) {
        return Err(Refusal::whole(12));
    }
    write_join(graph1, graph2, s, out);
    Ok(Joined {
        nodes,
        edges,
        provided: provided_methods(interface1) | provided_methods(interface2),
        required: required_methods(interface1) | required_methods(interface2),
    })
}

// The numbers that come before the joined graph, in the published order.
fn check_join(
    interface1: &[u8],
    graph1: &[u8],
    interface2: &[u8],
    graph2: &[u8],
    limits: Limits,
) -> Result<Sizes, Refusal>
    ensures settles { Settles (join_first limits interface1.now graph1.now interface2.now graph2.now) result }
    ensures views { IfOk result (λ s. (Views s.first graph1.now) × (Views s.second graph2.now)) }
{
    check(FileKind::Interface, interface1, 1, limits)?;
    let first = accept_graph(graph1, 2, limits)?;
    check(FileKind::Interface, interface2, 3, limits)?;
    let second = accept_graph(graph2, 4, limits)?;
    check_own(graph1, 2, interface1)?;
    check_own(graph2, 4, interface2)?;
    check_apart(interface1, interface2)?;
    Ok(Sizes { first, second })
}

// Joins within limits that leave node numbers in a byte.
pub(crate) fn join_within(
    interface1: &[u8],
    graph1: &[u8],
    interface2: &[u8],
    graph2: &[u8],
    out: &mut [u8],
    limits: Limits,
) -> Result<Joined, Refusal>
    requires { Strides limits }
    ensures { Answers (joined limits interface1.now graph1.now interface2.now graph2.now (length out.old)) out.old out.new (joined_answer result) }
{
    let s = check_join(interface1, graph1, interface2, graph2, limits)?;
    join_sizes(interface1, graph1, interface2, graph2, out, limits, s)
}
