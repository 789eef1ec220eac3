// Two graphs joined in `work` and watched there, whichever side each comes from: what the composed verdicts share. States to the layer above that 11 is told where the joined
// graph is past the limits, "impossible" where nothing can be loaded on one of the sides, and else the verdict on it.
ghost use Rattle.std.specs.Prelude.{◌≡◌, ◌*◌, ◌+◌, ◌≤◌, length, take, drop};
ghost use Rattle.files.specs.Access.{InterfaceFile};
ghost use Rattle.files.specs.Decode.{decode_graph, decode_interface, decode_rules};
ghost use Rattle.files.specs.Outcome.{Answers};
ghost use Rattle.files.specs.Places.{record_len};
ghost use Rattle.files.specs.Rules.{watch};
ghost use Rattle.files.specs.Sides.{lacks_entry};
ghost use Rattle.files.specs.View.{Held};
ghost use Rattle.judging.specs.Judge.{Strides};
ghost use Rattle.judging.specs.Refinement.{Both};
ghost use Rattle.maximal.specs.Places.{model_room};
ghost use Rattle.runs.specs.Answer.{watched_answer};
ghost use Rattle.runs.specs.Composing.Joined.{JoinedInto, JointReady, joint_outcome, joint_graph};
ghost use Rattle.runs.specs.Regions.{watch_room};

use crate::answers::Verdict;
use crate::joining::write_join;
use crate::watching::watch_runs;
use files::record::{Limits, Record};
use files::refusal::Refusal;
use files::sides::lacks_entry;
use files::view::GraphView;
use judging::sizes::Sizes;

// What became of a join, three ways: it stands at the start of `work`; it would be past the limits; or it is not asked for, since nothing can be loaded where one of the graphs stands.
#[derive(Clone, Copy)]
pub enum Joint {
    Written,
    TooLarge,
    Barred,
}

// Nothing can be loaded where this model stands, behind `at` bytes of the buffer: it lacks an entry.
pub(crate) fn bars(interface: &[u8], store: &[u8], at: usize, model: GraphView) -> bool
    requires { (InterfaceFile interface.now) × ((Held model (take (record_len * (model.nodes + model.edges)) (drop at store.now))) × (at + record_len * (model.nodes + model.edges) ≤ length store.now)) }
    ensures { result ≡ lacks_entry (decode_interface interface.now) (decode_graph (take (record_len * (model.nodes + model.edges)) (drop at store.now))) }
{
    let end = at + Record::LEN * (model.nodes + model.edges);
    lacks_entry(interface, &store[at..end], model.nodes)
}

// The join of two graphs, to the start of `work`, where it is within the limits and not barred.
pub(crate) fn join_into(
    graph1: &[u8],
    graph2: &[u8],
    work: &mut [u8],
    limits: Limits,
    barred: bool,
    s: Sizes,
) -> Joint
    requires { (Both s graph1.now graph2.now) × ((Strides limits) × (model_room ≤ length work.old)) }
    ensures { JoinedInto limits barred s graph1.now graph2.now work.old work.new result }
{
    let nodes = s.first.nodes + s.second.nodes;
    let edges = s.first.edges + s.second.edges;
    if (limits.nodes < nodes) | (limits.edges < edges) {
        return Joint::TooLarge;
    }
    if barred {
        return Joint::Barred;
    }
    write_join(graph1, graph2, s, work);
    Joint::Written
}

// What is told of a join: 11, "impossible", or the verdict on it, watched in `store`.
pub(crate) fn watch_joint(
    joint: Joint,
    rules: &[u8],
    start: u8,
    out: &mut [u8],
    store: &mut [u8],
    work: &[u8],
    s: Sizes,
) -> Result<Verdict, Refusal>
    requires { (JointReady s work.now rules.now joint) × (watch_room ≤ length store.old) }
    ensures { Answers (joint_outcome (joint_graph s work.now) (watch (decode_rules rules.now)) start (length out.old) joint) out.old out.new (watched_answer result) }
{
    match joint {
        Joint::TooLarge => Err(Refusal::whole(11)),
        Joint::Barred => Ok(Verdict::Impossible),
        Joint::Written => {
            let whole = GraphView {
                nodes: s.first.nodes + s.second.nodes,
                edges: s.first.edges + s.second.edges,
            };
            let end = Record::LEN * (whole.nodes + whole.edges);
            watch_runs(&work[..end], rules, start, out, store, whole)
        }
    }
}
