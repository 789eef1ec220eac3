// The composed verdict of two unwritten sides: refusals in the published order, then both models in `store`, one behind the other, joined in `work`, and the runs watched. States
// to the layer above that the answer, the output and both buffers are those of the definition `composed_both`, for any limits that the buffers allow.
ghost use Rattle.std.specs.Prelude.{◌≡◌, ◌*◌, ◌+◌, ◌≤◌, length, take, drop};
ghost use Rattle.files.specs.Access.{RulesFile};
ghost use Rattle.files.specs.Decode.{decode_graph, decode_rules};
ghost use Rattle.files.specs.Outcome.{Answers, Does, DoesBoth, answered};
ghost use Rattle.files.specs.Places.{record_len};
ghost use Rattle.files.specs.Rules.{watch};
ghost use Rattle.files.specs.Settling.{Settles};
ghost use Rattle.files.specs.View.{Held};
ghost use Rattle.judging.specs.Judge.{Strides};
ghost use Rattle.judging.specs.Refinement.{Both};
ghost use Rattle.maximal.specs.Modelling.{Bounded, modelled, modelled_answer};
ghost use Rattle.maximal.specs.Places.{model_room};
ghost use Rattle.runs.specs.Answer.{watched_answer};
ghost use Rattle.runs.specs.Composing.{joined_verdict, from_joined, compose_said, compose_last, OtherSide};
ghost use Rattle.runs.specs.Composing.Joined.{JoinedInto};
ghost use Rattle.runs.specs.Unwritten.{composed_both, both_first, both_last, both_said, both_store};
ghost use Rattle.runs.specs.Unwritten.Work.{PairRoom};

use crate::answers::Verdict;
use crate::joint::{Joint, bars, join_into, watch_joint};
use crate::regions::Regions;
use files::cells::clear;
use files::check::check;
use files::offence::FileKind;
use files::record::{Limits, Record};
use files::refusal::Refusal;
use files::settle::{check_apart, check_united, clear_after, refuse_if};
use files::view::GraphView;
use judging::sizes::Sizes;
use maximal::build::model_within;
use maximal::places::Places;

// The model of a side, behind the first `at` bytes of the buffer, which stay.
fn model_behind(
    interface: &[u8],
    property: &[u8],
    store: &mut [u8],
    at: usize,
    work: &mut [u8],
    limits: Limits,
) -> Result<GraphView, Refusal>
    requires { (Bounded limits) × (at ≤ length store.old) }
    ensures { (take at store.new ≡ take at store.old) × (Does (modelled limits interface.now property.now (length (drop at store.old)) (length work.old)) (drop at store.old) work.old (drop at store.new) work.new (modelled_answer result)) }
{
    model_within(interface, property, &mut store[at..], work, limits)
}

// The join of two graphs that stand in one buffer, the second behind the first.
fn join_stored(store: &[u8], work: &mut [u8], limits: Limits, barred: bool, s: Sizes) -> Joint
    requires { (Both s (take (record_len * (s.first.nodes + s.first.edges)) store.now) (take (record_len * (s.second.nodes + s.second.edges)) (drop (record_len * (s.first.nodes + s.first.edges)) store.now))) × ((Strides limits) × ((both_store ≤ length store.now) × (model_room ≤ length work.old))) }
    ensures { JoinedInto limits barred s (take (record_len * (s.first.nodes + s.first.edges)) store.now) (take (record_len * (s.second.nodes + s.second.edges)) (drop (record_len * (s.first.nodes + s.first.edges)) store.now)) work.old work.new result }
{
    let first = Record::LEN * (s.first.nodes + s.first.edges);
    let second = first + Record::LEN * (s.second.nodes + s.second.edges);
    join_into(
        &store[..first],
        &store[first..second],
        work,
        limits,
        barred,
        s,
    )
}

// 11 for the joined graph, "impossible" where it is barred, or the verdict on it. Both graphs stand in `store`, the second behind the first.
fn watch_stored(
    rules: &[u8],
    start: u8,
    out: &mut [u8],
    store: &mut [u8],
    work: &mut [u8],
    limits: Limits,
    barred: bool,
    s: Sizes,
) -> Result<Verdict, Refusal>
    requires { (Both s (take (record_len * (s.first.nodes + s.first.edges)) store.old) (take (record_len * (s.second.nodes + s.second.edges)) (drop (record_len * (s.first.nodes + s.first.edges)) store.old))) × ((RulesFile rules.now) × ((Strides limits) × ((both_store ≤ length store.old) × (model_room ≤ length work.old)))) }
    ensures { Answers (answered (from_joined limits barred (decode_graph (take (record_len * (s.first.nodes + s.first.edges)) store.old)) (decode_graph (take (record_len * (s.second.nodes + s.second.edges)) (drop (record_len * (s.first.nodes + s.first.edges)) store.old))) (watch (decode_rules rules.now)) start (length out.old)) (joined_verdict limits barred (decode_graph (take (record_len * (s.first.nodes + s.first.edges)) store.old)) (decode_graph (take (record_len * (s.second.nodes + s.second.edges)) (drop (record_len * (s.first.nodes + s.first.edges)) store.old))) (watch (decode_rules rules.now)) start (length out.old))) out.old out.new (watched_answer result) }
{
    let joint = join_stored(store, work, limits, barred, s);
    watch_joint(joint, rules, start, out, store, work, s)
}

// The second side's model goes behind the first's, which stands at the start of `store`, or is refused by 11; then the rest, with the first model as the known graph.
fn watch_second(
    interface: &[u8],
    property: &[u8],
    rules: &[u8],
    start: u8,
    out: &mut [u8],
    store: &mut [u8],
    work: &mut [u8],
    limits: Limits,
    barred: bool,
    first: GraphView,
) -> Result<Verdict, Refusal>
    requires { (Held first (take (record_len * (first.nodes + first.edges)) store.old)) × ((OtherSide limits interface.now property.now) × ((RulesFile rules.now) × (PairRoom limits store.old work.old))) }
    ensures { Answers (answered (compose_last limits barred (take (record_len * (first.nodes + first.edges)) store.old) interface.now property.now rules.now start (length out.old)) (compose_said barred (take (record_len * (first.nodes + first.edges)) store.old) interface.now property.now rules.now start)) out.old out.new (watched_answer result) }
{
    let at = Record::LEN * (first.nodes + first.edges);
    let second = model_behind(interface, property, store, at, work, limits)?;
    let s = Sizes { first, second };
    let lacking = bars(interface, store, at, second);
    watch_stored(rules, start, out, store, work, limits, barred | lacking, s)
}

// The first side's model goes to `store`, or is refused by 11; then the rest.
fn watch_models(
    interface1: &[u8],
    property1: &[u8],
    interface2: &[u8],
    property2: &[u8],
    rules: &[u8],
    start: u8,
    out: &mut [u8],
    store: &mut [u8],
    work: &mut [u8],
    limits: Limits,
) -> Result<Verdict, Refusal>
    requires { (OtherSide limits interface1.now property1.now) × ((OtherSide limits interface2.now property2.now) × ((RulesFile rules.now) × (PairRoom limits store.old work.old))) }
    ensures { Answers (answered (both_last limits interface1.now property1.now interface2.now property2.now rules.now start (length out.old)) (both_said interface1.now property1.now interface2.now property2.now rules.now start)) out.old out.new (watched_answer result) }
{
    let first = model_within(interface1, property1, store, work, limits)?;
    let barred = bars(interface1, store, 0, first);
    watch_second(
        interface2, property2, rules, start, out, store, work, limits, barred, first,
    )
}

// The numbers that come before the models, in the published order.
fn check_both(
    interface1: &[u8],
    property1: &[u8],
    interface2: &[u8],
    property2: &[u8],
    rules: &[u8],
    start: u8,
    store: usize,
    work: usize,
    limits: Limits,
) -> Result<(), Refusal>
    ensures { Settles (both_first limits interface1.now property1.now interface2.now property2.now rules.now start store work) result }
{
    refuse_if(13, (store < Regions::TWO_GRAPHS) | (work < Places::ROOM))?;
    check(FileKind::Interface, interface1, 1, limits)?;
    check(FileKind::Property, property1, 2, limits)?;
    check(FileKind::Interface, interface2, 3, limits)?;
    check(FileKind::Property, property2, 4, limits)?;
    check(FileKind::Rules, rules, 5, limits)?;
    refuse_if(3, !((1 <= start) & (start <= 8)))?;
    check_apart(interface1, interface2)?;
    check_united(interface1, interface2, start)
}

// Composes within limits that the buffers allow.
pub(crate) fn compose_both_within(
    interface1: &[u8],
    property1: &[u8],
    interface2: &[u8],
    property2: &[u8],
    rules: &[u8],
    start: u8,
    out: &mut [u8],
    store: &mut [u8],
    work: &mut [u8],
    limits: Limits,
) -> Result<Verdict, Refusal>
    requires { (Strides limits) × (Bounded limits) }
    ensures { DoesBoth (composed_both limits interface1.now property1.now interface2.now property2.now rules.now start (length out.old) (length store.old) (length work.old)) out.old store.old work.old out.new store.new work.new (watched_answer result) }
{
    let settled = check_both(
        interface1,
        property1,
        interface2,
        property2,
        rules,
        start,
        store.len(),
        work.len(),
        limits,
    );
    match settled {
        Err(refusal) => {
            clear_after(refusal, store);
            clear_after(refusal, work);
            Err(refusal)
        }
        Ok(()) => {
            let answer = watch_models(
                interface1, property1, interface2, property2, rules, start, out, store, work,
                limits,
            );
            clear(store);
            clear(work);
            answer
        }
    }
}
