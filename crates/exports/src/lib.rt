// The C boundary: each call of the library with slices as pointer and length, its answer as six numbers. A call here states what the call it wraps states.
#![tactic(auto)]

ghost use Rattle.std.specs.Prelude.{◌≡◌, length};
ghost use Rattle.files.specs.Limits.{desk};
ghost use Rattle.files.specs.Refusal.{graph, property, rules, interface};
ghost use Rattle.files.specs.Assemble.{assembled_outcome};
ghost use Rattle.files.specs.Checking.{checked};
ghost use Rattle.files.specs.Outcome.{says};
ghost use Rattle.judging.specs.Judge.{judged, judged_answer};
ghost use Rattle.judging.specs.Compare.{compared, compared_answer};
ghost use Rattle.judging.specs.Delivered.{delivered};
ghost use Rattle.maximal.specs.Modelling.{modelled, modelled_answer};
ghost use Rattle.runs.specs.Composing.{composed};
ghost use Rattle.runs.specs.Joining.{joined, joined_answer};
ghost use Rattle.runs.specs.Showing.{shown, part_said};
ghost use Rattle.runs.specs.Answer.{watched_answer};
ghost use Rattle.runs.specs.Unwritten.{composed_both};
ghost use Rattle.runs.specs.Watching.{watched};
ghost use Rattle.exports.specs.Boundary.{refused_numbers, verdict_numbers, checked_numbers, answer_numbers, Gives, GivesBoth, GivesOut, fitting, work_lengths};

use files::cells::copy_at;
use files::check::{FileCounts, check};
use files::offence::FileKind;
use files::record::Limits;
use files::refusal::Refusal;
use files::view::GraphView;
use judging::answers::{Compared, Judged};
use judging::shape::Shape;
use judging::sizes::Sizes;
use maximal::places::Places;
use runs::answers::{Joined, Verdict};
use runs::regions::Regions;
use runs::showing::{Place, find_place, record_at};

// Verdict 0 is a refusal: its number, file (first) and record (second). Other verdicts carry their values from first on.
#[repr(C)]
#[derive(Clone, Copy)]
pub struct Answer {
    pub verdict: u32,
    pub number: u32,
    pub first: u64,
    pub second: u64,
    pub third: u64,
    pub fourth: u64,
}

fn refused(r: Refusal) -> Answer
    ensures { result ≡ refused_numbers r }
{
    Answer {
        verdict: 0,
        number: r.number as u32,
        first: r.file as u64,
        second: r.record as u64,
        third: 0,
        fourth: 0,
    }
}

fn verdict(number: u32, first: u64, second: u64) -> Answer
    ensures { result ≡ verdict_numbers number first second 0 0 }
{
    Answer {
        verdict: number,
        number: 0,
        first,
        second,
        third: 0,
        fourth: 0,
    }
}

fn checked_answer(c: Result<FileCounts, Refusal>) -> Answer
    ensures { result ≡ checked_numbers c }
{
    match c {
        Ok(counts) => verdict(1, counts.nodes as u64, counts.records as u64),
        Err(r) => refused(r),
    }
}

// Checks a graph file as the file of position 1.
#[unsafe(no_mangle)]
pub extern "C" fn tintboulder_check_graph(file: &[u8]) -> Answer
    ensures { result ≡ checked_numbers (checked desk graph file.now 1) }
{
    checked_answer(check(FileKind::Graph, file, 1, Limits::desk()))
}

// Checks a property file.
#[unsafe(no_mangle)]
pub extern "C" fn tintboulder_check_property(file: &[u8]) -> Answer
    ensures { result ≡ checked_numbers (checked desk property file.now 1) }
{
    checked_answer(check(FileKind::Property, file, 1, Limits::desk()))
}

// Checks a rule file.
#[unsafe(no_mangle)]
pub extern "C" fn tintboulder_check_rules(file: &[u8]) -> Answer
    ensures { result ≡ checked_numbers (checked desk rules file.now 1) }
{
    checked_answer(check(FileKind::Rules, file, 1, Limits::desk()))
}

// Checks an interface file.
#[unsafe(no_mangle)]
pub extern "C" fn tintboulder_check_interface(file: &[u8]) -> Answer
    ensures { result ≡ checked_numbers (checked desk interface file.now 1) }
{
    checked_answer(check(FileKind::Interface, file, 1, Limits::desk()))
}

fn judged_answer(j: Result<Judged, Refusal>) -> Answer
    ensures { result ≡ answer_numbers (judged_answer j) }
{
    match j {
        Ok(Judged::Holds) => verdict(1, 0, 0),
        Ok(Judged::Fails(records)) => verdict(2, records as u64, 0),
        Err(r) => refused(r),
    }
}

// Judges a graph against a property: verdict 1 holds, 2 fails, with the number of records of the fault sheet, which is written to `out`.
#[unsafe(no_mangle)]
pub extern "C" fn tintboulder_judge(
    graph: &[u8],
    property: &[u8],
    out: &mut [u8],
    work: &mut [u8],
) -> Answer
    ensures { Gives (judged desk graph.now property.now (length out.old) (length work.old)) out.old work.old out.new work.new result }
{
    judged_answer(judging::judge(graph, property, out, work))
}

fn compared_answer(c: Result<Compared, Refusal>) -> Answer
    ensures { result ≡ answer_numbers (compared_answer c) }
{
    match c {
        Ok(Compared::Yes) => verdict(1, 0, 0),
        Ok(Compared::No(entry)) => verdict(2, entry as u64, 0),
        Err(r) => refused(r),
    }
}

// Compares two graphs: verdict 1 yes, 2 no, with the lowest uncovered entry of the first; the largest simulation is written to `out` under either verdict.
#[unsafe(no_mangle)]
pub extern "C" fn tintboulder_compare(
    first: &[u8],
    second: &[u8],
    out: &mut [u8],
    work: &mut [u8],
) -> Answer
    ensures { Gives (compared desk first.now second.now (length out.old) (length work.old)) out.old work.old out.new work.new result }
{
    compared_answer(judging::compare(first, second, out, work))
}

// A graph that was written, as a model or the standing graph: verdict 1, its nodes and its edges.
fn graph_answer(g: Result<GraphView, Refusal>) -> Answer
    ensures { result ≡ answer_numbers (modelled_answer g) }
{
    match g {
        Ok(view) => verdict(1, view.nodes as u64, view.edges as u64),
        Err(r) => refused(r),
    }
}

// The maximal model of an interface and a property: verdict 1 written, with its nodes and edges; its graph file is written to `out`.
#[unsafe(no_mangle)]
pub extern "C" fn tintboulder_model(
    interface: &[u8],
    property: &[u8],
    out: &mut [u8],
    work: &mut [u8],
) -> Answer
    ensures { Gives (modelled desk interface.now property.now (length out.old) (length work.old)) out.old work.old out.new work.new result }
{
    graph_answer(maximal::model(interface, property, out, work))
}

// Assembles a file of deliveries: verdict 1 written, with nodes and edges of the standing graph; its graph file is written to `out`.
#[unsafe(no_mangle)]
pub extern "C" fn tintboulder_assemble(deliveries: &[u8], out: &mut [u8]) -> Answer
    ensures { GivesOut (assembled_outcome desk deliveries.now (length out.old)) out.old out.new result }
{
    graph_answer(files::assemble(deliveries, out))
}

// Judges the standing graph of a file of deliveries against a property: as `tintboulder_judge`, the fault sheet in the standing graph's numbers.
#[unsafe(no_mangle)]
pub extern "C" fn tintboulder_judge_deliveries(
    deliveries: &[u8],
    property: &[u8],
    out: &mut [u8],
    store: &mut [u8],
    work: &mut [u8],
) -> Answer
    ensures { GivesBoth (delivered desk deliveries.now property.now (length out.old) (length store.old) (length work.old)) out.old store.old work.old out.new store.new work.new result }
{
    judged_answer(judging::judge_deliveries(deliveries, property, out, store, work))
}

fn joined_answer(j: Result<Joined, Refusal>) -> Answer
    ensures { result ≡ answer_numbers (joined_answer j) }
{
    match j {
        Ok(joined) => Answer {
            verdict: 1,
            number: 0,
            first: joined.nodes as u64,
            second: joined.edges as u64,
            third: joined.provided as u64,
            fourth: joined.required as u64,
        },
        Err(r) => refused(r),
    }
}

// Joins two sides: verdict 1 written, with nodes, edges, provided and required methods of the whole; its graph file is written to `out`.
#[unsafe(no_mangle)]
pub extern "C" fn tintboulder_join(
    interface1: &[u8],
    graph1: &[u8],
    interface2: &[u8],
    graph2: &[u8],
    out: &mut [u8],
) -> Answer
    ensures { GivesOut (joined desk interface1.now graph1.now interface2.now graph2.now (length out.old)) out.old out.new result }
{
    joined_answer(runs::join(interface1, graph1, interface2, graph2, out))
}

// Writes what is shown to `out`: verdict 1 shown; an output shorter than it is refused by 12.
fn write_part(part: &[u8], out: &mut [u8]) -> Answer
    ensures { GivesOut (fitting (length out.old) (says (part_said part.now))) out.old out.new result }
{
    if out.len() < part.len() {
        return refused(Refusal::whole(12));
    }
    copy_at(out, 0, part);
    verdict(1, 0, 0)
}

// Shows the record of a joined node: verdict 1 shown, its six bytes written to `out`; an output shorter than them is refused by 12, after all else.
#[unsafe(no_mangle)]
pub extern "C" fn tintboulder_show(
    graph1: &[u8],
    graph2: &[u8],
    number: u64,
    out: &mut [u8],
) -> Answer
    ensures { GivesOut (fitting (length out.old) (shown desk graph1.now graph2.now number)) out.old out.new result }
{
    match find_place(graph1, graph2, number as usize, Limits::desk()) {
        Ok(Place::First(i)) => write_part(record_at(graph1, i), out),
        Ok(Place::Second(i)) => write_part(record_at(graph2, i), out),
        Err(r) => refused(r),
    }
}

fn watched_answer(v: Result<Verdict, Refusal>) -> Answer
    ensures { result ≡ answer_numbers (watched_answer v) }
{
    match v {
        Ok(Verdict::Clean) => verdict(1, 0, 0),
        Ok(Verdict::Bad(records)) => verdict(2, records as u64, 0),
        Ok(Verdict::Impossible) => verdict(3, 0, 0),
        Err(r) => refused(r),
    }
}

// Watches the runs of a graph from a start method: verdict 1 clean, 2 bad, with the number of records of the trail, which is written to `out`.
#[unsafe(no_mangle)]
pub extern "C" fn tintboulder_watch(
    interface: &[u8],
    graph: &[u8],
    rules: &[u8],
    start: u8,
    out: &mut [u8],
    work: &mut [u8],
) -> Answer
    ensures { Gives (watched desk interface.now graph.now rules.now start (length out.old) (length work.old)) out.old work.old out.new work.new result }
{
    watched_answer(runs::watch(interface, graph, rules, start, out, work))
}

// The composed verdict: verdict 1 clean with every module that conforms, 2 bad, with the number of records of the trail, which is written to `out`, 3 impossible: no module with
// an entry for each provided method satisfies the property.
#[unsafe(no_mangle)]
pub extern "C" fn tintboulder_compose(
    known_interface: &[u8],
    known_graph: &[u8],
    other_interface: &[u8],
    property: &[u8],
    rules: &[u8],
    start: u8,
    out: &mut [u8],
    store: &mut [u8],
    work: &mut [u8],
) -> Answer
    ensures { GivesBoth (composed desk known_interface.now known_graph.now other_interface.now property.now rules.now start (length out.old) (length store.old) (length work.old)) out.old store.old work.old out.new store.new work.new result }
{
    watched_answer(runs::compose(
        known_interface,
        known_graph,
        other_interface,
        property,
        rules,
        start,
        out,
        store,
        work,
    ))
}

// The composed verdict of two sides that are both not written yet: verdict 1 clean with every two modules that conform, 2 bad, with the number of records of the trail, which is
// written to `out`, in the numbers of the two models joined.
#[unsafe(no_mangle)]
pub extern "C" fn tintboulder_compose_both(
    interface1: &[u8],
    property1: &[u8],
    interface2: &[u8],
    property2: &[u8],
    rules: &[u8],
    start: u8,
    out: &mut [u8],
    store: &mut [u8],
    work: &mut [u8],
) -> Answer
    ensures { GivesBoth (composed_both desk interface1.now property1.now interface2.now property2.now rules.now start (length out.old) (length store.old) (length work.old)) out.old store.old work.old out.new store.new work.new result }
{
    watched_answer(runs::compose_both(
        interface1, property1, interface2, property2, rules, start, out, store, work,
    ))
}

// The published length of a call's work buffer: 1 is judge, 2 compare, 3 model, 6 watch, 7 compose, 8 compose's store, 9 judge_deliveries, 10 its store, 11 compose_both, 12 its store; 0 for
// other numbers.
#[unsafe(no_mangle)]
pub extern "C" fn tintboulder_work(call: u64) -> u64
    ensures { result ≡ work_lengths call }
{
    match call {
        1 | 9 => Shape::ROOM as u64,
        2 => Sizes::ROOM as u64,
        3 | 7 | 11 => Places::ROOM as u64,
        6 | 8 => Regions::ROOM as u64,
        10 => Shape::STORE as u64,
        12 => Regions::TWO_GRAPHS as u64,
        _ => 0,
    }
}
