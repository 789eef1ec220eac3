// The calls on files by name: argument 2 is the first file. `at` is the argument that names the output file, if there is one.
use crate::arguments::number;
use crate::buffers::{
    compare_buffer, compose_buffer, judge_buffer, model_buffer, store_buffer, watch_buffer,
};
use crate::command::Unwritten;
use crate::load::{load, load_two};
use crate::refusals::say_refused;
use crate::results::{say_compared, say_joined, say_judged, say_shown, say_watched, say_written};
use files::check::check;
use files::offence::FileKind;
use files::record::Limits;
use files::refusal::Refusal;
use printing::input::large_buffer;
use printing::stdout::Buffered;
use runs::answers::Verdict;

pub fn judge(stdout: &mut Buffered, at: Option<usize>) {
    let mut graph = large_buffer();
    let mut property = large_buffer();
    let Some((graph, property)) = load_two(stdout, 2, &mut graph, &mut property) else {
        return;
    };
    let mut out = large_buffer();
    let mut work = judge_buffer();
    let answer = judging::judge(graph, property, &mut out, &mut work);
    say_judged(stdout, answer, &out, property, at);
}

// The graph of the deliveries that stand, of a file that is loaded.
pub fn assemble(stdout: &mut Buffered, deliveries: &[u8], at: Option<usize>) {
    let mut out = large_buffer();
    let answer = files::assemble(deliveries, &mut out);
    say_written(stdout, answer, &out, at);
}

// That graph judged by the property, which is the file after the deliveries.
pub fn judge_deliveries(stdout: &mut Buffered, deliveries: &[u8], at: Option<usize>) {
    let mut property = large_buffer();
    let Some(property) = load(stdout, 3, &mut property) else {
        return;
    };
    let mut out = large_buffer();
    let mut store = store_buffer();
    let mut work = judge_buffer();
    let answer = judging::judge_deliveries(deliveries, property, &mut out, &mut store, &mut work);
    say_judged(stdout, answer, &out, property, at);
}

// The nodes of a graph file, or 0 where it is refused.
fn nodes_in(graph: &[u8]) -> usize {
    check(FileKind::Graph, graph, 1, Limits::desk()).map_or(0, |counts| counts.nodes)
}

pub fn compare(stdout: &mut Buffered, at: Option<usize>) {
    let mut first = large_buffer();
    let mut second = large_buffer();
    let Some((first, second)) = load_two(stdout, 2, &mut first, &mut second) else {
        return;
    };
    let mut out = large_buffer();
    let mut work = compare_buffer();
    let answer = judging::compare(first, second, &mut out, &mut work);
    let nodes = nodes_in(first);
    say_compared(stdout, answer, &out, nodes, at);
}

pub fn model(stdout: &mut Buffered, at: Option<usize>) {
    let mut interface = large_buffer();
    let mut property = large_buffer();
    let Some((interface, property)) = load_two(stdout, 2, &mut interface, &mut property) else {
        return;
    };
    let mut out = large_buffer();
    let mut work = model_buffer();
    let answer = maximal::model(interface, property, &mut out, &mut work);
    say_written(stdout, answer, &out, at);
}

pub fn join(stdout: &mut Buffered, at: Option<usize>) {
    let mut interface1 = large_buffer();
    let mut graph1 = large_buffer();
    let Some((interface1, graph1)) = load_two(stdout, 2, &mut interface1, &mut graph1) else {
        return;
    };
    let mut interface2 = large_buffer();
    let mut graph2 = large_buffer();
    let Some((interface2, graph2)) = load_two(stdout, 4, &mut interface2, &mut graph2) else {
        return;
    };
    let mut out = large_buffer();
    let answer = runs::join(interface1, graph1, interface2, graph2, &mut out);
    say_joined(stdout, answer, &out, at);
}

pub fn show(stdout: &mut Buffered, at: Option<usize>) {
    let mut graph1 = large_buffer();
    let mut graph2 = large_buffer();
    let files = load_two(stdout, 2, &mut graph1, &mut graph2);
    let number = number(stdout, 4);
    let (Some((graph1, graph2)), Some(value)) = (files, number) else {
        return;
    };
    match runs::show_refusal(graph1, graph2, value) {
        Ok(()) => say_shown(stdout, runs::show(graph1, graph2, value), at),
        Err(r) => say_refused(stdout, r),
    }
}

// A start method as the byte that the calls take: what is past a byte is past the methods too.
fn method_of(value: usize) -> u8 {
    u8::try_from(value).unwrap_or(u8::MAX)
}

pub fn watch(stdout: &mut Buffered, at: Option<usize>) {
    let mut interface = large_buffer();
    let mut graph = large_buffer();
    let mut rules = large_buffer();
    let files = load_two(stdout, 2, &mut interface, &mut graph);
    let rules = load(stdout, 4, &mut rules);
    let start = number(stdout, 5);
    let (Some((interface, graph)), Some(rules), Some(start)) = (files, rules, start) else {
        return;
    };
    let start = method_of(start);
    let mut out = large_buffer();
    let mut work = watch_buffer();
    let answer = runs::watch(interface, graph, rules, start, &mut out, &mut work);
    say_watched(
        stdout,
        answer,
        "clean from the start method",
        &out,
        start,
        at,
    );
}

// Two sides' files: an interface of each; the first side's graph, or its property where both sides are unwritten; the second side's property.
#[derive(Clone, Copy)]
struct Sides<'a> {
    interface1: &'a [u8],
    first: &'a [u8],
    interface2: &'a [u8],
    property2: &'a [u8],
}

fn composed(
    sides: Sides,
    rules: &[u8],
    start: u8,
    out: &mut [u8],
    unwritten: Unwritten,
) -> Result<Verdict, Refusal> {
    let Sides {
        interface1,
        first,
        interface2,
        property2,
    } = sides;
    let mut store = compose_buffer();
    let mut work = model_buffer();
    match unwritten {
        Unwritten::Second => runs::compose(
            interface1, first, interface2, property2, rules, start, out, &mut store, &mut work,
        ),
        Unwritten::Both => runs::compose_both(
            interface1, first, interface2, property2, rules, start, out, &mut store, &mut work,
        ),
    }
}

// The composed verdict by the rules, of both sides' files, which are loaded.
fn compose_by(stdout: &mut Buffered, sides: Sides, at: Option<usize>, unwritten: Unwritten) {
    let mut rules = large_buffer();
    let rules = load(stdout, 6, &mut rules);
    let start = number(stdout, 7);
    let (Some(rules), Some(start)) = (rules, start) else {
        return;
    };
    let start = method_of(start);
    let mut out = large_buffer();
    let answer = composed(sides, rules, start, &mut out, unwritten);
    let clean = match unwritten {
        Unwritten::Second => "clean with every module that conforms",
        Unwritten::Both => "clean with every two modules that conform",
    };
    say_watched(stdout, answer, clean, &out, start, at);
}

pub fn compose(stdout: &mut Buffered, at: Option<usize>, unwritten: Unwritten) {
    let mut interface1 = large_buffer();
    let mut first = large_buffer();
    let Some((interface1, first)) = load_two(stdout, 2, &mut interface1, &mut first) else {
        return;
    };
    let mut interface2 = large_buffer();
    let mut property2 = large_buffer();
    let Some((interface2, property2)) = load_two(stdout, 4, &mut interface2, &mut property2) else {
        return;
    };
    let sides = Sides {
        interface1,
        first,
        interface2,
        property2,
    };
    compose_by(stdout, sides, at, unwritten);
}
