// Verdicts in one line of plain words, the first of them fit for scripts; then what the call wrote, as decimals with notes, or to the file that argument `at` names, where there
// is one.
use crate::load::give;
use crate::notes::{say_relation, say_sheet, say_trail};
use crate::refusals::say_refused;
use files::encode::LINE;
use files::record::Record;
use files::refusal::Refusal;
use files::view::GraphView;
use judging::answers::{Compared, Judged};
use printing::stdout::Buffered;
use printing::{first, say, say_bytes, say_graph};
use runs::answers::{Joined, Verdict};

// The bytes of so many records.
fn first_records(out: &[u8], records: usize) -> &[u8] {
    first(out, records.saturating_mul(Record::LEN))
}

fn give_graph(stdout: &mut Buffered, out: &[u8], nodes: usize, edges: usize, at: Option<usize>) {
    let graph = first_records(out, nodes.saturating_add(edges));
    give(stdout, graph, at, |stdout, graph| {
        say_graph(stdout, graph, nodes, edges)
    });
}

fn give_relation(stdout: &mut Buffered, out: &[u8], nodes: usize, at: Option<usize>) {
    let relation = first(out, nodes.saturating_mul(LINE));
    give(stdout, relation, at, say_relation);
}

fn give_sheet(
    stdout: &mut Buffered,
    out: &[u8],
    records: usize,
    property: &[u8],
    at: Option<usize>,
) {
    let sheet = first_records(out, records);
    give(stdout, sheet, at, |stdout, sheet| {
        say_sheet(stdout, sheet, property)
    });
}

fn give_trail(stdout: &mut Buffered, out: &[u8], records: usize, start: u8, at: Option<usize>) {
    let trail = first_records(out, records);
    give(stdout, trail, at, |stdout, trail| {
        say_trail(stdout, trail, start)
    });
}

fn say_counts(stdout: &mut Buffered, nodes: usize, edges: usize) {
    say!(stdout, "written with {nodes} nodes and {edges} edges");
}

// The property's rows are what the sheet's notes speak of.
pub fn say_judged(
    stdout: &mut Buffered,
    answer: Result<Judged, Refusal>,
    out: &[u8],
    property: &[u8],
    at: Option<usize>,
) {
    match answer {
        Ok(Judged::Holds) => {
            say!(stdout, "holds at every entry\n");
            give_sheet(stdout, out, 0, property, at);
        }
        Ok(Judged::Fails(records)) => {
            say!(stdout, "fails with a fault sheet of {records} records\n");
            give_sheet(stdout, out, records, property, at);
        }
        Err(r) => say_refused(stdout, r),
    }
}

pub fn say_compared(
    stdout: &mut Buffered,
    answer: Result<Compared, Refusal>,
    out: &[u8],
    nodes: usize,
    at: Option<usize>,
) {
    match answer {
        Ok(Compared::Yes) => {
            say!(stdout, "yes the second simulates the first\n");
            give_relation(stdout, out, nodes, at);
        }
        Ok(Compared::No(entry)) => {
            say!(
                stdout,
                "no entry of the second covers entry {entry} of the first\n"
            );
            give_relation(stdout, out, nodes, at);
        }
        Err(r) => say_refused(stdout, r),
    }
}

// A graph of which nothing is told but its counts: a model, or the standing graph.
pub fn say_written(
    stdout: &mut Buffered,
    answer: Result<GraphView, Refusal>,
    out: &[u8],
    at: Option<usize>,
) {
    match answer {
        Ok(GraphView { nodes, edges }) => {
            say_counts(stdout, nodes, edges);
            say!(stdout, "\n");
            give_graph(stdout, out, nodes, edges, at);
        }
        Err(r) => say_refused(stdout, r),
    }
}

pub fn say_joined(
    stdout: &mut Buffered,
    answer: Result<Joined, Refusal>,
    out: &[u8],
    at: Option<usize>,
) {
    match answer {
        Ok(
            Joined {
                nodes,
                edges,
                provided,
                required,
            },
        ) => {
            say_counts(stdout, nodes, edges);
            say!(stdout, ", provided {provided}, required {required}\n");
            give_graph(stdout, out, nodes, edges, at);
        }
        Err(r) => say_refused(stdout, r),
    }
}

pub fn say_shown(stdout: &mut Buffered, part: &[u8], at: Option<usize>) {
    say!(stdout, "shown\n");
    give(stdout, part, at, say_bytes);
}

pub fn say_watched(
    stdout: &mut Buffered,
    answer: Result<Verdict, Refusal>,
    clean: &str,
    out: &[u8],
    start: u8,
    at: Option<usize>,
) {
    match answer {
        Ok(Verdict::Clean) => {
            say!(stdout, "{clean}\n");
            give_trail(stdout, out, 0, start, at);
        }
        Ok(Verdict::Bad(records)) => {
            say!(stdout, "bad by a trail of {records} records\n");
            give_trail(stdout, out, records, start, at);
        }
        Ok(Verdict::Impossible) => {
            say!(
                stdout,
                "impossible since on an unwritten side no module with an entry for each provided method satisfies the property\n"
            );
            give_trail(stdout, out, 0, start, at);
        }
        Err(r) => say_refused(stdout, r),
    }
}
