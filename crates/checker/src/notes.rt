// What the records of a result say, behind a # on their lines: a trail, a fault sheet, a relation. The decimals stand in front as they do without notes, so that `checker pack`
// reads a printed result back.
use crate::ranges::{Ranges, members};
use crate::text::{Formula, say_decimals, say_record};
use files::cells::wide;
use files::encode::LINE;
use files::record::Step;
use printing::stdout::Buffered;
use printing::{Fields, records, say};

// What a step does, by its kind: an internal step, a call entered, or a call passed over.
fn say_act(stdout: &mut Buffered, kind: u8, label: u8) {
    match Step::of(kind) {
        Some(Step::Internal) => say!(stdout, ", steps to"),
        Some(Step::Entered) => say!(stdout, ", calls method {label} and enters"),
        _ => say!(stdout, ", calls method {label}, which returns:"),
    }
}

// The step that a record is, made in the method.
fn say_step(stdout: &mut Buffered, step: &Fields, method: u8) {
    let [node, state, kind, label, reached, next] = *step;
    let starts = Step::of(kind) == Some(Step::Start);
    if starts {
        say!(stdout, "starts at ");
    }
    say!(stdout, "node {node} of method {method}, in state {state}");
    if !starts {
        say_act(stdout, kind, label);
        say!(stdout, " node {reached} in state {next}");
        if next == 7 {
            say!(stdout, ", bad");
        }
    }
}

// A trail from the start method on. Only a call entered leaves a method.
pub fn say_trail(stdout: &mut Buffered, trail: &[u8], start: u8) {
    let mut method = start;
    for (i, step) in records(trail).iter().enumerate() {
        let number = i + 1;
        say_record(stdout, step);
        say!(stdout, "step {number}: ");
        say_step(stdout, step, method);
        say!(stdout, "\n");
        if Step::of(step[2]) == Some(Step::Entered) {
            method = step[3];
        }
    }
}

// What the row asks for, in brackets.
fn say_asked(stdout: &mut Buffered, property: &[u8], row: u8) {
    if let Some([_, op, a, b, ..]) = records(property).get(wide(row)) {
        let formula = Formula {
            op: *op,
            a: *a,
            b: *b,
        };
        say!(stdout, " ({formula})");
    }
}

// A cause behind its first word, where there is one: row 255 is none.
fn say_cause(stdout: &mut Buffered, word: &str, node: u8, row: u8) {
    if row != 255 {
        say!(stdout, "{word} row {row} is false at node {node}");
    }
}

fn say_fault(stdout: &mut Buffered, fault: &Fields, property: &[u8]) {
    let [node, row, node1, row1, node2, row2] = *fault;
    say_record(stdout, fault);
    say!(stdout, "node {node}, row {row}");
    say_asked(stdout, property, row);
    say!(stdout, ": false");
    say_cause(stdout, ", since", node1, row1);
    say_cause(stdout, " and", node2, row2);
    say!(stdout, "\n");
}

pub fn say_sheet(stdout: &mut Buffered, sheet: &[u8], property: &[u8]) {
    for fault in records(sheet) {
        say_fault(stdout, fault, property);
    }
}

// The nodes of a line.
fn say_related(stdout: &mut Buffered, line: &[u8; LINE]) {
    let noun = match members(line) {
        0 => "none",
        1 => "node ",
        _ => "nodes ",
    };
    let nodes = Ranges {
        set: line,
        first: "",
        comma: ", ",
    };
    say!(stdout, "{noun}{nodes}");
}

pub fn say_relation(stdout: &mut Buffered, relation: &[u8]) {
    let (lines, _) = relation.as_chunks::<LINE>();
    for (g, line) in lines.iter().enumerate() {
        say_decimals(stdout, line);
        say!(stdout, " # node {g}: related to ");
        say_related(stdout, line);
        say!(stdout, "\n");
    }
}
