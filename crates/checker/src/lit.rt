// What lights a picture of `checker dot` in red: the steps of a trail, numbered, or the rows of a fault sheet that are false and their causes. The graph's own arrows stay as
// they are.
ghost use Rattle.std.specs.Prelude.{◌<◌};

use crate::arrows::say_ends;
use crate::ranges::Ranges;
use files::cells::{put_bit, wide};
use files::encode::LINE;
use files::record::Step;
use printing::stdout::Buffered;
use printing::{Fields, records, say};

// What lights a picture. No byte of a file tells a trail from a fault sheet.
#[derive(Clone, Copy)]
pub enum Lit<'a> {
    Nothing,
    Trail(&'a [Fields]),
    Sheet(&'a [Fields]),
}

impl<'a> Lit<'a> {
    // The trail of a file, which lights nothing if it is empty.
    pub fn trail(file: &'a [u8]) -> Self {
        if file.is_empty() {
            return Lit::Nothing;
        }
        Lit::Trail(records(file))
    }

    // The fault sheet of a file, likewise.
    pub fn sheet(file: &'a [u8]) -> Self {
        if file.is_empty() {
            return Lit::Nothing;
        }
        Lit::Sheet(records(file))
    }
}

// Field k of some record is the value.
pub fn is_in(records: &[Fields], k: usize, value: u8) -> bool
    requires { k < 6 }
{
    records.iter().any(|record| record[k] == value)
}

// The trail reaches the node, or a row is false there: a cause has a record of its own, so the first field tells.
pub fn is_lit(lit: Lit, node: u8) -> bool {
    match lit {
        Lit::Nothing => false,
        Lit::Trail(trail) => is_in(trail, 4, node),
        Lit::Sheet(sheet) => is_in(sheet, 0, node),
    }
}

// A node's line for the trail's start.
fn say_start(stdout: &mut Buffered, trail: &[Fields], node: u8) {
    if let Some([_, _, kind, _, reached, _]) = trail.first() {
        if Step::of(*kind) == Some(Step::Start) && *reached == node {
            say!(stdout, "\\n1: start");
        }
    }
}

fn rows_at(sheet: &[Fields], node: u8) -> [u8; LINE] {
    let mut rows = [0; LINE];
    for fault in sheet {
        if fault[0] == node {
            put_bit(&mut rows, 0, wide(fault[1]));
        }
    }
    rows
}

// A node's line for the trail's start, or for the rows that are false there.
pub fn say_at_node(stdout: &mut Buffered, lit: Lit, node: u8) {
    match lit {
        Lit::Nothing => {}
        Lit::Trail(trail) => say_start(stdout, trail, node),
        Lit::Sheet(sheet) => {
            let rows = Ranges {
                set: &rows_at(sheet, node),
                first: "\\nrow ",
                comma: ", ",
            };
            say!(stdout, "{rows}");
        }
    }
}

// The arrow of step i of a trail, from 1, where it is no start. A call entered leads where no edge of the graph does, so it is dashed.
fn say_step(stdout: &mut Buffered, i: usize, step: &Fields) {
    let [node, _, kind, label, reached, _] = *step;
    let step = Step::of(kind);
    if step == Some(Step::Start) {
        return;
    }
    say_ends(stdout, node, reached);
    match step {
        Some(Step::Internal) => say!(stdout, "{i}: step \"];\n"),
        Some(Step::Entered) => say!(stdout, "{i}: enters {label} \", style=dashed];\n"),
        _ => say!(stdout, "{i}: call {label} \"];\n"),
    }
}

// The arrow to a cause at another node; one at the same node is told by that node's rows, since loops beside each other cannot be read.
fn say_cause(stdout: &mut Buffered, node: u8, row: u8, cause: u8, cause_row: u8) {
    if cause_row != 255 && cause != node {
        say_ends(stdout, node, cause);
        say!(stdout, "row {row}: row {cause_row} \"];\n");
    }
}

fn say_steps(stdout: &mut Buffered, trail: &[Fields]) {
    for (i, step) in trail.iter().enumerate() {
        say_step(stdout, i + 1, step);
    }
}

fn say_causes(stdout: &mut Buffered, sheet: &[Fields]) {
    for fault in sheet {
        let [node, row, node1, row1, node2, row2] = *fault;
        say_cause(stdout, node, row, node1, row1);
        say_cause(stdout, node, row, node2, row2);
    }
}

// The red arrows, behind one line that makes them red.
pub fn say_red(stdout: &mut Buffered, lit: Lit) {
    let red = "  edge [color=red, fontcolor=red];\n";
    match lit {
        Lit::Nothing => {}
        Lit::Trail(trail) => {
            say!(stdout, "{red}");
            say_steps(stdout, trail);
        }
        Lit::Sheet(sheet) => {
            say!(stdout, "{red}");
            say_causes(stdout, sheet);
        }
    }
}
