// `checker text`: a file as a readable listing. A record is its six decimals, then after a # what it says; `checker pack` reads such a listing back.
use files::record::{Operator, Record};
use printing::stdout::Buffered;
use printing::{Fields, say};
use std::fmt;
use std::fmt::{Display, Formatter, Write};

fn say_node(stdout: &mut Buffered, i: usize, method: u8, returns: u8, entry: u8) {
    say!(stdout, "node {i} in method {method}");
    if returns != 0 {
        say!(stdout, ", return");
    }
    if entry != 0 {
        say!(stdout, ", entry");
    }
}

fn say_edge(stdout: &mut Buffered, from: u8, label: u8, to: u8) {
    match label {
        0 => say!(stdout, "from node {from} an internal step to node {to}"),
        _ => say!(
            stdout,
            "from node {from} a call of method {label} to node {to}"
        ),
    }
}

// What a row asks for.
#[derive(Clone, Copy)]
pub struct Formula {
    pub op: u8,
    pub a: u8,
    pub b: u8,
}

impl Display for Formula {
    fn fmt<W: Write>(&self, f: &mut Formatter<W>) -> fmt::Result {
        let Formula { op, a, b } = *self;
        match op {
            Operator::TRUE => write!(f, "true"),
            Operator::FALSE => write!(f, "false"),
            Operator::IN_METHOD => write!(f, "in method {a}"),
            Operator::NOT_IN_METHOD => write!(f, "not in method {a}"),
            Operator::RETURNS => write!(f, "return"),
            Operator::NOT_RETURNS => write!(f, "not return"),
            Operator::AND => write!(f, "row {a} and row {b}"),
            Operator::OR => write!(f, "row {a} or row {b}"),
            Operator::BOX => write!(f, "after every edge with label {a}, row {b}"),
            Operator::BOX_ALL => write!(f, "after every edge, row {a}"),
            _ => write!(f, "no operator of this number"),
        }
    }
}

fn say_rule(stdout: &mut Buffered, state: u8, event: u8, m1: u8, m2: u8, next: u8) {
    let event = if event == 1 { "calls" } else { "returns to" };
    say!(
        stdout,
        "in state {state} method {m1} {event} {m2}: state {next}"
    );
}

// A set of methods: k + 1 is in it where its bit of weight 2^k is set.
#[derive(Clone, Copy)]
struct Methods(u8);

impl Display for Methods {
    fn fmt<W: Write>(&self, f: &mut Formatter<W>) -> fmt::Result {
        let Methods(set) = *self;
        if set == 0 {
            return write!(f, " nothing");
        }
        for k in 0..8u8 {
            if (set >> k) % 2 == 1 {
                let method = k + 1;
                write!(f, " {method}")?;
            }
        }
        Ok(())
    }
}

fn say_interface(stdout: &mut Buffered, provided: u8, required: u8) {
    let provided = Methods(provided);
    let required = Methods(required);
    say!(stdout, "provides{provided}, requires{required}");
}

// What a record says, which is record i behind the last opening.
fn say_meaning(stdout: &mut Buffered, i: usize, record: &Fields) {
    let [kind, first, second, third, fourth, fifth] = *record;
    match kind {
        Record::NODE => say_node(stdout, i, first, second, third),
        Record::EDGE => say_edge(stdout, first, second, third),
        Record::ROW => {
            let formula = Formula {
                op: first,
                a: second,
                b: third,
            };
            say!(stdout, "row {i}: {formula}")
        }
        Record::RULE => say_rule(stdout, first, second, third, fourth, fifth),
        Record::INTERFACE => say_interface(stdout, first, second),
        Record::OPENING => say!(stdout, "delivery of method {first}, revision {second}"),
        _ => say!(stdout, "no record of this kind"),
    }
}

// Bytes as decimals, with a space after each.
pub fn say_decimals(stdout: &mut Buffered, bytes: &[u8]) {
    for b in bytes {
        say!(stdout, "{b} ");
    }
}

// A record up to its note.
pub fn say_record(stdout: &mut Buffered, record: &Fields) {
    say_decimals(stdout, record);
    say!(stdout, " # ");
}

// The records, then the bytes after the last whole one. A delivery numbers its nodes from 0, so records are counted behind the last opening.
pub fn list(stdout: &mut Buffered, file: &[u8]) {
    let (records, rest) = file.as_chunks::<{ Record::LEN }>();
    let mut i = 0;
    for record in records {
        say_record(stdout, record);
        say_meaning(stdout, i, record);
        say!(stdout, "\n");
        i = if record[0] == Record::OPENING {
            0
        } else {
            i + 1
        };
    }
    if !rest.is_empty() {
        say_decimals(stdout, rest);
        say!(stdout, " # no whole record\n");
    }
}
