// Runs the examples of data/ through the proved code, one after the other as the arguments name them. The first letter of a name tells what its file is: a graph,
// property, rule or interface file is checked, and its line has `accepted`, nodes and records, or `refused`, number, file and record; `judge`, `compare` and
// `model` name a call on two files, `join` (by its second letter) one on two sides, `show` one on two graphs and a number, `watch` one on three files and a
// start method, `compose` (by its fifth letter) and `both` one on five, `assemble` one on deliveries and `deliveries` one on them and a property, and the verdict's
// line is followed by the records or the relation's lines that it wrote.
#![tactic(auto)]

use crate::answers::say_checked;
use crate::deliveries::{assemble_standing, judge_standing};
use crate::lengths::EXAMPLE;
use crate::pairs::{compare, judge, model};
use crate::sides::{join_sides, show_node};
use crate::watched::{compose_both, compose_one, watch_runs};
use files::offence::FileKind;
use printing::input::{arg, arg_count, buffer, open_read, read_full};
use printing::stdout::Buffered;
use printing::{first, zeros};
use std::io;
use std::io::{Cursor, Write};

mod answers;
mod deliveries;
mod lengths;
mod pairs;
mod sides;
mod watched;

// Runs an example by the letters of its name.
fn run(stdout: &mut Buffered, name: &[u8], file: &[u8]) {
    match name {
        [b'j', b'o', ..] => join_sides(stdout, file),
        [b'j', ..] => judge(stdout, file),
        [b'c', _, _, _, b'o', ..] => compose_one(stdout, file),
        [b'c', ..] => compare(stdout, file),
        [b'm', ..] => model(stdout, file),
        [b's', ..] => show_node(stdout, file),
        [b'w', ..] => watch_runs(stdout, file),
        [b'b', ..] => compose_both(stdout, file),
        [b'a', ..] => assemble_standing(stdout, file),
        [b'd', ..] => judge_standing(stdout, file),
        [b'g', ..] => say_checked(stdout, FileKind::Graph, file),
        [b'p', ..] => say_checked(stdout, FileKind::Property, file),
        [b'r', ..] => say_checked(stdout, FileKind::Rules, file),
        _ => say_checked(stdout, FileKind::Interface, file),
    }
}

// A line on standard error: the name and what is wrong with it, in C's words, behind which std puts the error's number.
fn fail(rt: HostRuntime, name: &[u8], why: io::Error) {
    let mut text = Cursor::new([0u8; 256]);
    let _ = write!(text, "{why}");
    let written = first(text.get_ref(), text.position() as usize);
    let words = std::str::from_utf8(written).unwrap_or("");
    let words = words
        .split_once(" (os error ")
        .map_or(words, |(words, _)| words);
    let stderr = rt.stderr();
    let _ = stderr.write_all(name);
    let _ = stderr.write_all(b": ");
    let _ = stderr.write_all(words.as_bytes());
    let _ = stderr.write_all(b"\n");
}

// The example that argument i names.
fn one(stdout: &mut Buffered, i: usize) {
    let mut room = buffer();
    let name = arg(stdout.rt, i, &mut room);
    match open_read(stdout.rt, name) {
        Err(why) => fail(stdout.rt, name, why),
        Ok(mut opened) => {
            let mut file = zeros::<EXAMPLE>();
            let file = read_full(&mut opened, &mut file);
            stdout.put_all(name);
            run(stdout, name, file);
        }
    }
}

fn main(rt: HostRuntime) -> io::Result<()> {
    let n = arg_count(rt);
    let mut stdout = Buffered::new(rt);
    for i in 1..n {
        one(&mut stdout, i);
    }
    stdout.finish()
}
