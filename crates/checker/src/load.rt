// Files by name: read whole or not at all, and written.
ghost use Rattle.std.specs.Prelude.{◌<◌, ◌≤◌, IfSome, length};

use crate::arguments::say_argument;
use printing::input::{arg, buffer, open_read, path, read_full};
use printing::say;
use printing::stdout::Buffered;
use std::io::Read;
use std::{fs, io};

fn complain(stdout: &mut Buffered, words: &str, i: usize) {
    say!(stdout, "error {words}: ");
    say_argument(stdout, i);
    say!(stdout, "\n");
}

// The file that argument i names, read to the start of `room`, or a line that says why not. One more read tells whether that was all of it, so no file is taken in part.
pub fn load<'a>(stdout: &mut Buffered, i: usize, room: &'a mut [u8]) -> Option<&'a mut [u8]>
    ensures { IfSome result (λ file. length file.now ≤ length room.old) }
{
    let mut name = buffer();
    let Ok(mut opened) = open_read(stdout.rt, arg(stdout.rt, i, &mut name)) else {
        complain(stdout, "this file cannot be read", i);
        return None;
    };
    let file = read_full(&mut opened, room);
    match opened.read(&mut [0]) {
        Ok(0) => return Some(file),
        Ok(_) => complain(stdout, "this file is too long to read", i),
        Err(_) => complain(stdout, "this file cannot be read", i),
    }
    None
}

// The files that argument i and the next one name. Where both cannot be had, both have their line.
pub fn load_two<'a>(
    stdout: &mut Buffered,
    i: usize,
    first: &'a mut [u8],
    second: &'a mut [u8],
) -> Option<(&'a mut [u8], &'a mut [u8])>
    requires { i < 100 }
    ensures { IfSome result (λ files. (length files.0.now ≤ length first.old) × (length files.1.now ≤ length second.old)) }
{
    let first = load(stdout, i, first);
    let second = load(stdout, i + 1, second);
    first.zip(second)
}

// Writes bytes to the file of this name.
fn overwrite(rt: HostRuntime, name: &[u8], bytes: &[u8]) -> io::Result<()> {
    fs::write(&rt, path(name)?, bytes)
}

// Writes bytes to the file that argument i names.
fn save(stdout: &mut Buffered, i: usize, bytes: &[u8]) {
    let mut name = buffer();
    if overwrite(stdout.rt, arg(stdout.rt, i, &mut name), bytes).is_err() {
        complain(stdout, "this file cannot be written", i);
    }
}

// Gives a result: shown, or to the file that argument `at` names, where there is one.
pub fn give<F: FnOnce(&mut Buffered, &[u8])>(
    stdout: &mut Buffered,
    bytes: &[u8],
    at: Option<usize>,
    show: F,
)
    requires { F.IsAlwaysCallable show }
{
    match at {
        None => show(stdout, bytes),
        Some(i) => save(stdout, i, bytes),
    }
}
