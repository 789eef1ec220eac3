// What a program is given: arguments by their number, files by name, and the bytes of standard input and of files. An argument and bytes that cannot be had count as none.
ghost use Rattle.std.specs.Prelude.{◌≡◌, ◌≤◌, length};
ghost use Rattle.printing.specs.Places.{argument_room, large_room};

use crate::{first, zeros};
use std::env::FillError;
use std::fs::File;
use std::io::{ErrorKind, Read};
use std::rt::Env;
use std::{fs, io};

// Bytes of an argument, or of a path that the system takes.
pub const ARGUMENT: usize = 4096;

// Bytes of a file or of a result.
pub const LARGE: usize = 65536;

// A buffer that holds any path.
pub fn buffer() -> [u8; ARGUMENT]
    ensures { argument_room ≡ length result }
{
    zeros()
}

// A buffer that holds a file or a result.
pub fn large_buffer() -> [u8; LARGE]
    ensures { large_room ≡ length result }
{
    zeros()
}

// How many arguments the program was started with, its own name among them.
pub fn arg_count(rt: HostRuntime) -> usize {
    for i in 0..usize::MAX {
        if let Err(FillError::NotPresent) = rt.arg(i, &mut []) {
            return i;
        }
    }
    usize::MAX
}

// Argument i, at the start of `room`: no byte where it is missing or longer than that.
pub fn arg<'a>(rt: HostRuntime, i: usize, room: &'a mut [u8]) -> &'a [u8]
    ensures { length result.now ≤ length room.old }
{
    let n = rt.arg(i, room).unwrap_or(0);
    first(room, n)
}

// Reads until `room` is full, the input ends or a read fails, and answers what it read, which stands at the start of `room`.
pub fn read_full<'a, R: Read>(input: &mut R, room: &'a mut [u8]) -> &'a mut [u8]
    ensures { length result.now ≤ length room.old }
{
    let mut done = 0;
    // A read says how much it brought, so the step is no count.
    while done < room.len() {
        let n = input.read(&mut room[done..]).unwrap_or(0);
        if n == 0 {
            break;
        }
        done += n;
    }
    &mut room[..done]
}

// A name as a path, which is UTF-8.
pub fn path(name: &[u8]) -> io::Result<&str> {
    std::str::from_utf8(name).map_err(|_| io::Error::from(ErrorKind::InvalidFilename))
}

// The file of this name, to be read.
pub fn open_read(rt: HostRuntime, name: &[u8]) -> io::Result<File> {
    fs::open(&rt, path(name)?)
}
