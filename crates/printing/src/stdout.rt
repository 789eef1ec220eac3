// Standard output by the bufferful: 65,536 bytes of text, how many of them are used, and the runtime that they go to. The first failed write is kept until the end, so that what
// prints has no failure to pass on; nothing is written behind it.
ghost use Rattle.std.specs.Prelude.{◌≡◌, ◌≤◌, length, Err, IfErr};
ghost use Rattle.printing.specs.Places.{text_room};

use crate::zeros;
use std::fmt::{Display, Write};
use std::{fmt, io};

// Bytes written at once.
const ROOM: usize = 65536;

pub struct Buffered {
    pub rt: HostRuntime,
    text: [u8; ROOM],
    used: usize,
    outcome: io::Result<()>,
    ghost in_room: { used ≤ text_room },
}

impl Buffered {
    // A buffer with nothing in it.
    pub fn new(rt: HostRuntime) -> Self
        ensures empty { result.used ≡ 0 }
        ensures room { text_room ≡ length result.text }
    {
        Buffered {
            rt,
            text: zeros(),
            used: 0,
            outcome: Ok(()),
        }
    }

    // Writes what the buffer holds and empties it.
    pub fn flush(&mut self)
        ensures empty { self.new.used ≡ 0 }
        ensures kept { IfErr self.old.outcome (λ e. self.new.outcome ≡ Err e) }
    {
        if self.outcome.is_ok() {
            self.outcome = self.rt.write_all(&self.text[..self.used]);
        }
        self.used = 0;
    }

    // One byte more, behind a full buffer's writing.
    fn put(&mut self, byte: u8)
        ensures kept { IfErr self.old.outcome (λ e. self.new.outcome ≡ Err e) }
    {
        if self.used == ROOM {
            self.flush();
        }
        self.text[self.used] = byte;
        self.used += 1;
    }

    // Bytes as they are.
    pub fn put_all(&mut self, bytes: &[u8])
        ensures kept { IfErr self.old.outcome (λ e. self.new.outcome ≡ Err e) }
    {
        for byte in bytes {
            self.put(*byte);
        }
    }

    // A value as text: what `say!` calls.
    pub fn say<D: Display + Drop>(&mut self, words: D) {
        let _ = self.write(words);
    }

    // Writes what the buffer still holds, and answers the first failure of all writes.
    pub fn finish(mut self) -> io::Result<()> {
        self.flush();
        let Buffered {
            rt: _,
            text: _,
            used: _,
            outcome,
        } = self;
        outcome
    }
}

impl Write for Buffered {
    fn write_str(&mut self, words: &str) -> fmt::Result {
        self.put_all(words.as_bytes());
        Ok(())
    }
}
