// `checker pack`: a readable listing as bytes. Decimals from 0 to 255 stand for a byte each, with spaces and line ends between them; a # and what follows it on its line says
// nothing.
use crate::arguments::longer;
use crate::load::give;
use printing::stdout::Buffered;
use printing::{first, say};

// What the bytes so far leave open: a decimal of this value, or a comment.
#[derive(Clone, Copy)]
enum Open {
    Nothing,
    Decimal(usize),
    Comment,
}

// Where the reading of a listing stands: so many bytes are written, on this line.
#[derive(Clone, Copy)]
struct Packing {
    bytes: usize,
    line: usize,
    open: Open,
}

// The line that was reached when what stood there was no decimal from 0 to 255.
#[derive(Clone, Copy)]
struct Unreadable {
    line: usize,
}

impl Packing {
    // The value of the decimal that is open.
    fn value(self) -> usize {
        match self.open {
            Open::Decimal(value) => value,
            Open::Nothing | Open::Comment => 0,
        }
    }

    // How many bytes are written once the open decimal has ended, where its byte is written.
    fn ended(self, out: &mut [u8]) -> Option<usize> {
        let Open::Decimal(value) = self.open else {
            return Some(self.bytes);
        };
        let byte = u8::try_from(value).ok()?;
        if self.bytes >= out.len() {
            return None;
        }
        out[self.bytes] = byte;
        Some(self.bytes + 1)
    }

    // What may end a decimal or stand between two has been read, and leaves this open on this line.
    fn between(self, line: usize, open: Open, out: &mut [u8]) -> Result<Packing, Unreadable> {
        let bytes = self.ended(out).ok_or(Unreadable { line })?;
        Ok(Packing { bytes, line, open })
    }

    // One byte of the listing further.
    fn step(self, byte: u8, out: &mut [u8]) -> Result<Packing, Unreadable> {
        let Packing { bytes, line, open } = self;
        if let Open::Comment = open
            && byte != b'\n'
        {
            return Ok(self);
        }
        if let Some(value) = longer(self.value(), byte) {
            let open = Open::Decimal(value);
            return Ok(Packing { bytes, line, open });
        }
        match byte {
            b' ' | b'\t' | b'\r' => self.between(line, Open::Nothing, out),
            b'\n' => self.between(line.saturating_add(1), Open::Nothing, out),
            b'#' => self.between(line, Open::Comment, out),
            _ => Err(Unreadable { line }),
        }
    }
}

// A byte takes the place of a part of the listing that is read: it is written at the end of its decimal, and every decimal before it has a digit and a byte behind it.
fn pack_all(listing: &mut [u8]) -> Result<usize, Unreadable> {
    let mut packing = Packing {
        bytes: 0,
        line: 1,
        open: Open::Nothing,
    };
    for i in 0..listing.len() {
        let byte = listing[i];
        packing = packing.step(byte, listing)?;
    }
    let line = packing.line;
    packing.ended(listing).ok_or(Unreadable { line })
}

// The listing is spent: its bytes stand where it stood.
pub fn pack(stdout: &mut Buffered, listing: &mut [u8], at: Option<usize>) {
    match pack_all(listing) {
        Ok(bytes) => give(stdout, first(listing, bytes), at, Buffered::put_all),
        Err(Unreadable { line }) => {
            say!(stdout, "error no decimal from 0 to 255 on line {line}\n")
        }
    }
}
