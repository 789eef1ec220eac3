// The program's arguments: words, names of files and decimals.
ghost use Rattle.std.specs.Prelude.{◌≤◌, IfSome};
ghost use Rattle.checker.specs.Places.{number_most};

use crate::lengths::Lengths;
use printing::input::{arg, buffer};
use printing::say;
use printing::stdout::Buffered;

pub fn is_word(stdout: &Buffered, i: usize, word: &[u8]) -> bool {
    let mut room = buffer();
    arg(stdout.rt, i, &mut room) == word
}

pub fn say_argument(stdout: &mut Buffered, i: usize) {
    let mut room = buffer();
    let argument = arg(stdout.rt, i, &mut room);
    stdout.put_all(argument);
}

// The value with one more digit, if the byte is one.
pub fn longer(value: usize, byte: u8) -> Option<usize>
    ensures { IfSome result (λ v. v ≤ number_most) }
{
    let digit = (byte as char).to_digit(10)?;
    let value = value.saturating_mul(10).saturating_add(digit as usize);
    Some(value.min(Lengths::NUMBER))
}

fn decimal(text: &[u8]) -> Option<usize> {
    let mut value = 0;
    for byte in text {
        value = longer(value, *byte)?;
    }
    if text.is_empty() { None } else { Some(value) }
}

// Argument i as a number; where it is none, a line says so.
pub fn number(stdout: &mut Buffered, i: usize) -> Option<usize> {
    let mut room = buffer();
    let text = arg(stdout.rt, i, &mut room);
    let value = decimal(text);
    if value.is_none() {
        say!(stdout, "error not a number: ");
        stdout.put_all(text);
        say!(stdout, "\n");
    }
    value
}
