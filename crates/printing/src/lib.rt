// What the programs print on standard output: words with numbers in them, and bytes as decimals, a record or a relation's line to a line; and what they are given, arguments and
// files. What is printed is tested, not proved; it is proved that nothing is read past its end and that every call returns. A line of several parts is printed by a function
// `say_..`, and what stands inside a line is a `Display`: a `Display` of each line would only wrap its function.
#![tactic(auto)]

ghost use Rattle.std.specs.Prelude.{◌≡◌, ◌/◌, length, take};
ghost use Rattle.files.specs.Places.{record_len};

pub mod input;
pub mod stdout;

use crate::stdout::Buffered;
use files::encode::LINE;
use files::record::Record;

// Prints a format on a `Buffered`, as `print!` does on standard output, with no failure to pass on.
#[macro_export]
macro_rules! say {
    ($stdout:expr, $($format:tt)*) => {
        $stdout.say(format_args!($($format)*))
    };
}

// A buffer of N bytes. Where a long array of zeros stands in a function, its proof counts the zeros.
pub fn zeros<const N: usize>() -> [u8; N]
    ensures { N ≡ length result }
{
    [0; N]
}

// The first n bytes, or all that there are.
pub fn first(bytes: &[u8], n: usize) -> &[u8]
    ensures { result.now ≡ take n bytes.now }
{
    &bytes[..n.min(bytes.len())]
}

// The bytes of a record.
pub type Fields = [u8; Record::LEN];

// The whole records of these bytes.
pub fn records(bytes: &[u8]) -> &[Fields]
    ensures { length result.now ≡ length bytes.now / record_len }
{
    let (records, _) = bytes.as_chunks();
    records
}

// Bytes as decimals, in a line.
pub fn say_bytes(stdout: &mut Buffered, bytes: &[u8]) {
    if let [first, others @ ..] = bytes {
        say!(stdout, "{first}");
        for b in others {
            say!(stdout, " {b}");
        }
    }
    say!(stdout, "\n");
}

// The first n records of what a call wrote, or all that there are.
pub fn say_records(stdout: &mut Buffered, out: &[u8], n: usize) {
    for record in records(out).iter().take(n) {
        say_bytes(stdout, record);
    }
}

// The records of so many nodes and edges.
pub fn say_graph(stdout: &mut Buffered, out: &[u8], nodes: usize, edges: usize) {
    say_records(stdout, out, nodes.saturating_add(edges));
}

// The lines of a relation.
pub fn say_lines(stdout: &mut Buffered, out: &[u8]) {
    let (lines, _) = out.as_chunks::<LINE>();
    for line in lines {
        say_bytes(stdout, line);
    }
}
