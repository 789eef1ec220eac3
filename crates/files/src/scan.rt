// What loops over the records of a file: the lowest number that is found at its first record, and what number 5 counts apart. States that `look_through` and
// `name_through` find the lowest of 2 to 4 and of 7 and 8, and that `count` is the count.
ghost use Rattle.std.specs.Prelude.{◌≡◌, ◌+◌, ◌*◌, ◌≤◌, ◌<◌, length};
ghost use Rattle.files.specs.Places.{usize_end, record_len};
ghost use Rattle.files.specs.Record.{count};
ghost use Rattle.files.specs.FileKind.{kind_of};
ghost use Rattle.files.specs.Checking.{test, lower, lowest, counts, counted, bound_of, Sound};

use crate::naming::name;
use crate::offence::{FileKind, look};
use crate::parse::{kind_at, read};
use crate::record::{Operator, Record};
use crate::refusal::Refusal;

// The one of the lower number, the earlier where they have the same.
pub(crate) fn lower(found: Result<(), Refusal>, next: Result<(), Refusal>) -> Result<(), Refusal>
    ensures { result ≡ lower found next }
{
    let Err(later) = next else {
        return found;
    };
    let Err(earlier) = found else {
        return next;
    };
    if later.number < earlier.number {
        next
    } else {
        found
    }
}

// The lowest of numbers 2 to 4, at its first record.
pub(crate) fn look_through(
    kind: FileKind,
    records: &[u8],
    first: usize,
    position: u8,
) -> Result<(), Refusal>
    requires { first + length records.now < usize_end }
    ensures { result ≡ lowest 3 2 (test (kind_of kind) records.now) first position (count records.now) }
{
    let n = records.len() / Record::LEN;
    let mut found = Ok(());
    for i in 0..n {
        let next = look(kind, records, i, first, position);
        found = lower(found, next);
    }
    found
}

// The lower of numbers 7 and 8, at its first record, where so many nodes or rows can be named.
pub(crate) fn name_through(
    kind: FileKind,
    records: &[u8],
    bound: usize,
    first: usize,
    position: u8,
) -> Result<(), Refusal>
    requires { (Sound (kind_of kind) records.now) × ((bound ≡ bound_of (kind_of kind) records.now) × (first + length records.now < usize_end)) }
    ensures { result ≡ lowest 2 7 (test (kind_of kind) records.now) first position (count records.now) }
{
    let n = records.len() / Record::LEN;
    let mut found = Ok(());
    for i in 0..n {
        let next = name(kind, records, bound, i, first, position);
        found = lower(found, next);
    }
    found
}

// Whether number 5 counts record i apart.
fn counts(kind: FileKind, records: &[u8], i: usize) -> bool
    requires { record_len * i + record_len ≤ length records.now }
    ensures { result ≡ counts (kind_of kind) records.now i }
{
    match kind {
        FileKind::Graph => kind_at(records, i) == Record::NODE,
        FileKind::Property => {
            let r = read(records, i);
            r.first == Operator::OR
        }
        FileKind::Rules | FileKind::Interface => false,
    }
}

// How many records number 5 counts apart: nodes of a graph, or-rows of a property. One pass.
pub(crate) fn count(kind: FileKind, records: &[u8]) -> usize
    ensures { result ≡ counted (kind_of kind) records.now }
{
    let n = records.len() / Record::LEN;
    let mut apart = 0;
    for i in 0..n {
        let this = counts(kind, records, i);
        apart += this as usize;
    }
    apart
}
