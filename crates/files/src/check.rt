// Checking a file: accepted, with the counts that upper layers need, or refused by the lowest number among 1 to 8 at its first offending record.
// Numbers 2 to 4 are one pass over the records, 7 and 8 another; 1, 5 and 6 are of the whole file, and the numbers follow each other.
ghost use Rattle.std.specs.Prelude.{◌≡◌, ◌+◌, ◌%◌, ◌≤◌, ◌<◌, length};
ghost use Rattle.files.specs.Places.{usize_end};
ghost use Rattle.files.specs.Refusal.{graph};
ghost use Rattle.files.specs.FileKind.{kind_of};
ghost use Rattle.files.specs.Checking.{checked, counted, nodes_with, bound_with, over_with, missing_with, from_seven, from_five, from_two, Sound};

use crate::offence::FileKind;
use crate::plain::{leading_nodes, plain_edges};
use crate::record::{Limits, Record};
use crate::refusal::Refusal;
use crate::scan::{count, look_through, name_through};

// What an accepted file counts: its records, and the nodes among them.
#[derive(Clone, Copy)]
pub struct FileCounts {
    pub nodes: usize,
    pub records: usize,
}

// How many there are of what records name: nodes in a graph, rows in a property.
fn bound(kind: FileKind, apart: usize, records: usize) -> usize
    ensures { result ≡ bound_with (kind_of kind) apart records }
{
    match kind {
        FileKind::Graph => apart,
        FileKind::Property | FileKind::Rules | FileKind::Interface => records,
    }
}

// The nodes among so many records that number 5 counted.
fn nodes(kind: FileKind, apart: usize) -> usize
    ensures { result ≡ nodes_with (kind_of kind) apart }
{
    match kind {
        FileKind::Graph => apart,
        FileKind::Property | FileKind::Rules | FileKind::Interface => 0,
    }
}

// 5: a limit is passed, by n records of which so many are counted apart. Where no kind is out of place, all records of a graph but the nodes are edges.
pub(crate) fn over(limits: Limits, kind: FileKind, apart: usize, n: usize) -> bool
    requires { apart ≤ n }
    ensures { result ≡ over_with limits (kind_of kind) apart n }
{
    match kind {
        FileKind::Graph => (limits.nodes < apart) | (limits.edges < n - apart),
        FileKind::Property => (limits.rows < n) | (limits.ors < apart),
        FileKind::Rules | FileKind::Interface => false,
    }
}

// 6: a property without rows, an interface file without a record.
fn missing(kind: FileKind, n: usize) -> bool
    ensures { result ≡ missing_with (kind_of kind) n }
{
    match kind {
        FileKind::Graph | FileKind::Rules => false,
        FileKind::Property | FileKind::Interface => n == 0,
    }
}

// The steps from number 7 on.
fn from_seven(
    kind: FileKind,
    records: &[u8],
    first: usize,
    position: u8,
    apart: usize,
) -> Result<FileCounts, Refusal>
    requires { (Sound (kind_of kind) records.now) × ((apart ≡ counted (kind_of kind) records.now) × (first + length records.now < usize_end)) }
    ensures { result ≡ from_seven (kind_of kind) records.now first position }
{
    let n = records.len() / Record::LEN;
    let most = bound(kind, apart, n);
    name_through(kind, records, most, first, position)?;
    Ok(FileCounts {
        nodes: nodes(kind, apart),
        records: n,
    })
}

// The steps from number 5 on.
fn from_five(
    limits: Limits,
    kind: FileKind,
    records: &[u8],
    first: usize,
    position: u8,
) -> Result<FileCounts, Refusal>
    requires { (Sound (kind_of kind) records.now) × (first + length records.now < usize_end) }
    ensures { result ≡ from_five limits (kind_of kind) records.now first position }
{
    let n = records.len() / Record::LEN;
    let apart = count(kind, records);
    if over(limits, kind, apart, n) {
        return Err(Refusal::at(5, position, 0));
    }
    if missing(kind, n) {
        return Err(Refusal::at(6, position, 0));
    }
    from_seven(kind, records, first, position, apart)
}

// The steps from number 2 on, of records that start at record `first` of the file.
fn from_two(
    limits: Limits,
    kind: FileKind,
    records: &[u8],
    first: usize,
    position: u8,
) -> Result<FileCounts, Refusal>
    requires { first + length records.now < usize_end }
    ensures { result ≡ from_two limits (kind_of kind) records.now first position }
{
    look_through(kind, records, first, position)?;
    from_five(limits, kind, records, first, position)
}

// A graph file of whole records: accepted in one pass where it is plainly in order, otherwise looked at number by number.
fn check_records(limits: Limits, file: &[u8], position: u8) -> Result<FileCounts, Refusal>
    requires { length file.now % 6 ≡ 0 }
    ensures { result ≡ checked limits graph file.now position }
{
    let n = file.len() / Record::LEN;
    let nodes = leading_nodes(file);
    if !over(limits, FileKind::Graph, nodes, n) {
        if plain_edges(file, nodes) {
            return Ok(FileCounts { nodes, records: n });
        }
    }
    from_two(limits, FileKind::Graph, file, 0, position)
}

// Checks a whole file of this kind, which stands at a position among a call's files.
pub fn check(
    kind: FileKind,
    file: &[u8],
    position: u8,
    limits: Limits,
) -> Result<FileCounts, Refusal>
    ensures { result ≡ checked limits (kind_of kind) file.now position }
{
    if !(file.len() % Record::LEN == 0) {
        return Err(Refusal::at(1, position, 0));
    }
    let FileKind::Graph = kind else {
        return from_two(limits, kind, file, 0, position);
    };
    check_records(limits, file, position)
}
