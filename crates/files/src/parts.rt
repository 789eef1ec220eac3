// Numbers 5, 7 and 8 of a file of deliveries in which 2 and 3 found nothing: each delivery is a graph by itself, which starts behind its opening and ends at the next. States
// of `passed_deliveries` that it tells 5, and of `name_deliveries` that it finds the lower of 7 and 8 at its first record.
ghost use Rattle.std.specs.Prelude.{◌≡◌, ◌+◌, ◌-◌, ◌*◌, ◌≤◌, ◌<◌, take, drop};
ghost use Rattle.files.specs.Places.{record_len};
ghost use Rattle.files.specs.Record.{count, kind_at};
ghost use Rattle.files.specs.Refusal.{graph, passed};
ghost use Rattle.files.specs.Checking.{found_at, lowest};
ghost use Rattle.files.specs.Deliveries.{own_end, opened, delivery_passed};
ghost use Rattle.files.specs.Deliveries.Names.{PartAt, Held, SoundParts, opening_passed};
ghost use Rattle.files.specs.Deliveries.Steps.{delivery_test};

use crate::check::over;
use crate::naming::name_nodes;
use crate::offence::FileKind;
use crate::parse::{kind_at, read};
use crate::record::{Limits, Record};
use crate::refusal::Refusal;
use crate::scan::{count, lower};

// A delivery: its first record, which is behind its opening, the record after its last, and how many nodes it has.
#[derive(Clone, Copy)]
pub struct Part {
    pub start: usize,
    pub end: usize,
    pub nodes: usize,
}

// The records of the file from `start` up to `end`.
pub(crate) fn records_in(file: &[u8], start: usize, end: usize) -> &[u8]
    requires { (start ≤ end) × (end ≤ count file.now) }
    ensures { result.now ≡ take (record_len * end - record_len * start) (drop (record_len * start) file.now) }
{
    &file[Record::LEN * start..Record::LEN * end]
}

// The next opening from record a on, or the count of records.
fn part_end(file: &[u8], a: usize) -> usize
    requires { a ≤ count file.now }
    ensures { result ≡ own_end file.now a }
{
    let n = file.len() / Record::LEN;
    for e in a..n {
        if kind_at(file, e) == Record::OPENING {
            return e;
        }
    }
    n
}

// The delivery that starts at record a.
pub(crate) fn part_at(file: &[u8], a: usize) -> Part
    requires { a ≤ count file.now }
    ensures { PartAt file.now a result }
{
    let e = part_end(file, a);
    let nodes = count(FileKind::Graph, records_in(file, a, e));
    Part {
        start: a,
        end: e,
        nodes: nodes,
    }
}

// 5 of the delivery that record o opens.
fn passes(file: &[u8], o: usize, limits: Limits) -> bool
    requires { (SoundParts file.now) × ((o < count file.now) × (kind_at file.now o ≡ 6)) }
    ensures { result ≡ passed limits graph (opened file.now (o + 1)) }
{
    let part = part_at(file, o + 1);
    over(limits, FileKind::Graph, part.nodes, part.end - part.start)
}

// 5 of record o, if it opens a delivery.
fn opens_passed(file: &[u8], o: usize, limits: Limits) -> bool
    requires { (SoundParts file.now) × (o < count file.now) }
    ensures { result ≡ opening_passed limits file.now o }
{
    if kind_at(file, o) == Record::OPENING {
        return passes(file, o, limits);
    }
    false
}

// 5: some delivery passes a limit.
pub(crate) fn passed_deliveries(file: &[u8], limits: Limits) -> bool
    requires { SoundParts file.now }
    ensures { result ≡ delivery_passed limits file.now }
{
    let n = file.len() / Record::LEN;
    let mut some = false;
    for o in 0..n {
        some = opens_passed(file, o, limits) | some;
    }
    some
}

// 8 of a node: it is of another method than its opening.
fn name_own(file: &[u8], part: Part, i: usize, position: u8) -> Result<(), Refusal>
    requires { (SoundParts file.now) × ((i < count file.now) × ((Held file.now i part) × (kind_at file.now i ≡ 1))) }
    ensures { result ≡ found_at 2 7 (delivery_test file.now) 0 position i }
{
    let opening = read(file, part.start - 1);
    let node = read(file, i);
    if node.first == opening.first {
        return Ok(());
    }
    Err(Refusal::at(8, position, i))
}

// 7 and 8 of an edge, in the graph that its delivery is.
fn name_edge(file: &[u8], part: Part, i: usize, position: u8) -> Result<(), Refusal>
    requires { (SoundParts file.now) × ((i < count file.now) × ((Held file.now i part) × ((kind_at file.now i ≡ 1 → ⊥) × (kind_at file.now i ≡ 6 → ⊥)))) }
    ensures { result ≡ found_at 2 7 (delivery_test file.now) 0 position i }
{
    name_nodes(
        records_in(file, part.start, part.end),
        part.nodes,
        i - part.start,
        part.start,
        position,
    )
}

fn name_delivery(file: &[u8], part: Part, i: usize, position: u8) -> Result<(), Refusal>
    requires { (SoundParts file.now) × ((i < count file.now) × (Held file.now i part)) }
    ensures { result ≡ found_at 2 7 (delivery_test file.now) 0 position i }
{
    let kind = kind_at(file, i);
    if kind == Record::OPENING {
        return Ok(());
    }
    if kind == Record::NODE {
        return name_own(file, part, i, position);
    }
    name_edge(file, part, i, position)
}

// The delivery of the record after i.
fn next_part(file: &[u8], part: Part, i: usize) -> Part
    requires { (i < count file.now) × (Held file.now i part) }
    ensures { Held file.now (i + 1) result }
{
    if kind_at(file, i) == Record::OPENING {
        return part_at(file, i + 1);
    }
    part
}

// The lower of numbers 7 and 8, at its first record.
pub(crate) fn name_deliveries(file: &[u8], position: u8) -> Result<(), Refusal>
    requires { SoundParts file.now }
    ensures { result ≡ lowest 2 7 (delivery_test file.now) 0 position (count file.now) }
{
    let n = file.len() / Record::LEN;
    let mut found = Ok(());
    let mut part = Part {
        start: 0,
        end: 0,
        nodes: 0,
    };
    for i in 0..n {
        let next = name_delivery(file, part, i, position);
        found = lower(found, next);
        part = next_part(file, part, i);
    }
    found
}
