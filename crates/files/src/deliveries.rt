// Numbers 2 to 4 of a file of deliveries: it is cut at its openings, and each part is looked at as a graph file by itself, with records counted from the file's start. States
// of `look_deliveries` that it finds the lowest of the three at its first record.
ghost use Rattle.std.specs.Prelude.{◌≡◌, ◌+◌, ◌*◌, ◌≤◌, ◌<◌, length};
ghost use Rattle.files.specs.Places.{record_len};
ghost use Rattle.files.specs.Record.{kind_at, record_at, count};
ghost use Rattle.files.specs.Checking.{found_at, lowest};
ghost use Rattle.files.specs.Deliveries.{own_start, opening_wrong};
ghost use Rattle.files.specs.Deliveries.Looks.{opening_read};
ghost use Rattle.files.specs.Deliveries.Steps.{delivery_test};

use crate::offence::look_graph;
use crate::parse::{kind_at, read};
use crate::record::Record;
use crate::refusal::Refusal;
use crate::scan::lower;

// What an opening reads as.
#[derive(Clone, Copy)]
pub struct Opening {
    pub method: u8,
    pub revision: u8,
}

fn opening_wrong(r: Record) -> bool
    ensures { result ≡ opening_wrong r }
{
    let method = (r.first < 1) | (8 < r.first);
    let revision = (r.second < 1) | (255 < r.second);
    method | (revision | (!(r.third == 0) | (!(r.fourth == 0) | !(r.fifth == 0))))
}

// Record i, which opens a delivery; none where a field is out of range or an unused byte is not 0.
pub(crate) fn read_opening(file: &[u8], i: usize) -> Option<Opening>
    requires { record_len * i + record_len ≤ length file.now }
    ensures { result ≡ opening_read (record_at file.now i) }
{
    let r = read(file, i);
    if opening_wrong(r) {
        return None;
    }
    Some(Opening {
        method: r.first,
        revision: r.second,
    })
}

// 3 of an opening.
fn look_opening(file: &[u8], i: usize, position: u8) -> Result<(), Refusal>
    requires { (record_len * i + record_len ≤ length file.now) × (kind_at file.now i ≡ 6) }
    ensures { result ≡ found_at 3 2 (delivery_test file.now) 0 position i }
{
    if read_opening(file, i).is_none() {
        return Err(Refusal::at(3, position, i));
    }
    Ok(())
}

// 2 to 4 of a record that opens nothing, in the delivery that starts at record `start`: as of a graph that starts there. Before any opening it is out of place.
fn look_supplied(file: &[u8], start: usize, i: usize, position: u8) -> Result<(), Refusal>
    requires { (i < count file.now) × ((start ≡ own_start file.now i) × (kind_at file.now i ≡ 6 → ⊥)) }
    ensures { result ≡ found_at 3 2 (delivery_test file.now) 0 position i }
{
    if start == 0 {
        return Err(Refusal::at(2, position, i));
    }
    let from = Record::LEN * start;
    look_graph(&file[from..], i - start, start, position)
}

fn look_delivery(file: &[u8], start: usize, i: usize, position: u8) -> Result<(), Refusal>
    requires { (i < count file.now) × (start ≡ own_start file.now i) }
    ensures { result ≡ found_at 3 2 (delivery_test file.now) 0 position i }
{
    if kind_at(file, i) == Record::OPENING {
        return look_opening(file, i, position);
    }
    look_supplied(file, start, i, position)
}

// Where the delivery of the record after i starts.
fn next_start(file: &[u8], start: usize, i: usize) -> usize
    requires { (i < count file.now) × (start ≡ own_start file.now i) }
    ensures { result ≡ own_start file.now (i + 1) }
{
    if kind_at(file, i) == Record::OPENING {
        return i + 1;
    }
    start
}

// The lowest of numbers 2 to 4, at its first record.
pub(crate) fn look_deliveries(file: &[u8], position: u8) -> Result<(), Refusal>
    ensures { result ≡ lowest 3 2 (delivery_test file.now) 0 position (count file.now) }
{
    let n = file.len() / Record::LEN;
    let mut found = Ok(());
    let mut start = 0;
    for i in 0..n {
        let next = look_delivery(file, start, i, position);
        found = lower(found, next);
        start = next_start(file, start, i);
    }
    found
}
