// Sets of rows as numbers: row r is in the set when its digit 2 ^ r is one. A set completed by what its "and" rows ask for, taken from the highest row downward; the
// rows that are untrue at a method and flag; the boxes that look along a label; and what a state asks of its successors under it.
ghost use Rattle.std.specs.Prelude.{◌≡◌, cond, ℕ, ◌+◌, ◌^◌, ◌≤◌, ◌<◌, T, get_or};
ghost use Rattle.std.specs.Int.Bits.{bit_or};
ghost use Rattle.files.specs.Access.{PropertyFile, aims_along};
ghost use Rattle.files.specs.Decode.{decode_property};
ghost use Rattle.files.specs.Property.{row, obliged};
ghost use Rattle.files.specs.Record.{count};
ghost use Rattle.maximal.specs.Masks.{operands_or, member, within, Taken, and_rows, completion, untrue_at, untrue, obliged_rows, asked_of, Boxes};

use files::property::{PropertyRow, row_at};

// Internal steps, and calls of eight methods.
pub const LABELS: usize = 9;

// Row r is in the set.
pub(crate) fn has_row(set: u32, r: usize) -> bool
    requires { r < 32 }
    ensures { result ≡ member set r }
{
    (set >> r) % 2 == 1
}

// The set of row r alone.
pub(crate) fn one_row(r: usize) -> u32
    requires { r < 32 }
    ensures { result ≡ 2 ^ r }
{
    1 << r
}

// The highest row of a set that has one.
fn highest(set: u32) -> usize
    requires { 0 < set }
    ensures { (2 ^ result ≤ set) × (set < 2 ^ (result + 1)) }
{
    31 - (u32::leading_zeros(set) as usize)
}

// The row to be taken next: the highest in the set that is not yet worked.
pub(crate) fn next_row(set: u32, worked: u32) -> usize
    requires { (T (within worked set)) × (set ≡ worked → ⊥) }
    ensures { Taken set worked result }
{
    highest(set ^ worked)
}

// The operands of row r as a set where it is an "and", or, if `ors`, an "or"; otherwise the set given.
pub(crate) fn operands_or(property: &[u8], n: usize, r: usize, ors: bool, other: u32) -> u32
    requires { (PropertyFile property.now) × ((n ≡ count property.now) × ((n ≤ 32) × (r < n))) }
    ensures { result ≡ operands_or (row (decode_property property.now) r) (cond ors 8 7) other }
{
    match row_at(property, r) {
        PropertyRow::And(a, b) => one_row(a as usize) | one_row(b as usize),
        PropertyRow::Or(a, b) => {
            if ors {
                one_row(a as usize) | one_row(b as usize)
            } else {
                other
            }
        }
        PropertyRow::True
        | PropertyRow::False
        | PropertyRow::InMethod(_)
        | PropertyRow::NotInMethod(_)
        | PropertyRow::Returns
        | PropertyRow::NotReturns
        | PropertyRow::Box { .. }
        | PropertyRow::BoxAll(_) => other,
    }
}

// What row r asks for as an "and".
fn and_rows(property: &[u8], n: usize, r: usize) -> u32
    requires { (PropertyFile property.now) × ((n ≡ count property.now) × ((n ≤ 32) × (r < n))) }
    ensures { result ≡ and_rows (row (decode_property property.now) r) }
{
    operands_or(property, n, r, false, 0)
}

// The set and what its "and" rows ask for, and theirs, and so on: the highest row not yet worked is taken next.
pub(crate) fn complete(property: &[u8], n: usize, set: u32) -> u32
    requires { (PropertyFile property.now) × ((n ≡ count property.now) × ((n ≤ 32) × (set < 2 ^ n))) }
    ensures { result ≡ completion (decode_property property.now) set }
{
    let mut all = set;
    let mut done = 0;
    // A row taken adds rows to the set, so no range is fixed beforehand.
    while !(all == done) {
        let r = next_row(all, done);
        done = done | one_row(r);
        all = all | and_rows(property, n, r);
    }
    all
}

// Row r is false, or a literal that is untrue at the method and flag.
fn is_untrue(property: &[u8], n: usize, r: usize, method: u8, flag: bool) -> bool
    requires { (PropertyFile property.now) × ((n ≡ count property.now) × ((n ≤ 32) × (r < n))) }
    ensures { result ≡ untrue_at (row (decode_property property.now) r) method flag }
{
    match row_at(property, r) {
        PropertyRow::False => true,
        PropertyRow::InMethod(a) => method != a,
        PropertyRow::NotInMethod(a) => method == a,
        PropertyRow::Returns => !flag,
        PropertyRow::NotReturns => flag,
        PropertyRow::True
        | PropertyRow::And(..)
        | PropertyRow::Or(..)
        | PropertyRow::Box { .. }
        | PropertyRow::BoxAll(_) => false,
    }
}

// All rows that are. (Inlined it would keep `admit` from being so, and modelling would take a tenth longer or more.)
#[inline(never)]
pub(crate) fn untrue(property: &[u8], n: usize, method: u8, flag: bool) -> u32
    requires { (PropertyFile property.now) × ((n ≡ count property.now) × (n ≤ 32)) }
    ensures { result ≡ untrue (decode_property property.now) method flag }
{
    let mut set = 0;
    for r in 0..n {
        if is_untrue(property, n, r, method, flag) {
            set = set | one_row(r);
        }
    }
    set
}

// What row r obliges the end of an edge with this label to, as a set.
fn obliged_rows(property: &[u8], n: usize, r: usize, label: u8) -> u32
    requires { (PropertyFile property.now) × ((n ≡ count property.now) × ((n ≤ 32) × (r < n))) }
    ensures { result ≡ obliged_rows (obliged (row (decode_property property.now) r) label) }
{
    match row_at(property, r).obliged(label) {
        Some(row) => one_row(row as usize),
        None => 0,
    }
}

// What all rows of a set do. The highest row not yet asked is taken next.
pub(crate) fn asked(property: &[u8], n: usize, set: u32, label: u8) -> u32
    requires { (PropertyFile property.now) × ((n ≡ count property.now) × ((n ≤ 32) × (set < 2 ^ n))) }
    ensures { result ≡ asked_of (decode_property property.now) set label }
{
    let mut done = 0;
    let mut rows = 0;
    // Bits are taken from the highest down; an iterator of our own with its laws would be no plainer.
    while !(set == done) {
        let r = next_row(set, done);
        done = done | one_row(r);
        rows = rows | obliged_rows(property, n, r, label);
    }
    rows
}

// Enters row r, read as x, under each label that it looks along.
fn enter_box(boxes: [u32; LABELS], x: PropertyRow, r: usize) -> [u32; LABELS]
    requires { r < 32 }
    ensures { (l : ℕ) → l < 9 → get_or result l 0 ≡ cond (aims_along x l) (bit_or (get_or boxes l 0) (2 ^ r)) (get_or boxes l 0) }
{
    let mut all = boxes;
    for label in 0..LABELS {
        if x.obliged(label as u8).is_some() {
            all[label] = all[label] | one_row(r);
        }
    }
    all
}

// For each label the boxes that look along it, as a set: the rows of a state that ask for nothing under a label need not be read.
pub(crate) fn boxes_by_label(property: &[u8], n: usize) -> [u32; LABELS]
    requires { (PropertyFile property.now) × ((n ≡ count property.now) × (n ≤ 32)) }
    ensures { Boxes (decode_property property.now) result }
{
    let mut boxes = [0u32; LABELS];
    for r in 0..n {
        let x = row_at(property, r);
        if x.is_box() {
            let with = enter_box(boxes, x, r);
            boxes = with;
        }
    }
    boxes
}
