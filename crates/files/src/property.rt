// The rows of an accepted property file.
ghost use Rattle.std.specs.Prelude.{◌≡◌, ◌<◌};
ghost use Rattle.files.specs.Record.{count};
ghost use Rattle.files.specs.Property.{row, is_box, aims, box_row};
ghost use Rattle.files.specs.Decode.{decode_property};
ghost use Rattle.files.specs.Access.{PropertyFile, row_held, row_by, operator_of, first_of, second_of, looks, looked_at};

use crate::parse::read;
use crate::record::{Operator, Record};

// A row as the code holds it, with the methods, labels and rows that it names.
#[derive(Clone, Copy)]
pub enum PropertyRow {
    True,
    False,
    InMethod(u8),
    NotInMethod(u8),
    Returns,
    NotReturns,
    And(u8, u8),
    Or(u8, u8),
    Box { label: u8, row: u8 },
    BoxAll(u8),
}

impl PropertyRow {
    // Whether the row is a box, of one label or of all.
    pub fn is_box(self) -> bool
        ensures { result ≡ is_box (operator_of self) }
    {
        match self {
            PropertyRow::Box { .. } | PropertyRow::BoxAll(_) => true,
            PropertyRow::True
            | PropertyRow::False
            | PropertyRow::InMethod(_)
            | PropertyRow::NotInMethod(_)
            | PropertyRow::Returns
            | PropertyRow::NotReturns
            | PropertyRow::And(..)
            | PropertyRow::Or(..) => false,
        }
    }

    // The row, if any, that the row obliges the end of an edge with this label to. Judging, the sheet's causes and the model's obligations ask this and nothing else.
    pub fn obliged(self, label: u8) -> Option<u8>
        ensures { result ≡ looks self label }
    {
        match self {
            PropertyRow::Box { label: along, row } => (along == label).then_some(row),
            PropertyRow::BoxAll(row) => Some(row),
            PropertyRow::True
            | PropertyRow::False
            | PropertyRow::InMethod(_)
            | PropertyRow::NotInMethod(_)
            | PropertyRow::Returns
            | PropertyRow::NotReturns
            | PropertyRow::And(..)
            | PropertyRow::Or(..) => None,
        }
    }

    // The row that a box looks at, whatever the label: of any other row its second operand, as `box_row` has it.
    pub fn looked_at(self) -> u8
        ensures { result ≡ looked_at self }
    {
        match self {
            PropertyRow::Box { row, .. } | PropertyRow::BoxAll(row) => row,
            PropertyRow::And(_, b) | PropertyRow::Or(_, b) => b,
            PropertyRow::True
            | PropertyRow::False
            | PropertyRow::InMethod(_)
            | PropertyRow::NotInMethod(_)
            | PropertyRow::Returns
            | PropertyRow::NotReturns => 0,
        }
    }
}

// The same of bytes, which may be any: whether an operator is a box's, and what a row with these bytes obliges to. Public functions that docs/DECISIONS.md names took any
// operator, and any three bytes, before a `PropertyRow` was an enum, which has fewer values: they stay beside its methods.
pub fn is_box(operator: u8) -> bool
    ensures { result ≡ is_box operator }
{
    Operator::BOX <= operator
}

// Whether a row looks along a label, and at which row. No Option: the row that it looks at hangs on no label, and is told whether or not it looks along this one.
#[derive(Clone, Copy)]
pub struct Looks {
    pub along: bool,
    pub at: u8,
}

pub fn obliged(operator: u8, a: u8, b: u8, label: u8) -> Looks
    ensures { result ≡ record { along = aims operator a label; at = box_row operator a b } }
{
    let (along, at) = match operator {
        Operator::BOX_ALL => (true, a),
        Operator::BOX => (a == label, b),
        _ => (false, b),
    };
    Looks { along, at }
}

// The row that a record is. An accepted one has one of ten operators, of which the first is left at the end.
fn row_by(r: Record) -> PropertyRow
    ensures { result ≡ row_by r.first r.second r.third }
{
    match r.first {
        Operator::FALSE => PropertyRow::False,
        Operator::IN_METHOD => PropertyRow::InMethod(r.second),
        Operator::NOT_IN_METHOD => PropertyRow::NotInMethod(r.second),
        Operator::RETURNS => PropertyRow::Returns,
        Operator::NOT_RETURNS => PropertyRow::NotReturns,
        Operator::AND => PropertyRow::And(r.second, r.third),
        Operator::OR => PropertyRow::Or(r.second, r.third),
        Operator::BOX => PropertyRow::Box {
            label: r.second,
            row: r.third,
        },
        Operator::BOX_ALL => PropertyRow::BoxAll(r.second),
        _ => PropertyRow::True,
    }
}

// The operands of row r, 0 where it has none, as they stand in its record.
pub fn operands_at(property: &[u8], r: usize) -> (u8, u8)
    requires { (PropertyFile property.now) × (r < count property.now) }
    ensures { (result.0 ≡ first_of (row_held (row (decode_property property.now) r))) × (result.1 ≡ second_of (row_held (row (decode_property property.now) r))) }
{
    let x = read(property, r);
    (x.second, x.third)
}

// Row r.
pub fn row_at(property: &[u8], r: usize) -> PropertyRow
    requires { (PropertyFile property.now) × (r < count property.now) }
    ensures { result ≡ row_held (row (decode_property property.now) r) }
{
    row_by(read(property, r))
}
