// The record of six bytes, whatever its kind: its constants, its constructors, and what it reads as.
ghost use Rattle.std.specs.Prelude.{◌≡◌, [], ◌∷◌};
ghost use Rattle.files.specs.Record.{six, node_record, edge_record, step_number, step_of};
ghost use Rattle.files.specs.Limits.{desk};

// The six bytes of a record, in file order.
#[derive(Clone, Copy)]
pub struct Record {
    pub kind: u8,
    pub first: u8,
    pub second: u8,
    pub third: u8,
    pub fourth: u8,
    pub fifth: u8,
}

impl Record {
    // The length of every record, in bytes.
    pub const LEN: usize = 6;

    // The kinds are bytes and no enum: a record's first byte may be any, and refusals 2 and 3 compare it as it stands. What is read is a `Parsed`.
    pub const NODE: u8 = 1;

    pub const EDGE: u8 = 2;

    pub const ROW: u8 = 3;

    pub const RULE: u8 = 4;

    pub const INTERFACE: u8 = 5;

    // Opens a delivery.
    pub const OPENING: u8 = 6;

    pub fn node(method: u8, returns: bool, entry: bool) -> Self
        ensures { result ≡ node_record method returns entry }
    {
        Record {
            kind: Record::NODE,
            first: method,
            second: returns as u8,
            third: entry as u8,
            fourth: 0,
            fifth: 0,
        }
    }

    pub fn edge(from: u8, label: u8, to: u8) -> Self
        ensures { result ≡ edge_record from label to }
    {
        Record {
            kind: Record::EDGE,
            first: from,
            second: label,
            third: to,
            fourth: 0,
            fifth: 0,
        }
    }

    // A record of a fault sheet, which has no kind: a node and a row, and its two causes.
    pub fn fault(node: u8, row: u8, node1: u8, row1: u8, node2: u8, row2: u8) -> Self
        ensures { six result ≡ node ∷ row ∷ node1 ∷ row1 ∷ node2 ∷ row2 ∷ [] }
    {
        Record {
            kind: node,
            first: row,
            second: node1,
            third: row1,
            fourth: node2,
            fifth: row2,
        }
    }

    // A record of a trail, which has no kind either: node, state, step, label, and the node and state reached.
    pub fn step(node: u8, state: u8, step: u8, label: u8, reached: u8, next: u8) -> Self
        ensures { six result ≡ node ∷ state ∷ step ∷ label ∷ reached ∷ next ∷ [] }
    {
        Record {
            kind: node,
            first: state,
            second: step,
            third: label,
            fourth: reached,
            fifth: next,
        }
    }
}

// The operators of a property's rows. Bytes and no enum: a row's may be any until the row is checked (row_wrong, names_past). A checked row is a `PropertyRow`.
#[derive(Drop)]
pub struct Operator {}

impl Operator {
    pub const TRUE: u8 = 1;

    pub const FALSE: u8 = 2;

    pub const IN_METHOD: u8 = 3;

    pub const NOT_IN_METHOD: u8 = 4;

    pub const RETURNS: u8 = 5;

    pub const NOT_RETURNS: u8 = 6;

    pub const AND: u8 = 7;

    pub const OR: u8 = 8;

    // After every edge of one label, and after every edge.
    pub const BOX: u8 = 9;

    pub const BOX_ALL: u8 = 10;
}

// A step of a trail: its first record, an internal step, a call entered, and one passed over.
#[derive(Clone, Copy, PartialEq, Eq)]
pub enum Step {
    Start,
    Internal,
    Entered,
    Passed,
}

impl Step {
    // Its number in a trail's records.
    pub fn number(self) -> u8
        ensures { result ≡ step_number self }
    {
        match self {
            Step::Start => 0,
            Step::Internal => 1,
            Step::Entered => 2,
            Step::Passed => 3,
        }
    }

    // The step of a number, if it is one's.
    pub fn of(number: u8) -> Option<Self>
        ensures { result ≡ step_of number }
    {
        match number {
            0 => Some(Step::Start),
            1 => Some(Step::Internal),
            2 => Some(Step::Entered),
            3 => Some(Step::Passed),
            _ => None,
        }
    }
}

// How much a file may hold.
#[derive(Clone, Copy)]
pub struct Limits {
    pub nodes: usize,
    pub edges: usize,
    pub rows: usize,
    pub ors: usize,
}

impl Limits {
    pub const NODES: usize = 256;

    pub const EDGES: usize = 4096;

    pub const ROWS: usize = 32;

    pub const ORS: usize = 12;

    // The limits of the desk.
    pub const DESK: Limits = Limits {
        nodes: Limits::NODES,
        edges: Limits::EDGES,
        rows: Limits::ROWS,
        ors: Limits::ORS,
    };

    pub fn desk() -> Self
        ensures { result ≡ desk }
    {
        Limits::DESK
    }
}

// What the six bytes of a record read as: five kinds, so no Option or Result. `Wrong`: a field is out of range or an unused byte is not 0. `Other`: the kind is none of the five.
#[derive(Clone, Copy)]
pub enum Parsed {
    Node {
        method: u8,
        returns: bool,
        entry: bool,
    },
    Edge {
        from: usize,
        label: u8,
        to: usize,
    },
    Row {
        operator: u8,
        a: u8,
        b: u8,
    },
    Rule {
        state: u8,
        event: u8,
        m1: u8,
        m2: u8,
        next: u8,
    },
    Interface {
        provided: u8,
        required: u8,
    },
    Wrong,
    Other,
}
