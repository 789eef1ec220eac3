// Two accepted graphs as the calls hold them, and where the parts of comparing's lent buffer stand.
use files::encode::LINE;
use files::record::Limits;
use files::view::GraphView;

// It stands beside the two files for the reason that shape.rt gives.
#[derive(Clone, Copy)]
pub struct Sizes {
    pub first: GraphView,
    pub second: GraphView,
}

impl Sizes {
    // The rows of the relation, 32 bytes for each node of the first graph, stand at the buffer's start; then what each row was when it was last taken.
    pub const HELD: usize = LINE * Limits::NODES;

    // For each method and return flag, as twice the one and the other, the nodes of the second graph that have them.
    pub const KINDS: usize = Sizes::HELD + LINE * Limits::NODES;

    // The first graph's edges by the node they lead to and their label.
    pub const HEADS: usize = Sizes::KINDS + LINE * 18;

    pub const NEXTS: usize = Sizes::HEADS + 2 * (9 * Limits::NODES);

    // The walk that puts the first graph's nodes in order: the next edge of each node, the node from which it was met, the nodes as they are left, and which were met.
    pub const CURSORS: usize = Sizes::NEXTS + 2 * Limits::EDGES;

    pub const PARENTS: usize = Sizes::CURSORS + 2 * Limits::NODES;

    pub const ORDER: usize = Sizes::PARENTS + Limits::NODES;

    pub const SEEN: usize = Sizes::ORDER + Limits::NODES;

    // Ten rows for each node of the second graph: where its edges lead to, a row for each label, and last where the edges that lead to it come from.
    pub const NEIGHBOURS: usize = Sizes::SEEN + LINE;

    pub const ROWS: usize = 10;

    pub const BEFORE: usize = 9;

    // The published length of the buffer. The parts above end before it; callers hold buffers of the length that was published first (docs/DECISIONS.md).
    pub const ROOM: usize = 165152;
}
