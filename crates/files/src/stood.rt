// The deliveries of an accepted file that stand, as parts of the file, and how many nodes and edges they have together. States of `standing_part` that it has the records of the
// delivery that stands, and of `standing_view` that the counts are those of the standing graph, for 11.
ghost use Rattle.std.specs.Prelude.{◌≤◌};
ghost use Rattle.files.specs.Assemble.Stood.{StandsAt, StandsBy};
ghost use Rattle.files.specs.Assemble.Work.{Counts};

use crate::parts::{Part, part_at};
use crate::standing::METHODS;
use crate::view::GraphView;

// The delivery of a method that stands, by the openings that are kept; without records where none does.
pub(crate) fn standing_part(file: &[u8], kept: &[usize; METHODS], method: usize) -> Part
    requires { (StandsBy file.now kept.now) × (method ≤ 8) }
    ensures { StandsAt file.now method result }
{
    let start = kept[method];
    if start == 0 {
        return Part {
            start: 0,
            end: 0,
            nodes: 0,
        };
    }
    part_at(file, start)
}

// The nodes and edges of all deliveries that stand.
pub fn standing_view(file: &[u8], kept: &[usize; METHODS]) -> GraphView
    requires { StandsBy file.now kept.now }
    ensures { Counts file.now result }
{
    let mut nodes = 0;
    let mut edges = 0;
    for method in 1..METHODS {
        let part = standing_part(file, kept, method);
        nodes += part.nodes;
        edges += part.end - part.start - part.nodes;
    }
    GraphView {
        nodes: nodes,
        edges: edges,
    }
}
