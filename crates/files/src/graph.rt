// The nodes and edges of an accepted graph file.
ghost use Rattle.std.specs.Prelude.{◌≡◌, ◌+◌, ◌-◌, ◌<◌, eqb, get_or};
ghost use Rattle.files.specs.Record.{count};
ghost use Rattle.files.specs.Refusal.{nodes_of};
ghost use Rattle.files.specs.Graph.{node, no_edge};
ghost use Rattle.files.specs.Decode.{decode_graph};
ghost use Rattle.files.specs.Access.{GraphFile, node_held, edge_held, first_edge};

use crate::parse::read;
use crate::record::Record;

#[derive(Clone, Copy)]
pub struct GraphNode {
    pub method: u8,
    pub returns: bool,
    pub entry: bool,
}

#[derive(Clone, Copy)]
pub struct GraphEdge {
    pub from: usize,
    pub label: u8,
    pub to: usize,
}

// Node g.
pub fn node_at(graph: &[u8], g: usize) -> GraphNode
    requires { (GraphFile graph.now) × (g < nodes_of graph.now) }
    ensures { result ≡ node_held (node (decode_graph graph.now) g) }
{
    let r = read(graph, g);
    GraphNode {
        method: r.first,
        returns: r.second == 1,
        entry: r.third == 1,
    }
}

// Edge j, which is the record j after the nodes.
pub fn edge_at(graph: &[u8], nodes: usize, j: usize) -> GraphEdge
    requires { (GraphFile graph.now) × (nodes ≡ nodes_of graph.now) × (j < count graph.now - nodes) }
    ensures { result ≡ edge_held (get_or (decode_graph graph.now).edges j no_edge) }
{
    let r = read(graph, nodes + j);
    GraphEdge {
        from: r.first as usize,
        label: r.second,
        to: r.third as usize,
    }
}

// Edge j leaves node g.
fn leaves(graph: &[u8], nodes: usize, j: usize, g: usize) -> bool
    requires { (GraphFile graph.now) × (nodes ≡ nodes_of graph.now) × (j < count graph.now - nodes) }
    ensures { result ≡ eqb (get_or (decode_graph graph.now).edges j no_edge).from g }
{
    edge_at(graph, nodes, j).from == g
}

// The first edge of the node after g, from the first edge of g: edges ascend, so those of g stand in a row.
pub fn next_first(graph: &[u8], nodes: usize, g: usize, first: usize) -> usize
    requires { (GraphFile graph.now) × (nodes ≡ nodes_of graph.now) × (first ≡ first_edge (decode_graph graph.now) g) }
    ensures { result ≡ first_edge (decode_graph graph.now) (g + 1) }
{
    let edges = graph.len() / Record::LEN - nodes;
    for j in first..edges {
        if !leaves(graph, nodes, j, g) {
            return j;
        }
    }
    edges
}
