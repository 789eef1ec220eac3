// Writing the edges of a graph with its nodes counted on from others, as joining and assembling do. States of `write_all_moved` that the bytes are those of the edges moved.
ghost use Rattle.std.specs.Prelude.{◌≡◌, map, ◌+◌, ◌*◌, ◌≤◌, ◌<◌, length};
ghost use Rattle.files.specs.Cells.{put_at};
ghost use Rattle.files.specs.Decode.{decode_graph, edge_rec};
ghost use Rattle.files.specs.Join.{moved};
ghost use Rattle.files.specs.Join.Bytes.{moved_bytes};
ghost use Rattle.files.specs.Places.{record_len, max_nodes};
ghost use Rattle.files.specs.Record.{write};
ghost use Rattle.files.specs.View.{Views};

use crate::encode::put_record;
use crate::graph::edge_at;
use crate::record::Record;
use crate::view::GraphView;

// Node v of a graph, counted on from n nodes before it.
fn moved_node(n: usize, v: usize) -> u8
    requires { n + v < 256 }
    ensures { result ≡ n + v }
{
    (n + v) as u8
}

// Writes edge j of a graph, with its nodes counted on from those before, as record `at`.
fn write_moved(graph: &[u8], view: GraphView, before: usize, out: &mut [u8], at: usize, j: usize)
    requires { (Views view graph.now) × ((before + view.nodes ≤ max_nodes) × ((j < view.edges) × (record_len * at + record_len ≤ length out.old))) }
    ensures { out.new ≡ put_at out.old (record_len * at) (moved_bytes before (decode_graph graph.now) j) }
{
    let e = edge_at(graph, view.nodes, j);
    let from = moved_node(before, e.from);
    let to = moved_node(before, e.to);
    put_record(out, at, Record::edge(from, e.label, to));
}

// Writes all edges of a graph from record `first` on.
pub fn write_all_moved(graph: &[u8], view: GraphView, before: usize, out: &mut [u8], first: usize)
    requires { (Views view graph.now) × ((before + view.nodes ≤ max_nodes) × (record_len * (first + view.edges) ≤ length out.old)) }
    ensures { out.new ≡ put_at out.old (record_len * first) (write (map edge_rec (map (moved before) (decode_graph graph.now).edges))) }
{
    for j in 0..view.edges {
        write_moved(graph, view, before, out, first + j, j);
    }
}
