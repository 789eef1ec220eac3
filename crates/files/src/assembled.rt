// The bytes of the standing graph of an accepted file of deliveries: the nodes of methods 1 to 8, then their edges. States of `write_standing` that they are the graph's file.
ghost use Rattle.std.specs.Prelude.{◌≡◌, ◌+◌, ◌-◌, ◌*◌, ◌≤◌, length};
ghost use Rattle.files.specs.Assemble.{standing_graph};
ghost use Rattle.files.specs.Assemble.Bytes.{node_recs, edge_recs, run};
ghost use Rattle.files.specs.Assemble.Stood.{StandsBy};
ghost use Rattle.files.specs.Assemble.Work.{Counts};
ghost use Rattle.files.specs.Cells.{put_at};
ghost use Rattle.files.specs.Decode.{graph_bytes};
ghost use Rattle.files.specs.Deliveries.{decode_deliveries};
ghost use Rattle.files.specs.Deliveries.Layout.{nodes_among};
ghost use Rattle.files.specs.Graph.{size};
ghost use Rattle.files.specs.Places.{record_len, max_nodes};
ghost use Rattle.files.specs.Record.{write};

use crate::cells::copy_at;
use crate::moved::write_all_moved;
use crate::parts::records_in;
use crate::record::Record;
use crate::standing::METHODS;
use crate::stood::standing_part;
use crate::view::GraphView;

// Writes the nodes of the delivery of a method that stands, from record `at` on; the record after them.
fn write_own_nodes(
    file: &[u8],
    kept: &[usize; METHODS],
    method: usize,
    out: &mut [u8],
    at: usize,
) -> usize
    requires { (StandsBy file.now kept.now) × ((method ≤ 8) × (record_len * (at + length (node_recs (decode_deliveries file.now) method)) ≤ length out.old)) }
    ensures { (result ≡ at + length (node_recs (decode_deliveries file.now) method)) × (out.new ≡ put_at out.old (record_len * at) (write (node_recs (decode_deliveries file.now) method))) }
{
    let part = standing_part(file, kept, method);
    let nodes = records_in(file, part.start, part.start + part.nodes);
    copy_at(out, Record::LEN * at, nodes);
    at + part.nodes
}

// Writes the nodes of all methods.
fn write_all_nodes(file: &[u8], kept: &[usize; METHODS], out: &mut [u8])
    requires { (StandsBy file.now kept.now) × (record_len * size (standing_graph file.now) ≤ length out.old) }
    ensures { out.new ≡ put_at out.old 0 (run (node_recs (decode_deliveries file.now)) 8) }
{
    let mut at = 0;
    for method in 1..METHODS {
        at = write_own_nodes(file, kept, method, out, at);
    }
}

// Writes the edges of the delivery of a method that stands, counted on from the nodes before its own, from record `at` on; how many nodes and edges it has.
fn write_own_edges(
    file: &[u8],
    kept: &[usize; METHODS],
    method: usize,
    before: usize,
    out: &mut [u8],
    at: usize,
) -> GraphView
    requires { (StandsBy file.now kept.now) × ((method ≤ 8) × ((before ≡ nodes_among (decode_deliveries file.now) 1 (method - 1)) × ((before + length (node_recs (decode_deliveries file.now) method) ≤ 256) × (record_len * (at + length (edge_recs (decode_deliveries file.now) method)) ≤ length out.old)))) }
    ensures { (result.nodes ≡ length (node_recs (decode_deliveries file.now) method)) × ((result.edges ≡ length (edge_recs (decode_deliveries file.now) method)) × (out.new ≡ put_at out.old (record_len * at) (write (edge_recs (decode_deliveries file.now) method)))) }
{
    let part = standing_part(file, kept, method);
    let view = GraphView {
        nodes: part.nodes,
        edges: part.end - part.start - part.nodes,
    };
    write_all_moved(
        records_in(file, part.start, part.end),
        view,
        before,
        out,
        at,
    );
    view
}

// Writes the edges of all methods from record `first` on.
fn write_all_edges(file: &[u8], kept: &[usize; METHODS], out: &mut [u8], first: usize)
    requires { (StandsBy file.now kept.now) × ((size (standing_graph file.now) ≤ 256) × (record_len * (first + length (standing_graph file.now).edges) ≤ length out.old)) }
    ensures { out.new ≡ put_at out.old (record_len * first) (run (edge_recs (decode_deliveries file.now)) 8) }
{
    let mut before = 0;
    let mut at = first;
    for method in 1..METHODS {
        let own = write_own_edges(file, kept, method, before, out, at);
        before += own.nodes;
        at += own.edges;
    }
}

// Writes the file of the standing graph, which has so many nodes and edges.
pub fn write_standing(file: &[u8], kept: &[usize; METHODS], view: GraphView, out: &mut [u8])
    requires { (StandsBy file.now kept.now) × ((Counts file.now view) × ((view.nodes ≤ max_nodes) × (record_len * (view.nodes + view.edges) ≤ length out.old))) }
    ensures { out.new ≡ put_at out.old 0 (graph_bytes (standing_graph file.now)) }
{
    write_all_nodes(file, kept, out);
    write_all_edges(file, kept, out, view.nodes);
}
