// The arrows of `checker dot`: one for all edges between two nodes, with their labels as ranges. An arrow for every label makes a model's picture too wide to be read.
use crate::ranges::Ranges;
use files::cells::{put_bit, wide};
use files::encode::LINE;
use printing::stdout::Buffered;
use printing::{Fields, say};

// An arrow up to its label. The spaces around a label keep it apart from the next arrow's.
pub fn say_ends(stdout: &mut Buffered, from: u8, to: u8) {
    say!(stdout, "  {from} -> {to} [label=\" ");
}

// The edge leads from the one node to the other.
fn joins(edge: &Fields, from: u8, to: u8) -> bool {
    edge[1] == from && edge[3] == to
}

fn labels_between(edges: &[Fields], from: u8, to: u8) -> [u8; LINE] {
    let mut labels = [0; LINE];
    for edge in edges {
        if joins(edge, from, to) {
            put_bit(&mut labels, 0, wide(edge[2]));
        }
    }
    labels
}

// The arrow of each edge and of all later ones between its nodes, where no earlier edge has drawn it.
pub fn say_arrows(stdout: &mut Buffered, edges: &[Fields]) {
    for (i, edge) in edges.iter().enumerate() {
        let [_, from, _, to, ..] = *edge;
        if !edges[..i].iter().any(|earlier| joins(earlier, from, to)) {
            let labels = Ranges {
                set: &labels_between(edges, from, to),
                first: "",
                comma: ",",
            };
            say_ends(stdout, from, to);
            say!(stdout, "{labels} \"];\n");
        }
    }
}
