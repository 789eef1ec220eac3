// The largest simulation once it is found: which entries it covers, the lowest that it does not, and its bytes.
ghost use Rattle.std.specs.Option.{unwrap_or};
ghost use Rattle.std.specs.Prelude.{◌≡◌, ◌&&◌, not, ◌++◌, ◌*◌, ◌≤◌, ◌<◌, IfSome, length, drop};
ghost use Rattle.files.specs.Graph.{node};
ghost use Rattle.files.specs.Decode.{decode_graph};
ghost use Rattle.files.specs.Places.{line_bytes};
ghost use Rattle.judging.specs.Places.{compare_room};
ghost use Rattle.judging.specs.Refinement.{Both, Chosen, Settled};
ghost use Rattle.judging.specs.Simulation.{covered, uncovered, relation_bytes};

use crate::rows::meets;
use crate::sizes::Sizes;
use files::cells::put_bit;
use files::encode::{LINE, put_line};
use files::graph::node_at;

// Whether node h of the second graph is an entry.
fn is_entry(first: &[u8], second: &[u8], s: Sizes, h: usize) -> bool
    requires { ((Both s first.now second.now)) × (h < s.second.nodes) }
    ensures { result ≡ (node (decode_graph second.now) h).entry }
{
    let v = node_at(second, h);
    v.entry
}

// The entries of the second graph.
fn entries(first: &[u8], second: &[u8], s: Sizes) -> [u8; LINE]
    requires { Both s first.now second.now }
    ensures { (length result ≡ line_bytes) × (Chosen (λ h. (node (decode_graph second.now) h).entry) s.second.nodes result) }
{
    let mut row = [0u8; LINE];
    for h in 0..s.second.nodes {
        if is_entry(first, second, s, h) {
            put_bit(&mut row, 0, h);
        }
    }
    row
}

// Whether an entry of the second graph is related to node g.
fn is_covered(first: &[u8], second: &[u8], s: Sizes, work: &[u8], entries: &[u8], g: usize) -> bool
    requires { (32 ≤ length entries.now) × ((Both s first.now second.now) × ((g < s.first.nodes) × ((compare_room ≤ length work.now) × ((Settled (decode_graph first.now) (decode_graph second.now) work.now) × (Chosen (λ h. (node (decode_graph second.now) h).entry) s.second.nodes entries.now))))) }
    ensures { result ≡ covered (decode_graph first.now) (decode_graph second.now) g }
{
    meets(entries, work, LINE * g)
}

// Whether node g is an entry that no entry of the second graph is related to.
fn is_uncovered(
    first: &[u8],
    second: &[u8],
    s: Sizes,
    work: &[u8],
    entries: &[u8],
    g: usize,
) -> bool
    requires { (32 ≤ length entries.now) × ((Both s first.now second.now) × ((g < s.first.nodes) × ((compare_room ≤ length work.now) × ((Settled (decode_graph first.now) (decode_graph second.now) work.now) × (Chosen (λ h. (node (decode_graph second.now) h).entry) s.second.nodes entries.now))))) }
    ensures { result ≡ ((node (decode_graph first.now) g).entry && not (covered (decode_graph first.now) (decode_graph second.now) g)) }
{
    let v = node_at(first, g);
    let covered = is_covered(first, second, s, work, entries, g);
    v.entry & !covered
}

// The lowest uncovered entry, if there is one.
pub(crate) fn first_uncovered(first: &[u8], second: &[u8], s: Sizes, work: &[u8]) -> Option<usize>
    requires { ((Both s first.now second.now)) × ((compare_room ≤ length work.now) × (Settled (decode_graph first.now) (decode_graph second.now) work.now)) }
    ensures { (unwrap_or result s.first.nodes ≡ uncovered (decode_graph first.now) (decode_graph second.now)) × (IfSome result (λ g. g < s.first.nodes)) }
{
    let row = entries(first, second, s);
    (0..s.first.nodes).find(|g| is_uncovered(first, second, s, work, &row, *g))
}

// Writes the relation, 32 bytes for each node of the first graph.
pub(crate) fn write_relation(first: &[u8], second: &[u8], s: Sizes, work: &[u8], out: &mut [u8])
    requires { ((Both s first.now second.now)) × ((compare_room ≤ length work.now) × ((Settled (decode_graph first.now) (decode_graph second.now) work.now) × (32 * s.first.nodes ≤ length out.old))) }
    ensures { out.new ≡ relation_bytes (decode_graph first.now) (decode_graph second.now) ++ drop (length (relation_bytes (decode_graph first.now) (decode_graph second.now))) out.old }
{
    for g in 0..s.first.nodes {
        put_line(out, g, work, LINE * g);
    }
}
