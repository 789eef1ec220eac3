// A model that is found, counted and written: its nodes in order, then its edges by state, label and state. `write_model` states that its bytes are those of the
// definition's graph. Of a row of bits only those that are one are visited.
ghost use Rattle.std.specs.Prelude.{◌≡◌, ◌++◌, ℕ, ◌+◌, ◌*◌, ◌≤◌, ◌<◌, length, drop, replicate};
ghost use Rattle.files.specs.Access.{PropertyFile};
ghost use Rattle.files.specs.Basics.Lists.{each, span};
ghost use Rattle.files.specs.Cells.{has_bit, put_at};
ghost use Rattle.files.specs.Decode.{decode_interface, decode_property, graph_bytes};
ghost use Rattle.files.specs.Places.{record_len, line_bytes};
ghost use Rattle.maximal.specs.Charting.{order_at, Ordered, Ranked, Arranged};
ghost use Rattle.maximal.specs.Model.{model};
ghost use Rattle.maximal.specs.Listing.{tally_under, tally_from, tally_upto, node_bytes, under_bytes, from_bytes};
ghost use Rattle.maximal.specs.Places.{model_room, targets_base, max_states};

use crate::bits::next_bit;
use crate::places::Places;
use files::cells::{get, has_bit, put_bit};
use files::encode::{LINE, put_record};
use files::record::Record;

// Where the row of the i-th state under this label begins.
fn row_of(work: &[u8], i: usize, label: usize) -> usize
    requires { (i < max_states) × ((label < 9) × (model_room ≤ length work.now)) }
    ensures { (result ≡ targets_base + line_bytes * (9 * order_at work.now i + label)) × (result + 32 ≤ model_room) }
{
    let from = get::<u8>(work, Places::ORDER, i) as usize;
    Places::TARGETS + LINE * (9 * from + label)
}

// How many edges with this label leave the i-th state: as many as its row has bits that are one.
fn count_under(work: &[u8], c: usize, i: usize, label: usize) -> usize
    requires { (i < c) × ((label < 9) × ((c ≤ max_states) × ((model_room ≤ length work.now) × ((Ordered c work.now) × (Ranked c work.now))))) }
    ensures { result ≡ tally_under work.now c i label }
{
    let row = row_of(work, i, label);
    let mut t = next_bit(work, row, 0, c);
    let mut n = 0;
    // The next bit is looked for from here on, not the next index; an iterator of our own with its laws would be no plainer.
    while t < c {
        n += 1;
        t = next_bit(work, row, t + 1, c);
    }
    n
}

// How many edges leave the i-th state.
fn count_from(work: &[u8], c: usize, i: usize) -> usize
    requires { (i < c) × ((c ≤ max_states) × ((model_room ≤ length work.now) × ((Ordered c work.now) × (Ranked c work.now)))) }
    ensures { result ≡ tally_from work.now c i 9 }
{
    let mut n = 0;
    for label in 0..9 {
        n += count_under(work, c, i, label);
    }
    n
}

// How many edges leave all c states; it stops once there are more than there may be.
pub(crate) fn count_edges(work: &[u8], c: usize, limit: usize) -> usize
    requires { (c ≤ max_states) × ((model_room ≤ length work.now) × ((Ordered c work.now) × (Ranked c work.now))) }
    ensures { result ≡ tally_upto work.now c limit c }
{
    let mut n = 0;
    for i in 0..c {
        if limit < n {
            return n;
        }
        n += count_from(work, c, i);
    }
    n
}

// Writes the i-th state as a node.
fn write_node(work: &[u8], out: &mut [u8], i: usize)
    requires { (i < max_states) × ((model_room ≤ length work.now) × (record_len * i + record_len ≤ length out.old)) }
    ensures { out.new ≡ put_at out.old (record_len * i) (node_bytes work.now i) }
{
    let state = get::<u8>(work, Places::ORDER, i) as usize;
    let kind = get::<u8>(work, Places::KINDS, state);
    let entry = has_bit(work, Places::TARGETS, 256 * Places::ENTRIES + state);
    put_record(out, i, Record::node(kind / 2, kind % 2 == 1, entry));
}

// Writes all c states.
fn write_nodes(work: &[u8], out: &mut [u8], c: usize)
    requires { (c ≤ max_states) × ((model_room ≤ length work.now) × (record_len * c ≤ length out.old)) }
    ensures { out.new ≡ put_at out.old 0 (each (node_bytes work.now) (span 0 c)) }
{
    for i in 0..c {
        write_node(work, out, i);
    }
}

// Marks in `ordered` the place of each state that has a bit in the row from `row` on.
fn order_row(work: &[u8], row: usize, c: usize, ordered: &mut [u8])
    requires { (row + 32 ≤ model_room) × ((c ≤ max_states) × ((model_room ≤ length work.now) × ((Ordered c work.now) × ((Ranked c work.now) × (ordered.old ≡ replicate 32 0))))) }
    ensures { (j : ℕ) → j < c → has_bit ordered.new 0 j ≡ has_bit work.now row (order_at work.now j) }
{
    let mut t = next_bit(work, row, 0, c);
    // The next bit is looked for from here on, not the next index; an iterator of our own with its laws would be no plainer.
    while t < c {
        let place = get::<u8>(work, Places::RANKS, t);
        put_bit(ordered, 0, place as usize);
        t = next_bit(work, row, t + 1, c);
    }
}

// Writes the edges with this label from the i-th state, from record `at` on. The record after them.
fn write_under(work: &[u8], out: &mut [u8], c: usize, i: usize, label: usize, at: usize) -> usize
    requires { (i < c) × ((label < 9) × ((c ≤ max_states) × ((model_room ≤ length work.now) × ((record_len * (at + tally_under work.now c i label) ≤ length out.old) × ((Ordered c work.now) × (Ranked c work.now)))))) }
    ensures { (result ≡ at + tally_under work.now c i label) × (out.new ≡ put_at out.old (record_len * at) (under_bytes work.now c i label)) }
{
    let mut ordered = [0u8; 32];
    order_row(work, row_of(work, i, label), c, &mut ordered);
    let mut j = next_bit(&ordered, 0, 0, c);
    let mut end = at;
    // The next bit is looked for from here on, not the next index; an iterator of our own with its laws would be no plainer.
    while j < c {
        put_record(out, end, Record::edge(i as u8, label as u8, j as u8));
        end += 1;
        j = next_bit(&ordered, 0, j + 1, c);
    }
    end
}

// Writes the edges from the i-th state.
fn write_from(work: &[u8], out: &mut [u8], c: usize, i: usize, at: usize) -> usize
    requires { (i < c) × ((c ≤ max_states) × ((model_room ≤ length work.now) × ((record_len * (at + tally_from work.now c i 9) ≤ length out.old) × ((Ordered c work.now) × (Ranked c work.now))))) }
    ensures { (result ≡ at + tally_from work.now c i 9) × (out.new ≡ put_at out.old (record_len * at) (from_bytes work.now c i 9)) }
{
    let mut end = at;
    for label in 0..9 {
        end = write_under(work, out, c, i, label, end);
    }
    end
}

// Writes the model, which has c states and so many edges.
pub(crate) fn write_model(
    interface: &[u8],
    property: &[u8],
    work: &[u8],
    out: &mut [u8],
    c: usize,
    edges: usize,
)
    requires { (PropertyFile property.now) × ((model_room ≤ length work.now) × ((Arranged (decode_interface interface.now) (decode_property property.now) c work.now) × ((edges ≡ length (model (decode_interface interface.now) (decode_property property.now)).edges) × ((record_len * (c + edges) ≤ length out.old) × (Ranked c work.now))))) }
    ensures { out.new ≡ graph_bytes (model (decode_interface interface.now) (decode_property property.now)) ++ drop (length (graph_bytes (model (decode_interface interface.now) (decode_property property.now)))) out.old }
{
    write_nodes(work, out, c);
    let mut end = c;
    for i in 0..c {
        end = write_from(work, out, c, i, end);
    }
}
