// The trail from the items of the search: its records counted from its last item back, and written from the last one forward to the first.
ghost use Rattle.std.specs.Prelude.{◌≡◌, ◌++◌, ◌*◌, ◌≤◌, length, drop};
ghost use Rattle.files.specs.Decode.{decode_graph, decode_rules};
ghost use Rattle.files.specs.Places.{record_len};
ghost use Rattle.files.specs.Rules.{watch};
ghost use Rattle.runs.specs.Regions.{watch_room};
ghost use Rattle.runs.specs.Searching.{Traced};
ghost use Rattle.runs.specs.Summary.Trails.{trail, trail_bytes};

use crate::regions::Regions;
use files::cells::{copy_at, get};
use files::record::Record;

// How many records the trail has that ends at item i.
pub(crate) fn count_records(graph: &[u8], rules: &[u8], work: &[u8], start: u8, i: usize) -> usize
    requires { (Traced (decode_graph graph.now) (watch (decode_rules rules.now)) start i work.now) × (watch_room ≤ length work.now) }
    ensures { result ≡ length (trail (decode_graph graph.now) (watch (decode_rules rules.now)) start) }
{
    let mut at = i;
    let mut n = 0;
    // A chain's links are read as they are walked; an iterator of our own with its laws would be no plainer than this line.
    while at > 0 {
        at = get::<u16>(work, Regions::PARENTS, at) as usize;
        n += 1;
    }
    n
}

// Writes the trail of n records that ends at item i.
pub(crate) fn write_trail(
    graph: &[u8],
    rules: &[u8],
    work: &[u8],
    start: u8,
    i: usize,
    n: usize,
    out: &mut [u8],
)
    requires { (Traced (decode_graph graph.now) (watch (decode_rules rules.now)) start i work.now) × ((watch_room ≤ length work.now) × ((n ≡ length (trail (decode_graph graph.now) (watch (decode_rules rules.now)) start)) × (record_len * n ≤ length out.old))) }
    ensures { out.new ≡ trail_bytes (decode_graph graph.now) (watch (decode_rules rules.now)) start ++ drop (length (trail_bytes (decode_graph graph.now) (watch (decode_rules rules.now)) start)) out.old }
{
    let mut at = i;
    let mut k = n;
    // A chain's links are read as they are walked; an iterator of our own with its laws would be no plainer than this line.
    while at > 0 {
        k -= 1;
        let from = Record::LEN * at;
        copy_at(out, Record::LEN * k, &work[from..from + Record::LEN]);
        at = get::<u16>(work, Regions::PARENTS, at) as usize;
    }
}
