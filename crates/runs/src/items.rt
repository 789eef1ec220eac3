// The items of the search for a trail: a record looked at makes one, unless its place was met. `push` states what then stands in the lent buffer.
ghost use Rattle.std.specs.Prelude.{◌≡◌, not, ◌≤◌, ◌<◌, T, length};
ghost use Rattle.files.specs.Record.{step_number};
ghost use Rattle.runs.specs.Regions.{points, watch_room};
ghost use Rattle.runs.specs.Searching.{rec_of, seen, pushed, pushed_tail};

use crate::regions::Regions;
use files::cells::{has_bit, put, put_bit};
use files::encode::put_record;
use files::record::{Record, Step};

// Looks at one record from item `head`: unless its place was met, it makes an item. The end of the items after it.
pub(crate) fn push(
    work: &mut [u8],
    tail: usize,
    head: usize,
    g: u8,
    q: u8,
    step: Step,
    label: u8,
    to: u8,
    next: u8,
) -> usize
    requires { (next < 8) × ((watch_room ≤ length work.old) × ((head < tail) × (T (not (seen work.old to next)) → tail ≤ points))) }
    ensures { (result ≡ pushed_tail work.old tail head (rec_of g q (step_number step) label to next)) × (work.new ≡ pushed work.old tail head (rec_of g q (step_number step) label to next)) }
{
    let at = 8 * (to as usize) + next as usize;
    if has_bit(work, Regions::SEEN, at) {
        return tail;
    }
    put_record(
        work,
        tail,
        Record::step(g, q, step.number(), label, to, next),
    );
    put(work, Regions::PARENTS, tail, head as u16);
    put_bit(work, Regions::SEEN, at);
    tail + 1
}
