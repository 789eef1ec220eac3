// Writing into a lent buffer: records of six bytes, of files, trails, sheets and what is shown; and lines of a relation.
ghost use Rattle.std.specs.Prelude.{◌≡◌, ◌+◌, ◌*◌, ◌≤◌, length};
ghost use Rattle.files.specs.Places.{record_len};
ghost use Rattle.files.specs.Record.{six};
ghost use Rattle.files.specs.Cells.{put_at, has_bit};
ghost use Rattle.files.specs.Line.{relation_line};

use crate::cells::copy_at;
use crate::record::Record;

// Stores a record as record i. Every record that a call writes goes through here.
pub fn put_record(out: &mut [u8], i: usize, r: Record)
    requires { record_len * i + record_len ≤ length out.old }
    ensures { out.new ≡ put_at out.old (record_len * i) (six r) }
{
    let p = Record::LEN * i;
    out[p] = r.kind;
    out[p + 1] = r.first;
    out[p + 2] = r.second;
    out[p + 3] = r.third;
    out[p + 4] = r.fourth;
    out[p + 5] = r.fifth;
}

// The length of a relation's line: a bit for each of 256 nodes.
pub const LINE: usize = 32;

// Stores the row of 256 bits from `base` of `rows` on as line g.
pub fn put_line(out: &mut [u8], g: usize, rows: &[u8], base: usize)
    requires { (32 * g + 32 ≤ length out.old) × (base + 32 ≤ length rows.now) }
    ensures { out.new ≡ put_at out.old (32 * g) (relation_line (has_bit rows.now base)) }
{
    copy_at(out, LINE * g, &rows[base..base + LINE]);
}
