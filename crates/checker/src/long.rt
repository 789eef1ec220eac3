// The commands on a first file that may be long.
ghost use Rattle.std.specs.Prelude.{◌≡◌, length};
ghost use Rattle.checker.specs.Places.{longest_file};

use crate::command::Long;
use crate::commands::{assemble, judge_deliveries};
use crate::lengths::Lengths;
use crate::load::load;
use crate::pack::pack;
use crate::text::list;
use printing::stdout::Buffered;
use printing::zeros;

// The longest file of these that is read: all 255 revisions of all eight methods, each round of them within the limits, 8 openings, 256 nodes and 4,096 edges of six bytes. The
// buffer stands on the stack, 8 MiB by default, and what the program has beside it takes less than 1, so arguments and environment have 0.8 left. Unoptimised, as
// in `rt try`, the program has it several times, and these commands do not fit.
const LONGEST: usize = Lengths::FILE;

fn long_buffer() -> [u8; LONGEST]
    ensures { longest_file ≡ length result }
{
    zeros()
}

// One function has the buffer for all four: two of them are past the stack. It has a frame of its own; in that of `main` every command would touch the buffer's pages.
#[inline(never)]
pub fn run(stdout: &mut Buffered, command: Long, at: Option<usize>) {
    let mut room = long_buffer();
    let Some(file) = load(stdout, 2, &mut room) else {
        return;
    };
    match command {
        Long::Assemble => assemble(stdout, file, at),
        Long::JudgeDeliveries => judge_deliveries(stdout, file, at),
        Long::Text => list(stdout, file),
        Long::Pack => pack(stdout, file, at),
    }
}
