// The buffers that the commands lend the calls, of the published lengths (docs/BUFFERS.md).
ghost use Rattle.std.specs.Prelude.{◌≡◌, length};
ghost use Rattle.files.specs.Places.{graph_room};
ghost use Rattle.judging.specs.Places.{compare_room, judge_room};
ghost use Rattle.maximal.specs.Places.{model_room};
ghost use Rattle.runs.specs.Regions.{watch_room};
ghost use Rattle.runs.specs.Unwritten.{both_store};

use judging::shape::Shape;
use judging::sizes::Sizes;
use maximal::places::Places;
use printing::zeros;
use runs::regions::Regions;

pub fn judge_buffer() -> [u8; Shape::ROOM]
    ensures { judge_room ≡ length result }
{
    zeros()
}

pub fn store_buffer() -> [u8; Shape::STORE]
    ensures { graph_room ≡ length result }
{
    zeros()
}

pub fn compare_buffer() -> [u8; Sizes::ROOM]
    ensures { compare_room ≡ length result }
{
    zeros()
}

pub fn model_buffer() -> [u8; Places::ROOM]
    ensures { model_room ≡ length result }
{
    zeros()
}

pub fn watch_buffer() -> [u8; Regions::ROOM]
    ensures { watch_room ≡ length result }
{
    zeros()
}

// A store of either composed verdict: that of two unwritten sides is the longer one.
pub fn compose_buffer() -> [u8; Regions::TWO_GRAPHS]
    ensures { both_store ≡ length result }
{
    zeros()
}
