// What an example tells at its start: numbers of two bytes, and whether a call is lent a buffer of its published length.
ghost use Rattle.std.specs.Prelude.{◌≡◌, ◌+◌, ◌≤◌, ◌<◌, length};
ghost use Rattle.judging.specs.Places.{compare_room};

use judging::sizes::Sizes;
use printing::zeros;

// Bytes of an output.
pub(crate) const OUTPUT: usize = 65536;

// Room for the longest example: 257 nodes or 4,097 edges with their nodes.
pub(crate) const EXAMPLE: usize = 60000;

// The number in two bytes from i on, low byte first.
pub(crate) fn two_bytes(head: &[u8], i: usize) -> u16
    requires { i + 1 < length head.now }
{
    u16::from_le_bytes([head[i], head[i + 1]])
}

// The work buffer of comparing, which is the longest.
pub(crate) fn work_buffer() -> [u8; Sizes::ROOM]
    ensures { compare_room ≡ length result }
{
    zeros()
}

// The buffer, or none of it where the flag is 0.
pub(crate) fn lent(buffer: &mut [u8], flag: u8) -> &mut [u8]
    ensures { length result.now ≤ length buffer.old }
{
    let end = if flag == 0 { 0 } else { buffer.len() };
    &mut buffer[..end]
}
