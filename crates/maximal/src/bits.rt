// Rows of at most 256 bits, of which only those that are one are visited. `next_bit` states which bit comes next.
ghost use Rattle.std.specs.Prelude.{◌+◌, ◌≤◌, length};
ghost use Rattle.maximal.specs.Bits.{NextBit};
ghost use Rattle.maximal.specs.Places.{max_states};

use files::cells::get;

// The first bit from bit t on that is one, below n; n or more where there is none. 32 bits that are zero are passed over at once.
pub(crate) fn next_bit(bits: &[u8], base: usize, t: usize, n: usize) -> usize
    requires { (n ≤ max_states) × (base + 32 ≤ length bits.now) }
    ensures { NextBit bits.now base t n result }
{
    let mut u = t;
    // 32 bits are passed over at once, so the step is no count.
    while u < n {
        let rest = get::<u32>(bits, base, u / 32) >> (u % 32);
        if rest != 0 {
            return u + (u32::trailing_zeros(rest) as usize);
        }
        u = 32 * (u / 32) + 32;
    }
    u
}
