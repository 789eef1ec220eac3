// Rows of 256 bits: taken out of a lent buffer and put back, what two rows have together, in common or one without the other, and whether a row has a bit of another, or a
// bit at all. A row that is made goes to the caller by value: stored byte by byte where it is read, it would have to be read byte by byte.
ghost use Rattle.std.specs.Prelude.{◌≡◌, false, not, ◌&&◌, ◌||◌, ℕ, ◌+◌, ◌-◌, ◌≤◌, ◌<◌, T, length};
ghost use Rattle.std.specs.Int.Bits.{bit_and};
ghost use Rattle.files.specs.Cells.{has_bit};
ghost use Rattle.files.specs.Places.{line_bytes, max_nodes};
ghost use Rattle.judging.specs.Chains.{Outside};
ghost use Rattle.judging.specs.Words.{ones_in};

use files::cells::{get, wide};
use files::encode::LINE;

// The digits of one byte that another has not.
pub(crate) fn without(x: u8, y: u8) -> u8
    ensures { (result ≡ bit_and x (255 - y)) × (y < max_nodes) }
{
    x & !y
}

// The row from `at` on. (Here and in `put_row` a loop over the bytes is built into the caller, where `copy_from_slice` is a call and makes comparing up to a third slower.)
pub(crate) fn row_at(work: &[u8], at: usize) -> [u8; LINE]
    requires { at + line_bytes ≤ length work.now }
    ensures { (length result ≡ line_bytes) × ((h : ℕ) → h < max_nodes → has_bit result 0 h ≡ has_bit work.now at h) }
{
    let mut row = [0u8; LINE];
    for k in 0..LINE {
        row[k] = work[at + k];
    }
    row
}

// What the row from `at` on has and another has not.
pub(crate) fn row_without(work: &[u8], at: usize, row: &[u8]) -> [u8; LINE]
    requires { (at + line_bytes ≤ length work.now) × (32 ≤ length row.now) }
    ensures { (length result ≡ line_bytes) × ((h : ℕ) → h < max_nodes → has_bit result 0 h ≡ (has_bit work.now at h && not (has_bit row.now 0 h))) }
{
    let mut rest = [0u8; LINE];
    for k in 0..LINE {
        rest[k] = without(work[at + k], row[k]);
    }
    rest
}

// Stores a row from `at` on.
pub(crate) fn put_row(work: &mut [u8], at: usize, row: &[u8])
    requires { (at + line_bytes ≤ length work.old) × (32 ≤ length row.now) }
    ensures { ((h : ℕ) → h < max_nodes → has_bit work.new at h ≡ has_bit row.now 0 h) × (Outside at (at + line_bytes) work.old work.new) }
{
    for k in 0..LINE {
        work[at + k] = row[k];
    }
}

// A row and the row from `at` on together.
pub(crate) fn row_with(row: &[u8], work: &[u8], at: usize) -> [u8; LINE]
    requires { (at + line_bytes ≤ length work.now) × (32 ≤ length row.now) }
    ensures { (length result ≡ line_bytes) × ((h : ℕ) → h < max_nodes → has_bit result 0 h ≡ (has_bit row.now 0 h || has_bit work.now at h)) }
{
    let mut both = [0u8; LINE];
    for k in 0..LINE {
        both[k] = row[k] | work[at + k];
    }
    both
}

// What two rows have in common.
pub(crate) fn common(row: &[u8], other: &[u8]) -> [u8; LINE]
    requires { (32 ≤ length row.now) × (32 ≤ length other.now) }
    ensures { (length result ≡ line_bytes) × ((h : ℕ) → h < max_nodes → has_bit result 0 h ≡ (has_bit row.now 0 h && has_bit other.now 0 h)) }
{
    let mut both = [0u8; LINE];
    for k in 0..LINE {
        both[k] = row[k] & other[k];
    }
    both
}

// Takes a row out of the row from `at` on.
pub(crate) fn drop_row(work: &mut [u8], at: usize, row: &[u8])
    requires { (at + line_bytes ≤ length work.old) × (32 ≤ length row.now) }
    ensures { ((h : ℕ) → h < max_nodes → has_bit work.new at h ≡ (has_bit work.old at h && not (has_bit row.now 0 h))) × (Outside at (at + line_bytes) work.old work.new) }
{
    let rest = row_without(work, at, row);
    put_row(work, at, &rest);
}

// Whether a row and the row from `at` on have a bit in common.
pub(crate) fn meets(row: &[u8], work: &[u8], at: usize) -> bool
    requires { (at + line_bytes ≤ length work.now) × (32 ≤ length row.now) }
    ensures { (T result → (h : ℕ) × (h < max_nodes) × T (has_bit row.now 0 h) × T (has_bit work.now at h)) × (T (not result) → (h : ℕ) → h < max_nodes → T (has_bit row.now 0 h) → T (has_bit work.now at h) → ⊥) }
{
    let mut any = 0;
    for k in 0..LINE {
        any = any | (row[k] & work[at + k]);
    }
    wide(any) > 0
}

// Whether the row from `at` on has a bit.
pub(crate) fn any_at(work: &[u8], at: usize) -> bool
    requires { at + line_bytes ≤ length work.now }
    ensures { (T result → (h : ℕ) × (h < max_nodes) × T (has_bit work.now at h)) × (T (not result) → (h : ℕ) → h < max_nodes → has_bit work.now at h ≡ false) }
{
    let mut any = 0;
    for byte in &work[at..at + LINE] {
        any |= *byte;
    }
    wide(any) > 0
}

// Whether the row from `at` on has a bit that the row from `less` on has not.
pub(crate) fn exceeds(work: &[u8], at: usize, less: usize) -> bool
    requires { (at + line_bytes ≤ length work.now) × (less + 32 ≤ length work.now) }
    ensures { (T result → (h : ℕ) × (h < max_nodes) × T (has_bit work.now at h) × (T (has_bit work.now less h) → ⊥)) × (T (not result) → (h : ℕ) → h < max_nodes → T (has_bit work.now at h) → T (has_bit work.now less h)) }
{
    let mut any = 0;
    for k in 0..LINE {
        any = any | without(work[at + k], work[less + k]);
    }
    wide(any) > 0
}

// How many bits of a row are one.
pub(crate) fn size_of_row(row: &[u8]) -> u32
    requires { 32 ≤ length row.now }
    ensures { result ≡ ones_in row.now 8 }
{
    let mut n = 0;
    for k in 0..8 {
        n = n + u32::count_ones(get::<u32>(row, 0, k));
    }
    n
}
