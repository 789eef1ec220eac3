// Numbers of 1, 2 and 4 bytes, bits and runs of bytes in a lent buffer. A cell is numbered from `base` on in steps of its width, and its low byte stands first.
// Fixed places in lent bytes, and no Vec, map or Box: the callers' boxes have no heap, C lends the memory, and its lengths are published (docs/BUFFERS.md).
ghost use Rattle.std.specs.Prelude.{◌≡◌, ℕ, ◌+◌, ◌*◌, ◌/◌, ◌≤◌, ◌<◌, length, replicate};
ghost use Rattle.files.specs.Cells.{little, put_little, cell, put_cell, has_bit, put_bit, put_at};

// A byte as a length, with its bound.
pub fn wide(x: u8) -> usize
    ensures { (result ≡ x) × (result < 256) }
{
    x as usize
}

// A number that fills a cell, low byte first.
pub trait Cell: Copy {
    const WIDTH: usize;

    ghost WIDTH: { ℕ };

    ghost value: { Self → ℕ };

    // The number whose bytes stand from place `at` on.
    fn load(work: &[u8], at: usize) -> Self
        requires { at + WIDTH ≤ length work.now }
        ensures { value result ≡ little work.now at WIDTH };

    // Stores its bytes from place `at` on.
    fn store(self, work: &mut [u8], at: usize)
        requires { at + WIDTH ≤ length work.old }
        ensures { work.new ≡ put_little work.old at WIDTH (value self) };
}

impl Cell for u8 {
    const WIDTH: usize = 1;

    ghost WIDTH = { 1 };

    ghost value = { λ x. x };

    fn load(work: &[u8], at: usize) -> u8 {
        work[at]
    }

    fn store(self, work: &mut [u8], at: usize) {
        work[at] = self;
    }
}

impl Cell for u16 {
    const WIDTH: usize = 2;

    ghost WIDTH = { 2 };

    ghost value = { λ x. x };

    fn load(work: &[u8], at: usize) -> u16 {
        u16::from_le_bytes([work[at], work[at + 1]])
    }

    fn store(self, work: &mut [u8], at: usize) {
        copy_at(work, at, &self.to_le_bytes());
    }
}

impl Cell for u32 {
    const WIDTH: usize = 4;

    ghost WIDTH = { 4 };

    ghost value = { λ x. x };

    fn load(work: &[u8], at: usize) -> u32 {
        u32::from_le_bytes([work[at], work[at + 1], work[at + 2], work[at + 3]])
    }

    fn store(self, work: &mut [u8], at: usize) {
        copy_at(work, at, &self.to_le_bytes());
    }
}

// What cell i holds.
pub fn get<T: Cell>(work: &[u8], base: usize, i: usize) -> T
    requires { base + T.WIDTH * i + T.WIDTH ≤ length work.now }
    ensures { T.value result ≡ cell work.now base T.WIDTH i }
{
    T::load(work, base + T::WIDTH * i)
}

// Stores v in cell i.
pub fn put<T: Cell>(work: &mut [u8], base: usize, i: usize, v: T)
    requires { base + T.WIDTH * i + T.WIDTH ≤ length work.old }
    ensures { work.new ≡ put_cell work.old base T.WIDTH i (T.value v) }
{
    v.store(work, base + T::WIDTH * i);
}

// Whether bit h of the row of bits from base on is one.
pub fn has_bit(work: &[u8], base: usize, h: usize) -> bool
    requires { base + h / 8 < length work.now }
    ensures { result ≡ has_bit work.now base h }
{
    (work[base + h / 8] >> (h % 8)) % 2 == 1
}

// Makes bit h one.
pub fn put_bit(work: &mut [u8], base: usize, h: usize)
    requires { base + h / 8 < length work.old }
    ensures { work.new ≡ put_bit work.old base h }
{
    let at = base + h / 8;
    work[at] = work[at] | (1 << (h % 8));
}

// Makes the whole slice zero. This and `copy_at` stay functions: the laws of cells speak of their results.
pub fn clear(work: &mut [u8])
    ensures { work.new ≡ replicate (length work.old) 0 }
{
    work.fill(0);
}

// Stores src from place `at` on. A byte a turn: `copy_from_slice` is the C library's `memmove`, and the archive for C asks for nothing but `memset` (docs/DECISIONS.md).
pub fn copy_at(dst: &mut [u8], at: usize, src: &[u8])
    requires { at + length src.now ≤ length dst.old }
    ensures { dst.new ≡ put_at dst.old at src.now }
{
    for i in 0..src.len() {
        dst[at + i] = src[i];
    }
}
