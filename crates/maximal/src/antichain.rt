// A list of sets of rows in the lent buffer, none within another: a set is added where no listed one is within it, and the listed ones that it is within are dropped.
ghost use Rattle.std.specs.Prelude.{◌≡◌, not, ◌+◌, ◌≤◌, ◌<◌, length};
ghost use Rattle.files.specs.Basics.Lists.{keep};
ghost use Rattle.files.specs.Basics.Tests.{any};
ghost use Rattle.judging.specs.Chains.{Outside};
ghost use Rattle.maximal.specs.Masks.{within};
ghost use Rattle.maximal.specs.Collected.{inserted, listed};
ghost use Rattle.maximal.specs.Places.{candidates_base, max_candidates, model_room};

use crate::places::Places;
use files::cells::{get, put};

// Every row of u is in s.
fn is_within(u: u32, s: u32) -> bool
    ensures { result ≡ within u s }
{
    u | s == s
}

// Whether a listed set is within s.
fn has_within(work: &[u8], count: usize, s: u32) -> bool
    requires { (count ≤ max_candidates) × (model_room ≤ length work.now) }
    ensures { result ≡ any (λ u. within u s) (listed work.now count) }
{
    for i in 0..count {
        if is_within(get::<u32>(work, Places::CANDIDATES, i), s) {
            return true;
        }
    }
    false
}

// Drops the listed sets that s is within. How many are left.
fn drop_above(work: &mut [u8], count: usize, s: u32) -> usize
    requires { (count ≤ max_candidates) × (model_room ≤ length work.old) }
    ensures { (listed work.new result ≡ keep (λ u. not (within s u)) (listed work.old count)) × ((result ≤ count) × (Outside candidates_base model_room work.old work.new)) }
{
    let mut left = 0;
    for i in 0..count {
        let u = get::<u32>(work, Places::CANDIDATES, i);
        if !is_within(s, u) {
            put(work, Places::CANDIDATES, left, u);
            left += 1;
        }
    }
    left
}

// Adds set s. How many are listed then.
pub(crate) fn insert(work: &mut [u8], count: usize, s: u32) -> usize
    requires { (count < max_candidates) × (model_room ≤ length work.old) }
    ensures { (listed work.new result ≡ inserted (listed work.old count) s) × ((result ≤ count + 1) × (Outside candidates_base model_room work.old work.new)) }
{
    if has_within(work, count, s) {
        return count;
    }
    let left = drop_above(work, count, s);
    put(work, Places::CANDIDATES, left, s);
    left + 1
}
