// The states of a model, each once, numbered in the order in which they are found, and the rows of bits that say which states follow. `admit` states what is there
// once the minimal supports of a set of rows are entered, or that the model has too many states.
ghost use Rattle.std.specs.Prelude.{◌≡◌, not, ℕ, ◌+◌, ◌*◌, ◌/◌, ◌%◌, ◌^◌, ◌≤◌, ◌<◌, T, length};
ghost use mathlib.Core.List.{Memᴰ, [], ◌∷◌};
ghost use Rattle.files.specs.Basics.Least.{least};
ghost use Rattle.files.specs.Decode.{decode_interface, decode_property};
ghost use Rattle.judging.specs.Chains.{Outside};
ghost use Rattle.maximal.specs.Charting.{Scoped, flag_of, is_pair, Known, Holds, Crowded, Admitted};
ghost use Rattle.maximal.specs.Collected.{Tables, listed, supports_of};
ghost use Rattle.maximal.specs.Places.{candidates_base, entries_slot, max_candidates, model_room, kinds_base};

use crate::places::{Places, Scope};
use crate::supports::supports;
use files::cells::{get, put, put_bit};

// Place i has this byte among those from `bytes` on and this set among those from `sets` on.
fn is_pair(work: &[u8], bytes: usize, sets: usize, i: usize, byte: u8, set: u32) -> bool
    requires { (bytes + i + 1 ≤ length work.now) × (sets + 4 * i + 4 ≤ length work.now) }
    ensures { result ≡ is_pair work.now bytes sets byte set i }
{
    (get::<u8>(work, bytes, i) == byte) & (get::<u32>(work, sets, i) == set)
}

// The first of n places that is such a pair, or n, where none of the first `from` is.
fn pair_from(
    work: &[u8],
    bytes: usize,
    sets: usize,
    from: usize,
    n: usize,
    byte: u8,
    set: u32,
) -> usize
    requires { (from ≤ n) × ((bytes + n ≤ length work.now) × ((sets + 4 * n ≤ length work.now) × ((j : ℕ) → j < from → T (not (is_pair work.now bytes sets byte set j))))) }
    ensures { result ≡ least (is_pair work.now bytes sets byte set) n }
{
    for i in from..n {
        if is_pair(work, bytes, sets, i, byte, set) {
            return i;
        }
    }
    n
}

// The first of n places that has this byte among those from `bytes` on and this set among those from `sets` on, or n. Four places are looked at in a turn.
pub(crate) fn find_pair(
    work: &[u8],
    bytes: usize,
    sets: usize,
    n: usize,
    byte: u8,
    set: u32,
) -> usize
    requires { (bytes + n ≤ length work.now) × (sets + 4 * n ≤ length work.now) }
    ensures { result ≡ least (is_pair work.now bytes sets byte set) n }
{
    for turn in 0..n / 4 {
        let i = 4 * turn;
        if is_pair(work, bytes, sets, i, byte, set)
            | is_pair(work, bytes, sets, i + 1, byte, set)
            | is_pair(work, bytes, sets, i + 2, byte, set)
            | is_pair(work, bytes, sets, i + 3, byte, set)
        {
            return pair_from(work, bytes, sets, i, n, byte, set);
        }
    }
    pair_from(work, bytes, sets, n / 4 * 4, n, byte, set)
}

// Enters a state, where it is new, and marks it in row q. How many states there are then; one more than there may be where there is no room.
fn enter(
    interface: &[u8],
    property: &[u8],
    s: Scope,
    work: &mut [u8],
    q: usize,
    c: usize,
    kind: u8,
    set: u32,
) -> usize
    requires { (Scoped s property.now) × ((q ≤ entries_slot) × ((c ≤ s.states) × ((model_room ≤ length work.old) × ((Holds (decode_interface interface.now) (decode_property property.now) c work.old) × (Known (decode_interface interface.now) (decode_property property.now) kind set))))) }
    ensures { (result ≤ s.states → (Admitted (decode_interface interface.now) (decode_property property.now) c result kind (set ∷ []) q work.old work.new) × (Outside kinds_base candidates_base work.old work.new)) × ((result ≤ s.states + 1) × (s.states < result → Crowded (decode_interface interface.now) (decode_property property.now) s.states)) }
{
    let t = find_pair(work, Places::KINDS, Places::SETS, c, kind, set);
    if t < c {
        put_bit(work, Places::TARGETS, 256 * q + t);
        return c;
    }
    if c == s.states {
        return c + 1;
    }
    put(work, Places::KINDS, c, kind);
    put(work, Places::SETS, c, set);
    put_bit(work, Places::TARGETS, 256 * q + c);
    c + 1
}

// Enters all listed sets with this kind.
fn enter_listed(
    interface: &[u8],
    property: &[u8],
    s: Scope,
    work: &mut [u8],
    q: usize,
    c: usize,
    kind: u8,
    n: usize,
) -> usize
    requires { (Scoped s property.now) × ((q ≤ entries_slot) × ((c ≤ s.states) × ((n ≤ max_candidates) × ((model_room ≤ length work.old) × ((Holds (decode_interface interface.now) (decode_property property.now) c work.old) × ((u : ℕ) → Memᴰ u (listed work.old n) → Known (decode_interface interface.now) (decode_property property.now) kind u)))))) }
    ensures { (result ≤ s.states → Admitted (decode_interface interface.now) (decode_property property.now) c result kind (listed work.old n) q work.old work.new) × ((result ≤ s.states + 1) × (s.states < result → Crowded (decode_interface interface.now) (decode_property property.now) s.states)) }
{
    let mut total = c;
    for k in 0..n {
        let set = get::<u32>(work, Places::CANDIDATES, k);
        total = enter(interface, property, s, work, q, total, kind, set);
        if s.states < total {
            return total;
        }
    }
    total
}

// Enters the minimal supports of a set of rows with this kind.
pub(crate) fn admit(
    interface: &[u8],
    property: &[u8],
    s: Scope,
    work: &mut [u8],
    q: usize,
    c: usize,
    kind: u8,
    set: u32,
) -> usize
    requires { (Scoped s property.now) × ((q ≤ entries_slot) × ((c ≤ s.states) × ((set < 2 ^ s.rows) × ((model_room ≤ length work.old) × ((Tables (decode_property property.now) work.old) × ((Holds (decode_interface interface.now) (decode_property property.now) c work.old) × ((u : ℕ) → Memᴰ u (supports_of (decode_property property.now) s.ors (kind / 2) (flag_of kind) set) → Known (decode_interface interface.now) (decode_property property.now) kind u))))))) }
    ensures { (result ≤ s.states → Admitted (decode_interface interface.now) (decode_property property.now) c result kind (supports_of (decode_property property.now) s.ors (kind / 2) (flag_of kind) set) q work.old work.new) × ((result ≤ s.states + 1) × (s.states < result → Crowded (decode_interface interface.now) (decode_property property.now) s.states)) }
{
    let n = supports(property, s.rows, work, s.ors, kind / 2, kind % 2 == 1, set);
    enter_listed(interface, property, s, work, q, c, kind, n)
}
