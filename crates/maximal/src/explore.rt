// All states of a model: the entries, then for each state and label those that follow, until every state is worked. Equal sets asked for are worked once a method. Nothing is read from the buffer but what was written before: a slot's row is
// cleared when its turn comes.
// `explore` states that all states are there with what follows them, or that the model has too many.
ghost use Rattle.std.specs.Prelude.{◌≡◌, false, ◌||◌, ℕ, ◌+◌, ◌*◌, ◌≤◌, ◌<◌, eqb, length};
ghost use Rattle.files.specs.Interface.{requires_method};
ghost use Rattle.files.specs.Access.{InterfaceFile};
ghost use Rattle.files.specs.Decode.{decode_interface, decode_property};
ghost use Rattle.files.specs.Places.{line_bytes};
ghost use Rattle.judging.specs.Chains.{Outside};
ghost use Rattle.maximal.specs.Charting.{Scoped, target, Crowded, Charting, Asking, Charted};
ghost use Rattle.maximal.specs.Collected.{Tables};
ghost use Rattle.maximal.specs.Masks.{Boxes};
ghost use Rattle.maximal.specs.Places.{entries_slot, model_room, slots, targets_base, max_states};

use crate::masks::{LABELS, asked, boxes_by_label};
use crate::places::{Places, Scope};
use crate::states::{admit, find_pair};
use crate::supports::tabulate;
use files::cells::{clear, get, put};
use files::encode::LINE;
use files::interface::{provided_methods, provides, requires_method};

// An internal step, or a call of a required method.
fn is_label(interface: &[u8], label: u8) -> bool
    requires { InterfaceFile interface.now }
    ensures { result ≡ (eqb label 0 || requires_method (decode_interface interface.now) label) }
{
    (label == 0) | requires_method(interface, label)
}

// Row q becomes blank.
fn clear_row(work: &mut [u8], q: usize)
    requires { (q ≤ entries_slot) × (model_room ≤ length work.old) }
    ensures { ((t : ℕ) → t < max_states → target work.new q t ≡ false) × (Outside (targets_base + line_bytes * q) (targets_base + line_bytes * q + line_bytes) work.old work.new) }
{
    let from = Places::TARGETS + LINE * q;
    clear(&mut work[from..from + LINE]);
}

// Enters the entries of all provided methods.
fn enter_entries(interface: &[u8], property: &[u8], s: Scope, work: &mut [u8]) -> usize
    requires { (InterfaceFile interface.now) × ((Scoped s property.now) × ((model_room ≤ length work.old) × (Tables (decode_property property.now) work.old))) }
    ensures { (result ≤ s.states → (Charting (decode_interface interface.now) (decode_property property.now) result 0 work.new) × (Tables (decode_property property.now) work.new)) × ((result ≤ s.states + 1) × (s.states < result → Crowded (decode_interface interface.now) (decode_property property.now) s.states)) }
{
    clear_row(work, Places::ENTRIES);
    let mut c = 0;
    for kind in 2..18 {
        if provides(interface, kind / 2) {
            c = admit(interface, property, s, work, Places::ENTRIES, c, kind, 1);
            if s.states < c {
                return c;
            }
        }
    }
    c
}

// Row q becomes as row p.
fn copy_row(work: &mut [u8], p: usize, q: usize)
    requires { (p < q) × ((q < slots) × (model_room ≤ length work.old)) }
    ensures { ((t : ℕ) → t < max_states → target work.new q t ≡ target work.old p t) × (Outside (targets_base + line_bytes * q) (targets_base + line_bytes * q + line_bytes) work.old work.new) }
{
    for k in 0..LINE {
        let byte = get::<u8>(work, Places::TARGETS + LINE * p, k);
        put(work, Places::TARGETS + LINE * q, k, byte);
    }
}

// Enters what follows by slot q, whose state has this method and asks for this set, with either flag.
fn follow_anew(
    interface: &[u8],
    property: &[u8],
    s: Scope,
    work: &mut [u8],
    q: usize,
    c: usize,
    method: u8,
    set: u32,
) -> usize
    requires { (Scoped s property.now) × ((q < 9 * c) × ((c ≤ s.states) × ((model_room ≤ length work.old) × ((Tables (decode_property property.now) work.old) × (Asking (decode_interface interface.now) (decode_property property.now) c q method set work.old))))) }
    ensures { (result ≤ s.states → (Charting (decode_interface interface.now) (decode_property property.now) result (q + 1) work.new) × ((Tables (decode_property property.now) work.new) × (c ≤ result))) × ((result ≤ s.states + 1) × (s.states < result → Crowded (decode_interface interface.now) (decode_property property.now) s.states)) }
{
    let going = admit(interface, property, s, work, q, c, 2 * method, set);
    if s.states < going {
        return going;
    }
    admit(interface, property, s, work, q, going, 2 * method + 1, set)
}

// Enters what follows state i under label l.
fn follow(
    interface: &[u8],
    property: &[u8],
    s: Scope,
    boxes: &[u32; LABELS],
    work: &mut [u8],
    i: usize,
    label: u8,
    c: usize,
) -> usize
    requires { (Boxes (decode_property property.now) boxes.now) × ((InterfaceFile interface.now) × ((Scoped s property.now) × ((i < c) × ((label < 9) × ((c ≤ s.states) × ((model_room ≤ length work.old) × ((Tables (decode_property property.now) work.old) × (Charting (decode_interface interface.now) (decode_property property.now) c (9 * i + label) work.old)))))))) }
    ensures { (result ≤ s.states → (Charting (decode_interface interface.now) (decode_property property.now) result (9 * i + label + 1) work.new) × ((Tables (decode_property property.now) work.new) × (c ≤ result))) × ((result ≤ s.states + 1) × (s.states < result → Crowded (decode_interface interface.now) (decode_property property.now) s.states)) }
{
    let q = 9 * i + (label as usize);
    clear_row(work, q);
    if !is_label(interface, label) {
        put(work, Places::METHODS, q, 0u8);
        return c;
    }
    let method = get::<u8>(work, Places::KINDS, i) / 2;
    let among = get::<u32>(work, Places::SETS, i) & boxes[label as usize];
    let set = asked(property, s.rows, among, label);
    // The first slot below q with this method that asks for this set, or q.
    let p = find_pair(work, Places::METHODS, Places::ASKED, q, method, set);
    put(work, Places::METHODS, q, method);
    put(work, Places::ASKED, q, set);
    if p < q {
        copy_row(work, p, q);
        return c;
    }
    follow_anew(interface, property, s, work, q, c, method, set)
}

// Enters what follows state i under every label.
fn expand(
    interface: &[u8],
    property: &[u8],
    s: Scope,
    boxes: &[u32; LABELS],
    work: &mut [u8],
    i: usize,
    c: usize,
) -> usize
    requires { (Boxes (decode_property property.now) boxes.now) × ((InterfaceFile interface.now) × ((Scoped s property.now) × ((i < c) × ((c ≤ s.states) × ((model_room ≤ length work.old) × ((Tables (decode_property property.now) work.old) × (Charting (decode_interface interface.now) (decode_property property.now) c (9 * i) work.old))))))) }
    ensures { (result ≤ s.states → (Charting (decode_interface interface.now) (decode_property property.now) result (9 * i + 9) work.new) × ((Tables (decode_property property.now) work.new) × (c ≤ result))) × ((result ≤ s.states + 1) × (s.states < result → Crowded (decode_interface interface.now) (decode_property property.now) s.states)) }
{
    let mut total = c;
    for label in 0..9 {
        total = follow(interface, property, s, boxes, work, i, label, total);
        if s.states < total {
            return total;
        }
    }
    total
}

// All states. How many there are; one more than there may be where there are more. Where no method is provided there is none, and no row is looked at.
pub(crate) fn explore(interface: &[u8], property: &[u8], s: Scope, work: &mut [u8]) -> usize
    requires { (InterfaceFile interface.now) × ((Scoped s property.now) × (model_room ≤ length work.old)) }
    ensures { (result ≤ s.states → Charted (decode_interface interface.now) (decode_property property.now) result work.new) × ((result ≤ s.states + 1) × (s.states < result → Crowded (decode_interface interface.now) (decode_property property.now) s.states)) }
{
    if provided_methods(interface) == 0 {
        return 0;
    }
    tabulate(property, s.rows, work);
    let boxes = boxes_by_label(property, s.rows);
    let mut c = enter_entries(interface, property, s, work);
    if s.states < c {
        return c;
    }
    let mut i = 0;
    // The body adds states, so no range is fixed beforehand.
    while i < c {
        c = expand(interface, property, s, &boxes, work, i, c);
        if s.states < c {
            return c;
        }
        i += 1;
    }
    c
}
