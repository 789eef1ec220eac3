// Examples that are watched: a graph with its rules, a known side with the property of the other one, or two sides of which only properties are known.
use crate::answers::say_watched;
use crate::lengths::{OUTPUT, lent, two_bytes};
use maximal::places::Places;
use printing::stdout::Buffered;
use printing::zeros;
use runs::regions::Regions;

// Watching. The example starts with the lengths of the first two files and of the output, two bytes each, low byte first, then 1 for a work buffer of the published
// length or 0 for none, and the start method; the three files follow.
pub(crate) fn watch_runs(stdout: &mut Buffered, example: &[u8]) {
    let Some((head, files)) = example.split_first_chunk::<8>() else {
        return;
    };
    let Some((interface, files)) = files.split_at_checked(two_bytes(head, 0) as usize) else {
        return;
    };
    let Some((graph, rules)) = files.split_at_checked(two_bytes(head, 2) as usize) else {
        return;
    };
    let mut out = zeros::<OUTPUT>();
    let mut work = zeros::<{ Regions::ROOM }>();
    let out = &mut out[..two_bytes(head, 4) as usize];
    let work = lent(&mut work, head[6]);
    let answer = runs::watch(interface, graph, rules, head[7], out, work);
    say_watched(stdout, answer, out);
}

// An example of a composed verdict: both sides' files and the rules, the output's length, 1 for a store of the published length or 0 for none, the same for a work buffer, and
// the start method. Of the first side the second file is the graph, or the property where both sides are unwritten.
#[derive(Clone, Copy)]
struct Composition<'a> {
    interface1: &'a [u8],
    first: &'a [u8],
    interface2: &'a [u8],
    property2: &'a [u8],
    rules: &'a [u8],
    room: u16,
    store: u8,
    work: u8,
    start: u8,
}

impl<'a> Composition<'a> {
    // The example starts with the lengths of the first four files and of the output, two bytes each, low byte first, then both flags and the start method; the five files follow.
    fn of(example: &'a [u8]) -> Option<Self> {
        let (head, files) = example.split_first_chunk::<13>()?;
        let (interface1, files) = files.split_at_checked(two_bytes(head, 0) as usize)?;
        let (first, files) = files.split_at_checked(two_bytes(head, 2) as usize)?;
        let (interface2, files) = files.split_at_checked(two_bytes(head, 4) as usize)?;
        let (property2, rules) = files.split_at_checked(two_bytes(head, 6) as usize)?;
        Some(Composition {
            interface1,
            first,
            interface2,
            property2,
            rules,
            room: two_bytes(head, 8),
            store: head[10],
            work: head[11],
            start: head[12],
        })
    }
}

// The composed verdict of one unwritten side.
pub(crate) fn compose_one(stdout: &mut Buffered, example: &[u8]) {
    let Some(c) = Composition::of(example) else {
        return;
    };
    let mut out = zeros::<OUTPUT>();
    let mut store = zeros::<{ Regions::ROOM }>();
    let mut work = zeros::<{ Places::ROOM }>();
    let out = &mut out[..c.room as usize];
    let store = lent(&mut store, c.store);
    let work = lent(&mut work, c.work);
    let answer = runs::compose(
        c.interface1,
        c.first,
        c.interface2,
        c.property2,
        c.rules,
        c.start,
        out,
        store,
        work,
    );
    say_watched(stdout, answer, out);
}

// The composed verdict of two unwritten sides.
pub(crate) fn compose_both(stdout: &mut Buffered, example: &[u8]) {
    let Some(c) = Composition::of(example) else {
        return;
    };
    let mut out = zeros::<OUTPUT>();
    let mut store = zeros::<{ Regions::TWO_GRAPHS }>();
    let mut work = zeros::<{ Places::ROOM }>();
    let out = &mut out[..c.room as usize];
    let store = lent(&mut store, c.store);
    let work = lent(&mut work, c.work);
    let answer = runs::compose_both(
        c.interface1,
        c.first,
        c.interface2,
        c.property2,
        c.rules,
        c.start,
        out,
        store,
        work,
    );
    say_watched(stdout, answer, out);
}
