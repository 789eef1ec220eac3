// Examples of two files: judging, comparing and modelling.
use crate::answers::{say_compared, say_judged, say_written};
use crate::lengths::{OUTPUT, lent, two_bytes, work_buffer};
use judging::shape::Shape;
use maximal::places::Places;
use printing::stdout::Buffered;
use printing::zeros;

// Two files, the output's length, and 1 for a work buffer of the published length or 0 for none.
#[derive(Clone, Copy)]
struct Pair<'a> {
    first: &'a [u8],
    second: &'a [u8],
    room: u16,
    flag: u8,
}

impl<'a> Pair<'a> {
    // The example starts with the first file's length and the output's length, two bytes each, low byte first, then the flag, then 0; the first file and the second follow.
    fn of(example: &'a [u8]) -> Option<Self> {
        let (head, files) = example.split_first_chunk::<6>()?;
        let (first, second) = files.split_at_checked(two_bytes(head, 0) as usize)?;
        Some(Pair {
            first,
            second,
            room: two_bytes(head, 2),
            flag: head[4],
        })
    }
}

pub(crate) fn judge(stdout: &mut Buffered, example: &[u8]) {
    let Some(pair) = Pair::of(example) else {
        return;
    };
    let mut out = zeros::<OUTPUT>();
    let mut work = zeros::<{ Shape::ROOM }>();
    let out = &mut out[..pair.room as usize];
    let answer = judging::judge(pair.first, pair.second, out, lent(&mut work, pair.flag));
    say_judged(stdout, answer, out);
}

pub(crate) fn compare(stdout: &mut Buffered, example: &[u8]) {
    let Some(pair) = Pair::of(example) else {
        return;
    };
    let mut out = zeros::<OUTPUT>();
    let mut work = work_buffer();
    let out = &mut out[..pair.room as usize];
    let answer = judging::compare(pair.first, pair.second, out, lent(&mut work, pair.flag));
    say_compared(stdout, answer, out);
}

pub(crate) fn model(stdout: &mut Buffered, example: &[u8]) {
    let Some(pair) = Pair::of(example) else {
        return;
    };
    let mut out = zeros::<OUTPUT>();
    let mut work = zeros::<{ Places::ROOM }>();
    let out = &mut out[..pair.room as usize];
    let answer = maximal::model(pair.first, pair.second, out, lent(&mut work, pair.flag));
    say_written(stdout, answer, out);
}
