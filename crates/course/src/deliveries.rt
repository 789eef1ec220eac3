// Examples of deliveries: assembling what stands of them, and judging it.
use crate::answers::{say_judged, say_written};
use crate::lengths::{OUTPUT, lent, two_bytes};
use judging::shape::Shape;
use printing::stdout::Buffered;
use printing::zeros;

// Assembling. The example starts with the output's length, two bytes, low byte first; the deliveries follow.
pub(crate) fn assemble_standing(stdout: &mut Buffered, example: &[u8]) {
    let Some((head, deliveries)) = example.split_first_chunk::<2>() else {
        return;
    };
    let mut out = zeros::<OUTPUT>();
    let out = &mut out[..two_bytes(head, 0) as usize];
    let answer = files::assemble(deliveries, out);
    say_written(stdout, answer, out);
}

// Judging. The example starts with the lengths of the deliveries and of the output, two bytes each, low byte first, then 1 for a store of the published length or 0
// for none, and the same for a work buffer; the deliveries and the property follow.
pub(crate) fn judge_standing(stdout: &mut Buffered, example: &[u8]) {
    let Some((head, files)) = example.split_first_chunk::<6>() else {
        return;
    };
    let Some((deliveries, property)) = files.split_at_checked(two_bytes(head, 0) as usize) else {
        return;
    };
    let mut out = zeros::<OUTPUT>();
    let mut store = zeros::<{ Shape::STORE }>();
    let mut work = zeros::<{ Shape::ROOM }>();
    let out = &mut out[..two_bytes(head, 2) as usize];
    let store = lent(&mut store, head[4]);
    let work = lent(&mut work, head[5]);
    let answer = judging::judge_deliveries(deliveries, property, out, store, work);
    say_judged(stdout, answer, out);
}
