// The call "judge_deliveries": refusals in the published order, then the standing graph, assembled in a lent buffer, and the verdict on it.
ghost use Rattle.std.specs.Prelude.{length};
ghost use Rattle.files.specs.Outcome.{Answers, DoesBoth, answered};
ghost use Rattle.files.specs.Settling.{Settles};
ghost use Rattle.judging.specs.Delivered.{delivered, delivered_first, delivered_last, delivered_verdict};
ghost use Rattle.judging.specs.Delivered.Work.{Judgeable};
ghost use Rattle.judging.specs.Judge.{judged_answer, Strides};

use crate::answers::Judged;
use crate::decide::decide;
use crate::shape::Shape;
use files::assembled::write_standing;
use files::cells::clear;
use files::check::check;
use files::delivered::check_deliveries;
use files::offence::FileKind;
use files::record::{Limits, Record};
use files::refusal::Refusal;
use files::settle::{check_unrepeated, clear_after, refuse_if};
use files::standing::latest_openings;
use files::stood::standing_view;

// 11, then the verdict on the standing graph, whose file is written to the store.
fn judge_standing(
    deliveries: &[u8],
    property: &[u8],
    out: &mut [u8],
    store: &mut [u8],
    work: &mut [u8],
    limits: Limits,
) -> Result<Judged, Refusal>
    requires { (Strides limits) × (Judgeable limits deliveries.now property.now (length store.old) (length work.old)) }
    ensures { Answers (answered (delivered_last limits deliveries.now property.now (length out.old) (length store.old) (length work.old)) (delivered_verdict limits deliveries.now property.now (length out.old) (length store.old) (length work.old))) out.old out.new (judged_answer result) }
{
    let kept = latest_openings(deliveries);
    let view = standing_view(deliveries, &kept);
    if (limits.nodes < view.nodes) | (limits.edges < view.edges) {
        return Err(Refusal::whole(11));
    }
    write_standing(deliveries, &kept, view, store);
    let end = Record::LEN * (view.nodes + view.edges);
    let s = Shape {
        graph: view,
        rows: property.len() / Record::LEN,
    };
    decide(&store[..end], property, s, out, work)
}

// The numbers that come before the standing graph, in the published order.
fn check_delivered(
    deliveries: &[u8],
    property: &[u8],
    store: usize,
    work: usize,
    limits: Limits,
) -> Result<(), Refusal>
    ensures { Settles (delivered_first limits deliveries.now property.now store work) result }
{
    refuse_if(13, (store < Shape::STORE) | (work < Shape::ROOM))?;
    check_deliveries(deliveries, 1, limits)?;
    check(FileKind::Property, property, 2, limits)?;
    check_unrepeated(deliveries)
}

// Judges within limits that the buffers' strides allow.
pub(crate) fn judge_deliveries_within(
    deliveries: &[u8],
    property: &[u8],
    out: &mut [u8],
    store: &mut [u8],
    work: &mut [u8],
    limits: Limits,
) -> Result<Judged, Refusal>
    requires { Strides limits }
    ensures { DoesBoth (delivered limits deliveries.now property.now (length out.old) (length store.old) (length work.old)) out.old store.old work.old out.new store.new work.new (judged_answer result) }
{
    match check_delivered(deliveries, property, store.len(), work.len(), limits) {
        Err(refusal) => {
            clear_after(refusal, store);
            clear_after(refusal, work);
            Err(refusal)
        }
        Ok(()) => {
            let answer = judge_standing(deliveries, property, out, store, work, limits);
            clear(store);
            clear(work);
            answer
        }
    }
}
