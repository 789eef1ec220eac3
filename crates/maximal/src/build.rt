// The call "model": refusals in the published order, then the model's states, its size and its bytes.
ghost use Rattle.std.specs.Prelude.{◌≡◌, ◌≤◌, length};
ghost use Rattle.files.specs.Access.{InterfaceFile};
ghost use Rattle.files.specs.Decode.{decode_interface, decode_property};
ghost use Rattle.files.specs.Outcome.{Answers, Does};
ghost use Rattle.files.specs.Settling.{Settles};
ghost use Rattle.maximal.specs.Charting.{Scoped, Charted};
ghost use Rattle.maximal.specs.Modelling.{modelled, modelled_answer, model_first, from_size, Bounded};
ghost use Rattle.maximal.specs.Places.{model_room};

use crate::explore::explore;
use crate::order::arrange;
use crate::places::{Places, Scope};
use crate::written::{count_edges, write_model};
use files::cells::clear;
use files::check::check;
use files::offence::FileKind;
use files::record::{Limits, Record};
use files::refusal::Refusal;
use files::settle::{clear_after, refuse_if};
use files::view::GraphView;

// The model whose c states are found, in order: counted, then written if it fits.
fn write_found(
    interface: &[u8],
    property: &[u8],
    s: Scope,
    out: &mut [u8],
    work: &mut [u8],
    limits: Limits,
    c: usize,
) -> Result<GraphView, Refusal>
    requires { (Scoped s property.now) × ((s.states ≡ limits.nodes) × ((c ≤ s.states) × ((model_room ≤ length work.old) × (Charted (decode_interface interface.now) (decode_property property.now) c work.old)))) }
    ensures { Answers (from_size limits interface.now property.now (length out.old)) out.old out.new (modelled_answer result) }
{
    arrange(interface, property, work, c);
    let edges = count_edges(work, c, limits.edges);
    if limits.edges < edges {
        return Err(Refusal::whole(11));
    }
    if out.len() < Record::LEN * (c + edges) {
        return Err(Refusal::whole(12));
    }
    write_model(interface, property, work, out, c, edges);
    Ok(GraphView { nodes: c, edges })
}

// The model of two accepted files.
fn build(
    interface: &[u8],
    property: &[u8],
    s: Scope,
    out: &mut [u8],
    work: &mut [u8],
    limits: Limits,
) -> Result<GraphView, Refusal>
    requires { (InterfaceFile interface.now) × ((Scoped s property.now) × ((s.states ≡ limits.nodes) × (model_room ≤ length work.old))) }
    ensures { Answers (from_size limits interface.now property.now (length out.old)) out.old out.new (modelled_answer result) }
{
    let c = explore(interface, property, s, work);
    if s.states < c {
        return Err(Refusal::whole(11));
    }
    write_found(interface, property, s, out, work, limits, c)
}

// The numbers that come before the model, in the published order.
fn check_model(
    interface: &[u8],
    property: &[u8],
    work: usize,
    limits: Limits,
) -> Result<(), Refusal>
    ensures { Settles (model_first limits interface.now property.now work) result }
{
    refuse_if(13, work < Places::ROOM)?;
    check(FileKind::Interface, interface, 1, limits)?;
    check(FileKind::Property, property, 2, limits)?;
    Ok(())
}

// Models within limits that the buffer allows.
pub fn model_within(
    interface: &[u8],
    property: &[u8],
    out: &mut [u8],
    work: &mut [u8],
    limits: Limits,
) -> Result<GraphView, Refusal>
    requires { Bounded limits }
    ensures { Does (modelled limits interface.now property.now (length out.old) (length work.old)) out.old work.old out.new work.new (modelled_answer result) }
{
    match check_model(interface, property, work.len(), limits) {
        Err(refusal) => {
            clear_after(refusal, work);
            Err(refusal)
        }
        Ok(()) => {
            let s = Scope {
                rows: property.len() / Record::LEN,
                ors: limits.ors,
                states: limits.nodes,
            };
            let answer = build(interface, property, s, out, work, limits);
            clear(work);
            answer
        }
    }
}
