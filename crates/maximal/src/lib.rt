// The maximal model of a property: the public call.
#![tactic(auto)]

ghost use Rattle.files.specs.Limits.{desk};
ghost use Rattle.files.specs.Outcome.{Does};
ghost use Rattle.std.specs.Prelude.{length};
ghost use Rattle.maximal.specs.Modelling.{modelled, modelled_answer};

use files::record::Limits;
use files::refusal::Refusal;
use files::view::GraphView;

pub mod antichain;
pub mod bits;
pub mod build;
pub mod explore;
pub mod masks;
pub mod order;
pub mod places;
pub mod states;
pub mod supports;
pub mod written;

// The maximal model of an interface and a property goes to `out`: it simulates a flow graph of the interface, however large, exactly when that graph satisfies the property.
pub fn model(
    interface: &[u8],
    property: &[u8],
    out: &mut [u8],
    work: &mut [u8],
) -> Result<GraphView, Refusal>
    ensures { Does (modelled desk interface.now property.now (length out.old) (length work.old)) out.old work.old out.new work.new (modelled_answer result) }
{
    build::model_within(interface, property, out, work, Limits::desk())
}
