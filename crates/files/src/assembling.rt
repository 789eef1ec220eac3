// Assembling a file of deliveries: all refusals in the published order, then the standing graph's bytes. States to the layer above that the answer and the output are those of
// the definition `assembled_outcome`, for any limits within which a node number is a byte.
ghost use Rattle.std.specs.Prelude.{◌≤◌, length};
ghost use Rattle.files.specs.Assemble.{DeliveriesFile, assemble_first, assemble_said, from_standing, assembled_outcome, assembled_answer};
ghost use Rattle.files.specs.Outcome.{Answers, answered};
ghost use Rattle.files.specs.Places.{max_edges, max_nodes};
ghost use Rattle.files.specs.Settling.{Settles};

use crate::assembled::write_standing;
use crate::delivered::check_deliveries;
use crate::record::{Limits, Record};
use crate::refusal::Refusal;
use crate::settle::check_unrepeated;
use crate::standing::latest_openings;
use crate::stood::standing_view;
use crate::view::GraphView;

// 11 and 12, then the standing graph and its answer.
fn assemble_standing(
    deliveries: &[u8],
    out: &mut [u8],
    limits: Limits,
) -> Result<GraphView, Refusal>
    requires { (DeliveriesFile deliveries.now) × ((limits.nodes ≤ max_nodes) × (limits.edges ≤ max_edges)) }
    ensures { Answers (answered (from_standing limits deliveries.now (length out.old)) (assemble_said limits deliveries.now (length out.old))) out.old out.new (assembled_answer result) }
{
    let kept = latest_openings(deliveries);
    let view = standing_view(deliveries, &kept);
    if (limits.nodes < view.nodes) | (limits.edges < view.edges) {
        return Err(Refusal::whole(11));
    }
    if out.len() < Record::LEN * (view.nodes + view.edges) {
        return Err(Refusal::whole(12));
    }
    write_standing(deliveries, &kept, view, out);
    Ok(view)
}

// The numbers that come before the standing graph, in the published order.
fn check_assemble(deliveries: &[u8], limits: Limits) -> Result<(), Refusal>
    ensures { Settles (assemble_first limits deliveries.now) result }
{
    check_deliveries(deliveries, 1, limits)?;
    check_unrepeated(deliveries)
}

// Assembles within limits that leave node numbers in a byte.
pub(crate) fn assemble_within(
    deliveries: &[u8],
    out: &mut [u8],
    limits: Limits,
) -> Result<GraphView, Refusal>
    requires { (limits.nodes ≤ max_nodes) × (limits.edges ≤ max_edges) }
    ensures { Answers (assembled_outcome limits deliveries.now (length out.old)) out.old out.new (assembled_answer result) }
{
    check_assemble(deliveries, limits)?;
    assemble_standing(deliveries, out, limits)
}
