// The checker of wide drafts.
ghost use Rattle.std.specs.Prelude.{◌≡◌, IfOk, IfSome, IsSome};
ghost use Rattle.circuit.specs.SameAnswers.{SameAnswers};
ghost use Rattle.rowed.specs.RowNets.{IsAnswer};
ghost use Rattle.rowed.specs.PlacedNets.{IsPlaced};
ghost use Rattle.placement_check.specs.Wider.{IsWide, IsWider};
ghost use Rattle.placement_check.specs.Code.Rows.{is_wide};

use crate::WideDraft;
use crate::rows::is_net;
use crate::widening::is_widened;
use aq_base::Memory;
use rowed::{Placed, RowNet, each_seated};
use std::alloc::Global;

/// Whether the rows of a draft are those of a placed net that is wider than this one.
fn is_wide(alloc: Global, net: &RowNet, draft: &WideDraft) -> Result<bool, Memory>
    ensures { IfOk result (λ is. is ≡ is_wide net.now draft.now.rows draft.now.slots draft.now.became
        draft.now.places draft.now.marks) }
{
    let rows = draft.rows.as_slice();
    let became = draft.became.as_slice();
    let places = draft.places.as_slice();
    if !is_widened(
        net.rows.as_slice(),
        rows,
        became,
        places,
        draft.marks.as_slice(),
    ) {
        return Ok(false);
    }
    if !each_seated(rows, draft.slots.as_slice()) {
        return Ok(false);
    }
    is_net(alloc, net.inputs, net.outputs, rows)
}

/// The placed net of a draft that is wider than a net: it has the cells of the net, each once and in the row that its
/// own has become, but a constant in any row, and added buffers, through which alone each output leads to the pin that
/// it feeds in the net. So it answers every word as the net does. Each such draft is taken, and of another one none is
/// given. It fails for want of memory alone. The time is linear in the sizes of draft and net.
pub fn check_wider(alloc: Global, net: &RowNet, draft: WideDraft) -> Result<Option<Placed>, Memory>
    ensures accepts { IfOk result (λ found. IsWide net.now draft.rows draft.slots draft.became draft.places draft.marks
        → IsSome found) }
    ensures net { IfOk result (λ found. IfSome found (λ placed. IsPlaced placed)) }
    ensures rows { IfOk result (λ found. IfSome found (λ placed. placed.net.rows ≡ draft.rows)) }
    ensures slots { IfOk result (λ found. IfSome found (λ placed. placed.slots ≡ draft.slots)) }
    ensures wider { IfOk result (λ found. IfSome found (λ placed. IsWider net.now placed.net)) }
    ensures same { IfOk result (λ found. IfSome found (λ placed. SameAnswers
        net.now.inputs placed.net.inputs net.now.outputs placed.net.outputs
        (IsAnswer net.now) (IsAnswer placed.net))) }
{
    net.known();
    if !is_wide(alloc, net, &draft)? {
        return Ok(None);
    }
    Ok(Some(Placed {
        net: RowNet {
            inputs: net.inputs,
            outputs: net.outputs,
            rows: draft.rows,
        },
        slots: draft.slots,
        lag: 0,
    }))
}
