// Rows packed in the order that they have.
ghost use Rattle.std.specs.Prelude.{◌≡◌, ◌≤◌, ◌⊎◌, map, IfOk, IfErr};
ghost use Rattle.std.specs.List.{AllByRecursion};
ghost use Rattle.rowed.specs.Extent.{packed_span};
ghost use Rattle.rowed.specs.Limits.{slot_limit};
ghost use Rattle.row_place.specs.Passes.{IsTooWide};
ghost use Rattle.row_place.specs.Places.{packed};
ghost use Rattle.row_place.specs.declared.pass.PlaceRefusal.TheVariants.{Memory as NoMemory};
ghost use Rattle.plan_draw.specs.Packs.{IsPacked};

use aq_base::{List, Memory};
use row_place::{PlaceRefusal, slots_of};
use rowed::{Placed, RowCell, RowNet, is_too_wide};
use std::alloc::Global;

/// The slots of each row.
fn each_slots(alloc: Global, rows: &[List<RowCell>]) -> Result<Vec<List<u32>>, Memory>
    requires { AllByRecursion (λ row. packed_span row ≤ slot_limit) rows.now }
    ensures { IfOk result (λ slots. slots.items ≡ map (packed 0) rows.now) }
{
    let mut slots = Vec::with_capacity(alloc, rows.len())?;
    for row in rows {
        slots.push(List::from_vec(slots_of(alloc, row.as_slice())?))?;
    }
    Ok(slots)
}

/// The net with the cells of each row packed from slot 0 in the order that they have, each directly behind the one
/// before, so that the slot of a cell is the sum of the slots that the cells before it take. `slot_width` is the width
/// of a slot in nanometres, at least 1. The net is refused with its greatest span, in slots, exactly where this is
/// wider than 2,000,000,000 nanometres, before a cell is packed, and else for want of memory alone. The time is linear
/// in the cells.
pub fn pack_net(alloc: Global, net: RowNet, slot_width: u64) -> Result<Placed, PlaceRefusal>
    requires { 1 ≤ slot_width }
    ensures packed { IfOk result (λ placed. IsPacked net slot_width placed) }
    ensures refused { IfErr result (λ refusal. (refusal ≡ NoMemory) ⊎ IsTooWide net slot_width refusal) }
{
    net.known();
    let span = net.packed_span();
    if is_too_wide(span, slot_width) {
        return Err(PlaceRefusal::TooWide { span });
    }
    let slots = each_slots(alloc, net.rows.as_slice())?;
    Ok(Placed {
        net,
        slots: List::from_vec(slots),
        lag: 0,
    })
}
