// The chip of a placed net.
ghost use Rattle.std.specs.Prelude.{IfOk, IfSome};
ghost use Rattle.rowed.specs.PlacedNets.{IsPlaced};
ghost use Rattle.plan_build.specs.Laws.{AnswersAs};
ghost use Rattle.plan_limits.specs.Drawable.{IsDrawable};
ghost use Rattle.plan_limits.specs.Code.Limits.{IsShortened};

use crate::limits::may_be_drawn;
use aq_base::Memory;
use blif_read::Netlist;
use cell_library::Library;
use circuit::Pass;
use plan_build::repeating;
use repeater_rows::{RepeatRefusal, repeaters_count, repeaters_short};
use rowed::Placed;
use std::alloc::Global;

/// A placed net with rows of repeaters where its wires are too long, unless it has too many cells then or is too high.
#[tactic(auto, using(crate::proofs::Candidates::shortens))]
fn shortened(
    alloc: Global,
    library: &Library,
    _net: &Netlist,
    placed: &Placed,
) -> Result<Option<Placed>, Memory>
    requires keeps { IsPlaced placed.now }
    requires answers { AnswersAs _net.now placed.now }
    ensures { IfOk result (λ found. IfSome found (IsShortened library.now _net.now placed.now)) }
{
    library.known();
    repeaters_short();
    repeaters_count();
    match repeating(library).run(alloc, placed) {
        Ok(chip) => Ok(Some(chip)),
        Err(RepeatRefusal::Memory) => Err(Memory),
        Err(RepeatRefusal::TooManyCells { .. } | RepeatRefusal::TooTall { .. }) => Ok(None),
    }
}

/// The chip of a placed net that answers every word as a netlist does, as one that a search has found: with rows of
/// repeaters where its wires are too long for the library. Nothing is given where it has too many cells then, is too
/// high or too wide, has a cell of a kind that the library does not give, or too many elements. It fails for want of
/// memory alone.
#[tactic(auto, using(crate::proofs::Candidates::drawn))]
pub fn drawable_chip(
    alloc: Global,
    library: &Library,
    net: &Netlist,
    placed: &Placed,
) -> Result<Option<Placed>, Memory>
    requires keeps { IsPlaced placed.now }
    requires answers { AnswersAs net.now placed.now }
    ensures { IfOk result (λ found. IfSome found (IsDrawable library.now net.now placed.now)) }
{
    library.known();
    net.known();
    let Some(chip) = shortened(alloc, library, net, placed)? else {
        return Ok(None);
    };
    if may_be_drawn(library, net, placed, &chip) {
        Ok(Some(chip))
    } else {
        Ok(None)
    }
}
