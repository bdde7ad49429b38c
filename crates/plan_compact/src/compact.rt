// The chip of a netlist, as small as was found.
ghost use Rattle.std.specs.Prelude.{◌≡◌, IfOk, IfErr, IfSome};
ghost use Rattle.layout_make.specs.MayDraw.{MayDraw};
ghost use Rattle.plan_build.specs.Laws.{AnswersAs};
ghost use Rattle.plan_build.specs.Refusals.{Refuses};
ghost use Rattle.plan_compact.specs.Compact.{IsPlanned, IsCompactChip};
ghost use Rattle.plan_compact.specs.Code.Candidates.{IsCandidate};

use crate::search::found_chip;
use crate::sizes::is_no_larger;
use blif_read::Netlist;
use cell_library::Library;
use plan_build::{PlanRefusal, plan_chip, plan_laws};
use plan_limits::delayed;
use repeater_rows::repeaters_count;
use rowed::Placed;
use std::alloc::Global;

/// The smaller of a chip that was found and the chip of the defined plan; that of the plan where neither is.
#[tactic(auto, using(crate::proofs::Candidates::chosen))]
fn smaller(_library: &Library, _net: &Netlist, found: Placed, planned: Placed) -> Placed
    requires found { IsCandidate _library.now _net.now found }
    requires planned { IsPlanned _library.now _net.now planned }
    requires draws { MayDraw planned _library.now }
    requires answers { AnswersAs _net.now planned }
    ensures draws { MayDraw result _library.now }
    ensures answers { AnswersAs _net.now result }
    ensures compact { IsCompactChip _library.now _net.now result }
{
    repeaters_count();
    if is_no_larger(&found, &planned) {
        found
    } else {
        planned
    }
}

/// The chip of a netlist with a library, with no row delayed: one that was found, or else that of the defined plan.
#[tactic(auto, using(crate::proofs::Candidates::chosen))]
fn undelayed_chip(alloc: Global, library: &Library, net: &Netlist) -> Result<Placed, PlanRefusal>
    ensures draws { IfOk result (λ chip. MayDraw chip library.now) }
    ensures answers { IfOk result (λ chip. AnswersAs net.now chip) }
    ensures compact { IfOk result (λ chip. IsCompactChip library.now net.now chip) }
    ensures refused { IfErr result (Refuses library.now net.now) }
{
    plan_laws();
    let found = found_chip(alloc, library, net)?;
    match (found, plan_chip(alloc, library, net)) {
        (None, planned) => planned,
        (Some(_), Err(PlanRefusal::Memory)) => Err(PlanRefusal::Memory),
        (Some(found), Err(_)) => Ok(found),
        (Some(found), Ok(planned)) => Ok(smaller(library, net, found, planned)),
    }
}

/// The chip of a netlist with a library: one that was found, or else that of the defined plan. It can be drawn, and
/// answers every word as the netlist does. A chip that was found has few enough elements, and, where the plan keeps its
/// limits, at most as many cells and junctions as the plan's chip. Its odd rows are delayed where it bears a higher
/// clock rate by that. A refusal is the plan's.
#[tactic(auto, using(crate::proofs::Delayed::delays))]
pub fn compact_chip(alloc: Global, library: &Library, net: &Netlist) -> Result<Placed, PlanRefusal>
    ensures draws { IfOk result (λ chip. MayDraw chip library.now) }
    ensures answers { IfOk result (λ chip. AnswersAs net.now chip) }
    ensures compact { IfOk result (λ chip. IsCompactChip library.now net.now chip) }
    ensures refused { IfErr result (Refuses library.now net.now) }
{
    let chip = undelayed_chip(alloc, library, net)?;
    Ok(delayed(library, chip))
}
