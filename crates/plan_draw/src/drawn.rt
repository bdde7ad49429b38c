// The chip that is drawn of a netlist of cells.
ghost use Rattle.std.specs.Prelude.{IfOk, IfErr};
ghost use Rattle.layout_make.specs.MayDraw.{MayDraw};
ghost use Rattle.plan_build.specs.Laws.{AnswersAs};
ghost use Rattle.plan_draw.specs.CellPlans.{IsCellChip};
ghost use Rattle.plan_draw.specs.DrawnChips.{IsDrawnChip};
ghost use Rattle.plan_draw.specs.Refusals.{RefusesCells};
ghost use Rattle.plan_draw.specs.Code.Found.{IsFoundChip};

use crate::found::found_chip;
use crate::plan::{packed_chip, rows_of};
use crate::refusal::CellPlanRefusal;
use blif_read::Netlist;
use cell_library::Library;
use plan_limits::delayed;
use rowed::Placed;
use std::alloc::Global;

/// The chip that was found where it has at most as many cells as the packed one, and else that.
#[tactic(auto, using(crate::proofs::DrawnRows::chosen))]
fn smaller(_library: &Library, _net: &Netlist, found: Placed, packed: Placed) -> Placed
    requires found { IsFoundChip _library.now _net.now found }
    requires packed { IsCellChip _library.now _net.now packed }
    ensures chip { IsDrawnChip _library.now _net.now result }
    ensures draws { MayDraw result _library.now }
    ensures answers { AnswersAs _net.now result }
{
    _library.known();
    _net.known();
    if found.cell_count() <= packed.cell_count() {
        found
    } else {
        packed
    }
}

/// The chip that is drawn of a netlist of cells with a library, with no row delayed.
#[tactic(auto, using(crate::proofs::DrawnRows::chosen))]
fn undelayed_chip(
    alloc: Global,
    library: &Library,
    net: &Netlist,
) -> Result<Placed, CellPlanRefusal>
    ensures chip { IfOk result (IsDrawnChip library.now net.now) }
    ensures draws { IfOk result (λ chip. MayDraw chip library.now) }
    ensures answers { IfOk result (λ chip. AnswersAs net.now chip) }
    ensures refused { IfErr result (RefusesCells library.now net.now) }
{
    library.known();
    net.known();
    let rows = rows_of(alloc, library, net)?;
    let found = found_chip(alloc, library, net, &rows)?;
    match (found, packed_chip(alloc, library, net, rows)) {
        (None, packed) => packed,
        (Some(_), Err(CellPlanRefusal::Memory)) => Err(CellPlanRefusal::Memory),
        (Some(found), Err(_)) => Ok(found),
        (Some(found), Ok(packed)) => Ok(smaller(library, net, found, packed)),
    }
}

/// The chip that is drawn of a netlist of cells with a library: its cells as they stand, in the rows of their levels,
/// with rows of repeaters where wires are too long for the library. In each row the cells stand packed from slot 0 in
/// the order of the text, or else as a search has placed them, which may have added rows of buffers and let constants
/// stand in them, where that chip has at most as many cells or the packed one passes a limit. The chip can be drawn,
/// and answers every word as the netlist does. Its odd rows are delayed where it bears a higher clock rate by that. A
/// netlist that is none of cells is refused with its first fault; another refusal says which limit the packed chip
/// passes, and with which number, or that memory is wanting.
#[tactic(auto, using(crate::proofs::DrawnRows::delays))]
pub fn draw_cells(
    alloc: Global,
    library: &Library,
    net: &Netlist,
) -> Result<Placed, CellPlanRefusal>
    ensures chip { IfOk result (IsDrawnChip library.now net.now) }
    ensures draws { IfOk result (λ chip. MayDraw chip library.now) }
    ensures answers { IfOk result (λ chip. AnswersAs net.now chip) }
    ensures refused { IfErr result (RefusesCells library.now net.now) }
{
    let chip = undelayed_chip(alloc, library, net)?;
    Ok(delayed(library, chip))
}
