// The plan of a netlist of cells: levels, rows, slots, repeaters, and the count of elements.
ghost use Rattle.std.specs.Prelude.{◌≡◌, ◌≤◌, IfOk, IfErr};
ghost use Rattle.blif_read.specs.Netlist.{IsNetlist};
ghost use Rattle.cell_library.specs.Laws.{IsLibrary};
ghost use Rattle.cell_library.specs.Reach.{slot_width_of};
ghost use Rattle.layout_make.specs.MayDraw.{MayDraw};
ghost use Rattle.plan_build.specs.Laws.{AnswersAs};
ghost use Rattle.plan_draw.specs.CellPlans.{AreCellRows, IsCellChip};
ghost use Rattle.plan_draw.specs.Refusals.{RefusesCells};
ghost use Rattle.plan_draw.specs.Code.Steps.{IsPackedCells, IsShortCells};

use crate::pack::pack_net;
use crate::refusal::CellPlanRefusal;
use blif_read::Netlist;
use cell_library::Library;
use cell_netlist::cell_levels;
use cell_rows::cell_rows;
use circuit::Pass;
use layout_make::element_number;
use plan_build::repeating;
use repeater_rows::repeaters_count;
use rowed::limits::ELEMENT_LIMIT;
use rowed::{Placed, RowNet};
use std::alloc::Global;

/// The rows of a netlist of cells, by the levels of its cells, or the first fault of one that is none of cells.
pub(crate) fn rows_of(
    alloc: Global,
    library: &Library,
    net: &Netlist,
) -> Result<RowNet, CellPlanRefusal>
    ensures rows { IfOk result (AreCellRows library.now net.now) }
    ensures refused { IfErr result (RefusesCells library.now net.now) }
{
    let three = library.has_three();
    let cells = cell_levels(alloc, net, three)?;
    Ok(cell_rows(alloc, net, three, &cells)?)
}

/// These rows packed, unless one of them is too wide.
#[tactic(auto, using(plan_build::proofs::CellSizes::widths))]
fn packed(
    alloc: Global,
    library: &Library,
    _net: &Netlist,
    rows: RowNet,
) -> Result<Placed, CellPlanRefusal>
    requires { AreCellRows library.now _net.now rows }
    ensures packed { IfOk result (IsPackedCells library.now _net.now) }
    ensures refused { IfErr result (RefusesCells library.now _net.now) }
{
    library.known();
    let slot_width = library.columns() * library.pitch();
    Ok(pack_net(alloc, rows, slot_width)?)
}

/// These packed rows with repeaters, unless there are too many cells or rows with them.
fn shortened(
    alloc: Global,
    library: &Library,
    _net: &Netlist,
    placed: &Placed,
) -> Result<Placed, CellPlanRefusal>
    requires { IsPackedCells library.now _net.now placed.now }
    ensures short { IfOk result (IsShortCells library.now _net.now) }
    ensures refused { IfErr result (RefusesCells library.now _net.now) }
{
    repeaters_count();
    Ok(repeating(library).run(alloc, placed)?)
}

/// This chip, unless its layout would have too many elements.
#[tactic(auto, using(crate::proofs::Steps::counted))]
fn counted(_library: &Library, _net: &Netlist, chip: Placed) -> Result<Placed, CellPlanRefusal>
    requires library { IsLibrary _library.now }
    requires net { IsNetlist _net.now }
    requires short { IsShortCells _library.now _net.now chip }
    ensures chip { IfOk result (IsCellChip _library.now _net.now) }
    ensures refused { IfErr result (RefusesCells _library.now _net.now) }
{
    let elements = element_number(&chip);
    if elements > ELEMENT_LIMIT {
        return Err(CellPlanRefusal::Elements { elements });
    }
    Ok(chip)
}

/// The chip of these rows, packed, unless it passes a limit.
pub(crate) fn packed_chip(
    alloc: Global,
    library: &Library,
    net: &Netlist,
    rows: RowNet,
) -> Result<Placed, CellPlanRefusal>
    requires { AreCellRows library.now net.now rows }
    ensures chip { IfOk result (IsCellChip library.now net.now) }
    ensures refused { IfErr result (RefusesCells library.now net.now) }
{
    library.known();
    net.known();
    let placed = packed(alloc, library, net, rows)?;
    let chip = shortened(alloc, library, net, &placed)?;
    counted(library, net, chip)
}

/// The chip of a netlist of cells with a library: its cells as they stand, in the rows of their levels and there in the
/// order of the text, packed from slot 0, with rows of repeaters where wires are too long for the library. It can be
/// drawn, and answers every word as the netlist does. It has at most 2,000,000 cells, no row wider than 2,000,000,000
/// nanometres, at most 2,147,483,647 nanometres of height, each channel with wires on all tracks, and at most 2,000,000
/// elements. A netlist that is none of cells is refused with its first fault; another refusal says which limit this
/// chip passes, and with which number, or that memory is wanting.
#[tactic(auto, using(crate::proofs::Chips::cells_may_draw, crate::proofs::Chips::cells_answer))]
pub fn plan_cells(
    alloc: Global,
    library: &Library,
    net: &Netlist,
) -> Result<Placed, CellPlanRefusal>
    ensures chip { IfOk result (IsCellChip library.now net.now) }
    ensures draws { IfOk result (λ chip. MayDraw chip library.now) }
    ensures answers { IfOk result (λ chip. AnswersAs net.now chip) }
    ensures refused { IfErr result (RefusesCells library.now net.now) }
{
    library.known();
    net.known();
    let rows = rows_of(alloc, library, net)?;
    packed_chip(alloc, library, net, rows)
}
