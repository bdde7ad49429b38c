// From the texts of a netlist and of a library to the chip that is built.
ghost use Rattle.std.specs.Prelude.{◌≡◌, ◌≤◌, ◌^◌, length, OnOk, IfOk, IfErr};
ghost use Rattle.blif_flat.specs.DesignText as netlist;
ghost use Rattle.cell_library.specs.Says as library;
ghost use Rattle.geom.specs.Writable.{IsWritable};
ghost use Rattle.layout_make.specs.Draw.{draw as drawing};
ghost use Rattle.layout_make.specs.MayDraw.{MayDraw};
ghost use Rattle.layout_make.specs.Size.{element_number};
ghost use Rattle.rowed.specs.Limits.{element_limit};
ghost use Rattle.plan_build.specs.Laws.{AnswersAs};
ghost use Rattle.aqfp_top.specs.Designs.{IsNetlistFault, IsCellsFault};
ghost use Rattle.aqfp_top.specs.Code.Designing.{IsPlannedBy, PlanRefuses, plan_fault, own_fault};
ghost use Rattle.aqfp_top.specs.Code.Staging.{OrMemory};

use crate::counts::{ChipCounts, counts_of};
use crate::fault::{Fault, Large};
use crate::planner::Planner;
use blif_flat::{FlatRefusal, read_design};
use blif_read::Netlist;
use cell_library::{Library, LibraryFault, LibraryRefusal, read_library};
use geom::Layout;
use layout_make::{DrawRefusal, draw};
use plan_build::{PlanRefusal, plan_chip, plan_laws};
use plan_compact::compact_chip;
use plan_draw::{CellPlanRefusal, draw_cells};
use rowed::Placed;
use std::alloc::Global;

/// A chip that is to be stored.
#[derive(Drop)]
pub struct Chip {
    pub layout: Layout,
    pub counts: ChipCounts,
}

/// The netlist that the text says, be it of one model or of several.
pub fn read_netlist(alloc: Global, text: &[u8]) -> Result<Netlist, Fault>
    requires { length text.now ≤ 2 ^ 24 }
    ensures ok { IfOk result (λ net. netlist.SaysNetlist text.now net) }
    ensures bad { IfErr result (OrMemory (IsNetlistFault text.now)) }
{
    match read_design(alloc, text) {
        Ok(net) => Ok(net),
        Err(FlatRefusal::Text(fault)) => Err(Fault::BadBlif { fault }),
        Err(FlatRefusal::Design { line, kind }) => Err(Fault::BadDesign { line, kind }),
        Err(FlatRefusal::TooMany { size }) => Err(too_large(Large::Design, size)),
        Err(FlatRefusal::Memory) => Err(Fault::Memory),
    }
}

// The netlist that the text says. The text is let go, before gates are made of its rows.
fn netlist_of(alloc: Global, text: Vec<u8>) -> Result<Netlist, Fault>
    requires { length text.items ≤ 2 ^ 24 }
    ensures ok { IfOk result (λ net. netlist.SaysNetlist text.items net) }
    ensures bad { IfErr result (OrMemory (IsNetlistFault text.items)) }
{
    read_netlist(alloc, text.as_slice())
}

/// The library that the text says.
pub fn read_cells(alloc: Global, text: &[u8]) -> Result<Library, Fault>
    requires { length text.now ≤ 2 ^ 28 }
    ensures ok { IfOk result (λ cells. library.SaysLibrary text.now cells) }
    ensures bad { IfErr result (OrMemory (IsCellsFault text.now)) }
{
    match read_library(alloc, text) {
        Ok(cells) => Ok(cells),
        Err(LibraryRefusal::Bad(LibraryFault::Missing { kind })) => Err(Fault::MissingCell {
            kind,
        }),
        Err(LibraryRefusal::Bad(fault)) => Err(Fault::BadLibrary { fault }),
        Err(LibraryRefusal::Memory) => Err(Fault::Memory),
    }
}

fn too_large(what: Large, count: u64) -> Fault
    ensures { result ≡ Fault.TooLarge what count }
{
    Fault::TooLarge { what, count }
}

// What tells that a plan passes a limit.
fn limit_fault(refusal: &PlanRefusal) -> Fault
    ensures { result ≡ plan_fault refusal.now }
{
    match refusal {
        PlanRefusal::Slots { span } => too_large(Large::Slots, *span),
        PlanRefusal::Rows { rows } => too_large(Large::Rows, *rows),
        PlanRefusal::Cells { cells } => too_large(Large::Cells, *cells),
        PlanRefusal::Memory => Fault::Memory,
    }
}

// What tells why there is no chip of the netlist's own cells.
fn cells_fault(refusal: &CellPlanRefusal) -> Fault
    ensures { result ≡ own_fault refusal.now }
{
    match refusal {
        CellPlanRefusal::NotCells { line, kind } => Fault::NotCells {
            line: *line,
            kind: *kind,
        },
        CellPlanRefusal::Slots { span } => too_large(Large::Slots, *span),
        CellPlanRefusal::Cells { cells } => too_large(Large::Cells, *cells),
        CellPlanRefusal::Rows { rows } => too_large(Large::Rows, *rows),
        CellPlanRefusal::Elements { elements } => too_large(Large::Elements, *elements),
        CellPlanRefusal::Memory => Fault::Memory,
    }
}

// The rows of a chip of the netlist.
#[tactic(auto, using(crate::proofs::Designing::plans))]
fn plan(alloc: Global, planner: Planner, cells: &Library, net: &Netlist) -> Result<Placed, Fault>
    ensures draws { IfOk result (λ chip. MayDraw chip cells.now) }
    ensures answers { IfOk result (λ chip. AnswersAs net.now chip) }
    ensures planned { IfOk result (IsPlannedBy planner net.now cells.now) }
    ensures bad { IfErr result (OrMemory (PlanRefuses planner net.now cells.now)) }
{
    match planner {
        Planner::Build => match plan_chip(alloc, cells, net) {
            Ok(placed) => Ok(placed),
            Err(refusal) => Err(limit_fault(&refusal)),
        },
        Planner::Compact => match compact_chip(alloc, cells, net) {
            Ok(placed) => Ok(placed),
            Err(refusal) => Err(limit_fault(&refusal)),
        },
        Planner::Draw => match draw_cells(alloc, cells, net) {
            Ok(placed) => Ok(placed),
            Err(refusal) => Err(cells_fault(&refusal)),
        },
    }
}

// The layout of a chip of the netlist.
#[tactic(auto, using(crate::proofs::Designing::limits))]
fn lay_out(
    alloc: Global,
    _planner: Planner,
    _net: &Netlist,
    cells: &Library,
    chip: &Placed,
) -> Result<Layout, Fault>
    requires planned { IsPlannedBy _planner _net.now cells.now chip.now }
    requires draws { MayDraw chip.now cells.now }
    ensures drawn { IfOk result (λ layout. layout ≡ drawing chip.now cells.now) }
    ensures writable { IfOk result IsWritable }
    ensures small { OnOk result (element_number chip.now ≤ element_limit) }
    ensures bad { IfErr result (OrMemory (PlanRefuses _planner _net.now cells.now)) }
{
    match draw(alloc, chip, cells) {
        Ok(layout) => Ok(layout),
        Err(DrawRefusal::TooManyElements { count }) => Err(too_large(Large::Elements, count)),
        Err(DrawRefusal::Memory) => Err(Fault::Memory),
    }
}

impl Chip {
    ghost use Rattle.std.specs.Prelude.{◌≤◌, ◌^◌, Some, None, length, OnOk, IfOk, IfErr};
    ghost use Rattle.geom.specs.Writable.{IsWritable};
    ghost use Rattle.aqfp_top.specs.Stages.{IsFirst, Answers};
    ghost use Rattle.aqfp_top.specs.Due.{design_stages};
    ghost use Rattle.aqfp_top.specs.Code.Staging.{OrMemory};
    ghost use Rattle.aqfp_top.specs.Code.Designing.{IsDesignFault, IsChipOf, MakesChip, IsWellPlanned, PlanRefuses};

    /// A chip of the netlist with the cells of the library by a plan, and otherwise why the plan has none.
    #[tactic(auto, using(crate::proofs::Designing::limits))]
    pub fn of_net(
        alloc: Global,
        planner: Planner,
        net: &Netlist,
        cells: &Library,
    ) -> Result<Chip, Fault>
        ensures made { IfOk result (IsChipOf planner net.now cells.now) }
        ensures passes { OnOk result (IsWellPlanned planner net.now cells.now) }
        ensures writable { IfOk result (λ chip. IsWritable chip.layout) }
        ensures bad { IfErr result (OrMemory (PlanRefuses planner net.now cells.now)) }
    {
        plan_laws();
        net.known();
        cells.known();
        let placed = plan(alloc, planner, cells, net)?;
        let layout = lay_out(alloc, planner, net, cells, &placed)?;
        let counts = counts_of(&placed);
        Ok(Chip { layout, counts })
    }

    /// A chip of the netlist with the cells of the library that the texts say, by a plan, and otherwise what is wrong
    /// with them first.
    #[tactic(auto, using(crate::proofs::Designing::designs))]
    pub fn from_texts(
        alloc: Global,
        planner: Planner,
        net: Vec<u8>,
        lib: &[u8],
    ) -> Result<Chip, Fault>
        requires net { length net.items ≤ 2 ^ 24 }
        requires lib { length lib.now ≤ 2 ^ 28 }
        ensures made { IfOk result (MakesChip planner net.items lib.now) }
        ensures writable { IfOk result (λ chip. IsWritable chip.layout) }
        ensures well { OnOk result (IsFirst (design_stages planner net.items lib.now) None) }
        ensures bad { IfErr result (λ fault. Answers (design_stages planner net.items lib.now) (Some fault)) }
        ensures only { IfErr result (IsDesignFault planner) }
    {
        let net = netlist_of(alloc, net)?;
        let cells = read_cells(alloc, lib)?;
        let chip = Chip::of_net(alloc, planner, &net, &cells)?;
        Ok(chip)
    }
}
