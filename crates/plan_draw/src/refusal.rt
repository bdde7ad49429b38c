// Why a netlist has no chip of its own cells.
use aq_base::Memory;
use cell_netlist::{CellFault, CellsRefusal};
use repeater_rows::RepeatRefusal;
use row_place::PlaceRefusal;

/// Why a netlist has no chip of its own cells with a library. That it is none of cells comes before all limits; these
/// are tried in this order: the width, the cells, the height, the elements.
#[derive(Clone, Copy, Debug, PartialEq, Eq)]
pub enum CellPlanRefusal {
    /// It is no netlist of cells: the first fault, with the line of its definition; 0 where it is none of a definition.
    NotCells { line: u64, kind: CellFault },
    /// Some row would be wider than 2,000,000,000 nanometres: the greatest span of the rows, in slots.
    Slots { span: u64 },
    /// There would be more than 2,000,000 cells: the number up to the end of the first row that passes the limit.
    Cells { cells: u64 },
    /// The rows and their channels could be higher than 2,147,483,647 nanometres: the number of rows.
    Rows { rows: u64 },
    /// The top structure of the layout would have more than 2,000,000 elements: their number.
    Elements { elements: u64 },
    /// Want of memory.
    Memory,
}

impl From<CellsRefusal> for CellPlanRefusal {
    ghost use Rattle.std.specs.Prelude.{◌≡◌};
    ghost use Rattle.plan_draw.specs.Refusals.{of_cells};

    ghost from_gives = { λ inner refusal. refusal ≡ of_cells inner };

    fn from(refusal: CellsRefusal) -> Self {
        match refusal {
            CellsRefusal::NotCells { line, kind } => CellPlanRefusal::NotCells { line, kind },
            CellsRefusal::Memory => CellPlanRefusal::Memory,
        }
    }
}

impl From<PlaceRefusal> for CellPlanRefusal {
    ghost use Rattle.std.specs.Prelude.{◌≡◌};
    ghost use Rattle.plan_draw.specs.Refusals.{of_places};

    ghost from_gives = { λ inner refusal. refusal ≡ of_places inner };

    fn from(refusal: PlaceRefusal) -> Self {
        match refusal {
            PlaceRefusal::TooWide { span } => CellPlanRefusal::Slots { span },
            PlaceRefusal::Memory => CellPlanRefusal::Memory,
        }
    }
}

impl From<RepeatRefusal> for CellPlanRefusal {
    ghost use Rattle.std.specs.Prelude.{◌≡◌};
    ghost use Rattle.plan_draw.specs.Refusals.{of_repeats};

    ghost from_gives = { λ inner refusal. refusal ≡ of_repeats inner };

    fn from(refusal: RepeatRefusal) -> Self {
        match refusal {
            RepeatRefusal::TooManyCells { cells } => CellPlanRefusal::Cells { cells },
            RepeatRefusal::TooTall { rows } => CellPlanRefusal::Rows { rows },
            RepeatRefusal::Memory => CellPlanRefusal::Memory,
        }
    }
}

impl From<Memory> for CellPlanRefusal {
    ghost use Rattle.std.specs.Prelude.{◌≡◌};
    ghost use Rattle.plan_draw.specs.declared.refusal.CellPlanRefusal.TheVariants.{Memory as NoMemory};

    ghost from_gives = { λ _ refusal. refusal ≡ NoMemory };

    fn from(_: Memory) -> Self {
        CellPlanRefusal::Memory
    }
}
