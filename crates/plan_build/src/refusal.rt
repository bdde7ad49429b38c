// Why a netlist has no chip.
use aq_base::Memory;
use circuit::ThenRefusal;
use level_balance::LevelRefusal;
use repeater_rows::RepeatRefusal;
use row_place::PlaceRefusal;

/// The refusal of the four passes, nested as the passes are.
pub type ChipRefusal = ThenRefusal<
    ThenRefusal<ThenRefusal<Memory, LevelRefusal>, PlaceRefusal>,
    RepeatRefusal,
>;

/// Why a netlist has no chip with a library. The limits are tried in the order of the passes: the cells before
/// repeaters, the width, the cells with repeaters, the height.
#[derive(Clone, Copy, Debug, PartialEq, Eq)]
pub enum PlanRefusal {
    /// Some row would be wider than 2,000,000,000 nanometres: the greatest span of the rows, in slots.
    Slots { span: u64 },
    /// The rows and their channels could be higher than 2,147,483,647 nanometres: the number of rows.
    Rows { rows: u64 },
    /// There would be more than 2,000,000 cells: before repeaters their number, or 2^64 - 1 where it is larger; with
    /// repeaters the number up to the end of the first row that passes the limit.
    Cells { cells: u64 },
    /// Want of memory.
    Memory,
}

impl From<ChipRefusal> for PlanRefusal {
    ghost use Rattle.std.specs.Prelude.{◌≡◌};
    ghost use Rattle.plan_build.specs.Refusals.{refusal_of};

    ghost from_gives = { λ inner refusal. refusal ≡ refusal_of inner };

    fn from(refusal: ChipRefusal) -> Self {
        match refusal {
            ThenRefusal::First(ThenRefusal::First(ThenRefusal::First(Memory))) =>
                PlanRefusal::Memory,
            ThenRefusal::First(ThenRefusal::First(ThenRefusal::Second(refusal))) => match refusal {
                LevelRefusal::TooManyCells { cells } => PlanRefusal::Cells { cells },
                LevelRefusal::Memory => PlanRefusal::Memory,
            },
            ThenRefusal::First(ThenRefusal::Second(refusal)) => match refusal {
                PlaceRefusal::TooWide { span } => PlanRefusal::Slots { span },
                PlaceRefusal::Memory => PlanRefusal::Memory,
            },
            ThenRefusal::Second(refusal) => match refusal {
                RepeatRefusal::TooManyCells { cells } => PlanRefusal::Cells { cells },
                RepeatRefusal::TooTall { rows } => PlanRefusal::Rows { rows },
                RepeatRefusal::Memory => PlanRefusal::Memory,
            },
        }
    }
}

impl From<Memory> for PlanRefusal {
    ghost use Rattle.std.specs.Prelude.{◌≡◌};
    ghost use Rattle.plan_build.specs.declared.refusal.PlanRefusal.TheVariants.{Memory as NoMemory};

    ghost from_gives = { λ _ refusal. refusal ≡ NoMemory };

    fn from(_: Memory) -> Self {
        PlanRefusal::Memory
    }
}
