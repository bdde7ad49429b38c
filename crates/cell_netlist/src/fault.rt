// What is wrong with a netlist that is none of cells.

use aq_base::Memory;

/// What is wrong with a netlist that is none of cells.
#[derive(Clone, Copy, Debug, PartialEq, Eq)]
pub enum CellFault {
    /// A definition that is no constant, buffer, inverter or majority of three signals.
    Cover,
    /// A cell with another number of uses than it may have, an input that is used again, or one without use.
    Uses,
    /// A cell that is no buffer and is fed by an input, or one for which there is no level.
    Level,
    /// An output that is no name of a buffer of its own, or outputs that cannot stand on one level.
    Outputs,
}

/// Why a netlist gives no cells.
#[derive(Clone, Copy, Debug, PartialEq, Eq)]
pub enum CellsRefusal {
    /// The first fault, with the line of its definition; 0 where it is none of a definition.
    NotCells { line: u64, kind: CellFault },
    /// Want of memory.
    Memory,
}

impl From<Memory> for CellsRefusal {
    ghost use Rattle.std.specs.Prelude.{◌≡◌};
    ghost use Rattle.cell_netlist.specs.declared.fault.CellsRefusal.TheVariants.{Memory as NoMemory};

    ghost from_gives = { λ _ refusal. refusal ≡ NoMemory };

    fn from(_: Memory) -> Self {
        CellsRefusal::Memory
    }
}
