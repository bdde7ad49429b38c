// What is wrong with a design, and why a text gives no netlist.
use aq_base::Memory;
use blif_read::BlifFault;

/// What is wrong with the models of a text and their calls (`.subckt` of the Berkeley Logic Interchange Format).
#[derive(Clone, Copy, Debug, PartialEq, Eq)]
pub enum FlatKind {
    /// A model has the name of an earlier one.
    ModelTwice,
    /// A call names no model.
    UnknownModel,
    /// The ports of a call don't fit the model: one is malformed or not the model's, stands twice, or is missing for an
    /// input; or the model has a name that is both input and output.
    Ports,
    /// A signal of a model is driven twice.
    Duplicate,
    /// A signal that a model uses is driven by nothing.
    Undefined,
    /// A model calls itself, by others or not.
    Recursive,
    /// The first model names no output; the line is 0.
    NoOutputs,
}

/// Why a text gives no netlist.
#[derive(Debug, Drop, PartialEq)]
pub enum FlatRefusal {
    /// The first fault of the text itself, or the first cycle of the netlist that it says.
    Text(BlifFault),
    /// The first fault of its models and calls, with its line, from 1.
    Design { line: u64, kind: FlatKind },
    /// The expanded first model is larger than 16,777,216: its size, or `u64::MAX` where that is larger.
    TooMany { size: u64 },
    /// Want of memory.
    Memory,
}

impl From<Memory> for FlatRefusal {
    ghost use Rattle.std.specs.Prelude.{◌≡◌};
    ghost use Rattle.blif_flat.specs.declared.design.FlatRefusal.TheVariants.{Memory as NoMemory};

    ghost from_gives = { λ _ refusal. refusal ≡ NoMemory };

    fn from(_: Memory) -> Self {
        FlatRefusal::Memory
    }
}
