// Why a netlist gets no graph.
use aq_base::Memory;
use mig::GraphRefusal;

/// Why a netlist gets no graph.
#[derive(Clone, Copy)]
pub enum CoverRefusal {
    /// There would be 2^30 nodes.
    TooManyNodes,
    /// The order in which signals get their literals leaves out one that an output needs. No netlist is known to meet
    /// it.
    NoOrder,
    /// Want of memory.
    Memory,
}

impl From<Memory> for CoverRefusal {
    ghost use Rattle.std.specs.Prelude.{◌≡◌};
    ghost use Rattle.mig_from_netlist.specs.declared.refusal.CoverRefusal.TheVariants.{Memory as NoMemory};

    ghost from_gives = { λ _ refusal. refusal ≡ NoMemory };

    fn from(_: Memory) -> Self {
        CoverRefusal::Memory
    }
}

impl From<GraphRefusal> for CoverRefusal {
    fn from(refusal: GraphRefusal) -> Self {
        match refusal {
            GraphRefusal::TooManyNodes => CoverRefusal::TooManyNodes,
            GraphRefusal::Memory => CoverRefusal::Memory,
        }
    }
}
