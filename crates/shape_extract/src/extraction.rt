// Why a layout may have no circuit.
use aq_base::Memory;
use layout_rules::Rule;

/// Why no circuit is extracted.
#[derive(Clone, Copy, Debug, PartialEq, Eq)]
pub enum ExtractRefusal {
    /// The first rule that is broken, with the numbers of the shapes or labels that break it.
    Broken { rule: Rule, first: u32, second: u32 },
    /// Want of memory.
    Memory,
}

impl From<Memory> for ExtractRefusal {
    ghost use Rattle.std.specs.Prelude.{◌≡◌};
    ghost use Rattle.shape_extract.specs.declared.extraction.ExtractRefusal.TheVariants.{Memory as NoMemory};

    ghost from_gives = { λ _ refusal. refusal ≡ NoMemory };

    fn from(_: Memory) -> Self {
        ExtractRefusal::Memory
    }
}
