// Why two circuits were not compared.
ghost use Rattle.std.specs.Prelude.{◌≡◌};
ghost use Rattle.decide.specs.declared.refusal.DecideRefusal.TheVariants as DecideRefusal;

use aq_base::Memory;
use std::alloc::{AllocError, AllocFailed};

/// Why two circuits were not compared.
#[derive(Debug, Drop)]
pub enum DecideRefusal {
    /// The two circuits have more than 1,000,000 subfunctions. `functions` is always 1,000,001.
    TooMany { functions: u64 },
    /// Want of memory.
    Memory,
}

impl From<Memory> for DecideRefusal {
    ghost from_gives = { λ _ e. e ≡ DecideRefusal.Memory };

    fn from(_: Memory) -> Self {
        DecideRefusal::Memory
    }
}

impl From<AllocError> for DecideRefusal {
    ghost from_gives = { λ _ e. e ≡ DecideRefusal.Memory };

    fn from(_: AllocError) -> Self {
        DecideRefusal::Memory
    }
}

impl<T: Drop> From<AllocFailed<T>> for DecideRefusal {
    ghost from_gives = { λ _ e. e ≡ DecideRefusal.Memory };

    fn from(_: AllocFailed<T>) -> Self {
        DecideRefusal::Memory
    }
}
