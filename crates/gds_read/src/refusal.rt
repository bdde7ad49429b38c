// Why bytes are not read as a stream.
use aq_base::Memory;
use gds_records::StreamKind;

/// Why bytes are not read.
#[derive(Clone, Copy, Debug, PartialEq, Eq)]
pub enum StreamRefusal {
    /// The bytes are no stream: the place of the first fault, and what it is.
    Bad { offset: u64, kind: StreamKind },
    /// The flat form would have more than 8,000,000 shapes and labels together: this many.
    TooManyShapes { count: u64 },
    /// Want of memory.
    Memory,
}

impl StreamRefusal {
    ghost use Rattle.std.specs.Prelude.{◌≡◌};
    ghost use Rattle.gds_read.specs.declared.refusal.StreamRefusal.{StreamRefusal};

    /// A fault at a place.
    pub(crate) fn bad(offset: usize, kind: StreamKind) -> Self
        ensures { result ≡ StreamRefusal.Bad offset kind }
    {
        StreamRefusal::Bad {
            offset: offset as u64,
            kind,
        }
    }
}

impl From<Memory> for StreamRefusal {
    ghost use Rattle.std.specs.Prelude.{◌≡◌};
    ghost use Rattle.gds_read.specs.declared.refusal.StreamRefusal.{StreamRefusal};

    ghost from_gives = { λ _ e. e ≡ StreamRefusal.Memory };

    fn from(_: Memory) -> Self {
        StreamRefusal::Memory
    }
}
