// Why a text is no library.
ghost use Rattle.std.specs.Prelude.{◌≡◌};
ghost use Rattle.cell_library.specs.declared.fault.LibraryRefusal.TheVariants.{Memory as OutOfMemory};

use aq_base::Bytes;
use circuit::CellKind;
use std::alloc::{AllocError, AllocFailed};

/// What is wrong with a library file.
#[derive(Debug, Drop, PartialEq)]
pub enum LibraryFault {
    /// The text is no TOML document.
    Text,
    /// The key is none that a library has, or is absent or has a value of another type than it must. The key of a
    /// kind's table comes after the kind's, with a dot between.
    Key { key: Bytes },
    /// The number under the key, or the first such number of an array, is out of range.
    Value { key: Bytes, value: i64 },
    /// The law of this number, from 1 to 14, is the first that is broken.
    Law { number: u32 },
    /// A kind that every library gives is missing.
    Missing { kind: CellKind },
}

/// Why a library was not read.
#[derive(Debug, Drop, PartialEq)]
pub enum LibraryRefusal {
    /// The text is no library. This is its first fault.
    Bad(LibraryFault),
    /// Memory ran out.
    Memory,
}

impl From<AllocError> for LibraryRefusal {
    ghost from_gives = { λ _ e. e ≡ OutOfMemory };

    fn from(_: AllocError) -> Self {
        LibraryRefusal::Memory
    }
}

impl<T: Drop> From<AllocFailed<T>> for LibraryRefusal {
    ghost from_gives = { λ _ e. e ≡ OutOfMemory };

    fn from(_: AllocFailed<T>) -> Self {
        LibraryRefusal::Memory
    }
}
