// The numbers that the design rule check (DRC) reads.
ghost use Rattle.std.specs.Prelude.{◌≡◌, ◌-◌, ◌<◌, ◌≤◌, ◌^◌};
ghost use Rattle.cell_library.specs.Library.{limits_of};
ghost use Rattle.rule_check.specs.Code.Seen.{limits_seen};

use cell_library::Library;

/// The six numbers of a library that the rules of geometry read, in nanometres.
#[derive(Clone, Copy)]
pub struct Limits {
    pub wire: u64,
    pub space: u64,
    pub via: u64,
    pub enclose: u64,
    pub pin: u64,
    pub limit: u64,
}

/// The numbers of the library that the rules read.
pub fn read_limits(library: &Library) -> Limits
    ensures numbers { limits_seen result ≡ limits_of library.now }
    ensures space_some { 1 ≤ result.space }
    ensures space_most { result.space ≤ 1000000 }
    ensures limit { result.limit < 2 ^ 64 - 1 }
{
    library.known();
    Limits {
        wire: library.wire(),
        space: library.space(),
        via: library.via(),
        enclose: library.enclose(),
        pin: library.pin(),
        limit: library.limit(),
    }
}
