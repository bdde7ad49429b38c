// The kinds of cells in the order of their numbers, and their keys in a library file.
ghost use Rattle.std.specs.Prelude.{◌≡◌};
ghost use Rattle.cell_library.specs.Kinds.{key_of};

use circuit::CellKind;

/// The kinds by rising number.
pub const KINDS: [CellKind; 7] = [
    CellKind::Buffer,
    CellKind::Inverter,
    CellKind::Zero,
    CellKind::One,
    CellKind::Split2,
    CellKind::Split3,
    CellKind::Majority,
];

/// The kinds that every library gives, by rising number.
pub const MANDATORY_KINDS: [CellKind; 6] = [
    CellKind::Buffer,
    CellKind::Inverter,
    CellKind::Zero,
    CellKind::One,
    CellKind::Split2,
    CellKind::Majority,
];

/// The key of the kind's table in a library file.
pub fn kind_key(kind: CellKind) -> &'static str
    ensures { result.now ≡ key_of kind }
{
    match kind {
        CellKind::Buffer => "buffer",
        CellKind::Inverter => "inverter",
        CellKind::Zero => "zero",
        CellKind::One => "one",
        CellKind::Split2 => "split2",
        CellKind::Split3 => "split3",
        CellKind::Majority => "majority",
    }
}
