// The table of a cover with up to six inputs.
ghost use Rattle.std.specs.Prelude.{ℕ, ◌≡◌, ◌<◌, ◌≤◌, ◌^◌, ◌&&◌, length};
ghost use Rattle.blif_read.specs.Equations.{takes};
ghost use Rattle.truth_tables.specs.Tables.{holds};
ghost use Rattle.mig_from_netlist.specs.Code.Covers.{plane_at, cover_at, AreNarrow};

use blif_read::Def;
use truth_tables::mask;

/// The bits of a table at which a byte of a plane takes the value of its input.
fn narrowed(table: u64, byte: u8, place: usize) -> u64
    requires { place < 6 }
    ensures { (i : ℕ) → i < 64 → holds result i ≡ (holds table i && takes byte (holds i place)) }
{
    if byte == b'-' {
        table
    } else if byte == b'1' {
        table & mask(place)
    } else if byte == b'0' {
        table & !mask(place)
    } else {
        0
    }
}

/// The table of a plane.
fn plane_table(plane: &[u8]) -> u64
    requires { length plane.now ≤ 6 }
    ensures { (i : ℕ) → i < 64 → holds result i ≡ plane_at plane.now 0 i }
{
    let mut table = u64::MAX;
    for (place, byte) in plane.iter().enumerate() {
        table = narrowed(table, *byte, place);
    }
    table
}

/// The table of a cover: bit i is its value where input j has the value of bit j of i.
pub(crate) fn cover_table(def: &Def) -> u64
    requires { AreNarrow def.now.cubes }
    ensures { (i : ℕ) → i < 64 → holds result i ≡ cover_at def.now i }
{
    let mut table = 0;
    for cube in def.cubes.as_slice() {
        table |= plane_table(cube.plane.as_slice());
    }
    if def.on { table } else { !table }
}
