// How large chips are beside one another.
ghost use Rattle.std.specs.Prelude.{◌≡◌, ◌≤◌, ◌<◌, ◌^◌, IsTrue};
ghost use Rattle.rowed.specs.Counts.{cells_in};
ghost use Rattle.rowed.specs.Limits.{cell_limit};
ghost use Rattle.plan_compact.specs.Junctions.{kind_junctions, row_junctions, junctions_in};
ghost use Rattle.plan_compact.specs.Compact.{IsNoLarger};

use circuit::CellKind;
use rowed::{Placed, RowCell};

/// The junctions of a cell of this kind.
fn kind_junctions(kind: CellKind) -> u64
    ensures { result ≡ kind_junctions kind }
{
    match kind {
        CellKind::Majority => 6,
        _ => 2,
    }
}

/// The junctions of the cells of a row.
fn row_junctions(cells: &[RowCell]) -> u64
    requires { row_junctions cells.now < 2 ^ 63 }
    ensures { result ≡ row_junctions cells.now }
{
    let mut junctions = 0;
    for cell in cells {
        junctions += kind_junctions(cell.kind);
    }
    junctions
}

/// The junctions of all cells of a chip.
fn junctions(chip: &Placed) -> u64
    requires { junctions_in chip.now.net.rows < 2 ^ 63 }
    ensures { result ≡ junctions_in chip.now.net.rows }
{
    let mut junctions = 0;
    for row in chip.net.rows.as_slice() {
        junctions += row_junctions(row.as_slice());
    }
    junctions
}

/// Whether a chip has at most as many cells as another, and at most as many junctions. Neither has more than 2,000,000
/// cells.
#[tactic(auto, using(crate::proofs::FewJunctions::few))]
pub fn is_no_larger(chip: &Placed, other: &Placed) -> bool
    requires chip { cells_in chip.now.net.rows ≤ cell_limit }
    requires other { cells_in other.now.net.rows ≤ cell_limit }
    ensures { IsTrue result → IsNoLarger chip.now other.now }
{
    let cells = chip.cell_count() <= other.cell_count();
    let fewer = junctions(chip) <= junctions(other);
    cells && fewer
}
