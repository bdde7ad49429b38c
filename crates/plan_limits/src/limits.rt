// Whether a placed net may be drawn with a library.
ghost use Rattle.std.specs.Prelude.{◌≡◌, ◌≤◌, ℕ, length, Some, slice_get, IsTrue};
ghost use Rattle.rowed.specs.declared.row_cell.RowCell.{RowCell as Cell};
ghost use Rattle.rowed.specs.RowNets.{cell_at};
ghost use Rattle.cell_library.specs.Library.{IsGiven};
ghost use Rattle.cell_library.specs.Reach.{slot_width_of};
ghost use Rattle.layout_make.specs.MayDraw.{GivesKinds};
ghost use Rattle.plan_limits.specs.Code.Limits.{IsShortened, KeepsLimits};

use blif_read::Netlist;
use cell_library::Library;
use layout_make::element_number;
use rowed::limits::ELEMENT_LIMIT;
use rowed::{Placed, RowCell, is_too_wide};

/// Whether the library gives the kinds of the cells of a row.
fn gives_row(library: &Library, cells: &[RowCell]) -> bool
    ensures { IsTrue result → (c : ℕ) (x : Cell) → slice_get cells.now c ≡ Some x → IsGiven library.now x.kind }
{
    for cell in cells {
        if !library.has(cell.kind) {
            return false;
        }
    }
    true
}

/// Whether the library gives the kinds of all cells.
fn gives_kinds(library: &Library, chip: &Placed) -> bool
    ensures { IsTrue result → GivesKinds library.now chip.now.net.rows }
{
    for number in 0..chip.row_count() {
        if !gives_row(library, chip.cells_at(number)) {
            return false;
        }
    }
    true
}

/// How wide a slot is, in nanometres.
#[tactic(auto, using(plan_build::proofs::CellSizes::widths))]
pub(crate) fn slot_width(library: &Library) -> u64
    ensures { result ≡ slot_width_of library.now }
{
    library.known();
    library.columns() * library.pitch()
}

/// Whether a chip with short wires, few cells and little height may be drawn: its kinds are given, it is narrow enough,
/// and it has few enough elements.
#[tactic(auto, using(crate::proofs::FewElements::drawable))]
pub(crate) fn may_be_drawn(
    library: &Library,
    _net: &Netlist,
    _placed: &Placed,
    chip: &Placed,
) -> bool
    requires { IsShortened library.now _net.now _placed.now chip.now }
    ensures { IsTrue result → KeepsLimits library.now chip.now }
{
    library.known();
    _net.known();
    let narrow = !is_too_wide(chip.span(), slot_width(library));
    let few = element_number(chip) <= ELEMENT_LIMIT;
    narrow && few && gives_kinds(library, chip)
}
