// Rows of placed nets, and their cells with the slots where they stand.
ghost use Rattle.std.specs.Prelude.{◌≡◌, ℕ, ◌+◌, ◌*◌, ◌<◌, ◌^◌, length, slice_get, slice_index_or, Some, []};
ghost use Rattle.circuit.specs.CellKinds.{inputs_of, outputs_of, slots_of};
ghost use Rattle.rowed.specs.RowNets.{row_at};
ghost use Rattle.rowed.specs.PlacedNets.{IsPlaced};
ghost use Rattle.cell_library.specs.Library.{IsGiven};
ghost use Rattle.layout_make.specs.Spots.{spots_of};
ghost use Rattle.layout_make.specs.Channel.{in_column, out_column};

use cell_library::Library;
use rowed::{Placed, RowCell};

/// A cell with the slot where it stands.
#[derive(Clone, Copy, PartialEq, Eq)]
pub struct Spot {
    /// The cell.
    pub cell: RowCell,
    /// Its first slot, counted from 0 at the left end of its row.
    pub slot: u32,
}

/// The cells of a row and their slots.
#[derive(Clone, Copy)]
pub(crate) struct Row<'a> {
    pub(crate) cells: &'a [RowCell],
    pub(crate) slots: &'a [u32],
}

/// How many inputs a placed net has.
pub(crate) fn input_count(placed: &Placed) -> u32
    ensures { result ≡ placed.now.net.inputs }
{
    placed.net.inputs
}

/// How many outputs a placed net has.
pub(crate) fn output_count(placed: &Placed) -> u32
    ensures { result ≡ placed.now.net.outputs }
{
    placed.net.outputs
}

impl<'a> Row<'a> {
    /// Row `number` of a placed net.
    pub(crate) fn of(placed: &'a Placed, number: usize) -> Row<'a>
        requires number { number < length placed.now.net.rows }
        requires known { IsPlaced placed.now }
        ensures cells { result.cells.now ≡ row_at placed.now.net.rows number }
        ensures slots { result.slots.now ≡ slice_index_or placed.now.slots number [] }
    {
        Row {
            cells: placed.cells_at(number),
            slots: placed.slots_at(number),
        }
    }

    /// Cell `number` of the row.
    pub(crate) fn spot(&self, number: usize) -> Spot
        requires cells { number < length self.now.cells.now }
        requires slots { number < length self.now.slots.now }
        ensures { slice_get (spots_of self.now.cells.now self.now.slots.now) number ≡ Some result }
    {
        Spot {
            cell: self.cells[number],
            slot: self.slots[number],
        }
    }
}

/// The column of a cell's input pin, counted from the left edge of the rows.
pub(crate) fn in_column(library: &Library, spot: &Spot, pin: u32) -> u32
    requires given { IsGiven library.now spot.now.cell.kind }
    requires pin { pin < inputs_of spot.now.cell.kind }
    requires fits { (spot.now.slot + slots_of spot.now.cell.kind) * library.now.columns < 2 ^ 32 }
    ensures { result ≡ in_column library.now spot.now pin }
{
    library.known();
    let first = u64::from(spot.slot) * library.columns();
    (first + u64::from(library.input_column(spot.cell.kind, pin))) as u32
}

/// The column of a cell's output pin, counted from the left edge of the rows.
pub(crate) fn out_column(library: &Library, spot: &Spot, pin: u32) -> u32
    requires given { IsGiven library.now spot.now.cell.kind }
    requires pin { pin < outputs_of spot.now.cell.kind }
    requires fits { (spot.now.slot + slots_of spot.now.cell.kind) * library.now.columns < 2 ^ 32 }
    ensures { result ≡ out_column library.now spot.now pin }
{
    library.known();
    let first = u64::from(spot.slot) * library.columns();
    (first + u64::from(library.output_column(spot.cell.kind, pin))) as u32
}
