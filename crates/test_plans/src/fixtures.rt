// Parts of nets in rows.
ghost use Rattle.std.specs.Prelude.{◌≡◌, ◌∷◌, [], IfOk};
ghost use Rattle.circuit.specs.declared.cell_kind.CellKind.TheVariants as kinds;
ghost use Rattle.rowed.specs.MadeCells.{source, cell};
ghost use Rattle.rowed.specs.PlacedNets.{IsPlaced};

use aq_base::{List, Memory};
use circuit::CellKind;
use rowed::{Placed, RowCell, RowNet, Source};
use std::alloc::Global;

/// Output 0 of a cell.
pub fn first(cell: u32) -> Source
    ensures { result ≡ source cell 0 }
{
    Source { cell, output: 0 }
}

/// Output 1 of a cell.
pub fn second(cell: u32) -> Source
    ensures { result ≡ source cell 1 }
{
    Source { cell, output: 1 }
}

/// A majority of the first outputs of three cells.
pub fn majority(a: u32, b: u32, c: u32) -> RowCell
    ensures { result ≡ cell kinds.Majority (source a 0 ∷ source b 0 ∷ source c 0 ∷ []) }
{
    RowCell::gate(CellKind::Majority, &[first(a), first(b), first(c)])
}

pub fn list<T: Copy, const N: usize>(alloc: Global, items: [T; N]) -> Result<List<T>, Memory>
    ensures { IfOk result (λ list. list ≡ items) }
{
    Ok(List::from_vec(Vec::from_array(alloc, items)?))
}

/// The net of these rows and slots.
pub fn placed(inputs: u32, outputs: u32, rows: Vec<List<RowCell>>, slots: Vec<List<u32>>) -> Placed
    requires { IsPlaced (record {
      net = record { inputs = inputs; outputs = outputs; rows = rows.items };
      slots = slots.items;
      lag = 0;
    }) }
    ensures { result ≡ record {
      net = record { inputs = inputs; outputs = outputs; rows = rows.items };
      slots = slots.items;
      lag = 0;
    } }
{
    Placed {
        net: RowNet {
            inputs,
            outputs,
            rows: List::from_vec(rows),
        },
        slots: List::from_vec(slots),
        lag: 0,
    }
}

/// Whether row r has these cells in these slots.
pub fn has_row(placed: &Placed, r: usize, cells: &[RowCell], slots: &[u32]) -> bool {
    let (Some(row), Some(at)) = (
        placed.net.rows.as_slice().get(r),
        placed.slots.as_slice().get(r),
    ) else {
        return false;
    };
    row.as_slice() == cells && at.as_slice() == slots
}
