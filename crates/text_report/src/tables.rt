// What the report says of each row.
ghost use Rattle.std.specs.Prelude.{◌≡◌, ℕ, ◌<◌, ◌^◌, length, slice_get, slice_index, Some, IfOk};
ghost use Rattle.layout_rules.specs.Rows.{row_count};
ghost use Rattle.text_report.specs.Kinds.{cells_in};
ghost use Rattle.text_report.specs.Wires.{wires_from, longest_of};
ghost use Rattle.text_report.specs.Code.Sources.{AreInOrder, AreSourceRows};
ghost use Rattle.text_report.specs.Code.Tables.{HasEntries, AreNetLengths};

use crate::wire_tables::{count_leaving, measure_leaving};
use aq_base::Memory;
use circuit_extracted::{ExCell, Extracted};
use geom::Flat;
use std::alloc::Global;

/// For each row how many cells stand in it, how many wires leave it, and the greatest length and the greatest skew of
/// these, in nanometres.
#[derive(Drop)]
pub struct RowTable {
    pub cells: Vec<u64>,
    pub wires: Vec<u64>,
    pub longest: Vec<u64>,
    pub skews: Vec<u128>,
}

/// Counts the cells of each row. All counts are 0 before.
fn count_cells(cells: &[ExCell], counts: &mut [u64])
    requires few { length cells.now < 2 ^ 32 }
    requires rows { (c : ℕ) (cell : ExCell) → slice_get cells.now c ≡ Some cell → cell.row < length counts.old }
    requires none { (row : ℕ) → slice_index counts.old row ≡ 0 }
    ensures { (row : ℕ) → row < length counts.new → slice_index counts.new row ≡ cells_in row cells.now }
{
    for cell in cells {
        counts[cell.row as usize] += 1;
    }
}

/// How many cells stand in each row.
pub fn cells_by_row(alloc: Global, circuit: &Extracted) -> Result<Vec<u64>, Memory>
    ensures { IfOk result (λ counts. HasEntries circuit.now.rows (λ row. cells_in row circuit.now.cells) counts.items) }
{
    circuit.known();
    let mut counts = vec![in alloc; 0; circuit.rows as usize]?;
    count_cells(circuit.cells.as_slice(), &mut counts);
    Ok(counts)
}

/// How many wires leave each row, by the rows of the nets' sources.
pub fn wires_by_row(
    alloc: Global,
    flat: &Flat,
    circuit: &Extracted,
    sources: &[Option<u32>],
) -> Result<Vec<u64>, Memory>
    requires few { length flat.now.shapes < 2 ^ 32 }
    requires order { AreInOrder flat.now circuit.now.nets }
    requires rows { circuit.now.rows ≡ row_count flat.now.shapes }
    requires sources { AreSourceRows flat.now.shapes circuit.now.nets sources.now }
    ensures { IfOk result (λ counts. HasEntries circuit.now.rows
        (λ row. length (wires_from flat.now circuit.now row)) counts.items) }
{
    let mut counts = vec![in alloc; 0; circuit.rows as usize]?;
    let nets = circuit.nets.as_slice();
    count_leaving(flat.shapes.as_slice(), nets, sources, &mut counts);
    Ok(counts)
}

/// The greatest length of the wires that leave each row, by the rows of the nets' sources and by the nets' lengths.
pub fn longest_by_row(
    alloc: Global,
    flat: &Flat,
    circuit: &Extracted,
    sources: &[Option<u32>],
    lengths: &[u64],
) -> Result<Vec<u64>, Memory>
    requires order { AreInOrder flat.now circuit.now.nets }
    requires rows { circuit.now.rows ≡ row_count flat.now.shapes }
    requires sources { AreSourceRows flat.now.shapes circuit.now.nets sources.now }
    requires lengths { AreNetLengths flat.now.shapes circuit.now.nets lengths.now }
    ensures { IfOk result (λ longest. HasEntries circuit.now.rows
        (λ row. longest_of flat.now circuit.now (wires_from flat.now circuit.now row)) longest.items) }
{
    let mut longest = vec![in alloc; 0; circuit.rows as usize]?;
    let nets = circuit.nets.as_slice();
    measure_leaving(flat.shapes.as_slice(), nets, sources, lengths, &mut longest);
    Ok(longest)
}
