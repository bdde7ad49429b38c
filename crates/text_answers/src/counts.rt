// The counts line.
ghost use Rattle.std.specs.Prelude.{◌≡◌, ◌++◌, OnOk};
ghost use Rattle.text_answers.specs.Counts.{counts_line};

use aq_base::Memory;
use circuit_extracted::Extracted;
use std::alloc::Global;

/// Adds the counts line of a circuit to the page.
#[tactic(auto, unfolding(crate::specs::Counts::counts_line))]
pub fn add_counts(alloc: Global, circuit: &Extracted, page: &mut Vec<u8>) -> Result<(), Memory>
    ensures { OnOk result (page.new.items ≡ page.old.items ++ counts_line circuit.now) }
{
    circuit.known();
    let rows = circuit.rows;
    let cells = circuit.cells.len();
    let wires = circuit.wires;
    let delay = circuit.rows - 1;
    let line = format!(in alloc; "rows {rows} cells {cells} wires {wires} delay {delay}\n")?;
    page.extend_from_slice(line.as_bytes())?;
    Ok(())
}
