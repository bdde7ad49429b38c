// An extracted circuit as gates.
ghost use Rattle.std.specs.Prelude.{◌≡◌, ℕ, ◌+◌, ◌<◌, ◌^◌, ◌++◌, All, length, map, IfOk};
ghost use Rattle.circuit.specs.SameAnswers.{SameAnswers};
ghost use Rattle.circuit.specs.PlainNets as plain;
ghost use Rattle.circuit_extracted.specs.Answers.{IsAnswer};
ghost use Rattle.circuit_gates.specs.CellGates.{feed_gate, FeedsFit, gate_of, inputs_to, cells_of};

use aq_base::{List, Memory};
use circuit::{CellKind, Gate};
use circuit_extracted::{ExCell, Extracted, Feed, Source};
use decide::Cells;
use std::alloc::Global;

/// The number of the gate that a feed names, of so many inputs.
fn feed_gate(inputs: u32, feed: Feed) -> u32
    requires { feed_gate inputs feed < 2 ^ 32 }
    ensures { result ≡ feed_gate inputs feed }
{
    match feed {
        Feed::Nothing => 0,
        Feed::Pin { cell, .. } => inputs + cell,
        Feed::Label(input) => input,
    }
}

/// The gate of a cell, of so many inputs.
fn gate_of(inputs: u32, cell: &ExCell) -> Gate
    requires { FeedsFit inputs cell.now }
    ensures { result ≡ gate_of inputs cell.now }
{
    match cell.kind {
        CellKind::Buffer | CellKind::Split2 | CellKind::Split3 => {
            Gate::Buf(feed_gate(inputs, cell.feed0))
        }
        CellKind::Inverter => Gate::Inv(feed_gate(inputs, cell.feed0)),
        CellKind::Zero => Gate::Zero,
        CellKind::One => Gate::One,
        CellKind::Majority => Gate::Maj(
            feed_gate(inputs, cell.feed0),
            feed_gate(inputs, cell.feed1),
            feed_gate(inputs, cell.feed2),
        ),
    }
}

/// The gates of so many inputs, and then those of the cells.
fn gates(alloc: Global, inputs: u32, cells: &[ExCell]) -> Result<Vec<Gate>, Memory>
    requires { All (FeedsFit inputs) cells.now }
    ensures { IfOk result (λ v. v.items ≡ inputs_to inputs ++ map (gate_of inputs) cells.now) }
{
    let mut gates = Vec::new(alloc);
    for input in 0..inputs {
        gates.push(Gate::Input(input))?;
    }
    for cell in cells {
        gates.push(gate_of(inputs, cell))?;
    }
    Ok(gates)
}

/// The numbers of the gates that sources name: those of their cells.
fn outputs(alloc: Global, inputs: u32, sources: &[Source]) -> Result<Vec<u32>, Memory>
    requires { All (λ source. inputs + source.cell < 2 ^ 32) sources.now }
    ensures { IfOk result (λ v. v.items ≡ map (λ source. inputs + source.cell) sources.now) }
{
    let mut outputs = Vec::new(alloc);
    for source in sources {
        outputs.push(inputs + source.cell)?;
    }
    Ok(outputs)
}

/// An extracted circuit as gates, with the same answers: one gate for each input, and then one for each cell in order,
/// a splitter being a buffer. The caller sees that inputs and cells together are fewer than 2^32.
pub fn extracted_cells(alloc: Global, circuit: &Extracted) -> Result<Cells, Memory>
    requires { circuit.now.inputs + length circuit.now.cells < 2 ^ 32 }
    ensures cells { IfOk result (λ cells. cells ≡ cells_of circuit.now) }
    ensures same { IfOk result (λ cells. SameAnswers circuit.now.inputs cells.inputs
        (length circuit.now.outputs) (length cells.outputs) (IsAnswer circuit.now) (plain.IsAnswer cells)) }
{
    circuit.known();
    let gates = gates(alloc, circuit.inputs, circuit.cells.as_slice())?;
    let outputs = outputs(alloc, circuit.inputs, circuit.outputs.as_slice())?;
    Ok(Cells {
        inputs: circuit.inputs,
        gates: List::from_vec(gates),
        outputs: List::from_vec(outputs),
    })
}
