// The values of a circuit's cells under 128 words at once: bit l of each number belongs to the word of lane l.
ghost use Rattle.std.specs.Prelude.{◌≡◌, ◌<◌, ℕ, IfOk, OnOk, length, slice_index_or};
ghost use Rattle.circuit.specs.Function.{majority, value_of};
ghost use Rattle.truth_tables.specs.Tables.{holds};
ghost use Rattle.circuit_extracted.specs.Answers.{cell_value, values_at, IsAnswer};
ghost use Rattle.circuit_extracted.specs.Code.Evaluation.{AreFedBefore};
ghost use Rattle.text_answers.specs.Code.Lanes.{in_lane, lane_value, feed_number, AreLaneValues};

use aq_base::Memory;
use circuit::CellKind;
use circuit_extracted::{ExCell, Extracted, Feed, Source};
use std::alloc::Global;

/// How many words are taken at once.
pub const LANES: u32 = 128;

/// The numbers of a circuit, a bit for each lane.
#[derive(Drop)]
pub struct Lanes {
    /// For each input.
    pub words: Vec<u128>,
    /// For each cell.
    values: Vec<u128>,
    /// For each output.
    pub answers: Vec<u128>,
}

/// Lanes for the words of a circuit.
pub fn empty_lanes(alloc: Global, circuit: &Extracted) -> Result<Lanes, Memory>
    ensures { IfOk result (λ lanes. length lanes.words.items ≡ circuit.now.inputs) }
{
    let words = vec![in alloc; 0; circuit.inputs as usize]?;
    let values = Vec::with_capacity(alloc, circuit.cells.len())?;
    let answers = Vec::with_capacity(alloc, circuit.outputs.len())?;
    Ok(Lanes {
        words,
        values,
        answers,
    })
}

/// The number at a place; no lane has a value past the last.
fn number_at(numbers: &[u128], place: u32) -> u128
    ensures { result ≡ slice_index_or numbers.now place 0 }
{
    numbers.get(place as usize).copied().unwrap_or(0)
}

fn feed_lanes(words: &[u128], values: &[u128], feed: Feed) -> u128
    ensures { result ≡ feed_number words.now values.now feed }
{
    match feed {
        Feed::Nothing => 0,
        Feed::Pin { cell, output: _ } => number_at(values, cell),
        Feed::Label(input) => number_at(words, input),
    }
}

#[tactic(auto, using(truth_tables::proofs::Bits::majority_holds))]
fn majority_lanes(a: u128, b: u128, c: u128) -> u128
    ensures { (l : ℕ) → holds result l ≡ majority (holds a l) (holds b l) (holds c l) }
{
    (a & b) | (a & c) | (b & c)
}

/// What a cell of the kind gives in each lane.
fn kind_lanes(kind: CellKind, a: u128, b: u128, c: u128) -> u128
    ensures { (l : ℕ) → l < 128 → holds result l ≡ value_of kind (holds a l) (holds b l) (holds c l) }
{
    match kind {
        CellKind::Buffer | CellKind::Split2 | CellKind::Split3 => a,
        CellKind::Inverter => !a,
        CellKind::Zero => 0,
        CellKind::One => u128::MAX,
        CellKind::Majority => majority_lanes(a, b, c),
    }
}

fn cell_lanes(words: &[u128], values: &[u128], cell: &ExCell) -> u128
    ensures { (l : ℕ) → l < 128 → holds result l ≡ cell_value (in_lane l words.now) (lane_value l values.now) cell.now }
{
    kind_lanes(
        cell.kind,
        feed_lanes(words, values, cell.feed0),
        feed_lanes(words, values, cell.feed1),
        feed_lanes(words, values, cell.feed2),
    )
}

/// Puts the values of the cells, each of which is fed by cells before it.
fn put_values(cells: &[ExCell], words: &[u128], values: &mut Vec<u128>) -> Result<(), Memory>
    requires { AreFedBefore cells.now }
    ensures { OnOk result (AreLaneValues cells.now words.now values.new.items) }
{
    values.clear();
    for cell in cells {
        let value = cell_lanes(words, values, cell);
        values.push(value)?;
    }
    Ok(())
}

/// Puts the values that the outputs show.
fn put_answers(outputs: &[Source], values: &[u128], answers: &mut Vec<u128>) -> Result<(), Memory>
    ensures { OnOk result ((l : ℕ) → in_lane l answers.new.items ≡ values_at outputs.now (lane_value l values.now)) }
{
    answers.clear();
    for source in outputs {
        answers.push(number_at(values, source.cell))?;
    }
    Ok(())
}

/// Puts the circuit's answer to the word of each lane.
pub fn answer_lanes(circuit: &Extracted, lanes: &mut Lanes) -> Result<(), Memory>
    ensures words { lanes.new.words.items ≡ lanes.old.words.items }
    ensures answers { OnOk result ((l : ℕ) → l < 128
        → IsAnswer circuit.now (in_lane l lanes.new.words.items) (in_lane l lanes.new.answers.items)) }
{
    circuit.known();
    put_values(
        circuit.cells.as_slice(),
        lanes.words.as_slice(),
        &mut lanes.values,
    )?;
    put_answers(
        circuit.outputs.as_slice(),
        lanes.values.as_slice(),
        &mut lanes.answers,
    )
}
