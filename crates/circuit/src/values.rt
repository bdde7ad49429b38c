// The values of gates at a word.
ghost use Rattle.std.specs.Prelude.{◌≡◌, ℕ, Bool, ◌<◌, length, map, IfOk};
ghost use Rattle.circuit.specs.Gates.{gate_value, valuation};
ghost use Rattle.circuit.specs.CellNets.{AreCells, value};

use crate::{CellKind, Gate, Word};
use aq_base::{List, Memory};
use std::alloc::Global;

/// The value of this number, from 0; false past the last.
pub fn value_at(values: &[bool], number: u32) -> bool
    ensures { result ≡ valuation values.now number }
{
    values.get(number as usize).copied().unwrap_or(false)
}

/// The value that a gate has where those that it names have these values.
fn gate_value(gate: Gate, word: &[bool], values: &[bool]) -> bool
    ensures { result ≡ gate_value word.now (valuation values.now) gate }
{
    match gate {
        Gate::Input(input) => value_at(word, input),
        Gate::Zero => false,
        Gate::One => true,
        Gate::Buf(x) => value_at(values, x),
        Gate::Inv(x) => !value_at(values, x),
        Gate::Maj(x, y, z) => CellKind::Majority.value(
            value_at(values, x),
            value_at(values, y),
            value_at(values, z),
        ),
    }
}

/// The values that the gates have at a word, in order. Each gate names lower ones.
pub fn gate_values(alloc: Global, gates: &[Gate], word: &[bool]) -> Result<Vec<bool>, Memory>
    requires { (n : ℕ) × AreCells n gates.now }
    ensures { IfOk result
        (λ values. (i : ℕ) → i < length gates.now → valuation values.items i ≡ value gates.now word.now i) }
{
    let mut values = Vec::with_capacity(alloc, gates.len())?;
    for gate in gates {
        let value = gate_value(*gate, word, &values);
        values.push(value)?;
    }
    Ok(values)
}

/// The values of the gates that outputs show, in order.
pub fn shown_values(alloc: Global, outputs: &[u32], values: &[bool]) -> Result<Word, Memory>
    ensures { IfOk result (λ word. word ≡ map (valuation values.now) outputs.now) }
{
    let mut word = List::new(alloc);
    for output in outputs {
        word.push(value_at(values, *output))?;
    }
    Ok(word)
}
