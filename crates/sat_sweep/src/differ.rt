// Whether two gates differ at a word.
ghost use Rattle.std.specs.Prelude.{◌≡◌, ◌≢◌, ◌<◌, ℕ, IsTrue, IfOk, length};
ghost use Rattle.circuit.specs.CellNets.{AreCells, value};

use aq_base::Memory;
use circuit::{Gate, gate_values, value_at};
use std::alloc::Global;

/// The value of a gate at a word.
fn value_of(alloc: Global, gates: &[Gate], gate: u32, word: &[bool]) -> Result<bool, Memory>
    requires cells { (n : ℕ) × AreCells n gates.now }
    requires gate { gate < length gates.now }
    ensures { IfOk result (λ shown. shown ≡ value gates.now word.now gate) }
{
    let values = gate_values(alloc, gates, word)?;
    Ok(value_at(&values, gate))
}

/// Whether gates of two circuits differ at a word.
pub(crate) fn differ_at(
    alloc: Global,
    gates: &[Gate],
    gate: u32,
    other_gates: &[Gate],
    other_gate: u32,
    word: &[bool],
) -> Result<bool, Memory>
    requires cells { (n : ℕ) × AreCells n gates.now }
    requires gate { gate < length gates.now }
    requires other_cells { (n : ℕ) × AreCells n other_gates.now }
    requires other_gate { other_gate < length other_gates.now }
    ensures { IfOk result (λ differ. IsTrue differ
        → value gates.now word.now gate ≢ value other_gates.now word.now other_gate) }
{
    let one = value_of(alloc, gates, gate, word)?;
    let other = value_of(alloc, other_gates, other_gate, word)?;
    Ok(one != other)
}
