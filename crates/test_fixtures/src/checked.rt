// Lists of gates as circuits.
ghost use Rattle.std.specs.Prelude.{◌≡◌, ◌<◌, IsTrue, IfOk, IfSome, length};
ghost use Rattle.std.specs.List.{AllByRecursion};
ghost use Rattle.circuit.specs.CellNets.{Reads, AreCells};

use aq_base::{List, Memory};
use circuit::Gate;
use decide::Cells;
use std::alloc::Global;

fn reads(inputs: u32, place: usize, gate: Gate) -> bool
    ensures { IsTrue result → Reads inputs place gate }
{
    match gate {
        Gate::Input(input) => input < inputs,
        Gate::Zero | Gate::One => true,
        Gate::Buf(x) | Gate::Inv(x) => (x as usize) < place,
        Gate::Maj(x, y, z) => {
            (x as usize) < place && (y as usize) < place && (z as usize) < place
        }
    }
}

fn all_read(inputs: u32, gates: &[Gate]) -> bool
    ensures { IsTrue result → AreCells inputs gates.now }
{
    for place in 0..gates.len() {
        if !reads(inputs, place, gates[place]) {
            return false;
        }
    }
    true
}

fn all_name(outputs: &[u32], count: usize) -> bool
    ensures { IsTrue result → AllByRecursion (λ x. x < count) outputs.now }
{
    for place in 0..outputs.len() {
        if outputs[place] as usize >= count {
            return false;
        }
    }
    true
}

/// The circuit of so many inputs with these gates and outputs, where each input that is read is one of these, each gate
/// names lower ones, each output names a gate, and there are at most 1,000 outputs; none otherwise. It is refused for
/// want of memory alone.
pub fn checked_cells(
    alloc: Global,
    inputs: u32,
    gates: &[Gate],
    outputs: &[u32],
) -> Result<Option<Cells>, Memory>
    ensures inputs { IfOk result (λ some. IfSome some (λ c. c.inputs ≡ inputs)) }
    ensures gates { IfOk result (λ some. IfSome some (λ c. c.gates ≡ gates.now)) }
    ensures outputs { IfOk result (λ some. IfSome some (λ c. c.outputs ≡ outputs.now)) }
{
    if !all_read(inputs, gates) || !all_name(outputs, gates.len()) || outputs.len() > 1_000 {
        return Ok(None);
    }
    Ok(Some(Cells {
        inputs,
        gates: List::from_vec(Vec::from_slice(alloc, gates)?),
        outputs: List::from_vec(Vec::from_slice(alloc, outputs)?),
    }))
}
