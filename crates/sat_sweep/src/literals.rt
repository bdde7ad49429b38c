// The literals of gates in a graph that grows.
ghost use Rattle.std.specs.Prelude.{◌≡◌, ◌<◌, length, map, IfOk};
ghost use Rattle.std.specs.List.{AllByRecursion};
ghost use Rattle.circuit.specs.CellNets.{Reads, AreCells};
ghost use Rattle.mig.specs.Building.{Grown};
ghost use Rattle.sat_sweep.specs.Code.GateLiterals.{literal_of, AreThere, GivesGate, AreLiterals, ShowOutputs};

use crate::merged::Merged;
use aq_base::Memory;
use circuit::Gate;
use mig::{GraphRefusal, turned};
use std::alloc::Global;

/// The literal of a gate, by its number.
fn literal_of(literals: &[u32], gate: u32) -> u32
    requires { gate < length literals.now }
    ensures { result ≡ literal_of literals.now gate }
{
    literals[gate as usize]
}

/// The literal of a gate, by those of the gates that it names.
#[tactic(auto, using(crate::proofs::Making::input_given, crate::proofs::Making::turned_given))]
fn gate_literal(graph: &mut Merged, literals: &[u32], gate: Gate) -> Result<u32, GraphRefusal>
    requires reads { Reads graph.old.inputs (length literals.now) gate }
    requires there { AreThere graph.old literals.now (length literals.now) }
    ensures grown { Grown graph.old graph.new }
    ensures given { IfOk result (GivesGate graph.new literals.now gate) }
{
    graph.known();
    match gate {
        Gate::Input(input) => Ok(2 * (1 + input)),
        Gate::Zero => Ok(0),
        Gate::One => Ok(1),
        Gate::Buf(x) => Ok(literal_of(literals, x)),
        Gate::Inv(x) => Ok(turned(literal_of(literals, x))),
        Gate::Maj(x, y, z) => {
            let x = literal_of(literals, x);
            let y = literal_of(literals, y);
            let z = literal_of(literals, z);
            graph.maj(x, y, z)
        }
    }
}

/// The literals of all gates of a circuit, in their order.
#[tactic(auto, using(crate::proofs::Making::makings, mig::proofs::Built::grown_then))]
fn gate_literals(
    alloc: Global,
    graph: &mut Merged,
    gates: &[Gate],
) -> Result<Vec<u32>, GraphRefusal>
    requires { AreCells graph.old.inputs gates.now }
    ensures grown { Grown graph.old graph.new }
    ensures literals { IfOk result
        (λ literals. AreLiterals graph.new literals.items gates.now (length gates.now)) }
{
    let mut literals = Vec::with_capacity(alloc, gates.len())?;
    for gate in gates {
        let literal = gate_literal(graph, &literals, *gate)?;
        literals.push(literal)?;
    }
    Ok(literals)
}

/// The literals of the gates that outputs show, in their order.
fn shown(alloc: Global, literals: &[u32], outputs: &[u32]) -> Result<Vec<u32>, Memory>
    requires { AllByRecursion (λ x. x < length literals.now) outputs.now }
    ensures { IfOk result (λ all. all.items ≡ map (literal_of literals.now) outputs.now) }
{
    let mut all = Vec::with_capacity(alloc, outputs.len())?;
    for output in outputs {
        all.push(literal_of(literals, *output))?;
    }
    Ok(all)
}

/// The literals of the outputs of a circuit, in their order.
#[tactic(auto, using(crate::proofs::Making::outputs_within))]
pub(crate) fn output_literals(
    alloc: Global,
    graph: &mut Merged,
    gates: &[Gate],
    outputs: &[u32],
) -> Result<Vec<u32>, GraphRefusal>
    requires gates { AreCells graph.old.inputs gates.now }
    requires outputs { AllByRecursion (λ x. x < length gates.now) outputs.now }
    ensures grown { Grown graph.old graph.new }
    ensures shown { IfOk result
        (λ literals. ShowOutputs graph.new gates.now outputs.now literals.items) }
{
    let literals = gate_literals(alloc, graph, gates)?;
    Ok(shown(alloc, &literals, outputs)?)
}
