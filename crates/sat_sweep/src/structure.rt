// Equality by structure: whether the outputs of two circuits have the same literals in one graph.
ghost use Rattle.std.specs.Prelude.{◌≡◌, IsTrue, IfOk, length};
ghost use Rattle.circuit.specs.CellNets.{circuit, IsCells};
ghost use Rattle.decide.specs.Verdicts.{answer_alike};

use crate::literals::output_literals;
use crate::merged::{Merged, are_all_alike};
use aq_base::Memory;
use circuit::Gate;
use decide::Cells;
use mig::GraphRefusal;
use std::alloc::Global;

/// Whether the outputs of two circuits have the same literals in a graph of their inputs.
fn have_same_literals(
    alloc: Global,
    graph: &mut Merged,
    gates: &[Gate],
    outputs: &[u32],
    other_gates: &[Gate],
    other_outputs: &[u32],
) -> Result<bool, GraphRefusal>
    requires first { IsCells (circuit graph.old.inputs gates.now outputs.now) }
    requires second { IsCells (circuit graph.old.inputs other_gates.now other_outputs.now) }
    requires outputs { length other_outputs.now ≡ length outputs.now }
    ensures { IfOk result (λ one. IsTrue one → answer_alike (circuit graph.old.inputs gates.now outputs.now)
        (circuit graph.old.inputs other_gates.now other_outputs.now)) }
{
    let ones = output_literals(alloc, graph, gates, outputs)?;
    let others = output_literals(alloc, graph, other_gates, other_outputs)?;
    graph.known();
    Ok(are_all_alike(graph, &ones, &others))
}

/// The same, in a graph of its own.
fn are_equal_in_graph(alloc: Global, one: &Cells, other: &Cells) -> Result<bool, GraphRefusal>
    requires inputs { other.now.inputs ≡ one.now.inputs }
    requires outputs { length other.now.outputs ≡ length one.now.outputs }
    ensures { IfOk result (λ alike. IsTrue alike → answer_alike one.now other.now) }
{
    let mut graph = Merged::new(alloc, one.inputs)?;
    have_same_literals(
        alloc,
        &mut graph,
        one.gates.as_slice(),
        one.outputs.as_slice(),
        other.gates.as_slice(),
        other.outputs.as_slice(),
    )
}

/// Whether two circuits of the same counts are equal by their structure. Their gates are made into one graph of
/// majorities, where an inverter turns a literal and a buffer keeps it, and the literals of their outputs are compared.
/// `true` says that both have the same answers to every word; `false` says nothing, and comes also where the graph
/// would have 2^30 nodes. The time grows with the number of gates.
pub fn are_structurally_equal(alloc: Global, one: &Cells, other: &Cells) -> Result<bool, Memory>
    requires inputs { other.now.inputs ≡ one.now.inputs }
    requires outputs { length other.now.outputs ≡ length one.now.outputs }
    ensures { IfOk result (λ alike. IsTrue alike → answer_alike one.now other.now) }
{
    match are_equal_in_graph(alloc, one, other) {
        Ok(alike) => Ok(alike),
        Err(GraphRefusal::TooManyNodes) => Ok(false),
        Err(GraphRefusal::Memory) => Err(Memory),
    }
}
