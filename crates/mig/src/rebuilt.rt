// Graphs made anew, from the nodes that the outputs need.
ghost use Rattle.std.specs.Prelude.{◌≡◌, ◌+◌, ◌*◌, ◌<◌, ◌≤◌, ◌^◌, ℕ, true, false, [], length, map};
ghost use Rattle.std.specs.Prelude.{slice_index_or, IfOk, IfErr};
ghost use Rattle.mig.specs.declared.refusal.GraphRefusal.TheVariants.{Memory as NoMemory};
ghost use Rattle.mig.specs.Graphs.{IsGraph};
ghost use Rattle.mig.specs.Code.Needed.{AreClosed, AreNeeded};
ghost use Rattle.mig.specs.Building.{Grown, IsFull};
ghost use Rattle.mig.specs.Carried.{Shows, fits_graph};
ghost use Rattle.mig.specs.Code.Rebuilding.{CarriesGraph, carried};
ghost use Rattle.mig.specs.Passes.{IsRebuilt};

use crate::folding::turned;
use crate::needed::{is_marked, needed};
use crate::shallower::shallow;
use crate::{Builder, Graph, GraphRefusal, Node};
use aq_base::Memory;
use std::alloc::Global;

/// The literal for a literal, by those for nodes.
fn carried(found: &[u32], literal: u32) -> u32
    ensures { result ≡ carried found.now literal }
{
    let plain = found.get((literal / 2) as usize).copied().unwrap_or(0);
    if literal % 2 == 1 {
        turned(plain)
    } else {
        plain
    }
}

/// The literals for the constant and so many inputs.
pub(crate) fn first_literals(alloc: Global, inputs: u32) -> Result<Vec<u32>, Memory>
    requires { inputs < 2 ^ 30 }
    ensures each { IfOk result (λ found. (i : ℕ) → i < 1 + inputs → slice_index_or found.items i 0 ≡ 2 * i) }
    ensures all { IfOk result (λ found. length found.items ≡ 1 + inputs) }
{
    let mut found = Vec::new(alloc);
    for input in 0..inputs + 1 {
        found.push(2 * input)?;
    }
    Ok(found)
}

/// The literal for the next node of a graph, by those for lower ones, if it is marked: that of its majority, or of a
/// shallower form of it where that is wanted.
fn node_literal(
    builder: &mut Builder,
    graph: &Graph,
    marks: &[bool],
    found: &[u32],
    number: usize,
    is_critical: bool,
) -> Result<u32, GraphRefusal>
    requires here { number < length graph.now.nodes }
    requires before { length found.now ≡ 1 + graph.now.inputs + number }
    requires closed { AreClosed graph.now.inputs graph.now.nodes marks.now }
    requires carried { CarriesGraph graph.now marks.now builder.old found.now }
    ensures grown { Grown builder.old builder.new }
    ensures shown { IfOk result (λ literal. slice_index_or marks.now (length found.now) false ≡ true
        → Shows graph.now builder.new (length found.now) literal) }
    ensures few { is_critical ≡ false → length builder.new.nodes ≤ 1 + length builder.old.nodes }
    ensures full { is_critical ≡ false → IfErr result (IsFull builder.old) }
{
    if !is_marked(marks, found.len()) {
        return Ok(0);
    }
    graph.known();
    let node = graph.node(number);
    let x = carried(found, node.x);
    let y = carried(found, node.y);
    let z = carried(found, node.z);
    if is_critical {
        shallow(builder, Node { x, y, z })
    } else {
        builder.maj(x, y, z)
    }
}

/// A literal for each marked node of a graph. Where nodes are critical, shallower forms of them are taken.
fn node_literals(
    alloc: Global,
    builder: &mut Builder,
    graph: &Graph,
    marks: &[bool],
    critical: &[bool],
) -> Result<Vec<u32>, GraphRefusal>
    requires start { builder.old ≡ record { inputs = graph.now.inputs; nodes = [] } }
    requires closed { AreClosed graph.now.inputs graph.now.nodes marks.now }
    ensures carried { IfOk result (λ found. CarriesGraph graph.now marks.now builder.new found.items) }
    ensures all { IfOk result (λ found. length found.items ≡ 1 + graph.now.inputs + length graph.now.nodes) }
    ensures whole { critical.now ≡ [] → IfErr result (λ refusal. refusal ≡ NoMemory) }
{
    graph.known();
    builder.known();
    let mut found = first_literals(alloc, graph.inputs())?;
    for number in 0..graph.node_count() {
        let is_critical = is_marked(critical, found.len());
        let literal = node_literal(builder, graph, marks, &found, number, is_critical)?;
        found.push(literal)?;
    }
    Ok(found)
}

/// The literals for literals, in this order.
pub(crate) fn output_literals(
    alloc: Global,
    outputs: &[u32],
    found: &[u32],
) -> Result<Vec<u32>, Memory>
    ensures { IfOk result (λ literals. literals.items ≡ map (carried found.now) outputs.now) }
{
    let mut literals = Vec::new(alloc);
    for output in outputs {
        literals.push(carried(found, *output))?;
    }
    Ok(literals)
}

/// A graph with the same answers, of the nodes that the outputs need. Where nodes are critical, shallower forms of them
/// are taken, which may leave nodes that serve no output.
pub(crate) fn rebuilt(
    alloc: Global,
    graph: &Graph,
    critical: &[bool],
) -> Result<Graph, GraphRefusal>
    ensures made { IfOk result (λ made. IsRebuilt graph.now made) }
    ensures whole { critical.now ≡ [] → IfErr result (λ refusal. refusal ≡ NoMemory) }
{
    graph.known();
    let marks = needed(alloc, graph)?;
    let mut builder = Builder::new(alloc, graph.inputs())?;
    let found = node_literals(alloc, &mut builder, graph, &marks, critical)?;
    let outputs = output_literals(alloc, graph.outputs(), &found)?;
    builder.known();
    Ok(builder.finish(outputs))
}
