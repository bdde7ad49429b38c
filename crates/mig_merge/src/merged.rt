// A graph made anew, with one node for nodes that are equal.
ghost use Rattle.std.specs.Prelude.{◌≡◌, ◌+◌, ◌*◌, ◌<◌, ◌^◌, ℕ, length, map, slice_index_or, IfOk};
ghost use Rattle.mig.specs.Building.{Grown};
ghost use Rattle.mig.specs.Carried.{Shows};
ghost use Rattle.mig.specs.Passes.{IsRebuilt};
ghost use Rattle.mig_replace.specs.Code.Cones.{Carries, carried};

use aq_base::Memory;
use mig::{Graph, GraphRefusal, turned};
use sat_sweep::MergingBuilder;
use std::alloc::Global;

/// The literal for a literal, by those of nodes.
fn carried(found: &[u32], literal: u32) -> u32
    ensures { result ≡ carried found.now literal }
{
    let plain = found.get((literal / 2) as usize).copied().unwrap_or(0);
    if literal % 2 == 1 {
        turned(plain)
    } else {
        plain
    }
}

/// The literals of the constant and of so many inputs.
fn first_found(alloc: Global, inputs: u32) -> Result<Vec<u32>, Memory>
    requires { inputs < 2 ^ 30 }
    ensures each { IfOk result (λ found. (i : ℕ) → i < 1 + inputs → slice_index_or found.items i 0 ≡ 2 * i) }
    ensures all { IfOk result (λ found. length found.items ≡ 1 + inputs) }
{
    let mut found = Vec::new(alloc);
    for input in 0..inputs + 1 {
        found.push(2 * input)?;
    }
    Ok(found)
}

/// The literal of the next node.
fn node_literal(
    merging: &mut MergingBuilder,
    graph: &Graph,
    found: &[u32],
    number: usize,
) -> Result<u32, GraphRefusal>
    requires here { number < length graph.now.nodes }
    requires before { length found.now ≡ 1 + graph.now.inputs + number }
    requires carries { Carries graph.now merging.old found.now }
    ensures grown { Grown merging.old merging.new }
    ensures shown { IfOk result (λ l. Shows graph.now merging.new (length found.now) l) }
{
    graph.known();
    let node = graph.node(number);
    let x = carried(found, node.x);
    let y = carried(found, node.y);
    let z = carried(found, node.z);
    merging.maj(x, y, z)
}

/// A literal for each node.
fn node_literals(
    alloc: Global,
    merging: &mut MergingBuilder,
    graph: &Graph,
) -> Result<Vec<u32>, GraphRefusal>
    requires { merging.old.inputs ≡ graph.now.inputs }
    ensures carried { IfOk result (λ found. Carries graph.now merging.new found.items) }
    ensures whole { IfOk result (λ found. length found.items ≡ 1 + graph.now.inputs + length graph.now.nodes) }
{
    graph.known();
    let mut found = first_found(alloc, graph.inputs())?;
    for number in 0..graph.node_count() {
        let made = found.as_slice();
        let literal = node_literal(merging, graph, made, number)?;
        found.push(literal)?;
    }
    Ok(found)
}

/// The literals for the outputs.
fn output_literals(alloc: Global, outputs: &[u32], found: &[u32]) -> Result<Vec<u32>, Memory>
    ensures { IfOk result (λ literals. literals.items ≡ map (carried found.now) outputs.now) }
{
    let mut literals = Vec::new(alloc);
    for output in outputs {
        literals.push(carried(found, *output))?;
    }
    Ok(literals)
}

/// The graph of one node for nodes that are equal, as far as short searches tell.
pub(crate) fn merged(alloc: Global, graph: &Graph) -> Result<Graph, GraphRefusal>
    ensures { IfOk result (λ made. IsRebuilt graph.now made) }
{
    graph.known();
    let mut merging = MergingBuilder::new(alloc, graph.inputs(), graph.node_count())?;
    let found = node_literals(alloc, &mut merging, graph)?;
    let outputs = output_literals(alloc, graph.outputs(), found.as_slice())?;
    merging.known();
    Ok(merging.finish(outputs))
}
