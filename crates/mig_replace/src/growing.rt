// A graph made anew, in which each node may get another form over nodes that are there by then.
ghost use Rattle.std.specs.Prelude.{◌≡◌, ◌+◌, ◌<◌, ◌^◌, length, IfOk, IfErr};
ghost use Rattle.mig.specs.declared.refusal.GraphRefusal.TheVariants.{Memory as NoMemory};
ghost use Rattle.mig.specs.Building.{Grown};
ghost use Rattle.mig.specs.Carried.{Shows};
ghost use Rattle.mig.specs.Passes.{IsRebuilt};
ghost use Rattle.mig_replace.specs.Code.Cones.{Carries};

use crate::by_last::{ByLast, last_operand};
use crate::growth::{Grower, Growth};
use crate::other_form::other_form;
use crate::replaced::{carried, finished, first_found, plain};
use crate::uses::majority_of;
use circuit::Pass;
use mig::{Builder, Clean, Graph, GraphRefusal, Node};
use std::alloc::Global;

/// The literal of a node whose operands have theirs, if they do.
fn early(
    builder: &mut Builder,
    graph: &Graph,
    found: &[u32],
    node: Node,
) -> Result<Option<u32>, GraphRefusal>
    requires { Carries graph.now builder.old found.now }
    ensures { Grown builder.old builder.new }
{
    if last_operand(&node) as usize >= found.len() {
        return Ok(None);
    }
    let x = carried(found, node.x);
    let y = carried(found, node.y);
    let z = carried(found, node.z);
    let literal = builder.maj(x, y, z)?;
    Ok(Some(literal))
}

/// Prepares a node, if its operands have their literals.
fn prepared<G: Grower>(
    alloc: Global,
    builder: &mut Builder,
    graph: &Graph,
    found: &[u32],
    number: u32,
    grower: &mut G,
) -> Result<(), GraphRefusal>
    requires { Carries graph.now builder.old found.now }
    ensures { Grown builder.old builder.new }
{
    let Some(node) = majority_of(graph, number) else {
        return Ok(());
    };
    let Some(literal) = early(builder, graph, found, node)? else {
        return Ok(());
    };
    grower.prepare(&Growth {
        alloc,
        builder,
        graph,
        found,
        node: number,
        literal,
    })?;
    Ok(())
}

/// Prepares the nodes whose last operand has its literal now.
fn all_prepared<G: Grower>(
    alloc: Global,
    builder: &mut Builder,
    graph: &Graph,
    found: &[u32],
    lists: &ByLast,
    grower: &mut G,
) -> Result<(), GraphRefusal>
    requires { Carries graph.now builder.old found.now }
    ensures { Grown builder.old builder.new }
{
    let mut number = lists.first(found.len().saturating_sub(1));
    for _turn in 0..graph.node_count() {
        if number == 0 {
            return Ok(());
        }
        prepared(alloc, builder, graph, found, number, grower)?;
        number = lists.next(number);
    }
    Ok(())
}

/// The literal of the next node: by its replacement, if it has one that computes what it does.
fn grown_literal<G: Grower>(
    alloc: Global,
    builder: &mut Builder,
    graph: &Graph,
    found: &[u32],
    number: usize,
    grower: &mut G,
) -> Result<u32, GraphRefusal>
    requires here { number < length graph.now.nodes }
    requires before { length found.now ≡ 1 + graph.now.inputs + number }
    requires carries { Carries graph.now builder.old found.now }
    ensures grown { Grown builder.old builder.new }
    ensures shown { IfOk result (λ l. Shows graph.now builder.new (length found.now) l) }
{
    let literal = plain(builder, graph, found, number)?;
    let by = grower.choose(&Growth {
        alloc,
        builder,
        graph,
        found,
        node: u32::try_from(found.len()).unwrap_or(0),
        literal,
    })?;
    match by {
        Some(by) => other_form(alloc, builder, literal, &by),
        None => Ok(literal),
    }
}

/// A literal for each node.
fn grown_literals<G: Grower>(
    alloc: Global,
    builder: &mut Builder,
    graph: &Graph,
    grower: &mut G,
) -> Result<Vec<u32>, GraphRefusal>
    requires { builder.old.inputs ≡ graph.now.inputs }
    ensures carried { IfOk result (λ found. Carries graph.now builder.new found.items) }
    ensures whole { IfOk result (λ found. length found.items ≡ 1 + graph.now.inputs + length graph.now.nodes) }
{
    graph.known();
    let lists = ByLast::new(alloc, graph)?;
    let mut found = first_found(alloc, graph.inputs())?;
    for number in 0..graph.node_count() {
        let made = found.as_slice();
        all_prepared(alloc, builder, graph, made, &lists, grower)?;
        let literal = grown_literal(alloc, builder, graph, made, number, grower)?;
        found.push(literal)?;
    }
    Ok(found)
}

/// The graph with other forms of the nodes for which they are worth it.
fn grown<G: Grower>(alloc: Global, graph: &Graph, grower: &mut G) -> Result<Graph, GraphRefusal>
    ensures { IfOk result (λ made. IsRebuilt graph.now made) }
{
    let mut builder = Builder::new(alloc, graph.inputs())?;
    let found = grown_literals(alloc, &mut builder, graph, grower)?;
    finished(alloc, builder, graph, found.as_slice())
}

/// The graph with other forms of the nodes for which the grower has one that computes what the node does, without what
/// serves no output. Each is chosen for the node as it stands in the new graph, after those before it got theirs. Where
/// there would be too many nodes, it is the graph that was given, without what serves no output. It is refused for want
/// of memory alone.
pub fn with_growth<G: Grower>(
    alloc: Global,
    graph: &Graph,
    grower: &mut G,
) -> Result<Graph, GraphRefusal>
    ensures made { IfOk result (λ made. IsRebuilt graph.now made) }
    ensures met { IfErr result (λ refusal. refusal ≡ NoMemory) }
{
    match grown(alloc, graph, grower) {
        Ok(made) => Clean.run(alloc, &made),
        Err(GraphRefusal::TooManyNodes) => Clean.run(alloc, graph),
        Err(GraphRefusal::Memory) => Err(GraphRefusal::Memory),
    }
}
