// A graph made anew, with other forms of some nodes.
ghost use Rattle.std.specs.Prelude.{◌≡◌, ◌+◌, ◌*◌, ◌<◌, ◌≤◌, ◌^◌, ℕ, length, map, slice_index_or, IfOk, IfErr, IfSome};
ghost use Rattle.mig.specs.declared.refusal.GraphRefusal.TheVariants.{Memory as NoMemory};
ghost use Rattle.mig.specs.Building.{Grown};
ghost use Rattle.mig.specs.Carried.{Shows};
ghost use Rattle.mig.specs.Passes.{IsRebuilt};
ghost use Rattle.mig_replace.specs.Code.Cones.{Carries, Computes, AreFound, IsFound, AreAllFound, carried};

use crate::cone::cone;
use crate::replacement::Replacement;
use crate::run::{Entry, run, signed_literal};
use crate::site::{Chooser, Site};
use aq_base::Memory;
use circuit::Pass;
use mig::{Builder, Clean, Graph, GraphRefusal};
use std::alloc::Global;

/// How long a path from a node to a leaf may be.
const LONGEST: u32 = 64;

/// How many nodes may be looked at between a node and its leaves.
const TURNS: u32 = 1_000;

/// The literal for a literal, by those of nodes.
pub(crate) fn carried(found: &[u32], literal: u32) -> u32
    ensures { result ≡ carried found.now literal }
{
    let plain = found.get((literal / 2) as usize).copied().unwrap_or(0);
    signed_literal(literal, plain)
}

/// The literals of nodes, if all of them have theirs.
fn leaf_literals(alloc: Global, found: &[u32], leaves: &[u32]) -> Result<Option<Vec<u32>>, Memory>
    ensures { IfOk result (λ o. IfSome o (λ literals. AreFound found.now leaves.now literals.items)) }
{
    let mut literals = Vec::with_capacity(alloc, leaves.len())?;
    for leaf in leaves {
        if *leaf as usize >= found.len() {
            return Ok(None);
        }
        literals.push(found[*leaf as usize])?;
    }
    Ok(Some(literals))
}

/// The table of a node over leaves, if they determine it by few nodes.
fn table_over(graph: &Graph, leaves: &[u32], node: u32) -> Option<u64>
    requires { length leaves.now ≤ 6 }
    ensures { IfSome result (λ table. Computes graph.now leaves.now node table) }
{
    let mut turns = TURNS;
    cone(graph, leaves, node, LONGEST, &mut turns)
}

/// The literal of a node, and its table over leaves, if it has a literal and the leaves determine it.
fn other_entry(graph: &Graph, found: &[u32], leaves: &[u32], other: u32) -> Option<Entry>
    requires { length leaves.now ≤ 6 }
    ensures { IfSome result (λ entry. IsFound graph.now found.now leaves.now entry) }
{
    if other as usize >= found.len() {
        return None;
    }
    match table_over(graph, leaves, other) {
        Some(table) => Some(Entry {
            literal: found[other as usize],
            table,
        }),
        None => None,
    }
}

/// The literals of these other nodes and their tables over leaves, if all have them.
fn other_entries(
    alloc: Global,
    graph: &Graph,
    found: &[u32],
    leaves: &[u32],
    others: &[u32],
) -> Result<Option<Vec<Entry>>, Memory>
    requires { length leaves.now ≤ 6 }
    ensures { IfOk result (λ o. IfSome o (λ entries. AreAllFound graph.now found.now leaves.now entries.items)) }
{
    let mut entries = Vec::with_capacity(alloc, others.len())?;
    for other in others {
        match other_entry(graph, found, leaves, *other) {
            Some(entry) => entries.push(entry)?,
            None => return Ok(None),
        }
    }
    Ok(Some(entries))
}

/// The literal of a node by a replacement, if that computes what the node does.
fn by_replacement(
    alloc: Global,
    builder: &mut Builder,
    graph: &Graph,
    found: &[u32],
    node: u32,
    by: &Replacement,
) -> Result<Option<u32>, GraphRefusal>
    requires { Carries graph.now builder.old found.now }
    ensures grown { Grown builder.old builder.new }
    ensures shown { IfOk result (λ o. IfSome o (λ l. Shows graph.now builder.new node l)) }
{
    graph.known();
    let leaves = by.leaves.as_slice();
    if leaves.len() > 6 {
        return Ok(None);
    }
    let Some(literals) = leaf_literals(alloc, found, leaves)? else {
        return Ok(None);
    };
    let nodes = by.others.as_slice();
    let Some(others) = other_entries(alloc, graph, found, leaves, nodes)? else {
        return Ok(None);
    };
    let at = literals.as_slice();
    let known = others.as_slice();
    let entry = run(alloc, builder, at, known, by.steps.as_slice(), by.out)?;
    match table_over(graph, leaves, node) {
        Some(table) if table == entry.table => Ok(Some(entry.literal)),
        _ => Ok(None),
    }
}

/// The literal of the next node as it is.
pub(crate) fn plain(
    builder: &mut Builder,
    graph: &Graph,
    found: &[u32],
    number: usize,
) -> Result<u32, GraphRefusal>
    requires here { number < length graph.now.nodes }
    requires before { length found.now ≡ 1 + graph.now.inputs + number }
    requires carries { Carries graph.now builder.old found.now }
    ensures grown { Grown builder.old builder.new }
    ensures shown { IfOk result (λ l. Shows graph.now builder.new (length found.now) l) }
{
    graph.known();
    let node = graph.node(number);
    let x = carried(found, node.x);
    let y = carried(found, node.y);
    let z = carried(found, node.z);
    builder.maj(x, y, z)
}

/// The literal of a node by its replacement, if it has one that computes what it does.
fn if_replaced(
    alloc: Global,
    builder: &mut Builder,
    graph: &Graph,
    found: &[u32],
    node: u32,
    by: Option<&Replacement>,
) -> Result<Option<u32>, GraphRefusal>
    requires { Carries graph.now builder.old found.now }
    ensures grown { Grown builder.old builder.new }
    ensures shown { IfOk result (λ o. IfSome o (λ l. Shows graph.now builder.new node l)) }
{
    match by {
        Some(by) => by_replacement(alloc, builder, graph, found, node, by),
        None => Ok(None),
    }
}

/// The literal of the next node: by its replacement, if it has one that computes what it does.
fn node_literal(
    alloc: Global,
    builder: &mut Builder,
    graph: &Graph,
    found: &[u32],
    number: usize,
    by: Option<&Replacement>,
) -> Result<u32, GraphRefusal>
    requires here { number < length graph.now.nodes }
    requires before { length found.now ≡ 1 + graph.now.inputs + number }
    requires carries { Carries graph.now builder.old found.now }
    ensures grown { Grown builder.old builder.new }
    ensures shown { IfOk result (λ l. Shows graph.now builder.new (length found.now) l) }
{
    graph.known();
    let node = found.len() as u32;
    match if_replaced(alloc, builder, graph, found, node, by)? {
        Some(literal) => Ok(literal),
        None => plain(builder, graph, found, number),
    }
}

/// The literals of the constant and of so many inputs.
pub(crate) fn first_found(alloc: Global, inputs: u32) -> Result<Vec<u32>, Memory>
    requires { inputs < 2 ^ 30 }
    ensures each { IfOk result (λ found. (i : ℕ) → i < 1 + inputs → slice_index_or found.items i 0 ≡ 2 * i) }
    ensures all { IfOk result (λ found. length found.items ≡ 1 + inputs) }
{
    let mut found = Vec::new(alloc);
    for input in 0..inputs + 1 {
        found.push(2 * input)?;
    }
    Ok(found)
}

/// The replacement of the next node, if one is worth it.
fn next_replacement<C: Chooser>(
    alloc: Global,
    builder: &Builder,
    graph: &Graph,
    found: &[u32],
    chooser: &mut C,
) -> Result<Option<Replacement>, Memory> {
    let node = u32::try_from(found.len()).unwrap_or(0);
    chooser.choose(&Site {
        alloc,
        builder,
        graph,
        found,
        node,
    })
}

/// A literal for each node.
fn node_literals<C: Chooser>(
    alloc: Global,
    builder: &mut Builder,
    graph: &Graph,
    chooser: &mut C,
) -> Result<Vec<u32>, GraphRefusal>
    requires { builder.old.inputs ≡ graph.now.inputs }
    ensures carried { IfOk result (λ found. Carries graph.now builder.new found.items) }
    ensures whole { IfOk result (λ found. length found.items ≡ 1 + graph.now.inputs + length graph.now.nodes) }
{
    graph.known();
    let mut found = first_found(alloc, graph.inputs())?;
    for number in 0..graph.node_count() {
        let made = found.as_slice();
        let by = next_replacement(alloc, builder, graph, made, chooser)?;
        let literal = node_literal(alloc, builder, graph, made, number, by.as_ref())?;
        found.push(literal)?;
    }
    Ok(found)
}

/// The literals for the outputs.
fn output_literals(alloc: Global, outputs: &[u32], found: &[u32]) -> Result<Vec<u32>, Memory>
    ensures { IfOk result (λ literals. literals.items ≡ map (carried found.now) outputs.now) }
{
    let mut literals = Vec::new(alloc);
    for output in outputs {
        literals.push(carried(found, *output))?;
    }
    Ok(literals)
}

/// The graph of these literals of nodes.
pub(crate) fn finished(
    alloc: Global,
    builder: Builder,
    graph: &Graph,
    found: &[u32],
) -> Result<Graph, GraphRefusal>
    requires carried { Carries graph.now builder found.now }
    requires whole { length found.now ≡ 1 + graph.now.inputs + length graph.now.nodes }
    ensures { IfOk result (λ made. IsRebuilt graph.now made) }
{
    graph.known();
    let outputs = output_literals(alloc, graph.outputs(), found)?;
    builder.known();
    Ok(builder.finish(outputs))
}

/// The graph with other forms of the nodes for which they are worth it.
fn rewritten<C: Chooser>(
    alloc: Global,
    graph: &Graph,
    chooser: &mut C,
) -> Result<Graph, GraphRefusal>
    ensures { IfOk result (λ made. IsRebuilt graph.now made) }
{
    let mut builder = Builder::new(alloc, graph.inputs())?;
    let found = node_literals(alloc, &mut builder, graph, chooser)?;
    finished(alloc, builder, graph, found.as_slice())
}

/// The graph with other forms of the nodes for which the chooser has one that computes what the node does, without what
/// serves no output. Where there would be too many nodes, it is the graph that was given, without what serves no output.
/// It is refused for want of memory alone.
pub fn with_replacements<C: Chooser>(
    alloc: Global,
    graph: &Graph,
    chooser: &mut C,
) -> Result<Graph, GraphRefusal>
    ensures made { IfOk result (λ made. IsRebuilt graph.now made) }
    ensures met { IfErr result (λ refusal. refusal ≡ NoMemory) }
{
    match rewritten(alloc, graph, chooser) {
        Ok(made) => Clean.run(alloc, &made),
        Err(GraphRefusal::TooManyNodes) => Clean.run(alloc, graph),
        Err(GraphRefusal::Memory) => Err(GraphRefusal::Memory),
    }
}
