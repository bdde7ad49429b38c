// A new graph by the chosen cuts.
ghost use Rattle.std.specs.Prelude.{◌≡◌, ◌+◌, ◌<◌, ◌^◌, ◌∷◌, [], true, length, IfOk, IfSome};
ghost use Rattle.mig.specs.Building.{BuilderView, Grown};
ghost use Rattle.mig.specs.Carried.{Shows, fits_graph, AreLiterals};
ghost use Rattle.mig.specs.Passes.{IsRebuilt};
ghost use Rattle.mig_rewrite.specs.Code.Cones.{Carries, AreCarried, carried_at, HasFirst, Agrees};

use crate::cone::cone;
use crate::cuts::Cut;
use crate::recipes::Recipes;
use crate::run::{run, signed_literal};
use crate::trial::best_recipe;
use aq_base::Memory;
use mig::{Builder, Graph, GraphRefusal, literals_of};
use std::alloc::Global;

/// How long a path from a node to a leaf of its cut may be.
const LONGEST: u32 = 64;

/// How many nodes may be looked at between a node and the leaves of its cut.
const TURNS: u32 = 1_000;

/// The literal for a literal, by those of nodes.
fn carried_at(found: &[Option<u32>], literal: u32) -> Option<u32>
    ensures { result ≡ carried_at found.now literal }
{
    match found.get((literal / 2) as usize).copied().unwrap_or(None) {
        Some(plain) => Some(signed_literal(literal, plain)),
        None => None,
    }
}

/// The literals for literals, if all nodes have theirs.
fn carried_all(
    alloc: Global,
    found: &[Option<u32>],
    literals: &[u32],
) -> Result<Option<Vec<u32>>, Memory>
    ensures { IfOk result (λ o. IfSome o (λ ls. AreCarried found.now literals.now ls.items)) }
{
    let mut all = Vec::with_capacity(alloc, literals.len())?;
    for literal in literals {
        match carried_at(found, *literal) {
            Some(made) => all.push(made)?,
            None => return Ok(None),
        }
    }
    Ok(Some(all))
}

/// Three nodes that a node reads, by their numbers; 0, the constant, where there are fewer.
#[derive(Clone, Copy)]
struct Leaves {
    first: u32,
    second: u32,
    third: u32,
}

/// Whether a node computes this table from three leaves, whatever the values of the idle ones that it also reads.
fn agrees(graph: &Graph, leaves: Leaves, idle: Leaves, node: u32, table: u64) -> bool
    ensures { result ≡ true → Agrees graph.now (leaves.first ∷ leaves.second ∷ leaves.third ∷ []) node table }
{
    let all = [
        leaves.first,
        leaves.second,
        leaves.third,
        idle.first,
        idle.second,
        idle.third,
    ];
    let mut turns = TURNS;
    match cone(graph, &all, node, LONGEST, &mut turns) {
        Some(found) => found == table,
        None => false,
    }
}

/// What the next node of a graph is rewritten by: the recipes, and the literals found for the nodes before it.
#[derive(Clone, Copy)]
struct Rewrite<'a> {
    graph: &'a Graph,
    recipes: &'a Recipes,
    found: &'a [Option<u32>],
}

impl Rewrite<'_> {
    /// The literal of a node by its leaves: a recipe is run, and kept where it computes what the node does.
    fn by_leaves(
        &self,
        alloc: Global,
        builder: &mut Builder,
        leaves: Leaves,
        cut: &Cut,
        node: u32,
    ) -> Result<Option<u32>, GraphRefusal>
        requires { Carries self.now.graph.now builder.old self.now.found.now }
        ensures grown { Grown builder.old builder.new }
        ensures shown { IfOk result (λ o. IfSome o (λ l. Shows self.now.graph.now builder.new node l)) }
    {
        let nodes = [leaves.first, leaves.second, leaves.third];
        let Some(literals) = literals_of(alloc, self.found, &nodes)? else {
            return Ok(None);
        };
        let number = best_recipe(alloc, builder, self.recipes, cut.truth, &literals)?;
        let Some(recipe) = self.recipes.find(cut.truth, number) else {
            return Ok(None);
        };
        let entry = run(alloc, builder, &literals, &recipe.steps, recipe.out)?;
        let none = Leaves {
            first: 0,
            second: 0,
            third: 0,
        };
        if agrees(self.graph, leaves, none, node, entry.table) {
            return Ok(Some(entry.literal));
        }
        let idle = Leaves {
            first: cut.x,
            second: cut.y,
            third: cut.z,
        };
        if agrees(self.graph, leaves, idle, node, entry.table) {
            return Ok(Some(entry.literal));
        }
        Ok(None)
    }

    /// The literal of a node by a cut.
    fn by_cut(
        &self,
        alloc: Global,
        builder: &mut Builder,
        cut: &Cut,
        node: u32,
    ) -> Result<Option<u32>, GraphRefusal>
        requires { Carries self.now.graph.now builder.old self.now.found.now }
        ensures grown { Grown builder.old builder.new }
        ensures shown { IfOk result (λ o. IfSome o (λ l. Shows self.now.graph.now builder.new node l)) }
    {
        let leaves = Leaves {
            first: cut.leaves[0],
            second: cut.leaves[1],
            third: cut.leaves[2],
        };
        self.by_leaves(alloc, builder, leaves, cut, node)
    }

    /// The literal of a node, if a cut is chosen for it, and could be used.
    fn node_literal(
        &self,
        alloc: Global,
        builder: &mut Builder,
        chosen: &[Option<Cut>],
        node: u32,
    ) -> Result<Option<u32>, GraphRefusal>
        requires { Carries self.now.graph.now builder.old self.now.found.now }
        ensures grown { Grown builder.old builder.new }
        ensures shown { IfOk result (λ o. IfSome o (λ l. Shows self.now.graph.now builder.new node l)) }
    {
        match chosen.get(node as usize) {
            Some(Some(cut)) => self.by_cut(alloc, builder, cut, node),
            _ => Ok(None),
        }
    }
}

/// The literals of the constant and the inputs.
fn first_found(alloc: Global, inputs: u32) -> Result<Vec<Option<u32>>, Memory>
    requires { inputs < 2 ^ 30 }
    ensures { IfOk result (λ found. HasFirst (1 + inputs) found.items) }
{
    let mut found = Vec::new(alloc);
    for input in 0..inputs + 1 {
        found.push(Some(2 * input))?;
    }
    Ok(found)
}

/// A literal for each chosen node.
fn node_literals(
    alloc: Global,
    builder: &mut Builder,
    graph: &Graph,
    recipes: &Recipes,
    chosen: &[Option<Cut>],
) -> Result<Vec<Option<u32>>, GraphRefusal>
    requires { builder.old.inputs ≡ graph.now.inputs }
    ensures { IfOk result (λ found. Carries graph.now builder.new found.items) }
{
    graph.known();
    let mut found = first_found(alloc, graph.inputs())?;
    let first = graph.inputs() + 1;
    for number in 0..graph.node_count() {
        let node = first + number as u32;
        let rewrite = Rewrite {
            graph,
            recipes,
            found: found.as_slice(),
        };
        let literal = rewrite.node_literal(alloc, builder, chosen, node)?;
        found.push(literal)?;
    }
    Ok(found)
}

/// The graph whose outputs show the literals for the outputs of a graph, if there are all of them.
fn finish(
    alloc: Global,
    builder: Builder,
    graph: &Graph,
    found: &[Option<u32>],
) -> Result<Option<Graph>, GraphRefusal>
    requires { Carries graph.now builder found.now }
    ensures { IfOk result (λ o. IfSome o (λ made. IsRebuilt graph.now made)) }
{
    graph.known();
    let Some(outputs) = carried_all(alloc, found, graph.outputs())? else {
        return Ok(None);
    };
    let made = builder.finish(outputs);
    made.known();
    Ok(Some(made))
}

/// The graph by the chosen cuts, if each of them could be used.
pub(crate) fn remapped(
    alloc: Global,
    graph: &Graph,
    recipes: &Recipes,
    chosen: &[Option<Cut>],
) -> Result<Option<Graph>, GraphRefusal>
    ensures { IfOk result (λ o. IfSome o (λ made. IsRebuilt graph.now made)) }
{
    graph.known();
    let mut builder = Builder::new(alloc, graph.inputs())?;
    let found = node_literals(alloc, &mut builder, graph, recipes, chosen)?;
    finish(alloc, builder, graph, found.as_slice())
}
