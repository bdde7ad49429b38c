// The pass: a graph by cuts of four leaves.
ghost use Rattle.std.specs.Prelude.{◌≡◌, IfOk, IfErr};
ghost use Rattle.mig.specs.declared.refusal.GraphRefusal.TheVariants.{Memory as NoMemory};
ghost use Rattle.mig.specs.Passes.{IsRebuilt};

use crate::choose::Choices;
use crate::choose_grown::GrownChoices;
use crate::recipes::{Recipes, Steps};
use aq_base::Memory;
use circuit::Pass;
use mig::{Graph, GraphRefusal};
use mig_replace::{Ties, with_growth, with_replacements};
use std::alloc::Global;

/// Seeks graphs of fewer nodes, by recipes for what nodes compute from four others, of the graph that is given or of the
/// one that grows. Their answers are proved, and not their sizes. It is refused for want of memory alone.
#[derive(Drop)]
pub struct CutRewriting {
    majorities: Recipes,
    ands: Recipes,
}

impl CutRewriting {
    /// Makes the recipes; they are refused for want of memory alone.
    pub fn new(alloc: Global) -> Result<CutRewriting, Memory> {
        Ok(CutRewriting {
            majorities: Recipes::new(alloc, Steps::Majorities)?,
            ands: Recipes::new(alloc, Steps::Ands)?,
        })
    }

    /// As `run`, but by other forms too that save no nodes, in an order of their own for each number. So further passes
    /// start elsewhere.
    pub fn shaken(&self, alloc: Global, from: &Graph, number: u32) -> Result<Graph, GraphRefusal>
        ensures made { IfOk result (λ made. IsRebuilt from.now made) }
        ensures met { IfErr result (λ refusal. refusal ≡ NoMemory) }
    {
        rewritten_graph(alloc, from, &self.majorities, Ties::shaken(number))
    }

    /// As `run`, but by the cuts of the graph that grows, and with majorities that come later than the node and are there
    /// already. With a number it is shaken, as `shaken` is.
    pub fn in_place(
        &self,
        alloc: Global,
        from: &Graph,
        shake: Option<u32>,
    ) -> Result<Graph, GraphRefusal>
        ensures made { IfOk result (λ made. IsRebuilt from.now made) }
        ensures met { IfErr result (λ refusal. refusal ≡ NoMemory) }
    {
        grown_graph(alloc, from, &self.majorities, ties(shake))
    }

    /// As `in_place`, but by recipes of ands, of which many functions have several. It serves graphs that are mostly of
    /// ands, as those are that are made of tables, before majorities are sought in them.
    pub fn by_ands(
        &self,
        alloc: Global,
        from: &Graph,
        shake: Option<u32>,
    ) -> Result<Graph, GraphRefusal>
        ensures made { IfOk result (λ made. IsRebuilt from.now made) }
        ensures met { IfErr result (λ refusal. refusal ≡ NoMemory) }
    {
        grown_graph(alloc, from, &self.ands, ties(shake))
    }
}

/// The choice among forms that save as many nodes.
fn ties(shake: Option<u32>) -> Ties {
    match shake {
        Some(number) => Ties::shaken(number),
        None => Ties::lower(),
    }
}

/// The graph by the chosen cuts of its nodes, without what serves no output. Where there would be too many nodes, it is
/// the graph that was given, without what serves no output.
fn rewritten_graph(
    alloc: Global,
    graph: &Graph,
    recipes: &Recipes,
    ties: Ties,
) -> Result<Graph, GraphRefusal>
    ensures made { IfOk result (λ made. IsRebuilt graph.now made) }
    ensures met { IfErr result (λ refusal. refusal ≡ NoMemory) }
{
    let mut choices = Choices::new(alloc, graph, recipes, ties)?;
    with_replacements(alloc, graph, &mut choices)
}

/// The graph by the chosen cuts of nodes as they stand in it, with the same for what serves no output and for too many
/// nodes.
fn grown_graph(
    alloc: Global,
    graph: &Graph,
    recipes: &Recipes,
    ties: Ties,
) -> Result<Graph, GraphRefusal>
    ensures made { IfOk result (λ made. IsRebuilt graph.now made) }
    ensures met { IfErr result (λ refusal. refusal ≡ NoMemory) }
{
    let mut choices = GrownChoices::new(alloc, graph, recipes, ties)?;
    with_growth(alloc, graph, &mut choices)
}

impl Pass<Graph> for CutRewriting {
    ghost use Rattle.std.specs.Prelude.{◌≡◌};
    ghost use Rattle.mig.specs.declared.refusal.GraphRefusal.TheVariants.{Memory as NoMemory};
    ghost use Rattle.mig.specs.Passes.{IsRebuilt};

    type Out = Graph;

    type Refusal = GraphRefusal;

    ghost may_give = { λ s from to. IsRebuilt from to };

    ghost may_meet = { λ s from refusal. ⊥ };

    ghost is_memory = { λ refusal. refusal ≡ NoMemory };

    ghost keeps = { λ s from to given. given.same };

    fn run(&self, alloc: Global, from: &Graph) -> Result<Graph, GraphRefusal> {
        rewritten_graph(alloc, from, &self.majorities, Ties::lower())
    }
}
