// The pass: a graph whose equal nodes are merged.
ghost use Rattle.std.specs.Prelude.{◌≡◌, IfOk, IfErr};
ghost use Rattle.mig.specs.declared.refusal.GraphRefusal.TheVariants.{Memory as NoMemory};
ghost use Rattle.mig.specs.Passes.{IsRebuilt};

use crate::merged::merged;
use circuit::Pass;
use mig::{Clean, Graph, GraphRefusal};
use std::alloc::Global;

/// Seeks graphs of fewer nodes, by merging nodes that are equal, or one the complement of another. Their answers are
/// proved, and not their sizes. It is refused for want of memory alone.
#[derive(Clone, Copy)]
pub struct Merging;

/// The graph whose equal nodes are merged, without what serves no output. Where there would be too many nodes, it is
/// the graph that was given, without what serves no output.
fn merged_graph(alloc: Global, graph: &Graph) -> Result<Graph, GraphRefusal>
    ensures made { IfOk result (λ made. IsRebuilt graph.now made) }
    ensures met { IfErr result (λ refusal. refusal ≡ NoMemory) }
{
    match merged(alloc, graph) {
        Ok(made) => Clean.run(alloc, &made),
        Err(GraphRefusal::TooManyNodes) => Clean.run(alloc, graph),
        Err(GraphRefusal::Memory) => Err(GraphRefusal::Memory),
    }
}

impl Pass<Graph> for Merging {
    ghost use Rattle.std.specs.Prelude.{◌≡◌};
    ghost use Rattle.mig.specs.declared.refusal.GraphRefusal.TheVariants.{Memory as NoMemory};
    ghost use Rattle.mig.specs.Passes.{IsRebuilt};

    type Out = Graph;

    type Refusal = GraphRefusal;

    ghost may_give = { λ s from to. IsRebuilt from to };

    ghost may_meet = { λ s from refusal. ⊥ };

    ghost is_memory = { λ refusal. refusal ≡ NoMemory };

    ghost keeps = { λ s from to given. given.same };

    fn run(&self, alloc: Global, from: &Graph) -> Result<Graph, GraphRefusal> {
        merged_graph(alloc, from)
    }
}
