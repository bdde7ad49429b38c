// The pass: a graph whose nodes share more parts.
ghost use Rattle.std.specs.Prelude.{◌≡◌, IfOk, IfErr};
ghost use Rattle.mig.specs.declared.refusal.GraphRefusal.TheVariants.{Memory as NoMemory};
ghost use Rattle.mig.specs.Passes.{IsRebuilt};

use crate::plan::Plan;
use circuit::Pass;
use mig::{Graph, GraphRefusal};
use mig_replace::with_replacements;
use std::alloc::Global;

/// Seeks graphs of fewer nodes, by majorities that are joined in another order where nodes share a part then: of eight
/// inputs that are joined to all their products, those of four and of four are made once. Their answers are proved, and
/// not their sizes. It is refused for want of memory alone.
#[derive(Clone, Copy)]
pub struct Sharing;

/// The graph with nodes in another order, without what serves no output. Where there would be too many nodes, it is the
/// graph that was given, without what serves no output.
fn shared(alloc: Global, graph: &Graph) -> Result<Graph, GraphRefusal>
    ensures made { IfOk result (λ made. IsRebuilt graph.now made) }
    ensures met { IfErr result (λ refusal. refusal ≡ NoMemory) }
{
    let mut plan = Plan::new(alloc, graph)?;
    with_replacements(alloc, graph, &mut plan)
}

impl Pass<Graph> for Sharing {
    ghost use Rattle.std.specs.Prelude.{◌≡◌};
    ghost use Rattle.mig.specs.declared.refusal.GraphRefusal.TheVariants.{Memory as NoMemory};
    ghost use Rattle.mig.specs.Passes.{IsRebuilt};

    type Out = Graph;

    type Refusal = GraphRefusal;

    ghost may_give = { λ s from to. IsRebuilt from to };

    ghost may_meet = { λ s from refusal. ⊥ };

    ghost is_memory = { λ refusal. refusal ≡ NoMemory };

    ghost keeps = { λ s from to given. given.same };

    fn run(&self, alloc: Global, from: &Graph) -> Result<Graph, GraphRefusal> {
        shared(alloc, from)
    }
}
