// The passes: graphs with fewer or lower nodes.
ghost use Rattle.std.specs.Prelude.{◌≡◌, IfOk, IfErr};
ghost use Rattle.mig.specs.declared.refusal.GraphRefusal.TheVariants.{Memory as NoMemory};
ghost use Rattle.mig.specs.Passes.{IsRebuilt};

use crate::levels::critical;
use crate::rebuilt::rebuilt;
use crate::{Graph, GraphRefusal};
use circuit::Pass;
use std::alloc::Global;

/// A graph without what serves no output. It is refused for want of memory alone.
#[derive(Clone, Copy)]
pub struct Clean;

impl Pass<Graph> for Clean {
    ghost use Rattle.std.specs.Prelude.{◌≡◌};
    ghost use Rattle.mig.specs.declared.refusal.GraphRefusal.TheVariants.{Memory as NoMemory};
    ghost use Rattle.mig.specs.Passes.{IsRebuilt};

    type Out = Graph;

    type Refusal = GraphRefusal;

    ghost may_give = { λ s from to. IsRebuilt from to };

    ghost may_meet = { λ s from refusal. ⊥ };

    ghost is_memory = { λ refusal. refusal ≡ NoMemory };

    ghost keeps = { λ s from to given. given.same };

    fn run(&self, alloc: Global, from: &Graph) -> Result<Graph, GraphRefusal> {
        rebuilt(alloc, from, &[])
    }
}

/// A graph by as few levels as one exchange of operands gives at each node that the depth hangs on, and without what
/// serves no output. It is refused for want of memory alone.
#[derive(Clone, Copy)]
pub struct Shallower;

/// A graph with shallower forms of its critical nodes, and without what serves no output. Where it would have too many
/// nodes, nodes keep their forms.
fn shallower_graph(alloc: Global, graph: &Graph) -> Result<Graph, GraphRefusal>
    ensures made { IfOk result (λ made. IsRebuilt graph.now made) }
    ensures met { IfErr result (λ refusal. refusal ≡ NoMemory) }
{
    let critical = critical(
        alloc,
        graph.inputs,
        graph.nodes.as_slice(),
        graph.outputs.as_slice(),
    )?;
    match rebuilt(alloc, graph, &critical) {
        Ok(whole) => rebuilt(alloc, &whole, &[]),
        Err(GraphRefusal::TooManyNodes) => rebuilt(alloc, graph, &[]),
        Err(GraphRefusal::Memory) => Err(GraphRefusal::Memory),
    }
}

impl Pass<Graph> for Shallower {
    ghost use Rattle.std.specs.Prelude.{◌≡◌};
    ghost use Rattle.mig.specs.declared.refusal.GraphRefusal.TheVariants.{Memory as NoMemory};
    ghost use Rattle.mig.specs.Passes.{IsRebuilt};

    type Out = Graph;

    type Refusal = GraphRefusal;

    ghost may_give = { λ s from to. IsRebuilt from to };

    ghost may_meet = { λ s from refusal. ⊥ };

    ghost is_memory = { λ refusal. refusal ≡ NoMemory };

    ghost keeps = { λ s from to given. given.same };

    fn run(&self, alloc: Global, from: &Graph) -> Result<Graph, GraphRefusal> {
        shallower_graph(alloc, from)
    }
}
