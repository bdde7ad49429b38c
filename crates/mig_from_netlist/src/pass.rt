// From a netlist to a graph.
ghost use Rattle.std.specs.Prelude.{◌+◌, ◌<◌, ◌^◌, IfOk};
ghost use Rattle.blif_read.specs.Netlist.{IsNetlist};
ghost use Rattle.mig_from_netlist.specs.Passes.{IsGraphOf};
ghost use Rattle.mig_from_netlist.specs.Code.Mapped.{IsMapped, IsFirst};

use crate::order::order_of;
use crate::refusal::CoverRefusal;
use crate::walk::walk;
use aq_base::{List, Memory};
use blif_read::Netlist;
use circuit::{Answers, Pass};
use mig::{Builder, Clean, Graph, literals_of};
use std::alloc::Global;

/// The literals of the inputs; no defined signal has one.
fn first_literals(alloc: Global, inputs: u32, defs: usize) -> Result<List<Option<u32>>, Memory>
    requires { inputs < 2 ^ 28 }
    ensures { IfOk result (λ literal_of. IsFirst inputs (inputs + defs) literal_of) }
{
    let mut literal_of = List::new(alloc);
    for input in 0..inputs {
        literal_of.push(Some(2 * (1 + input)))?;
    }
    for _def in 0..defs {
        literal_of.push(None)?;
    }
    Ok(literal_of)
}

/// The graph whose outputs show the literals of the netlist's outputs.
fn finish(
    alloc: Global,
    net: &Netlist,
    builder: Builder,
    literal_of: &[Option<u32>],
) -> Result<Graph, CoverRefusal>
    requires net { IsNetlist net.now }
    requires mapped { IsMapped net.now builder literal_of.now }
    ensures { IfOk result (λ out. IsGraphOf net.now out) }
{
    match literals_of(alloc, literal_of, net.outputs().as_slice())? {
        Some(outputs) => {
            let graph = builder.finish(outputs);
            graph.known();
            Ok(graph)
        }
        None => Err(CoverRefusal::NoOrder),
    }
}

/// A graph of a netlist, which may have nodes that serve no output.
fn whole_graph(alloc: Global, net: &Netlist) -> Result<Graph, CoverRefusal>
    requires { IsNetlist net.now }
    ensures { IfOk result (λ out. IsGraphOf net.now out) }
{
    let inputs = net.input_count();
    let mut builder = Builder::new(alloc, inputs)?;
    let mut literal_of = first_literals(alloc, inputs, net.defs().len())?;
    let order = order_of(alloc, net)?;
    walk(alloc, net, &mut builder, &mut literal_of, order.as_slice())?;
    finish(alloc, net, builder, literal_of.as_slice())
}

/// The graph of a netlist, without what serves no output.
#[tactic(auto, using(crate::proofs::Signals::graph_then))]
fn graph_of(alloc: Global, net: &Netlist) -> Result<Graph, CoverRefusal>
    requires { IsNetlist net.now }
    ensures { IfOk result (λ out. IsGraphOf net.now out) }
{
    let whole = whole_graph(alloc, net)?;
    let made = Clean.run(alloc, &whole)?;
    Ok(made)
}

/// Makes graphs of netlists, without what serves no output. It is refused for want of memory, or where there would be
/// 2^30 nodes.
#[derive(Clone, Copy)]
pub struct GraphPass;

impl Pass<Netlist> for GraphPass {
    ghost use Rattle.std.specs.Prelude.{◌≡◌, ◌⊎◌};
    ghost use Rattle.mig_from_netlist.specs.Passes.{IsGraphOf};
    ghost use Rattle.mig_from_netlist.specs.declared.refusal.CoverRefusal.TheVariants.{TooManyNodes, NoOrder};
    ghost use Rattle.mig_from_netlist.specs.declared.refusal.CoverRefusal.TheVariants.{Memory as NoMemory};

    type Out = Graph;

    type Refusal = CoverRefusal;

    ghost may_give = { λ s net out. IsGraphOf net out };

    ghost may_meet = { λ s net refusal. (refusal ≡ TooManyNodes) ⊎ (refusal ≡ NoOrder) };

    ghost is_memory = { λ refusal. refusal ≡ NoMemory };

    ghost keeps = { λ s net out given. given.same };

    fn run(&self, alloc: Global, from: &Netlist) -> Result<Graph, CoverRefusal> {
        from.known();
        graph_of(alloc, from)
    }
}
