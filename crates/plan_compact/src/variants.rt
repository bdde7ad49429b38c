// Graphs of one netlist: with and without cuts, lower ones of both, and those by cuts of four leaves.
ghost use Rattle.std.specs.Prelude.{◌≡◌, IfOk, OnOk, IfSome};
ghost use Rattle.mig.specs.declared.refusal.GraphRefusal.TheVariants.{Memory as NoMemory};
ghost use Rattle.mig.specs.Passes.{IsRebuilt};
ghost use Rattle.mig_from_netlist.specs.Passes.{IsGraphOf};
ghost use Rattle.plan_compact.specs.Variants.{AreGraphsOf};

use aq_base::Memory;
use blif_read::Netlist;
use circuit::Pass;
use mig::{Graph, GraphRefusal, Shallower};
use mig_cuts::CutRewriting;
use mig_from_netlist::{CoverRefusal, GraphPass};
use mig_rewrite::CutPass;
use std::alloc::Global;

/// How many graphs a chain has at most.
const LONGEST: u32 = 8;

/// How many nodes a graph has at most of which others are made. A chip has fewer cells, so that time and memory for
/// greater graphs would be lost.
const MOST_NODES: usize = 4_000_000;

/// How many nodes a graph has at most that is made anew by cuts of four leaves. A greater one has no chip of a size that
/// is searched for long, and its cuts would take much memory.
const MOST_REWRITTEN: usize = 100_000;

/// How many nodes a graph has at least that is made anew by cuts of four leaves: a smaller one has no node to lose, and
/// the recipes take time and memory.
pub(crate) const LEAST_REWRITTEN: usize = 2;

/// The one refusal of a pass that is refused for want of memory alone.
pub(crate) fn no_memory(_refusal: GraphRefusal) -> Memory
    requires { _refusal ≡ NoMemory }
{
    Memory
}

/// The graph with shallower forms of nodes.
fn shallower(alloc: Global, graph: &Graph) -> Result<Graph, Memory>
    ensures { IfOk result (λ made. IsRebuilt graph.now made) }
{
    match Shallower.run(alloc, graph) {
        Ok(made) => Ok(made),
        Err(refusal) => Err(no_memory(refusal)),
    }
}

/// A graph of fewer levels, if shallower forms of nodes give one.
fn lower(alloc: Global, graph: &Graph) -> Result<Option<Graph>, Memory>
    ensures { IfOk result (λ found. IfSome found (λ made. IsRebuilt graph.now made)) }
{
    let made = shallower(alloc, graph)?;
    if made.depth(alloc)? < graph.depth(alloc)? {
        Ok(Some(made))
    } else {
        Ok(None)
    }
}

/// A graph of fewer levels than the last one, if there is one.
#[tactic(auto, using(crate::proofs::Chained::chained))]
fn next_lower(alloc: Global, _net: &Netlist, graphs: &[Graph]) -> Result<Option<Graph>, Memory>
    requires { AreGraphsOf _net.now graphs.now }
    ensures { IfOk result (λ found. IfSome found (λ made. IsGraphOf _net.now made)) }
{
    match graphs.last() {
        Some(last) => lower(alloc, last),
        None => Ok(None),
    }
}

/// Adds a graph, and then ever lower ones that are made of it.
#[tactic(auto, using(crate::proofs::Chained::chained))]
pub(crate) fn push_chain(
    alloc: Global,
    net: &Netlist,
    graphs: &mut Vec<Graph>,
    first: Graph,
) -> Result<(), Memory>
    requires graphs { AreGraphsOf net.now graphs.old.items }
    requires first { IsGraphOf net.now first }
    ensures { OnOk result (AreGraphsOf net.now graphs.new.items) }
{
    graphs.push(first)?;
    for _turn in 1..LONGEST {
        match next_lower(alloc, net, graphs.as_slice())? {
            Some(made) => graphs.push(made)?,
            None => return Ok(()),
        }
    }
    Ok(())
}

/// The graph by cuts of three inputs.
pub(crate) fn by_cuts(alloc: Global, graph: &Graph) -> Result<Graph, Memory>
    ensures { IfOk result (λ made. IsRebuilt graph.now made) }
{
    let pass = CutPass::new(alloc)?;
    match pass.run(alloc, graph) {
        Ok(made) => Ok(made),
        Err(refusal) => Err(no_memory(refusal)),
    }
}

/// The chains of a graph: of its graph by cuts, and of itself. There are none where it has too many nodes.
#[tactic(auto, using(crate::proofs::Chained::chained))]
fn both_chains(alloc: Global, net: &Netlist, graph: Graph) -> Result<Vec<Graph>, Memory>
    requires { IsGraphOf net.now graph }
    ensures { IfOk result (λ graphs. AreGraphsOf net.now graphs.items) }
{
    let mut graphs = Vec::new(alloc);
    if graph.node_count() > MOST_NODES {
        return Ok(graphs);
    }
    let first = by_cuts(alloc, &graph)?;
    push_chain(alloc, net, &mut graphs, first)?;
    push_chain(alloc, net, &mut graphs, graph)?;
    Ok(graphs)
}

/// Graphs with the answers of a netlist, to choose a chip from: first its graph by cuts of three inputs, and up to
/// seven that are made of it one after the other, each with fewer levels; then likewise its graph without cuts. Nothing
/// is promised of how many there are, or of their sizes: there is none where the first graph has more than 4,000,000
/// nodes. They are refused for want of memory alone.
pub fn graph_variants(alloc: Global, net: &Netlist) -> Result<Vec<Graph>, Memory>
    ensures { IfOk result (λ graphs. AreGraphsOf net.now graphs.items) }
{
    match GraphPass.run(alloc, net) {
        Ok(graph) => both_chains(alloc, net, graph),
        Err(CoverRefusal::Memory) => Err(Memory),
        Err(_) => Ok(Vec::new(alloc)),
    }
}

/// The graph by cuts of four leaves.
fn rewritten(alloc: Global, pass: &CutRewriting, graph: &Graph) -> Result<Graph, Memory>
    ensures { IfOk result (λ made. IsRebuilt graph.now made) }
{
    match pass.run(alloc, graph) {
        Ok(made) => Ok(made),
        Err(refusal) => Err(no_memory(refusal)),
    }
}

/// The graph by cuts of four leaves, taken twice, if that has fewer nodes.
#[tactic(auto, using(mig_from_netlist::proofs::Signals::graph_then))]
fn rewritten_twice(
    alloc: Global,
    _net: &Netlist,
    pass: &CutRewriting,
    graph: &Graph,
) -> Result<Option<Graph>, Memory>
    requires { IsGraphOf _net.now graph.now }
    ensures { IfOk result (λ found. IfSome found (λ made. IsGraphOf _net.now made)) }
{
    let once = rewritten(alloc, pass, graph)?;
    let twice = rewritten(alloc, pass, &once)?;
    if twice.node_count() < graph.node_count() {
        Ok(Some(twice))
    } else {
        Ok(None)
    }
}

/// What is made by cuts of four leaves of the first one of some graphs, if that is not too great.
fn first_rewritten(
    alloc: Global,
    net: &Netlist,
    pass: &CutRewriting,
    graphs: &[Graph],
) -> Result<Option<Graph>, Memory>
    requires { AreGraphsOf net.now graphs.now }
    ensures { IfOk result (λ found. IfSome found (λ made. IsGraphOf net.now made)) }
{
    match graphs.first() {
        Some(first) if (LEAST_REWRITTEN..=MOST_REWRITTEN).contains(&first.node_count()) => {
            rewritten_twice(alloc, net, pass, first)
        }
        _ => Ok(None),
    }
}

/// Adds further graphs with the answers of a netlist: that by cuts of four leaves of the first one of its graphs, if it
/// has fewer nodes, and up to seven that are made of it, each with fewer levels. There are none where the first one has
/// more than 100,000 nodes. They are refused for want of memory alone.
pub(crate) fn push_fewer_nodes(
    alloc: Global,
    net: &Netlist,
    pass: &CutRewriting,
    graphs: &mut Vec<Graph>,
) -> Result<(), Memory>
    requires { AreGraphsOf net.now graphs.old.items }
    ensures { OnOk result (AreGraphsOf net.now graphs.new.items) }
{
    match first_rewritten(alloc, net, pass, graphs.as_slice())? {
        Some(first) => push_chain(alloc, net, graphs, first),
        None => Ok(()),
    }
}
