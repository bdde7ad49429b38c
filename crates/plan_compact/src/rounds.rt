// Graphs of fewer nodes, by equal nodes that are merged, and by rounds of resubstitution and of cuts of four leaves.
ghost use Rattle.std.specs.Prelude.{IfOk, OnOk, IfSome};
ghost use Rattle.mig.specs.Passes.{IsRebuilt};
ghost use Rattle.mig_from_netlist.specs.Passes.{IsGraphOf};
ghost use Rattle.plan_compact.specs.Variants.{AreGraphsOf};

use crate::variants::{by_cuts, no_memory, push_chain};
use aq_base::Memory;
use blif_read::Netlist;
use circuit::Pass;
use mig::Graph;
use mig_cuts::CutRewriting;
use mig_from_netlist::{CoverRefusal, GraphPass};
use mig_merge::Merging;
use mig_resub::Resubstitution;
use mig_share::Sharing;
use std::alloc::Global;

/// How many nodes a graph has at least that is made anew: a smaller one has no node to lose.
const LEAST_NODES: usize = 2;

/// How many nodes a graph has at most that is made anew.
const MOST_NODES: usize = 20_000;

/// How many nodes a graph has at most that is made anew in three turns, and not in one.
const MOST_IN_TURNS: usize = 8_000;

/// The graph whose equal nodes are merged.
fn merged(alloc: Global, graph: &Graph) -> Result<Graph, Memory>
    ensures { IfOk result (λ made. IsRebuilt graph.now made) }
{
    match Merging.run(alloc, graph) {
        Ok(made) => Ok(made),
        Err(refusal) => Err(no_memory(refusal)),
    }
}

/// The graph by resubstitution; with a number, it is shaken.
fn resubstituted(alloc: Global, graph: &Graph, shake: Option<u32>) -> Result<Graph, Memory>
    ensures { IfOk result (λ made. IsRebuilt graph.now made) }
{
    let made = match shake {
        Some(number) => Resubstitution.shaken(alloc, graph, number),
        None => Resubstitution.run(alloc, graph),
    };
    match made {
        Ok(made) => Ok(made),
        Err(refusal) => Err(no_memory(refusal)),
    }
}

/// Whose cuts of four leaves are taken, and by which recipes.
#[derive(Clone, Copy)]
enum Cuts {
    /// Those of the graph that a pass is given.
    Given,
    /// Those of the graph that grows.
    InPlace,
    /// The same, by recipes of ands alone.
    Ands,
}

/// The pass by cuts of four leaves, whose cuts it takes, and whether nodes are joined in another order after it.
#[derive(Clone, Copy)]
struct Rewriting<'a> {
    pass: &'a CutRewriting,
    cuts: Cuts,
    shares: bool,
}

/// The graph by cuts of four leaves; with a number, it is shaken.
fn rewritten(
    alloc: Global,
    pass: &Rewriting,
    graph: &Graph,
    shake: Option<u32>,
) -> Result<Graph, Memory>
    ensures { IfOk result (λ made. IsRebuilt graph.now made) }
{
    let made = match (pass.cuts, shake) {
        (Cuts::Given, Some(number)) => pass.pass.shaken(alloc, graph, number),
        (Cuts::Given, None) => pass.pass.run(alloc, graph),
        (Cuts::InPlace, shake) => pass.pass.in_place(alloc, graph, shake),
        (Cuts::Ands, shake) => pass.pass.by_ands(alloc, graph, shake),
    };
    match made {
        Ok(made) => Ok(made),
        Err(refusal) => Err(no_memory(refusal)),
    }
}

/// The graph with nodes that are joined in another order.
fn shared(alloc: Global, graph: &Graph) -> Result<Graph, Memory>
    ensures { IfOk result (λ made. IsRebuilt graph.now made) }
{
    match Sharing.run(alloc, graph) {
        Ok(made) => Ok(made),
        Err(refusal) => Err(no_memory(refusal)),
    }
}

/// A graph of a netlist with nodes that are joined in another order, where that is asked for.
#[tactic(auto, using(mig_from_netlist::proofs::Signals::graph_then))]
fn or_shared(alloc: Global, _net: &Netlist, pass: &Rewriting, graph: Graph) -> Result<Graph, Memory>
    requires { IsGraphOf _net.now graph }
    ensures { IfOk result (λ made. IsGraphOf _net.now made) }
{
    if pass.shares {
        shared(alloc, &graph)
    } else {
        Ok(graph)
    }
}

/// The graph by resubstitution, and then by cuts of four leaves.
#[tactic(auto, using(mig_from_netlist::proofs::Signals::graph_then))]
fn resubstituted_and_rewritten(
    alloc: Global,
    _net: &Netlist,
    pass: &Rewriting,
    graph: &Graph,
    shake: Option<u32>,
) -> Result<Graph, Memory>
    requires { IsGraphOf _net.now graph.now }
    ensures { IfOk result (λ made. IsGraphOf _net.now made) }
{
    let one = resubstituted(alloc, graph, shake)?;
    rewritten(alloc, pass, &one, shake)
}

/// A round: the graph by resubstitution, by cuts of four leaves, and with nodes that are joined in another order, where
/// that is asked for.
fn round(
    alloc: Global,
    net: &Netlist,
    pass: &Rewriting,
    graph: &Graph,
    shake: Option<u32>,
) -> Result<Graph, Memory>
    requires { IsGraphOf net.now graph.now }
    ensures { IfOk result (λ made. IsGraphOf net.now made) }
{
    let made = resubstituted_and_rewritten(alloc, net, pass, graph, shake)?;
    or_shared(alloc, net, pass, made)
}

/// A turn: three rounds that are shaken, and two that are not.
fn turn(
    alloc: Global,
    net: &Netlist,
    pass: &Rewriting,
    graph: &Graph,
    number: u32,
) -> Result<Graph, Memory>
    requires { IsGraphOf net.now graph.now }
    ensures { IfOk result (λ made. IsGraphOf net.now made) }
{
    let one = round(alloc, net, pass, graph, Some(number))?;
    let two = round(alloc, net, pass, &one, Some(number.wrapping_add(1_000)))?;
    let three = round(alloc, net, pass, &two, Some(number.wrapping_add(2_000)))?;
    let four = round(alloc, net, pass, &three, None)?;
    round(alloc, net, pass, &four, None)
}

/// The graph from which the next turn starts, and the one of the fewest nodes so far.
#[derive(Drop)]
struct SoFar {
    best: Graph,
    next: Option<Graph>,
}

/// The next turn, from the last graph if it was nearly as good as the best one, else from that.
fn next_turn(
    alloc: Global,
    net: &Netlist,
    pass: &Rewriting,
    so_far: &SoFar,
    number: u32,
) -> Result<Graph, Memory>
    requires best { IsGraphOf net.now so_far.now.best }
    requires next { IfSome so_far.now.next (IsGraphOf net.now) }
    ensures { IfOk result (λ made. IsGraphOf net.now made) }
{
    match &so_far.next {
        Some(next) => turn(alloc, net, pass, next, number),
        None => turn(alloc, net, pass, &so_far.best, number),
    }
}

/// What is known after a turn.
fn after_turn(_net: &Netlist, so_far: SoFar, made: Graph) -> SoFar
    requires best { IsGraphOf _net.now so_far.best }
    requires made { IsGraphOf _net.now made }
    ensures best { IsGraphOf _net.now result.best }
    ensures next { IfSome result.next (IsGraphOf _net.now) }
{
    let best = so_far.best;
    let least = best.node_count();
    let few = made.node_count();
    if few <= least {
        SoFar {
            best: made,
            next: None,
        }
    } else if few <= least.saturating_add(least / 32) {
        SoFar {
            best,
            next: Some(made),
        }
    } else {
        SoFar { best, next: None }
    }
}

/// How many turns there are for a graph of so many nodes.
fn turns(nodes: usize) -> u32 {
    if nodes <= MOST_IN_TURNS { 3 } else { 1 }
}

/// The graph by one pass, with nodes that are joined in another order, where that is asked for.
#[tactic(auto, using(mig_from_netlist::proofs::Signals::graph_then))]
fn pass_and_share(
    alloc: Global,
    net: &Netlist,
    pass: &Rewriting,
    graph: &Graph,
    shake: Option<u32>,
) -> Result<Graph, Memory>
    requires { IsGraphOf net.now graph.now }
    ensures { IfOk result (λ made. IsGraphOf net.now made) }
{
    let made = rewritten(alloc, pass, graph, shake)?;
    or_shared(alloc, net, pass, made)
}

/// The graph by recipes of ands, five times, of which two are shaken.
fn fewer_ands(
    alloc: Global,
    net: &Netlist,
    pass: &Rewriting,
    graph: &Graph,
) -> Result<Graph, Memory>
    requires { IsGraphOf net.now graph.now }
    ensures { IfOk result (λ made. IsGraphOf net.now made) }
{
    let ands = Rewriting {
        pass: pass.pass,
        cuts: Cuts::Ands,
        shares: pass.shares,
    };
    let one = pass_and_share(alloc, net, &ands, graph, None)?;
    let two = pass_and_share(alloc, net, &ands, &one, Some(1))?;
    let three = pass_and_share(alloc, net, &ands, &two, None)?;
    let four = pass_and_share(alloc, net, &ands, &three, Some(2))?;
    pass_and_share(alloc, net, &ands, &four, None)
}

/// Two rounds.
fn two_rounds(
    alloc: Global,
    net: &Netlist,
    pass: &Rewriting,
    graph: &Graph,
) -> Result<Graph, Memory>
    requires { IsGraphOf net.now graph.now }
    ensures { IfOk result (λ made. IsGraphOf net.now made) }
{
    let one = round(alloc, net, pass, graph, None)?;
    round(alloc, net, pass, &one, None)
}

/// Two rounds from a graph whose equal nodes are merged first.
#[tactic(auto, using(mig_from_netlist::proofs::Signals::graph_then))]
fn begun(alloc: Global, net: &Netlist, pass: &Rewriting, graph: &Graph) -> Result<Graph, Memory>
    requires { IsGraphOf net.now graph.now }
    ensures { IfOk result (λ made. IsGraphOf net.now made) }
{
    let start = merged(alloc, graph)?;
    two_rounds(alloc, net, pass, &start)
}

/// Two rounds from a graph that has few ands before cuts of three inputs are taken.
#[tactic(auto, using(mig_from_netlist::proofs::Signals::graph_then))]
fn begun_by_ands(
    alloc: Global,
    net: &Netlist,
    pass: &Rewriting,
    graph: &Graph,
) -> Result<Graph, Memory>
    requires { IsGraphOf net.now graph.now }
    ensures { IfOk result (λ made. IsGraphOf net.now made) }
{
    let few = fewer_ands(alloc, net, pass, graph)?;
    let start = by_cuts(alloc, &few)?;
    two_rounds(alloc, net, pass, &start)
}

/// The graph of the netlist before cuts of three inputs are taken, if it is not too great.
fn plain_graph(alloc: Global, net: &Netlist) -> Result<Option<Graph>, Memory>
    ensures { IfOk result (λ found. IfSome found (λ made. IsGraphOf net.now made)) }
{
    match GraphPass.run(alloc, net) {
        Ok(plain) if plain.node_count() <= MOST_NODES => Ok(Some(plain)),
        Err(CoverRefusal::Memory) => Err(Memory),
        _ => Ok(None),
    }
}

/// The one of fewer nodes, the first one if neither has.
fn fewer(_net: &Netlist, one: Graph, other: Graph) -> Graph
    requires one { IsGraphOf _net.now one }
    requires other { IsGraphOf _net.now other }
    ensures { IsGraphOf _net.now result }
{
    if other.node_count() < one.node_count() {
        other
    } else {
        one
    }
}

/// From where turns begin.
#[derive(Clone, Copy)]
pub(crate) enum Beginning {
    /// A graph by cuts of three inputs, or that before them, whichever two rounds leave fewer nodes of, once equal nodes
    /// are merged. Rounds take the cuts of the graph that they are given.
    Merged,
    /// The same, where rounds take the cuts of the graph that grows, as they do in the next one.
    MergedInPlace,
    /// The graph before cuts of three inputs, once recipes of ands have made it smaller, with equal nodes merged or not.
    FewerAnds,
    /// The same with equal nodes merged, where nodes are joined in another order after each pass, so that they share more.
    SharedAnds,
}

/// The beginning with equal nodes merged, by this graph and that before cuts of three inputs.
fn merged_beginning(
    alloc: Global,
    net: &Netlist,
    pass: &Rewriting,
    graph: &Graph,
    plain: &Graph,
) -> Result<Graph, Memory>
    requires graph { IsGraphOf net.now graph.now }
    requires plain { IsGraphOf net.now plain.now }
    ensures { IfOk result (λ made. IsGraphOf net.now made) }
{
    let one = begun(alloc, net, pass, graph)?;
    let two = begun(alloc, net, pass, plain)?;
    Ok(fewer(net, one, two))
}

/// The beginning with fewer ands, with equal nodes merged or not.
#[tactic(auto, using(mig_from_netlist::proofs::Signals::graph_then))]
fn ands_beginning(
    alloc: Global,
    net: &Netlist,
    pass: &Rewriting,
    plain: &Graph,
) -> Result<Graph, Memory>
    requires { IsGraphOf net.now plain.now }
    ensures { IfOk result (λ made. IsGraphOf net.now made) }
{
    let start = merged(alloc, plain)?;
    let one = begun_by_ands(alloc, net, pass, &start)?;
    let two = begun_by_ands(alloc, net, pass, plain)?;
    Ok(fewer(net, one, two))
}

/// The beginning with fewer ands and with nodes that are joined in another order, with equal nodes merged.
#[tactic(auto, using(mig_from_netlist::proofs::Signals::graph_then))]
fn shared_beginning(
    alloc: Global,
    net: &Netlist,
    pass: &Rewriting,
    plain: &Graph,
) -> Result<Graph, Memory>
    requires { IsGraphOf net.now plain.now }
    ensures { IfOk result (λ made. IsGraphOf net.now made) }
{
    let start = merged(alloc, plain)?;
    begun_by_ands(alloc, net, pass, &start)
}

/// The graph from which turns begin. Where that before cuts of three inputs is too great, it is this one.
fn first_graph(
    alloc: Global,
    net: &Netlist,
    pass: &Rewriting,
    graph: &Graph,
    kind: Beginning,
) -> Result<Graph, Memory>
    requires { IsGraphOf net.now graph.now }
    ensures { IfOk result (λ made. IsGraphOf net.now made) }
{
    let Some(plain) = plain_graph(alloc, net)? else {
        return begun(alloc, net, pass, graph);
    };
    match kind {
        Beginning::Merged | Beginning::MergedInPlace => {
            merged_beginning(alloc, net, pass, graph, &plain)
        }
        Beginning::FewerAnds => ands_beginning(alloc, net, pass, &plain),
        Beginning::SharedAnds => shared_beginning(alloc, net, pass, &plain),
    }
}

/// Whose cuts rounds take from a beginning.
fn cuts_of(kind: Beginning) -> Cuts {
    match kind {
        Beginning::Merged => Cuts::Given,
        Beginning::MergedInPlace | Beginning::FewerAnds | Beginning::SharedAnds => Cuts::InPlace,
    }
}

/// The graph of the fewest nodes that turns give.
fn turned(
    alloc: Global,
    net: &Netlist,
    recipes: &CutRewriting,
    graph: &Graph,
    kind: Beginning,
) -> Result<Graph, Memory>
    requires { IsGraphOf net.now graph.now }
    ensures { IfOk result (λ made. IsGraphOf net.now made) }
{
    let pass = Rewriting {
        pass: recipes,
        cuts: cuts_of(kind),
        shares: matches!(kind, Beginning::SharedAnds),
    };
    let best = first_graph(alloc, net, &pass, graph, kind)?;
    let turns = turns(best.node_count());
    let mut so_far = SoFar { best, next: None };
    for number in 0..turns {
        let made = next_turn(alloc, net, &pass, &so_far, number)?;
        so_far = after_turn(net, so_far, made);
    }
    Ok(so_far.best)
}

/// The graph of the fewest nodes that turns give of this one, if it has fewer.
fn turned_if_fewer(
    alloc: Global,
    net: &Netlist,
    recipes: &CutRewriting,
    graph: &Graph,
    kind: Beginning,
) -> Result<Option<Graph>, Memory>
    requires { IsGraphOf net.now graph.now }
    ensures { IfOk result (λ found. IfSome found (λ made. IsGraphOf net.now made)) }
{
    let made = turned(alloc, net, recipes, graph, kind)?;
    if made.node_count() < graph.node_count() {
        Ok(Some(made))
    } else {
        Ok(None)
    }
}

/// What turns give of the first one of some graphs, if that is not too great.
fn first_turned(
    alloc: Global,
    net: &Netlist,
    recipes: &CutRewriting,
    graphs: &[Graph],
    kind: Beginning,
) -> Result<Option<Graph>, Memory>
    requires { AreGraphsOf net.now graphs.now }
    ensures { IfOk result (λ found. IfSome found (λ made. IsGraphOf net.now made)) }
{
    match graphs.first() {
        Some(first) if (LEAST_NODES..=MOST_NODES).contains(&first.node_count()) => {
            turned_if_fewer(alloc, net, recipes, first, kind)
        }
        _ => Ok(None),
    }
}

/// Adds further graphs with the answers of a netlist: that of the fewest nodes that rounds of resubstitution and of cuts
/// of four leaves give from a beginning, if it has fewer nodes than the first one of these graphs, and up to seven that
/// are made of it, each with fewer levels. There are none where that first one has more than 20,000 nodes. They are
/// refused for want of memory alone.
pub(crate) fn push_fewest_nodes(
    alloc: Global,
    net: &Netlist,
    recipes: &CutRewriting,
    graphs: &mut Vec<Graph>,
    kind: Beginning,
) -> Result<(), Memory>
    requires { AreGraphsOf net.now graphs.old.items }
    ensures { OnOk result (AreGraphsOf net.now graphs.new.items) }
{
    match first_turned(alloc, net, recipes, graphs.as_slice(), kind)? {
        Some(first) => push_chain(alloc, net, graphs, first),
        None => Ok(()),
    }
}
