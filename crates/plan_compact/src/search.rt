// The search for a small chip of a netlist.
ghost use Rattle.std.specs.Prelude.{IfOk, OnOk, IfSome};
ghost use Rattle.rowed.specs.PlacedNets.{IsPlaced};
ghost use Rattle.plan_build.specs.Laws.{AnswersAs};
ghost use Rattle.plan_compact.specs.Variants.{AreGraphsOf};
ghost use Rattle.plan_compact.specs.Code.Candidates.{IsCandidate};

use crate::making::small_chip;
use crate::rounds::{Beginning, push_fewest_nodes};
use crate::variants::{LEAST_REWRITTEN, graph_variants, push_fewer_nodes};
use aq_base::Memory;
use blif_read::Netlist;
use cell_library::Library;
use chip_search::Effort;
use mig::Graph;
use mig_cuts::CutRewriting;
use plan_limits::drawable_chip;
use rowed::Placed;
use std::alloc::Global;

/// Whether graphs of fewer nodes are sought: one node is the fewest, and recipes take time and memory.
fn has_nodes(graphs: &[Graph]) -> bool {
    match graphs.first() {
        Some(first) => first.node_count() >= LEAST_REWRITTEN,
        None => false,
    }
}

/// Adds graphs of fewer nodes to those of a netlist.
fn push_further(alloc: Global, net: &Netlist, graphs: &mut Vec<Graph>) -> Result<(), Memory>
    requires { AreGraphsOf net.now graphs.old.items }
    ensures { OnOk result (AreGraphsOf net.now graphs.new.items) }
{
    let recipes = CutRewriting::new(alloc)?;
    push_fewer_nodes(alloc, net, &recipes, graphs)?;
    push_fewest_nodes(alloc, net, &recipes, graphs, Beginning::Merged)?;
    push_fewest_nodes(alloc, net, &recipes, graphs, Beginning::MergedInPlace)?;
    push_fewest_nodes(alloc, net, &recipes, graphs, Beginning::FewerAnds)?;
    push_fewest_nodes(alloc, net, &recipes, graphs, Beginning::SharedAnds)
}

/// The graphs of a netlist among which a chip is searched for: its variants, and those of fewer nodes.
pub(crate) fn all_graphs(alloc: Global, net: &Netlist) -> Result<Vec<Graph>, Memory>
    ensures { IfOk result (λ graphs. AreGraphsOf net.now graphs.items) }
{
    let mut graphs = graph_variants(alloc, net)?;
    if has_nodes(graphs.as_slice()) {
        push_further(alloc, net, &mut graphs)?;
    }
    Ok(graphs)
}

/// A chip of the netlist before its wires are shortened, if the search finds one.
#[tactic(auto, using(crate::proofs::Candidates::searches))]
fn searched(alloc: Global, library: &Library, net: &Netlist) -> Result<Option<Placed>, Memory>
    ensures placed { IfOk result (λ found. IfSome found (λ chip. IsPlaced chip)) }
    ensures answers { IfOk result (λ found. IfSome found (λ chip. AnswersAs net.now chip)) }
{
    let graphs = all_graphs(alloc, net)?;
    let reach = library.reach().min(u64::from(u32::MAX)) as u32;
    small_chip(
        alloc,
        graphs.as_slice(),
        library.has_three(),
        reach,
        &Effort::full(),
    )
}

/// A chip of the netlist that was found, if it may be drawn with the library.
#[tactic(auto, using(crate::proofs::Candidates::candidates))]
pub fn found_chip(alloc: Global, library: &Library, net: &Netlist) -> Result<Option<Placed>, Memory>
    ensures { IfOk result (λ found. IfSome found (λ chip. IsCandidate library.now net.now chip)) }
{
    match searched(alloc, library, net)? {
        Some(found) => drawable_chip(alloc, library, net, &found),
        None => Ok(None),
    }
}
