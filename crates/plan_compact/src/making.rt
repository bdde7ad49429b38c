// The search, and the check of what it found.
ghost use Rattle.std.specs.Prelude.{◌≡◌, ◌≤◌, length, nat_le, IfOk, IfSome};
ghost use Rattle.circuit.specs.SameAnswers.{SameAnswers};
ghost use Rattle.rowed.specs.RowNets as rows;
ghost use Rattle.rowed.specs.PlacedNets.{IsPlaced};
ghost use Rattle.rowed.specs.Counts.{cells_in};
ghost use Rattle.rowed.specs.Limits.{cell_limit};
ghost use Rattle.mig.specs.Graphs as graphs;
ghost use Rattle.plan_compact.specs.Chips.{AnswersAsOneOf};

use crate::searches::best_draft;
use aq_base::Memory;
use chip_search::Effort;
use mig::Graph;
use placement_check::{Draft, check};
use rowed::Placed;
use rowed::limits::CELL_LIMIT;
use std::alloc::Global;

/// Whether at most 2,000,000 cells stand in the rows.
fn has_few_cells(chip: &Placed) -> bool
    ensures { result ≡ nat_le (cells_in chip.now.net.rows) cell_limit }
{
    let mut count = 0;
    for row in chip.net.rows.as_slice() {
        let cells = row.len() as u64;
        if cells > CELL_LIMIT - count {
            return false;
        }
        count += cells;
    }
    true
}

/// The placed net of a draft for a graph, if it passes the check and has at most 2,000,000 cells.
fn take(alloc: Global, graph: &Graph, draft: Draft) -> Result<Option<Placed>, Memory>
    ensures placed { IfOk result (λ found. IfSome found (λ chip. IsPlaced chip)) }
    ensures few { IfOk result (λ found. IfSome found (λ chip. cells_in chip.net.rows ≤ cell_limit)) }
    ensures same { IfOk result (λ found. IfSome found (λ chip. SameAnswers
        graph.now.inputs chip.net.inputs (length graph.now.outputs) chip.net.outputs
        (graphs.IsAnswer graph.now) (rows.IsAnswer chip.net))) }
{
    match check(alloc, graph, draft)? {
        Some(chip) if has_few_cells(&chip) => Ok(Some(chip)),
        _ => Ok(None),
    }
}

/// A small placed net of at most 2,000,000 cells that answers as one of some graphs, which are meant to have the same
/// answers. Splitters of three are used where `three` says so. It is searched for among nets whose wires move at most
/// `reach - 1` slots, but that is not promised. Nothing is given where no search finds anything, as where each comes to
/// more than 2,000,000 cells or there is no graph, or where the best draft does not pass the check. It fails for want
/// of memory alone.
#[tactic(auto, using(crate::proofs::Chosen::answers_as_one))]
pub fn small_chip(
    alloc: Global,
    graphs: &[Graph],
    three: bool,
    reach: u32,
    effort: &Effort,
) -> Result<Option<Placed>, Memory>
    ensures placed { IfOk result (λ found. IfSome found (λ chip. IsPlaced chip)) }
    ensures few { IfOk result (λ found. IfSome found (λ chip. cells_in chip.net.rows ≤ cell_limit)) }
    ensures same { IfOk result (λ found. IfSome found (λ chip. AnswersAsOneOf graphs.now chip)) }
{
    let Some(found) = best_draft(alloc, graphs, three, reach, effort)? else {
        return Ok(None);
    };
    match graphs.get(found.graph) {
        Some(graph) => take(alloc, graph, found.draft),
        None => Ok(None),
    }
}
