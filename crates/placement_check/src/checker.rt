// The checker of drafts.
ghost use Rattle.std.specs.Prelude.{◌≡◌, length, IfOk, IfSome, IsSome};
ghost use Rattle.circuit.specs.SameAnswers.{SameAnswers};
ghost use Rattle.rowed.specs.RowNets as rows;
ghost use Rattle.rowed.specs.PlacedNets.{IsPlaced};
ghost use Rattle.mig.specs.Graphs as graphs;
ghost use Rattle.placement_check.specs.Drafts.{IsSound};
ghost use Rattle.placement_check.specs.Code.Rows.{is_sound};

use crate::Draft;
use crate::labels::rows_fit;
use crate::rows::is_net;
use aq_base::Memory;
use circuit::Answers;
use mig::Graph;
use rowed::{Placed, RowNet, each_seated};
use std::alloc::Global;

/// Whether the rows of a draft are those of a placed net, and its labels those of the graph.
fn is_sound(alloc: Global, graph: &Graph, draft: &Draft) -> Result<bool, Memory>
    ensures { IfOk result (λ is. is ≡ is_sound graph.now draft.now.rows draft.now.labels draft.now.slots) }
{
    let rows = draft.rows.as_slice();
    if !rows_fit(graph, rows, draft.labels.as_slice()) {
        return Ok(false);
    }
    if !each_seated(rows, draft.slots.as_slice()) {
        return Ok(false);
    }
    is_net(alloc, graph.input_count(), graph.output_count(), rows)
}

/// The placed net of a draft, which answers as the graph. Each draft is taken that is a placed net with the counts of
/// the graph and whose labels tell that it answers so; of another one none is given. It fails for want of memory
/// alone. The time that it takes is linear in the sizes of draft and graph.
pub fn check(alloc: Global, graph: &Graph, draft: Draft) -> Result<Option<Placed>, Memory>
    ensures accepts { IfOk result
        (λ found. IsSound graph.now draft.rows draft.labels draft.slots → IsSome found) }
    ensures net { IfOk result (λ found. IfSome found (λ placed. IsPlaced placed)) }
    ensures rows { IfOk result (λ found. IfSome found (λ placed. placed.net.rows ≡ draft.rows)) }
    ensures slots { IfOk result (λ found. IfSome found (λ placed. placed.slots ≡ draft.slots)) }
    ensures same { IfOk result (λ found. IfSome found (λ placed. SameAnswers
        graph.now.inputs placed.net.inputs (length graph.now.outputs) placed.net.outputs
        (graphs.IsAnswer graph.now) (rows.IsAnswer placed.net))) }
{
    if !is_sound(alloc, graph, &draft)? {
        return Ok(None);
    }
    Ok(Some(Placed {
        net: RowNet {
            inputs: graph.input_count(),
            outputs: graph.output_count(),
            rows: draft.rows,
        },
        slots: draft.slots,
        lag: 0,
    }))
}
