// The searches for small chips, and the best of what they find.
use aq_base::Memory;
use chip_search::{Effort, Found};
use circuit::CellKind;
use mig::Graph;
use placement_check::Draft;
use std::alloc::Global;

/// How many junctions the cells of a draft have: six a majority, and two any other cell.
fn junctions(draft: &Draft) -> u64 {
    let mut count: u64 = 0;
    for row in draft.rows.as_slice() {
        for cell in row.as_slice() {
            let more = if matches!(cell.kind, CellKind::Majority) {
                6
            } else {
                2
            };
            count = count.saturating_add(more);
        }
    }
    count
}

/// How good a draft is: the junctions that it has, and those of the repeaters that it still asks for.
fn cost(found: &Found) -> u64 {
    let missing = found.missing.saturating_mul(2);
    junctions(&found.draft).saturating_add(missing)
}

/// How many cells a draft has, those of the repeaters counted that it still asks for.
fn cells(found: &Found) -> u64 {
    let mut count = found.missing;
    for row in found.draft.rows.as_slice() {
        count = count.saturating_add(row.len() as u64);
    }
    count
}

/// The effort for chips of these graphs, each of which shows the same outputs: their cells take no room for a wire.
fn for_outputs(effort: &Effort, graphs: &[Graph]) -> Effort {
    let mut effort = *effort;
    if let Some(graph) = graphs.first() {
        let outputs = graph.outputs().len() as u64;
        effort.most_cells = effort.most_cells.saturating_add(outputs);
    }
    effort
}

/// The effort where a draft is known. One that has an eighth more cells may still have fewer junctions.
fn beside(effort: Effort, known: &Option<Found>) -> Effort {
    let mut effort = effort;
    if let Some(found) = known {
        let cells = cells(found);
        let most = cells.saturating_add(cells / 8);
        effort.most_cells = effort.most_cells.min(most);
    }
    effort
}

/// The better of two drafts, the first one where both are as good.
fn better(one: Option<Found>, other: Option<Found>) -> Option<Found> {
    match (one, other) {
        (Some(one), Some(other)) => {
            if cost(&other) < cost(&one) {
                Some(other)
            } else {
                Some(one)
            }
        }
        (Some(one), None) => Some(one),
        (None, other) => other,
    }
}

/// So many graphs are searched for rows with few cells, the first ones.
const ROW_GRAPHS: usize = 3;

/// The draft with the fewest junctions of those that the searches find: of rows with few cells that are placed
/// afterwards, and of trees that know where their users stand. A further search is a function like these, graphs and a
/// reach in and a draft out, and one line here.
pub(crate) fn best_draft(
    alloc: Global,
    graphs: &[Graph],
    three: bool,
    reach: u32,
    effort: &Effort,
) -> Result<Option<Found>, Memory> {
    let effort = for_outputs(effort, graphs);
    let trees = chip_trees::search(alloc, graphs, three, reach, &effort)?;
    let first = graphs.get(..ROW_GRAPHS.min(graphs.len())).unwrap_or(graphs);
    let beside = beside(effort, &trees);
    let rows = chip_search::search(alloc, first, three, reach, &beside)?;
    Ok(better(rows, trees))
}
