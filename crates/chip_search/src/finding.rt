// The search among graphs of the same answers.
use crate::candidate::{Candidate, Work};
use crate::cells::make_cells;
use crate::chip::{Chip, make_chip};
use crate::drafts::make_draft;
use crate::effort::{Effort, Steps};
use crate::graph::{GraphParts, UseLists};
use crate::growing::{finish, trim};
use crate::levels::Levels;
use crate::lining::line_up;
use crate::signs::sign;
use crate::starting::{Hints, place};
use aq_base::Memory;
use mig::Graph;
use placement_check::Draft;
use std::alloc::Global;

/// A placed chip of more hundredths of the cells that one of use may have, missing ones counted, is given up: what is
/// done to it afterwards leaves out one cell of four at most.
const MOST_PLACED: u64 = 133;

/// So many times a node is placed in a line, or ten times each.
const MOST_MOVES: u32 = 3_000_000;

/// A draft, the number of the graph that it is a draft of, and how many cells of repeater rows it still asks for.
#[derive(Drop)]
pub struct Found {
    pub graph: usize,
    pub draft: Draft,
    pub missing: u64,
}

/// A chip before its cells have places: its graph's number, and the place of each node in a line, if that is asked for.
#[derive(Drop)]
struct Unplaced {
    graph: usize,
    chip: Chip,
    line: Option<Vec<u32>>,
}

/// The parts of a graph.
fn parts_of(graph: &Graph) -> GraphParts<'_> {
    GraphParts {
        inputs: graph.inputs(),
        nodes: graph.nodes(),
        outputs: graph.outputs(),
    }
}

/// The place of each node in a line, if the effort asks for it.
pub(crate) fn line_of(
    alloc: Global,
    parts: &GraphParts,
    uses: &UseLists,
    effort: Effort,
) -> Result<Option<Vec<u32>>, Memory> {
    if effort.line_rounds == 0 {
        return Ok(None);
    }
    let most = MOST_MOVES.checked_div(parts.count()).unwrap_or(0).max(10);
    let rounds = effort.line_rounds.min(most);
    Ok(Some(line_up(alloc, parts, uses, rounds)?))
}

/// The chip of a graph, if it has fewer cells than the best one so far and than one of use may have.
fn make_unplaced(
    alloc: Global,
    number: usize,
    graph: &GraphParts,
    three: bool,
    best: u64,
    effort: Effort,
) -> Result<Option<Unplaced>, Memory> {
    let signed = sign(alloc, graph, three)?;
    let mut levels = Levels::new(alloc, &signed, three)?;
    let cells = levels.cells()?;
    if cells >= best || cells > effort.most_cells {
        return Ok(None);
    }
    let made = make_cells(alloc, &levels)?;
    let chip = make_chip(alloc, &made, levels.last)?;
    let line = line_of(alloc, &signed.parts(), &signed.uses, effort)?;
    Ok(Some(Unplaced {
        graph: number,
        chip,
        line,
    }))
}

/// The best placed chip of the graphs, before rows are added, if it may come to be of use. Steps are counted by the chips that are placed.
fn find(
    work: &mut Work,
    graphs: &[Graph],
    three: bool,
    effort: Effort,
) -> Result<Option<Candidate>, Memory> {
    let mut best: Option<Candidate> = None;
    let mut least = effort.hundredths(work.move_limit, MOST_PLACED);
    let mut number: usize = 0;
    for graph in graphs {
        let parts = parts_of(graph);
        if let Some(one) = make_unplaced(work.alloc, number, &parts, three, least, effort)? {
            work.steps = Steps::new(&effort, one.chip.count());
            let line = one.line.as_deref().unwrap_or(&[]);
            let hints = Hints {
                line,
                outputs: &[],
                turns: 0,
            };
            let candidate = place(work, one.graph, &one.chip, &hints, effort)?;
            if candidate.total < least {
                least = candidate.total;
                best = Some(candidate);
            }
        }
        number = number.saturating_add(1);
    }
    Ok(best)
}

/// Searches a draft of a small chip for one of these graphs, which have the same answers. Splitters of three are used
/// where `three` says so, and a wire may move `reach - 1` slots, at least one. Nothing is found where no draft comes near
/// to the cells that the effort allows, or there is no graph. Nothing is promised of a draft that is found: a check takes
/// it or not. The search fails for want of memory alone.
pub fn search(
    alloc: Global,
    graphs: &[Graph],
    three: bool,
    reach: u32,
    effort: &Effort,
) -> Result<Option<Found>, Memory> {
    let effort = *effort;
    let mut work = Work {
        alloc,
        move_limit: reach.saturating_sub(1).max(1),
        steps: Steps::new(&effort, 0),
    };
    let Some(candidate) = find(&mut work, graphs, three, effort)? else {
        return Ok(None);
    };
    work.steps = Steps::new(&effort, candidate.chip.count());
    let grown = finish(&mut work, candidate, effort)?;
    let grown = trim(&mut work, grown, effort)?;
    let draft = make_draft(alloc, &grown.chip, &grown.places.slots)?;
    Ok(Some(Found {
        graph: grown.graph,
        draft,
        missing: grown.missing,
    }))
}
