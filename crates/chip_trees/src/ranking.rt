// Graphs of the same answers, ranked by the cells and majorities of their trees.
use crate::graph::TurnedGraph;
use crate::trees::Trees;
use aq_base::Memory;
use chip_search::candidate::Work;
use chip_search::effort::Effort;
use chip_search::graph::GraphParts;
use chip_search::signs::sign;
use mig::Graph;
use std::alloc::Global;

/// Trees of more hundredths of the cells that a chip of use may have are given up: annealing and what is done afterwards
/// leave out fewer.
const MOST_OF_TREES: u64 = 150;

/// A graph's number, and what its trees cost, and their cells and majorities, after moves of single majorities.
#[derive(Drop)]
pub(crate) struct Ranked {
    pub(crate) graph: usize,
    pub(crate) cost: u64,
    pub(crate) cells: u64,
    pub(crate) nodes: usize,
}

/// The trees of a graph, each node as high as it may stand.
pub(crate) fn trees_of(alloc: Global, graph: &Graph, three: bool) -> Result<Trees, Memory> {
    let parts = GraphParts {
        inputs: graph.inputs(),
        nodes: graph.nodes(),
        outputs: graph.outputs(),
    };
    let signed = sign(alloc, &parts, three)?;
    let turned = TurnedGraph::new(alloc, &signed)?;
    let mut trees = Trees::new(alloc, turned, three)?;
    trees.repair()?;
    trees.move_all(8)?;
    Ok(trees)
}

/// What a chip of so many cells costs for a graph: its cells and its majorities. A majority has six junctions and any
/// other cell two, so that this is the mean of the cells and of half the junctions.
pub(crate) fn cost(graph: &Graph, cells: u64) -> u64 {
    cells.saturating_add(graph.node_count() as u64)
}

/// The graphs by the cost of their trees, without those that have too many cells.
pub(crate) fn rank(
    work: &Work,
    graphs: &[Graph],
    three: bool,
    effort: Effort,
) -> Result<Vec<Ranked>, Memory> {
    let alloc = work.alloc;
    let most = effort.hundredths(work.move_limit, MOST_OF_TREES);
    let mut ranked = Vec::new(alloc);
    let mut number: usize = 0;
    for graph in graphs {
        let cells = trees_of(alloc, graph, three)?.cells()?;
        if cells <= most {
            ranked.push(Ranked {
                graph: number,
                cost: cost(graph, cells),
                cells,
                nodes: graph.node_count(),
            })?;
        }
        number = number.saturating_add(1);
    }
    ranked.sort_unstable_by_key(|one| one.cost);
    Ok(ranked)
}
