// Chips of trees, placed from some start.
use crate::cells::{TreeCells, make_tree_cells};
use crate::numbers::{PARTS, item};
use crate::trees::Trees;
use aq_base::Memory;
use chip_search::arrays::at;
use chip_search::candidate::{Candidate, Work};
use chip_search::chip::{in_rows, make_chip, places_in};
use chip_search::effort::Effort;
use chip_search::places::Places;
use std::alloc::Global;

/// The parts of half a slot in a position.
const HALF_SLOT: i64 = 8;

/// A start is given up after a few sweeps where it has more hundredths missing of the cells that a chip of use may have.
const MOST_MISSING: u64 = 800;

/// Where the cells of a chip stand at first.
#[derive(Clone, Copy)]
pub(crate) enum Start {
    /// By the wires above them, from the last row down.
    Down,
    /// By the wires below them, from the first row up.
    Up,
    /// By their positions.
    Positions,
}

/// A placed chip, and the position of each item in it.
#[derive(Drop)]
pub(crate) struct Arrangement {
    pub(crate) candidate: Candidate,
    pub(crate) positions: Vec<i32>,
}

/// What the cells of a chip want by their positions: twice a slot.
fn wants_of(alloc: Global, cells: &TreeCells, order: &[u32]) -> Result<Vec<i64>, Memory> {
    let mut wants = Vec::with_capacity(alloc, order.len())?;
    for cell in order {
        let position = item(&cells.positions, *cell, 0);
        wants.push(i64::from(position) / HALF_SLOT)?;
    }
    Ok(wants)
}

/// The positions of items by the slots of their cells.
fn positions_of(
    alloc: Global,
    items: &[u32],
    places: &[u32],
    slots: &[u32],
) -> Result<Vec<i32>, Memory> {
    let mut positions = Vec::with_capacity(alloc, items.len())?;
    for cell in items {
        let slot = at(slots, at(places, *cell));
        let slot = i32::try_from(slot).unwrap_or(0);
        positions.push(slot.saturating_mul(PARTS))?;
    }
    Ok(positions)
}

/// The chip of trees, placed from a start and settled.
pub(crate) fn arrange(
    work: &mut Work,
    graph: usize,
    trees: &mut Trees,
    start: Start,
    effort: Effort,
) -> Result<Arrangement, Memory> {
    let alloc = work.alloc;
    let cells = make_tree_cells(alloc, trees)?;
    let order = in_rows(alloc, &cells.made, trees.last)?;
    let places = places_in(alloc, &order)?;
    let chip = make_chip(alloc, &cells.made, trees.last)?;
    let slots = vec![in alloc; 0; chip.count() as usize]?;
    let mut placed = Places::new(alloc, slots, chip.widest(), work.move_limit);
    placed.plants = effort.plants;
    placed.most_missing = effort.hundredths(work.move_limit, MOST_MISSING);
    match start {
        Start::Down => placed.start_down(&chip, &[])?,
        Start::Up => placed.start_up(&chip)?,
        Start::Positions => {
            let wants = wants_of(alloc, &cells, &order)?;
            placed.start_at(&chip, &wants)?;
        }
    }
    let candidate = Candidate::settled(work, graph, chip, placed, effort.sweeps, effort)?;
    let positions = positions_of(alloc, &cells.items, &places, &candidate.places.slots)?;
    Ok(Arrangement {
        candidate,
        positions,
    })
}
