// Drafts of chips: rows of cells, what each shows, and where it stands.
use crate::arrays::{at, put};
use crate::chip::Chip;
use aq_base::{List, Memory};
use circuit::CellKind;
use placement_check::Draft;
use rowed::{RowCell, Source};
use std::alloc::Global;

const KEY: u64 = 4_294_967_296;

/// The cells of a row by slot.
fn order_row(keys: &mut Vec<u64>, slots: &[u32], first: u32, end: u32) -> Result<(), Memory> {
    keys.clear();
    for cell in first..end {
        keys.push(u64::from(at(slots, cell)) * KEY + u64::from(cell))?;
    }
    keys.sort_unstable();
    Ok(())
}

/// Numbers the cells of a row in this order.
fn number_row(numbers: &mut [u32], keys: &[u64]) {
    let mut number: u32 = 0;
    for key in keys {
        put(numbers, (key % KEY) as u32, number);
        number = number.saturating_add(1);
    }
}

/// A cell of a row before its sources are known.
fn bare_cell(chip: &Chip, row: u32, cell: u32) -> RowCell {
    let (first, _) = chip.bounds(row);
    let kind = match chip.kinds.get(cell as usize) {
        Some(kind) => *kind,
        None => CellKind::Buffer,
    };
    let label = chip.shown(cell);
    let mut made = RowCell::bare(kind);
    if row == 0 && label > 1 {
        made.input = Some((label / 2).saturating_sub(1));
    }
    if row.saturating_add(1) == chip.rows() {
        made.output = Some(cell.saturating_sub(first));
    }
    made
}

/// Feeds a pin of a cell.
fn feed(cell: &mut RowCell, pin: u8, source: Source) {
    match pin {
        0 => cell.source0 = Some(source),
        1 => cell.source1 = Some(source),
        _ => cell.source2 = Some(source),
    }
}

/// Feeds the cells of a row, whose numbers and those of the row below are known.
fn feed_row(cells: &mut [RowCell], chip: &Chip, numbers: &[u32], row: u32) {
    for wire in chip.wires_into(row) {
        if let Some(cell) = cells.get_mut(at(numbers, wire.to) as usize) {
            let source = Source {
                cell: at(numbers, wire.from),
                output: u32::from(wire.output),
            };
            feed(cell, wire.pin, source);
        }
    }
}

/// The draft of a chip with these slots.
pub fn make_draft(alloc: Global, chip: &Chip, slots: &[u32]) -> Result<Draft, Memory> {
    let mut draft = Draft {
        rows: List::new(alloc),
        labels: List::new(alloc),
        slots: List::new(alloc),
    };
    let mut numbers = vec![in alloc; 0; chip.count() as usize]?;
    let mut keys = Vec::new(alloc);
    for row in 0..chip.rows() {
        let (first, end) = chip.bounds(row);
        order_row(&mut keys, slots, first, end)?;
        number_row(&mut numbers, &keys);
        let mut cells = Vec::with_capacity(alloc, keys.len())?;
        let mut labels = Vec::with_capacity(alloc, keys.len())?;
        let mut lefts = Vec::with_capacity(alloc, keys.len())?;
        for key in &keys {
            let cell = (key % KEY) as u32;
            cells.push(bare_cell(chip, row, cell))?;
            labels.push(chip.shown(cell))?;
            lefts.push(at(slots, cell))?;
        }
        feed_row(&mut cells, chip, &numbers, row);
        draft.rows.push(List::from_vec(cells))?;
        draft.labels.push(List::from_vec(labels))?;
        draft.slots.push(List::from_vec(lefts))?;
    }
    Ok(draft)
}
