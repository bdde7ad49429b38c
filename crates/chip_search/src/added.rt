// Added rows of buffers, in channels where wires move too far.
use crate::arrays::{at, between, is_marked, narrow, put};
use crate::chip::{Chip, Wire};
use crate::places::{Places, rows_wanted};
use aq_base::Memory;
use circuit::CellKind;
use std::alloc::Global;

/// Rows that are added: how many in each channel, by the row above it, and where the wires stand in them, if that is
/// given: from the slot numbers of `starts` on, row by row in the order of the wires.
#[derive(Drop)]
pub(crate) struct Added {
    pub(crate) counts: Vec<u32>,
    pub(crate) starts: Vec<u32>,
    pub(crate) slots: Vec<u32>,
}

/// A chip that grows by rows, with the slots of its cells and the new number of each cell that it had before.
#[derive(Drop)]
struct Growing {
    chip: Chip,
    slots: Vec<u32>,
    numbers: Vec<u32>,
    /// The constants of the old chip that go up with their users.
    planted: Vec<bool>,
    /// The cell that carries each wire of a channel in the last row that was added there.
    below: Vec<u32>,
}

/// An added row, counted from 1, of so many of a channel.
#[derive(Clone, Copy)]
struct AddedRow {
    number: u64,
    rows: u64,
}

/// The slot of a buffer in an added row between two slots.
fn between_slots(from: u32, to: u32, row: AddedRow) -> u32 {
    let parts = row.rows.saturating_add(1);
    let above = u64::from(from).saturating_mul(parts.saturating_sub(row.number));
    let sum = above.saturating_add(u64::from(to).saturating_mul(row.number));
    u32::try_from(sum.checked_div(parts).unwrap_or(0)).unwrap_or(u32::MAX)
}

/// The constants that go up with their users: those in channels that get rows.
fn plant(alloc: Global, old: &Chip, places: &Places, counts: &[u32]) -> Result<Vec<bool>, Memory> {
    let mut planted = vec![in alloc; false; old.count() as usize]?;
    for row in 1..old.rows() {
        if places.plants && at(counts, row) > 0 {
            for wire in old.wires_into(row) {
                put(&mut planted, wire.from, old.follows(wire.from));
            }
        }
    }
    Ok(planted)
}

impl Growing {
    /// Adds a cell at a slot; its number.
    fn add_cell(&mut self, kind: CellKind, label: u32, slot: u32) -> Result<u32, Memory> {
        let number = self.chip.count();
        self.chip.add(kind, label)?;
        self.slots.push(slot)?;
        Ok(number)
    }

    /// Adds the buffer of the wire of this number in its channel. In the first added row its source is that of the
    /// wire, else the buffer of the row before.
    fn add_buffer(
        &mut self,
        old: &Chip,
        wire: &Wire,
        number: u32,
        row: AddedRow,
        slot: u32,
    ) -> Result<(), Memory> {
        let label = old.shown(wire.from);
        let to = self.add_cell(CellKind::Buffer, label, slot)?;
        let (from, output) = if row.number == 1 {
            (at(&self.numbers, wire.from), wire.output)
        } else {
            (at(&self.below, number), 0)
        };
        self.chip.wires.push(Wire {
            from,
            to,
            output,
            pin: 0,
        })?;
        put(&mut self.below, number, to);
        Ok(())
    }

    /// Adds a row, with a buffer for each wire of a channel and with planted constants if it is the last one. A buffer
    /// stands at the slot of its wire's number, else between the wire's ends.
    fn add_row(
        &mut self,
        old: &Chip,
        slots: &[u32],
        wires: &[Wire],
        row: AddedRow,
        given: &[u32],
    ) -> Result<(), Memory> {
        self.chip.begin_row()?;
        let mut number: u32 = 0;
        for wire in wires {
            let from = at(slots, wire.from).saturating_add(u32::from(wire.output));
            let upper = at(slots, wire.to).saturating_add(u32::from(wire.pin));
            if !is_marked(&self.planted, wire.from) {
                let slot = match given.get(number as usize) {
                    Some(slot) => *slot,
                    None => between_slots(from, upper, row),
                };
                self.add_buffer(old, wire, number, row, slot)?;
            } else if row.number == row.rows {
                let label = at(&old.labels, wire.from);
                let cell = self.add_cell(old.kind(wire.from), label, upper)?;
                put(&mut self.below, number, cell);
            }
            number = number.saturating_add(1);
        }
        Ok(())
    }

    /// Adds the cells of a row of the old chip, but no planted constants.
    fn add_old_cells(&mut self, old: &Chip, slots: &[u32], row: u32) -> Result<(), Memory> {
        let (first, end) = old.bounds(row);
        self.chip.begin_row()?;
        for cell in first..end {
            let number = if is_marked(&self.planted, cell) {
                0
            } else {
                self.add_cell(old.kind(cell), at(&old.labels, cell), at(slots, cell))?
            };
            self.numbers.push(number)?;
        }
        Ok(())
    }

    /// Adds a row of the old chip, whose wires come from added cells where there are some.
    fn add_old(
        &mut self,
        old: &Chip,
        slots: &[u32],
        row: u32,
        has_added: bool,
    ) -> Result<(), Memory> {
        self.add_old_cells(old, slots, row)?;
        let mut number: u32 = 0;
        for wire in old.wires_into(row) {
            let (from, output) = if has_added {
                (at(&self.below, number), 0)
            } else {
                (at(&self.numbers, wire.from), wire.output)
            };
            self.chip.wires.push(Wire {
                from,
                to: at(&self.numbers, wire.to),
                output,
                pin: wire.pin,
            })?;
            number = number.saturating_add(1);
        }
        Ok(())
    }

    /// Adds the rows of a channel that ends in a row of the old chip.
    fn add_rows(
        &mut self,
        old: &Chip,
        places: &Places,
        row: u32,
        added: &Added,
    ) -> Result<(), Memory> {
        let rows = u64::from(at(&added.counts, row));
        let wires = old.wires_into(row);
        let width = narrow(wires.len());
        self.below.clear();
        for _ in 0..width {
            self.below.push(0)?;
        }
        let mut first = at(&added.starts, row);
        for number in 0..rows {
            let number = number.saturating_add(1);
            let end = first.saturating_add(width);
            let given = between(&added.slots, first, end);
            first = end;
            let next = AddedRow { number, rows };
            self.add_row(old, &places.slots, wires, next, given)?;
        }
        Ok(())
    }
}

/// How many rows of buffers each channel wants, by the row above it.
pub(crate) fn wanted_rows(alloc: Global, chip: &Chip, places: &Places) -> Result<Vec<u32>, Memory> {
    let mut counts = Vec::new(alloc);
    for row in 0..chip.rows() {
        let rows = rows_wanted(places.farthest(chip, row), places.move_limit);
        counts.push(u32::try_from(rows).unwrap_or(u32::MAX))?;
    }
    Ok(counts)
}

/// How many of `rows` rows fall to the first `part` of `sum` slots.
fn rows_up_to(rows: u64, part: u64, sum: u64) -> u64 {
    rows.saturating_mul(part).checked_div(sum).unwrap_or(0)
}

/// Gives rows to a run of channels in which wires move too far, so that together they would do; at least one. Each
/// channel gets as many as fit how far its longest wire moves.
fn give_rows(counts: &mut [u32], moves: &[u32], first: u32, end: u32, limit: u32) {
    let mut sum: u64 = 0;
    for row in first..end {
        sum = sum.saturating_add(u64::from(at(moves, row)));
    }
    let steps = sum
        .checked_div(u64::from(limit))
        .unwrap_or(0)
        .saturating_add(1);
    let missing = steps.saturating_sub(u64::from(end.saturating_sub(first)));
    let rows = missing.max(1);
    let mut part: u64 = sum.checked_div(rows.saturating_mul(2)).unwrap_or(0);
    let mut given: u64 = 0;
    for row in first..end {
        part = part.saturating_add(u64::from(at(moves, row)));
        let now = rows_up_to(rows, part, sum);
        put(
            counts,
            row,
            u32::try_from(now.saturating_sub(given)).unwrap_or(0),
        );
        given = now;
    }
}

/// How many rows of buffers each channel gets, by the row above it, where channels side by side share the rows.
pub(crate) fn shared_rows(alloc: Global, chip: &Chip, places: &Places) -> Result<Vec<u32>, Memory> {
    let mut moves = Vec::new(alloc);
    for row in 0..chip.rows() {
        moves.push(u32::try_from(places.farthest(chip, row)).unwrap_or(u32::MAX))?;
    }
    let mut counts = vec![in alloc; 0; moves.len()]?;
    let mut first: u32 = 0;
    for row in 0..chip.rows() {
        if at(&moves, row) > places.move_limit {
            let next = row.saturating_add(1);
            if at(&moves, next) <= places.move_limit {
                give_rows(&mut counts, &moves, first, next, places.move_limit);
            }
        } else {
            first = row.saturating_add(1);
        }
    }
    Ok(counts)
}

/// The rows that these are, which stand wherever there is room.
pub(crate) fn unplaced(alloc: Global, counts: Vec<u32>) -> Added {
    Added {
        counts,
        starts: Vec::new(alloc),
        slots: Vec::new(alloc),
    }
}

/// The chip with these rows added, and its places. Added rows are settled, if no slots are given for them.
pub(crate) fn add_rows(
    alloc: Global,
    old: &Chip,
    places: &Places,
    added: &Added,
) -> Result<(Chip, Places), Memory> {
    let mut growing = Growing {
        chip: Chip::empty(alloc),
        slots: Vec::new(alloc),
        numbers: Vec::new(alloc),
        planted: plant(alloc, old, places, &added.counts)?,
        below: Vec::new(alloc),
    };
    let mut settled = Vec::new(alloc);
    for row in 0..old.rows() {
        let first = growing.chip.rows_begun();
        growing.add_rows(old, places, row, added)?;
        for one in first..growing.chip.rows_begun() {
            settled.push(one)?;
        }
        growing.add_old(old, &places.slots, row, at(&added.counts, row) > 0)?;
    }
    let Growing {
        mut chip,
        slots,
        numbers: _,
        planted: _,
        below: _,
    } = growing;
    chip.begin_row()?;
    let width = places.width.max(chip.widest());
    let mut grown = places.like(alloc, slots, width);
    if added.slots.is_empty() {
        for row in &settled {
            grown.settle_again(&chip, *row)?;
        }
    }
    Ok((chip, grown))
}
