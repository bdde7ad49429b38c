// Exact slots of cells in given orders: difference constraints, solved by longest paths. Neighbours in a row keep their
// distance, the ends of a wire are at most so many slots apart, and no cell leaves the row.
use crate::arrays::{at, is_marked, put, wide_at};
use crate::chip::Chip;
use crate::places::Places;
use aq_base::Memory;
use std::alloc::Global;

const KEY: u64 = 4_294_967_296;

/// Which slots are looked for.
#[derive(Clone, Copy, PartialEq, Eq)]
pub(crate) enum Side {
    Least,
    Greatest,
}

/// The slots so far, which are bounds of those that are looked for, and which rows may not meet their constraints.
#[derive(Drop)]
pub(crate) struct Exact {
    pub(crate) slots: Vec<i64>,
    pub(crate) dirty: Vec<bool>,
    /// How many times a cell was looked at.
    pub(crate) steps: u64,
    order: Vec<u32>,
    side: Side,
    width: i64,
    move_limit: i64,
    moved: bool,
}

/// The cells of each row in the order of their slots.
fn order_by(alloc: Global, chip: &Chip, slots: &[u32]) -> Result<Vec<u32>, Memory> {
    let mut order = Vec::new(alloc);
    let mut keys: Vec<u64> = Vec::new(alloc);
    for row in 0..chip.rows() {
        let (first, end) = chip.bounds(row);
        keys.clear();
        for cell in first..end {
            let slot = u64::from(at(slots, cell)).wrapping_mul(KEY);
            keys.push(slot.wrapping_add(u64::from(cell)))?;
        }
        keys.sort_unstable();
        for key in &keys {
            order.push((key % KEY) as u32)?;
        }
    }
    Ok(order)
}

impl Exact {
    /// The constraints of a chip whose cells stand in the order of their places, each cell at a first bound. All rows
    /// are looked at where `dirty` says so, else none.
    pub(crate) fn new(
        alloc: Global,
        chip: &Chip,
        places: &Places,
        side: Side,
        dirty: bool,
    ) -> Result<Exact, Memory> {
        let width = i64::from(places.width);
        let mut slots = vec![in alloc; 0; chip.count() as usize]?;
        if side == Side::Greatest {
            for cell in 0..chip.count() {
                put(
                    &mut slots,
                    cell,
                    width.wrapping_sub(i64::from(chip.width(cell))),
                );
            }
        }
        Ok(Exact {
            slots,
            dirty: vec![in alloc; dirty; chip.rows() as usize]?,
            steps: 0,
            order: order_by(alloc, chip, &places.slots)?,
            side,
            width,
            move_limit: i64::from(places.move_limit),
            moved: false,
        })
    }

    /// Bounds the slot of a cell.
    fn bound(&mut self, cell: u32, slot: i64) {
        let present = wide_at(&self.slots, cell);
        let moves = match self.side {
            Side::Least => slot > present,
            Side::Greatest => slot < present,
        };
        if moves {
            put(&mut self.slots, cell, slot);
            self.moved = true;
        }
    }

    /// Bounds the cells of a row by their wires.
    fn relax_wires(&mut self, chip: &Chip, row: u32) {
        let play = match self.side {
            Side::Least => self.move_limit.wrapping_neg(),
            Side::Greatest => self.move_limit,
        };
        for wire in chip.wires_into(row) {
            let end = wide_at(&self.slots, wire.from).wrapping_add(i64::from(wire.output));
            self.bound(
                wire.to,
                end.wrapping_sub(i64::from(wire.pin)).wrapping_add(play),
            );
        }
        for wire in chip.wires_into(row.saturating_add(1)) {
            let end = wide_at(&self.slots, wire.to).wrapping_add(i64::from(wire.pin));
            self.bound(
                wire.from,
                end.wrapping_sub(i64::from(wire.output)).wrapping_add(play),
            );
        }
    }

    /// Bounds the cells of a row by their neighbours; whether they stay in the row.
    fn relax_order(&mut self, chip: &Chip, row: u32) -> bool {
        let (first, end) = chip.bounds(row);
        self.steps = self
            .steps
            .saturating_add(u64::from(end.saturating_sub(first)));
        if self.side == Side::Least {
            let mut free: i64 = 0;
            for place in first..end {
                let cell = at(&self.order, place);
                self.bound(cell, free);
                free = wide_at(&self.slots, cell).wrapping_add(i64::from(chip.width(cell)));
            }
            return free <= self.width;
        }
        let mut limit = self.width;
        for place in (first..end).rev() {
            let cell = at(&self.order, place);
            self.bound(cell, limit.wrapping_sub(i64::from(chip.width(cell))));
            limit = wide_at(&self.slots, cell);
        }
        limit >= 0
    }

    /// Marks a row as one that may not meet its constraints.
    pub(crate) fn touch(&mut self, row: u32) {
        put(&mut self.dirty, row, true);
    }

    /// Relaxes the rows that are marked, from the first to the last or from the last to the first; whether there was
    /// one, and nothing where a cell leaves its row or more than so many steps were taken.
    fn relax(&mut self, chip: &Chip, up: bool, most: u64) -> Option<bool> {
        let mut any = false;
        let last = chip.rows().saturating_sub(1);
        for turn in 0..chip.rows() {
            let row = if up { turn } else { last.saturating_sub(turn) };
            if is_marked(&self.dirty, row) {
                any = true;
                put(&mut self.dirty, row, false);
                self.moved = false;
                self.relax_wires(chip, row);
                if !self.relax_order(chip, row) || self.steps > most {
                    return None;
                }
                if self.moved {
                    self.touch(row.saturating_sub(1));
                    self.touch(row.saturating_add(1));
                }
            }
        }
        Some(any)
    }

    /// Finds the slots in at most so many steps; whether there are some.
    pub(crate) fn solve(&mut self, chip: &Chip, most: u64) -> bool {
        for turn in 0..u64::MAX {
            match self.relax(chip, turn % 2 == 0, most) {
                Some(true) => (),
                Some(false) => return true,
                None => return false,
            }
        }
        false
    }
}
