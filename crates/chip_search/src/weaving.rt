// Added rows in all channels where wires move too far, by which these surely come to move no further than they may.
// Windows of slots are put in the order of the targets, in every other row half a window aside.
use crate::added::Added;
use crate::arrays::{at, narrow, put};
use crate::chip::{Chip, Wire};
use crate::places::Places;
use aq_base::Memory;
use std::alloc::Global;

const KEY: u64 = 4_294_967_296;

/// The wires of a channel: the slot where each stands, the one where it ends, and those that rows are asked for in the
/// order of these targets.
#[derive(Drop)]
struct Weave {
    slots: Vec<u32>,
    targets: Vec<u32>,
    order: Vec<u32>,
    keys: Vec<u64>,
}

/// The wire of a key, by the order of targets.
fn wire_of(order: &[u32], key: u64) -> u32 {
    at(order, (key % KEY) as u32)
}

/// The slots of a row in windows: how many there are in all and in each window, and how many the windows stand aside.
#[derive(Clone, Copy)]
struct Windows {
    width: u32,
    window: u32,
    aside: u32,
}

impl Windows {
    /// The window of a slot.
    fn of(self, slot: u32) -> u32 {
        let slot = slot.saturating_add(self.aside);
        slot.checked_div(self.window).unwrap_or(0)
    }

    /// The first slot of a window, and the one past its last.
    fn bounds(self, window: u32) -> (u32, u32) {
        let first = window.saturating_mul(self.window);
        let end = first.saturating_add(self.window);
        let end = end.saturating_sub(self.aside).min(self.width);
        (first.saturating_sub(self.aside), end)
    }
}

impl Weave {
    fn new(alloc: Global) -> Weave {
        Weave {
            slots: Vec::new(alloc),
            targets: Vec::new(alloc),
            order: Vec::new(alloc),
            keys: Vec::new(alloc),
        }
    }

    /// Adds a wire.
    fn add(&mut self, places: &Places, chip: &Chip, wire: &Wire) -> Result<(), Memory> {
        let number = narrow(self.slots.len());
        let from = at(&places.slots, wire.from);
        self.slots
            .push(from.saturating_add(u32::from(wire.output)))?;
        let to = at(&places.slots, wire.to);
        let to = to.saturating_add(u32::from(wire.pin));
        self.targets.push(to)?;
        if !places.plants || !chip.follows(wire.from) {
            let key = u64::from(to).wrapping_mul(KEY);
            self.keys.push(key.wrapping_add(u64::from(number)))?;
        }
        Ok(())
    }

    /// Begins with the wires that end in a row.
    fn begin(&mut self, places: &Places, chip: &Chip, row: u32) -> Result<(), Memory> {
        self.slots.clear();
        self.targets.clear();
        self.order.clear();
        self.keys.clear();
        for wire in chip.wires_into(row) {
            self.add(places, chip, wire)?;
        }
        self.keys.sort_unstable();
        for key in &self.keys {
            self.order.push((key % KEY) as u32)?;
        }
        Ok(())
    }

    /// How far the farthest wire is from its target.
    fn farthest(&self) -> u32 {
        let mut farthest: u32 = 0;
        for number in &self.order {
            let slot = at(&self.slots, *number);
            farthest = farthest.max(slot.abs_diff(at(&self.targets, *number)));
        }
        farthest
    }

    /// Sorts the wires by their windows, and those of a window by their targets.
    fn sort(&mut self, windows: Windows) -> Result<(), Memory> {
        self.keys.clear();
        let mut rank: u32 = 0;
        for number in &self.order {
            let window = windows.of(at(&self.slots, *number));
            let key = u64::from(window).wrapping_mul(KEY);
            self.keys.push(key.wrapping_add(u64::from(rank)))?;
            rank = rank.saturating_add(1);
        }
        self.keys.sort_unstable();
        Ok(())
    }

    /// Moves the wires of each window, from the left on, as near to their targets as those before allow.
    fn move_right(&mut self, windows: Windows) {
        let mut window = u64::MAX;
        let mut free: u32 = 0;
        for key in &self.keys {
            let (first, end) = windows.bounds((key / KEY) as u32);
            if key / KEY != window {
                window = key / KEY;
                free = first;
            }
            let number = wire_of(&self.order, *key);
            let near = at(&self.targets, number)
                .max(first)
                .min(end.saturating_sub(1));
            let slot = near.max(free);
            put(&mut self.slots, number, slot);
            free = slot.saturating_add(1);
        }
    }

    /// Moves the wires of each window, from the right on, as far back as the window needs.
    fn move_left(&mut self, windows: Windows) {
        let mut limit = u32::MAX;
        for key in self.keys.iter().rev() {
            let (_, end) = windows.bounds((key / KEY) as u32);
            let number = wire_of(&self.order, *key);
            limit = limit.min(end).saturating_sub(1);
            let slot = at(&self.slots, number).min(limit);
            put(&mut self.slots, number, slot);
            limit = slot;
        }
    }

    /// Moves the wires of each window as near to their targets as their order and the window allow.
    fn step(&mut self, windows: Windows) -> Result<(), Memory> {
        self.sort(windows)?;
        self.move_right(windows);
        self.move_left(windows);
        Ok(())
    }
}

impl Added {
    /// Adds the rows of a channel at whose end stands a row; whether they are at most so many cells.
    fn add_channel(
        &mut self,
        weave: &mut Weave,
        places: &Places,
        chip: &Chip,
        row: u32,
        most: u64,
    ) -> Result<bool, Memory> {
        weave.begin(places, chip, row)?;
        let window = (places.move_limit.saturating_add(1) / 2).saturating_mul(2);
        let windows = places.width.checked_div(window).unwrap_or(0);
        let mut rows: u32 = 1;
        for _ in 0..windows.saturating_mul(8).saturating_add(16) {
            if weave.farthest() <= places.move_limit {
                break;
            }
            if self.slots.len() as u64 > most {
                return Ok(false);
            }
            let aside = if rows % 2 == 0 { window / 2 } else { 0 };
            let width = places.width;
            weave.step(Windows {
                width,
                window,
                aside,
            })?;
            self.slots.extend_from_slice(&weave.slots)?;
            rows = rows.saturating_add(1);
        }
        self.slots.extend_from_slice(&weave.targets)?;
        put(&mut self.counts, row, rows);
        Ok(true)
    }
}

/// The rows by which no wire of a chip moves too far; nothing where they are more than so many cells.
pub(crate) fn woven_rows(
    alloc: Global,
    chip: &Chip,
    places: &Places,
    most: u64,
) -> Result<Option<Added>, Memory> {
    let mut added = Added {
        counts: vec![in alloc; 0; chip.rows() as usize]?,
        starts: Vec::new(alloc),
        slots: Vec::new(alloc),
    };
    let mut weave = Weave::new(alloc);
    for row in 0..chip.rows() {
        added.starts.push(narrow(added.slots.len()))?;
        let is_long = places.farthest(chip, row) > u64::from(places.move_limit);
        if row > 0 && is_long && !added.add_channel(&mut weave, places, chip, row, most)? {
            return Ok(None);
        }
    }
    Ok(Some(added))
}
