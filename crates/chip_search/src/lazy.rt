// Rows beside wires that move too far, settled once more; a cell stays where all its wires are short enough.
use crate::arrays::{between, put, wide_at};
use crate::chip::Chip;
use crate::effort::{Effort, Steps};
use crate::places::{Aim, Places};
use aq_base::Memory;
use std::alloc::Global;

/// What is known of the channels of a chip that is settled: how far each one's longest wire moves, and how many cells
/// are missing.
#[derive(Drop)]
struct Channels {
    farthest: Vec<i64>,
    missing: u64,
    before: Vec<u32>,
    matches: bool,
}

/// A distance as a number with a sign.
fn signed(distance: u64) -> i64 {
    i64::try_from(distance).unwrap_or(i64::MAX)
}

impl Channels {
    /// The farthest wire of a channel.
    fn farthest(&self, row: u32) -> u64 {
        u64::try_from(wide_at(&self.farthest, row)).unwrap_or(0)
    }

    /// Begins with the channels of all rows.
    fn begin(&mut self, places: &Places, chip: &Chip) -> Result<(), Memory> {
        self.farthest.push(0)?;
        for row in 1..chip.rows() {
            let farthest = places.farthest(chip, row);
            let missing = places.missing_in(chip, row, farthest);
            self.missing = self.missing.saturating_add(missing);
            self.farthest.push(signed(farthest))?;
        }
        Ok(())
    }

    /// Matches the wires that end in a row anew, and looks how far they go.
    fn look(&mut self, places: &mut Places, chip: &mut Chip, row: u32) -> Result<(), Memory> {
        if row == 0 || row >= chip.rows() {
            return Ok(());
        }
        if self.matches {
            places.match_row(chip, row)?;
        }
        let before = places.missing_in(chip, row, self.farthest(row));
        let farthest = places.farthest(chip, row);
        let after = places.missing_in(chip, row, farthest);
        self.missing = self.missing.saturating_sub(before).saturating_add(after);
        put(&mut self.farthest, row, signed(farthest));
        Ok(())
    }

    /// Settles a row by the wires on both sides, each of which should move at most so many slots.
    fn settle(
        &mut self,
        places: &mut Places,
        chip: &mut Chip,
        row: u32,
        reach: u32,
    ) -> Result<(), Memory> {
        let (first, end) = chip.bounds(row);
        self.before.clear();
        self.before
            .extend_from_slice(between(&places.slots, first, end))?;
        places.settle_between(chip, row, Aim::Near(reach))?;
        if self.before.as_slice() != between(&places.slots, first, end) {
            self.look(places, chip, row)?;
            self.look(places, chip, row.saturating_add(1))?;
        }
        Ok(())
    }

    /// Settles each row once that is beside a wire of more slots; whether there was one and steps were left for all.
    fn settle_all(
        &mut self,
        places: &mut Places,
        chip: &mut Chip,
        steps: &mut Steps,
        up: bool,
        reach: u32,
    ) -> Result<bool, Memory> {
        let mut any = false;
        for turn in 0..chip.rows() {
            let last = chip.rows().saturating_sub(1);
            let row = if up { turn } else { last.saturating_sub(turn) };
            let above = self.farthest(row.saturating_add(1));
            if self.farthest(row).max(above) > u64::from(reach) {
                let (first, end) = chip.bounds(row);
                if steps.take(end.saturating_sub(first), 1) == 0 {
                    return Ok(false);
                }
                any = true;
                self.settle(places, chip, row, reach)?;
            }
        }
        Ok(any)
    }
}

/// Settles the rows beside wires that move too far, first so that they come to be a slot shorter than they need be, as
/// often as the effort says and while steps are left. The best places are kept; how many cells are missing there.
pub(crate) fn settle_lazily(
    alloc: Global,
    places: &mut Places,
    chip: &mut Chip,
    steps: &mut Steps,
    missing: u64,
    effort: Effort,
) -> Result<u64, Memory> {
    let mut channels = Channels {
        farthest: Vec::new(alloc),
        missing: 0,
        before: Vec::new(alloc),
        matches: effort.matches,
    };
    channels.begin(places, chip)?;
    let mut least = missing;
    places.keep()?;
    for shy in [1, 0] {
        let reach = places.move_limit.saturating_sub(shy);
        for round in 0..effort.lazy_rounds {
            let goes_on = channels.settle_all(places, chip, steps, round % 2 == 1, reach)?;
            if channels.missing < least {
                least = channels.missing;
                places.keep()?;
            }
            if least == 0 || !goes_on {
                break;
            }
        }
    }
    places.go_back(chip, effort.matches)?;
    Ok(least)
}
