// The slots that fit the order in which the cells of a chip are given.
use crate::chip::Chip;
use crate::exact::{Exact, Side};
use crate::places::Places;
use crate::sparing::{ALL_STEPS, narrowed, steps_for};
use aq_base::Memory;
use std::alloc::Global;

/// So many slots a row may have more than twice the widest one.
const MORE_SLOTS: u32 = 64;

/// The least slots of the cells in the order of their numbers in each row at which no wire moves too far, if there are
/// some in rows of twice the widest one. They are those of the cells packed where that keeps all wires within reach.
pub(crate) fn slots_in_order(
    alloc: Global,
    chip: &Chip,
    move_limit: u32,
) -> Result<Option<Vec<u32>>, Memory> {
    let slots = vec![in alloc; 0; chip.count() as usize]?;
    let width = chip.widest().saturating_mul(2).saturating_add(MORE_SLOTS);
    let mut packed = Places::new(alloc, slots, width, move_limit);
    packed.start_packed(chip);
    let mut exact = Exact::new(alloc, chip, &packed, Side::Least, true)?;
    if exact.solve(chip, steps_for(chip, ALL_STEPS)) {
        Ok(Some(narrowed(alloc, &exact.slots)?))
    } else {
        Ok(None)
    }
}
