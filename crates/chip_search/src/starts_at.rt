// Where the cells of a chip stand at first, if it is known where they want to stand.
use crate::arrays::between;
use crate::chip::Chip;
use crate::places::Places;
use aq_base::Memory;

impl Places {
    /// Puts the cells of each row as near as they can to the slots that they want, of which twice is given for each.
    pub fn start_at(&mut self, chip: &Chip, wants: &[i64]) -> Result<(), Memory> {
        for row in 0..chip.rows() {
            let (first, end) = chip.bounds(row);
            self.wants.clear();
            for want in between(wants, first, end) {
                self.wants.push(*want)?;
            }
            self.settle(chip, first)?;
        }
        Ok(())
    }
}
