// The rows of the plan.
ghost use Rattle.std.specs.Prelude.{◌≡◌, ℕ, ◌+◌, ◌<◌, ◌≤◌, ◌++◌, [], ◌∷◌, true, length, map, IfOk, OnOk};
ghost use Rattle.circuit.specs.Gates.{valuation};
ghost use Rattle.rowed.specs.PlacedNets.{PlacedRow, IsPlaced, placed_rows, row_of};
ghost use Rattle.repeater_rows.specs.Repeaters.{channel_rounds, channel_rows, repeated_rows};
ghost use Rattle.repeater_rows.specs.Code.Opening.{AreDestinations};
ghost use Rattle.repeater_rows.specs.Code.Works.{AllMade, listed, fed_by};

use crate::channel::{Channel, cells_at, open_at, slots_at};
use aq_base::{List, Memory};
use rowed::{Placed, RowCell};
use std::alloc::Global;

/// Rows of cells, and the slots of each.
#[derive(Drop)]
pub(crate) struct Rows {
    pub(crate) cells: Vec<List<RowCell>>,
    pub(crate) slots: Vec<List<u32>>,
}

impl Rows {
    /// Adds a row.
    fn add(&mut self, row: List<RowCell>, row_slots: List<u32>) -> Result<(), Memory>
        ensures cells { OnOk result (self.new.cells.items ≡ self.old.cells.items ++ (row ∷ [])) }
        ensures slots { OnOk result (self.new.slots.items ≡ self.old.slots.items ++ (row_slots ∷ [])) }
    {
        self.cells.push(row)?;
        self.slots.push(row_slots)?;
        Ok(())
    }
}

/// Adds the rows of a channel's rounds.
fn add_rounds(
    alloc: Global,
    channel: &mut Channel,
    reach: u64,
    made: &mut Rows,
) -> Result<(), Memory>
    requires reach { 2 ≤ reach }
    requires known { AreDestinations (valuation channel.old.wired.items) (length channel.old.sources.items)
        channel.old.to.items channel.old.carriers.items }
    ensures { OnOk result (AllMade (record { reach = reach; channel = channel.old }) (listed made.old)
        (fed_by channel.new) (listed made.new)) }
{
    let count = channel.to.len() as u64;
    let mut first = true;
    for _ in 0..count * count {
        if !channel.is_far(reach) {
            return Ok(());
        }
        channel.round(alloc, reach, first)?;
        let (row, row_slots) = channel.add_row(alloc)?;
        made.add(row, row_slots)?;
        first = !first;
    }
    Ok(())
}

/// Adds the rows above row `number` of a placed net, up to its next row, that one included.
fn add_channel(
    alloc: Global,
    net: &Placed,
    reach: u64,
    number: usize,
    made: &mut Rows,
) -> Result<(), Memory>
    requires reach { 2 ≤ reach }
    requires known { IsPlaced net.now }
    requires number { number + 1 < length net.now.net.rows }
    ensures rows { OnOk result (made.new.cells.items ≡ made.old.cells.items ++ map (λ (row : PlacedRow). row.cells)
        (channel_rows (row_of net.now number) (row_of net.now (number + 1))
        (channel_rounds reach (row_of net.now number) (row_of net.now (number + 1))) [])) }
    ensures slots { OnOk result (made.new.slots.items ≡ made.old.slots.items ++ map (λ (row : PlacedRow). row.slots)
        (channel_rows (row_of net.now number) (row_of net.now (number + 1))
        (channel_rounds reach (row_of net.now number) (row_of net.now (number + 1))) [])) }
{
    let mut channel = open_at(alloc, net, number)?;
    add_rounds(alloc, &mut channel, reach, made)?;
    let upper_slots = slots_at(net, number + 1);
    let row = channel.feed(alloc, cells_at(net, number + 1), upper_slots)?;
    made.add(row, copied(alloc, upper_slots)?)?;
    Ok(())
}

/// The same items once more.
fn copied<T: Copy>(alloc: Global, items: &[T]) -> Result<List<T>, Memory>
    ensures { IfOk result (λ copy. copy ≡ items.now) }
{
    let mut copy = Vec::with_capacity(alloc, items.len())?;
    copy.extend_from_slice(items)?;
    Ok(List::from_vec(copy))
}

/// The rows of a placed net with its repeaters, however many cells they have.
pub(crate) fn repeat_rows(alloc: Global, net: &Placed, reach: u64) -> Result<Rows, Memory>
    requires reach { 2 ≤ reach }
    requires known { IsPlaced net.now }
    ensures cells { IfOk result (λ rows. rows.cells.items
        ≡ map (λ (row : PlacedRow). row.cells) (repeated_rows reach (placed_rows net.now))) }
    ensures slots { IfOk result (λ rows. rows.slots.items
        ≡ map (λ (row : PlacedRow). row.slots) (repeated_rows reach (placed_rows net.now))) }
    ensures many { IfOk result (λ rows. length rows.cells.items ≡ length (repeated_rows reach (placed_rows net.now))) }
{
    let mut made = Rows {
        cells: Vec::new(alloc),
        slots: Vec::new(alloc),
    };
    made.add(
        copied(alloc, cells_at(net, 0))?,
        copied(alloc, slots_at(net, 0))?,
    )?;
    for number in 1..net.net.rows.len() {
        add_channel(alloc, net, reach, number - 1, &mut made)?;
    }
    Ok(made)
}
