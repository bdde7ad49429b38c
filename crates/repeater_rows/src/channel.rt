// A channel while rows of buffers are added to it.
ghost use Rattle.std.specs.Prelude.{◌≡◌, ℕ, ◌<◌, ◌≤◌, ◌+◌, ◌/◌, Bool, true, length, cond, slice_get, IfOk, OnOk, map};
ghost use Rattle.std.specs.List.{All};
ghost use Rattle.circuit.specs.Gates.{valuation};
ghost use Rattle.rowed.specs.Limits.{slot_limit};
ghost use Rattle.rowed.specs.PlacedNets.{PlacedRow, IsPlaced};
ghost use Rattle.rowed.specs.PlacedNets.{row_of};
ghost use Rattle.repeater_rows.specs.Rounds.{is_far};
ghost use Rattle.repeater_rows.specs.Repeaters.{added, source_above, cells_from};
ghost use Rattle.repeater_rows.specs.Code.Reading.{source_in};
ghost use Rattle.repeater_rows.specs.Code.Opening.{AreNeighbours, AreDestinations, IsOpened, at_slot};
ghost use Rattle.repeater_rows.specs.Code.Works.{IsTurned};

use crate::cells::{buffers, cell_from, raise};
use crate::destinations::{any_far, carried, carriers, completed, copy_of, spare_slots};
use crate::pins::{read, span};
use crate::windows::put_in_order;
use aq_base::{List, Memory};
use rowed::{Placed, RowCell, Source};
use std::alloc::Global;

/// What is known of the wires of a channel in its present lower row. A wire is told by the slot where it ends.
#[derive(Drop)]
pub(crate) struct Channel {
    /// Whether a wire ends at a slot of the upper row.
    pub(crate) wired: Vec<bool>,
    /// The source of the wire that ends at a slot.
    pub(crate) sources: Vec<Source>,
    /// The destination of each slot.
    pub(crate) to: Vec<u32>,
    /// The slots where the destinations of wires stand, rising.
    pub(crate) carriers: Vec<u32>,
}

/// The channel between two neighbouring rows.
pub(crate) fn open(
    alloc: Global,
    lower: &[RowCell],
    lower_slots: &[u32],
    upper: &[RowCell],
    upper_slots: &[u32],
) -> Result<Channel, Memory>
    requires { AreNeighbours (record { cells = lower.now; slots = lower_slots.now })
        (record { cells = upper.now; slots = upper_slots.now }) }
    ensures { IfOk result
        (IsOpened (record { cells = lower.now; slots = lower_slots.now })
        (record { cells = upper.now; slots = upper_slots.now })) }
{
    let slots = span(lower, lower_slots).max(span(upper, upper_slots));
    let pins = read(alloc, lower_slots, upper, upper_slots, slots)?;
    let spare = spare_slots(alloc, &pins.wired)?;
    let to = completed(alloc, &pins.ends, &spare)?;
    let carriers = carriers(alloc, &pins.wired, &to)?;
    Ok(Channel {
        wired: pins.wired,
        sources: pins.sources,
        to,
        carriers,
    })
}

/// The cells of row `number` of a placed net.
pub(crate) fn cells_at(net: &Placed, number: usize) -> &[RowCell]
    requires { number < length net.now.net.rows }
    ensures { result.now ≡ (row_of net.now number).cells }
{
    net.net.rows.get(number).as_slice()
}

/// The slots of row `number` of a placed net.
pub(crate) fn slots_at(net: &Placed, number: usize) -> &[u32]
    requires known { IsPlaced net.now }
    requires number { number < length net.now.net.rows }
    ensures { result.now ≡ (row_of net.now number).slots }
{
    net.slots.get(number).as_slice()
}

/// The channel above row `number` of a placed net.
pub(crate) fn open_at(alloc: Global, net: &Placed, number: usize) -> Result<Channel, Memory>
    requires known { IsPlaced net.now }
    requires number { number + 1 < length net.now.net.rows }
    ensures { IfOk result (IsOpened (row_of net.now number) (row_of net.now (number + 1))) }
{
    open(
        alloc,
        cells_at(net, number),
        slots_at(net, number),
        cells_at(net, number + 1),
        slots_at(net, number + 1),
    )
}

/// The slot where the first window of a round begins.
fn first_window(size: usize, first: bool) -> usize
    ensures { result ≡ cond first 0 (size / 2) }
{
    if first { 0 } else { size / 2 }
}

/// The cell at a place of the upper row, with its wires from these sources.
fn fed_cell(sources: &[Source], slots: &[u32], place: usize, cell: &RowCell) -> RowCell
    requires { All (λ slot. slot < slot_limit) slots.now }
    ensures { result ≡ at_slot (source_in sources.now) (slice_get slots.now place) cell.now }
{
    match slots.get(place) {
        Some(slot) => cell_from(sources, *slot, cell),
        None => *cell,
    }
}

impl Channel {
    /// Whether some wire moves more than `reach - 1` slots.
    pub(crate) fn is_far(&self, reach: u64) -> bool
        requires { (slots : ℕ)
            × AreDestinations (valuation self.now.wired.items) slots self.now.to.items self.now.carriers.items }
        ensures { result ≡ is_far reach (valuation self.now.wired.items) 0 self.now.to.items }
    {
        any_far(&self.to, &self.carriers, reach)
    }

    /// Does a round; `first` says whether its windows begin at slot 0.
    pub(crate) fn round(&mut self, alloc: Global, reach: u64, first: bool) -> Result<(), Memory>
        requires reach { 2 ≤ reach }
        requires known { (slots : ℕ)
            × AreDestinations (valuation self.old.wired.items) slots self.old.to.items self.old.carriers.items }
        ensures { OnOk result (IsTurned reach first self.old self.new) }
    {
        let size = (reach - reach % 2) as usize;
        let carriers = put_in_order(
            alloc,
            &self.wired,
            &mut self.to,
            &self.carriers,
            size,
            first_window(size, first),
        )?;
        self.carriers = carriers;
        Ok(())
    }

    /// A row of buffers, one for each wire, which are its sources from then on: the cells and their slots.
    pub(crate) fn add_row(&mut self, alloc: Global) -> Result<(List<RowCell>, List<u32>), Memory>
        requires { (slots : ℕ)
            × AreDestinations (valuation self.old.wired.items) slots self.old.to.items self.old.carriers.items }
        ensures cells { IfOk result (λ row. row.0
            ≡ (added (valuation self.old.wired.items) (source_in self.old.sources.items) self.old.to.items).cells) }
        ensures slots { IfOk result (λ row. row.1
            ≡ (added (valuation self.old.wired.items) (source_in self.old.sources.items) self.old.to.items).slots) }
        ensures sources { OnOk result ((d : ℕ) → valuation self.old.wired.items d ≡ true
            → d < length self.old.sources.items
            → source_in self.new.sources.items d ≡ source_above (valuation self.old.wired.items) self.old.to.items d) }
        ensures long { length self.new.sources.items ≡ length self.old.sources.items }
        ensures same { self.new ≡ record self.old { sources = self.new.sources } }
    {
        let destinations = carried(alloc, &self.to, &self.carriers)?;
        let cells = buffers(alloc, &self.sources, &destinations)?;
        let slots = copy_of(alloc, &self.carriers)?;
        raise(&mut self.sources, &destinations);
        Ok((List::from_vec(cells), List::from_vec(slots)))
    }

    /// The upper row with its wires from the present sources.
    pub(crate) fn feed(
        &self,
        alloc: Global,
        cells: &[RowCell],
        slots: &[u32],
    ) -> Result<List<RowCell>, Memory>
        requires { All (λ slot. slot < slot_limit) slots.now }
        ensures { IfOk result (λ row. row ≡ cells_from (source_in self.now.sources.items) cells.now slots.now) }
    {
        let mut row = Vec::with_capacity(alloc, cells.len())?;
        for (place, cell) in cells.iter().enumerate() {
            row.push(fed_cell(&self.sources, slots, place, cell))?;
        }
        Ok(List::from_vec(row))
    }
}
