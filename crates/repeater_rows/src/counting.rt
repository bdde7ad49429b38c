// The cells of the plan, counted before its rows are made.
ghost use Rattle.std.specs.Prelude.{◌≡◌, ◌+◌, ◌<◌, ◌≤◌, ◌^◌, [], None, length, IfOk, IfErr};
ghost use Rattle.circuit.specs.Gates.{valuation};
ghost use Rattle.rowed.specs.PlacedNets.{IsPlaced, placed_rows, row_of};
ghost use Rattle.rowed.specs.Limits.{cell_limit};
ghost use Rattle.repeater_rows.specs.Repeaters.{channel_rounds, channel_rows, repeated_rows};
ghost use Rattle.repeater_rows.specs.Passes.{cells_past};
ghost use Rattle.repeater_rows.specs.Code.Opening.{AreDestinations};
ghost use Rattle.repeater_rows.specs.Code.Counts.{AreCounted, ArePast, IsPastLimit};
ghost use Rattle.repeater_rows.specs.Code.Works.{rows_of};
ghost use Rattle.repeater_rows.specs.declared.pass.RepeatRefusal.TheVariants.{TooManyCells};

use crate::channel::{Channel, cells_at, open_at};
use crate::pass::RepeatRefusal;
use rowed::Placed;
use rowed::limits::CELL_LIMIT;
use std::alloc::Global;

/// How many cells there are with one more row of so many.
fn count_row(before: usize, row: usize) -> Result<usize, RepeatRefusal>
    requires few { before ≤ cell_limit }
    requires row { row < 2 ^ 63 }
    ensures ok { IfOk result (λ cells. (cells ≡ before + row) × (cells ≤ cell_limit)) }
    ensures err { IfErr result (λ refusal. (refusal ≡ TooManyCells (before + row)) × (cell_limit < before + row)) }
{
    let cells = before + row;
    if cells as u64 > CELL_LIMIT {
        return Err(RepeatRefusal::TooManyCells {
            cells: cells as u64,
        });
    }
    Ok(cells)
}

/// Counts the rows of a channel's rounds, where so many cells stand before them. None is kept.
fn count_rounds(
    alloc: Global,
    channel: &mut Channel,
    reach: u64,
    before: usize,
) -> Result<usize, RepeatRefusal>
    requires reach { 2 ≤ reach }
    requires known { AreDestinations (valuation channel.old.wired.items) (length channel.old.sources.items)
        channel.old.to.items channel.old.carriers.items }
    requires few { before ≤ cell_limit }
    ensures ok { IfOk result (AreCounted before (rows_of (record { reach = reach; channel = channel.old }))) }
    ensures err { IfErr result (ArePast before (rows_of (record { reach = reach; channel = channel.old }))) }
{
    let count = channel.to.len() as u64;
    let mut cells = before;
    let mut first = true;
    for _ in 0..count * count {
        if !channel.is_far(reach) {
            return Ok(cells);
        }
        channel.round(alloc, reach, first)?;
        cells = count_row(cells, channel.carriers.len())?;
        first = !first;
    }
    Ok(cells)
}

/// Counts the rows above row `number` of a placed net, up to its next row, that one included.
fn count_channel(
    alloc: Global,
    net: &Placed,
    reach: u64,
    number: usize,
    before: usize,
) -> Result<usize, RepeatRefusal>
    requires reach { 2 ≤ reach }
    requires known { IsPlaced net.now }
    requires number { number + 1 < length net.now.net.rows }
    requires few { before ≤ cell_limit }
    ensures ok { IfOk result (AreCounted before (channel_rows (row_of net.now number) (row_of net.now (number + 1))
        (channel_rounds reach (row_of net.now number) (row_of net.now (number + 1))) [])) }
    ensures err { IfErr result (ArePast before (channel_rows (row_of net.now number) (row_of net.now (number + 1))
        (channel_rounds reach (row_of net.now number) (row_of net.now (number + 1))) [])) }
{
    let mut channel = open_at(alloc, net, number)?;
    let below = count_rounds(alloc, &mut channel, reach, before)?;
    count_row(below, cells_at(net, number + 1).len())
}

/// Refuses a placed net whose rows with their repeaters have more than 2,000,000 cells. One channel at a time is kept.
pub(crate) fn check_cells(alloc: Global, net: &Placed, reach: u64) -> Result<(), RepeatRefusal>
    requires reach { 2 ≤ reach }
    requires known { IsPlaced net.now }
    ensures few { IfOk result (λ _. cells_past 0 (repeated_rows reach (placed_rows net.now)) ≡ None) }
    ensures err { IfErr result (λ refusal. IsPastLimit reach (placed_rows net.now) refusal) }
{
    let mut cells = count_row(0, cells_at(net, 0).len())?;
    for number in 1..net.net.rows.len() {
        cells = count_channel(alloc, net, reach, number - 1, cells)?;
    }
    Ok(())
}
