// How far the excitation has run along its line where it comes to each part of it.
ghost use Rattle.std.specs.Prelude.{◌≡◌, ℕ, ◌+◌, ◌^◌, ◌<◌, IfOk, length, slice_index};
ghost use Rattle.layout_rules.specs.ExcitationRule.{AreLaidOut, IsCutOff};
ghost use Rattle.layout_rules.specs.LinePlaces.{way_through};
ghost use Rattle.layout_rules.specs.Reports.{Alone, ReportsNone};
ghost use Rattle.shape_extract.specs.Code.Lines.{AreWalked};
ghost use Rattle.shape_extract.specs.Code.LineWalk.{IsLineWalk};
ghost use Rattle.shape_extract.specs.Code.Ways.{IsWayTo, AreWays};

use crate::lengths::longer_side;
use crate::lines::contacts::is_part;
use aq_base::Memory;
use geom::{Shape, width};
use layout_rules::laws::ways_add_up;
use layout_rules::layers::{BAR, LINK, START};
use std::alloc::Global;

/// How far the excitation runs through the part, in nanometres.
fn way_through(part: &Shape) -> u64
    ensures { result ≡ way_through part.now }
{
    if part.datatype == BAR {
        return width(&part.rect);
    }
    if part.datatype == LINK {
        return longer_side(&part.rect);
    }
    0
}

/// How far it has run where it comes to the part of this number, by how far it has where it comes to the one before.
fn way_to(shapes: &[Shape], before: &[u32], ways: &[u128], n: u32) -> u128
    requires within { n < length shapes.now }
    requires before { length before.now ≡ length shapes.now }
    requires ways { length ways.now ≡ length shapes.now }
    requires reached { slice_index before.now n < length shapes.now }
    requires small { slice_index ways.now (slice_index before.now n) < 2 ^ 127 }
    ensures is { IsWayTo shapes.now before.now ways.now n result }
    ensures small { result < slice_index ways.now (slice_index before.now n) + 2 ^ 64 }
{
    if is_part(shapes, START, n) {
        return 0;
    }
    let from = before[n as usize] as usize;
    ways[from] + u128::from(way_through(&shapes[from]))
}

/// Writes the ways in the order in which the walk reached the parts.
fn write_ways(shapes: &[Shape], before: &[u32], order: &[u32], ways: &mut [u128])
    requires few { length shapes.now < 2 ^ 32 }
    requires lines { AreLaidOut shapes.now }
    requires cut_off { ReportsNone (Alone (IsCutOff shapes.now)) }
    requires walk { IsLineWalk shapes.now before.now order.now }
    requires walked { AreWalked shapes.now before.now }
    requires long { length ways.old ≡ length shapes.now }
    requires none { (n : ℕ) → slice_index ways.old n ≡ 0 }
    ensures { AreWays shapes.now before.now ways.new }
{
    ways_add_up();
    for number in order {
        let way = way_to(shapes, before, ways, *number);
        ways[*number as usize] = way;
    }
}

/// For each part that the walk reached how far the excitation has run where it comes to the part, in nanometres.
pub fn ways_of(
    alloc: Global,
    shapes: &[Shape],
    before: &[u32],
    order: &[u32],
) -> Result<Vec<u128>, Memory>
    requires few { length shapes.now < 2 ^ 32 }
    requires lines { AreLaidOut shapes.now }
    requires cut_off { ReportsNone (Alone (IsCutOff shapes.now)) }
    requires walk { IsLineWalk shapes.now before.now order.now }
    requires walked { AreWalked shapes.now before.now }
    ensures { IfOk result (λ ways. AreWays shapes.now before.now ways.items) }
{
    let mut ways = vec![in alloc; 0; shapes.len()]?;
    write_ways(shapes, before, order, &mut ways);
    Ok(ways)
}
