// The walk along the excitation lines from their starts.
ghost use Rattle.std.specs.Prelude.{◌≡◌, ◌^◌, ◌<◌, ℕ, IfOk, length, slice_index};
ghost use Rattle.layout_rules.specs.ExcitationLines.{Contact};
ghost use Rattle.shape_extract.specs.Searches.{AreThose};
ghost use Rattle.shape_extract.specs.Code.Lines.{AreWalked};
ghost use Rattle.shape_extract.specs.Code.LineWalk.{IsLineWalk, IsSpreadAlong, IsBegun};
ghost use Rattle.shape_extract.specs.Planes.{IsPlane};
ghost use Rattle.shape_extract.specs.declared.planes.Plane.TheVariants.{Lines};

use crate::lines::contacts::{is_part, list_contacts};
use crate::planes::FiledPlane;
use aq_base::Memory;
use geom::Shape;
use layout_rules::layers::START;
use std::alloc::Global;

/// Begins at each start.
fn begin(shapes: &[Shape], before: &mut [u32], order: &mut Vec<u32>) -> Result<(), Memory>
    requires few { length shapes.now < 2 ^ 32 }
    requires long { length before.old ≡ length shapes.now }
    requires none { (k : ℕ) → k < length shapes.now → slice_index before.old k ≡ length shapes.now }
    requires fresh { length order.old.items ≡ 0 }
    ensures { IfOk result (λ _. IsBegun shapes.now before.new order.new.items) }
{
    for n in 0..shapes.len() {
        let start = n as u32;
        if is_part(shapes, START, start) {
            before[n] = start;
            order.push(start)?;
        }
    }
    Ok(())
}

/// Reaches from this shape those of its contacts that are not reached yet.
fn spread(
    shapes: &[Shape],
    contacts: &[u32],
    before: &mut [u32],
    order: &mut Vec<u32>,
    from: u32,
) -> Result<(), Memory>
    requires walk { IsLineWalk shapes.now before.old order.old.items }
    requires contacts { AreThose (Contact shapes.now from) contacts.now }
    requires within { from < length shapes.now }
    requires reached { slice_index before.old from < length shapes.now }
    ensures { IfOk result (λ _. IsSpreadAlong (length contacts.now) shapes.now contacts.now before.old order.old.items
        before.new order.new.items) }
{
    for number in contacts {
        if before[*number as usize] as usize >= shapes.len() {
            before[*number as usize] = from;
            order.push(*number)?;
        }
    }
    Ok(())
}

/// Goes on from each shape of the order, until all their contacts are reached.
fn follow(
    alloc: Global,
    shapes: &[Shape],
    lines: &FiledPlane,
    before: &mut [u32],
    order: &mut Vec<u32>,
) -> Result<(), Memory>
    requires filed { IsPlane Lines shapes.now lines.now }
    requires few { length shapes.now < 2 ^ 32 }
    requires begun { IsBegun shapes.now before.old order.old.items }
    ensures walk { IfOk result (λ _. IsLineWalk shapes.now before.new order.new.items) }
    ensures walked { IfOk result (λ _. AreWalked shapes.now before.new) }
{
    let mut found = Vec::new(alloc);
    let mut done = 0;
    while done < order.len() {
        let from = order[done];
        list_contacts(shapes, lines, from, &mut found)?;
        spread(shapes, found.as_slice(), before, order, from)?;
        done += 1;
    }
    Ok(())
}

/// Walks along the lines: for each shape that is reached from a start the one before it, a start being its own, and
/// the number of shapes for each other one. The order, which is empty before, gets the shapes as they are reached.
pub fn walk_in_order(
    alloc: Global,
    shapes: &[Shape],
    lines: &FiledPlane,
    order: &mut Vec<u32>,
) -> Result<Vec<u32>, Memory>
    requires few { length shapes.now < 2 ^ 32 }
    requires filed { IsPlane Lines shapes.now lines.now }
    requires fresh { length order.old.items ≡ 0 }
    ensures walk { IfOk result (λ before. IsLineWalk shapes.now before.items order.new.items) }
    ensures walked { IfOk result (λ before. AreWalked shapes.now before.items) }
{
    let none = shapes.len() as u32;
    let mut before = vec![in alloc; none; shapes.len()]?;
    begin(shapes, &mut before, order)?;
    follow(alloc, shapes, lines, &mut before, order)?;
    Ok(before)
}

/// The same without the order.
pub fn walk_lines(alloc: Global, shapes: &[Shape], lines: &FiledPlane) -> Result<Vec<u32>, Memory>
    requires few { length shapes.now < 2 ^ 32 }
    requires filed { IsPlane Lines shapes.now lines.now }
    ensures { IfOk result (λ before. AreWalked shapes.now before.items) }
{
    let mut order = Vec::new(alloc);
    walk_in_order(alloc, shapes, lines, &mut order)
}
