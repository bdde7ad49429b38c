// The search for a wider net in rows: constants below their users, and rows of buffers where wires move too far.
use crate::candidate::{Candidate, Work};
use crate::drafts::make_draft;
use crate::effort::{Effort, Steps};
use crate::growing::{finish, trim};
use crate::ordered_slots::slots_in_order;
use crate::row_chips::RowChip;
use crate::row_slots::{is_too_large, place_rows};
use crate::widened::widened;
use aq_base::Memory;
use circuit::CellKind;
use placement_check::WideDraft;
use rowed::RowNet;
use std::alloc::Global;

/// Lets the buffers of a net pose as inverters, which no row is left out for: so only added buffers are left out again.
fn guard(kinds: &mut [CellKind]) {
    for kind in kinds {
        if matches!(*kind, CellKind::Buffer) {
            *kind = CellKind::Inverter;
        }
    }
}

/// The chip with its cells placed, and with rows added where wires move too far.
fn place_or_grow(work: &mut Work, made: &RowChip, effort: Effort) -> Result<Candidate, Memory> {
    let placed = place_rows(work, made, effort)?;
    if placed.missing == 0 {
        return Ok(placed);
    }
    work.steps = Steps::new(&effort, placed.chip.count());
    let grown = finish(work, placed, effort)?;
    trim(work, grown, effort)
}

/// Searches a draft of a net that is wider than this one: its cells as they stand, constants directly below their
/// users, and rows of buffers, added one after the other where wires move more than `reach - 1` slots and placed anew
/// each time. Nothing is found where the cells have slots in their order without added rows, or where the net has too
/// many cells and wires to be drawn. Nothing is promised of what is found: a check takes it or not. The search fails for
/// want of memory alone.
pub fn find_wider(
    alloc: Global,
    net: &RowNet,
    reach: u32,
    effort: &Effort,
) -> Result<Option<WideDraft>, Memory> {
    let mut effort = *effort;
    effort.matches = false;
    effort.pulls = 0;
    let mut made = RowChip::new(alloc, net)?;
    if is_too_large(&made.chip) {
        return Ok(None);
    }
    let mut work = Work {
        alloc,
        move_limit: reach.saturating_sub(1).max(1),
        steps: Steps::new(&effort, made.chip.count()),
    };
    if slots_in_order(alloc, &made.chip, work.move_limit)?.is_some() {
        return Ok(None);
    }
    guard(&mut made.chip.kinds);
    let grown = place_or_grow(&mut work, &made, effort)?;
    let draft = make_draft(alloc, &grown.chip, &grown.places.slots)?;
    Ok(Some(widened(alloc, net, draft)?))
}
