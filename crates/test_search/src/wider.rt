// Wide drafts of a wire: one that is taken, and some that are broken in one place.

use crate::graphs::made;
use aq_base::{List, Memory};
use circuit::CellKind;
use mig::GraphRefusal;
use placement_check::{Draft, Mark, Place, WideDraft, check, check_wider};
use rowed::{Placed, RowCell, RowNet, Source};
use std::alloc::Global;
use std::test::Fail;

/// The first output of the first cell of a row.
const FIRST: Source = Source { cell: 0, output: 0 };

/// The mark of the cell of a row of the wire, or of a buffer that carries one of its outputs.
fn mark_of(row: u32, carried: Option<u32>) -> Mark {
    Mark {
        row,
        cell: 0,
        carried,
    }
}

/// Rows of one item each.
fn rows_of<T: Copy + Drop>(alloc: Global, items: &[T]) -> Result<List<List<T>>, Memory> {
    let mut rows = List::new(alloc);
    for item in items {
        let mut row = List::new(alloc);
        row.push(*item)?;
        rows.push(row)?;
    }
    Ok(rows)
}

/// A wire from an input to an output: a buffer in each of two rows.
fn wire(alloc: Global) -> Result<Option<Placed>, GraphRefusal> {
    let graph = made(alloc, 1, &[], &[2])?;
    let cells = [RowCell::input(0), RowCell::output(FIRST, 0)];
    let draft = Draft {
        rows: rows_of(alloc, &cells)?,
        labels: rows_of(alloc, &[2, 2])?,
        slots: rows_of(alloc, &[0, 0])?,
    };
    Ok(check(alloc, &graph, draft)?)
}

/// Whether the wire is taken with a cell between its buffers, which has this mark; its upper buffer is said to stand in
/// this place.
fn is_taken(
    alloc: Global,
    wire: &RowNet,
    between: RowCell,
    mark: Mark,
    upper: Place,
) -> Result<bool, Memory> {
    let lower = Place { row: 0, cell: 0 };
    let cells = [RowCell::input(0), between, RowCell::output(FIRST, 0)];
    let draft = WideDraft {
        rows: rows_of(alloc, &cells)?,
        slots: rows_of(alloc, &[0, 0, 0])?,
        became: List::from_vec(Vec::from_array(alloc, [0, upper.row])?),
        places: rows_of(alloc, &[lower, upper])?,
        marks: rows_of(alloc, &[mark_of(0, None), mark, mark_of(1, None)])?,
    };
    Ok(check_wider(alloc, wire, draft)?.is_some())
}

// A buffer may be added to a wire, but no inverter; it carries what the wire carries; and the wire's upper buffer
// stands above it.
#[test]
fn one_more_buffer(rt: HostRuntime) -> Result<(), Fail> {
    let alloc = rt.alloc();
    let Some(wire) = wire(alloc)? else {
        return Err("no wire".into());
    };
    let net = &wire.net;
    let buffer = RowCell::buffer(FIRST);
    let inverter = RowCell::fed(CellKind::Inverter, FIRST);
    let plain = mark_of(0, Some(0));
    let other = mark_of(0, Some(1));
    let top = Place { row: 2, cell: 0 };
    let middle = Place { row: 1, cell: 0 };
    assert!(rt; is_taken(alloc, net, buffer, plain, top)?);
    assert!(rt; !is_taken(alloc, net, inverter, plain, top)?);
    assert!(rt; !is_taken(alloc, net, buffer, other, top)?);
    assert!(rt; !is_taken(alloc, net, buffer, plain, middle)?);
    Ok(())
}
