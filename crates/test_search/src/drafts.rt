// Drafts that are taken, and drafts that are broken in one place.

use crate::graphs::made;
use aq_base::{List, Memory};
use circuit::CellKind;
use mig::GraphRefusal;
use placement_check::{Draft, check};
use rowed::{RowCell, Source};
use std::alloc::Global;
use std::test::Fail;

/// What is changed of a draft. Rows and places count from 0.
#[derive(Clone, Copy)]
enum Change {
    Nothing,
    /// The cell at a place of a row is another one.
    Cell(usize, usize, RowCell),
    /// A row has a cell more at its end, with a label and a slot.
    Extra(usize, RowCell, u32, u32),
    /// The cell at a place of a row has another label.
    Label(usize, usize, u32),
    /// The cell at a place of a row has another slot.
    Slot(usize, usize, u32),
    /// A row has a cell fewer at its end, with its label and slot.
    Fewer(usize),
    /// A row has a label fewer.
    FewLabels(usize),
    /// There is no such row.
    NoRow(usize),
}

fn from(cell: u32, output: u32) -> Source {
    Source { cell, output }
}

/// A buffer with the first output of a cell as its source.
fn buffer(cell: u32) -> RowCell {
    RowCell::buffer(from(cell, 0))
}

fn replace<T: Copy>(items: &mut Vec<T>, place: usize, item: T) {
    if place < items.len() {
        items[place] = item;
    }
}

/// The labels and slots of a row, and what is changed of them.
fn changed_numbers(
    alloc: Global,
    row: usize,
    labels: &[u32],
    slots: &[u32],
    change: Change,
) -> Result<(Vec<u32>, Vec<u32>), Memory> {
    let mut labels = Vec::from_slice(alloc, labels)?;
    let mut slots = Vec::from_slice(alloc, slots)?;
    match change {
        Change::Label(at, place, label) if at == row => replace(&mut labels, place, label),
        Change::Slot(at, place, slot) if at == row => replace(&mut slots, place, slot),
        Change::Extra(at, _, label, slot) if at == row => {
            labels.push(label)?;
            slots.push(slot)?;
        }
        Change::FewLabels(at) if at == row => {
            let _label = labels.pop();
        }
        Change::Fewer(at) if at == row => {
            let _label = labels.pop();
            let _slot = slots.pop();
        }
        _ => {}
    }
    Ok((labels, slots))
}

/// Adds a row to a draft, with what is changed of it.
fn add(
    alloc: Global,
    draft: &mut Draft,
    row: usize,
    cells: &[RowCell],
    numbers: (&[u32], &[u32]),
    change: Change,
) -> Result<(), Memory> {
    let mut cells = Vec::from_slice(alloc, cells)?;
    match change {
        Change::NoRow(at) if at == row => return Ok(()),
        Change::Cell(at, place, cell) if at == row => replace(&mut cells, place, cell),
        Change::Extra(at, cell, _, _) if at == row => cells.push(cell)?,
        Change::Fewer(at) if at == row => {
            let _cell = cells.pop();
        }
        _ => {}
    }
    let (labels, slots) = changed_numbers(alloc, row, numbers.0, numbers.1, change)?;
    draft.rows.push(List::from_vec(cells))?;
    draft.labels.push(List::from_vec(labels))?;
    draft.slots.push(List::from_vec(slots))?;
    Ok(())
}

/// The lower rows of the draft of an exclusive or: the inputs, what splits them, and their `and` and `or`.
fn add_lower(alloc: Global, draft: &mut Draft, change: Change) -> Result<(), Memory> {
    let cells = [RowCell::input(0), RowCell::input(1), RowCell::input(2)];
    add(alloc, draft, 0, &cells, (&[2, 4, 6], &[0, 1, 4]), change)?;
    let cells = [
        RowCell::gate(CellKind::Split2, &[from(0, 0)]),
        RowCell::gate(CellKind::Split2, &[from(1, 0)]),
        RowCell::bare(CellKind::Zero),
        RowCell::bare(CellKind::One),
    ];
    add(
        alloc,
        draft,
        1,
        &cells,
        (&[2, 4, 0, 1], &[0, 2, 4, 5]),
        change,
    )?;
    let cells = [
        RowCell::gate(CellKind::Majority, &[from(2, 0), from(0, 0), from(1, 0)]),
        RowCell::gate(CellKind::Majority, &[from(3, 0), from(0, 1), from(1, 1)]),
    ];
    add(alloc, draft, 2, &cells, (&[8, 10], &[0, 3]), change)
}

/// The upper rows: the complement of the `and`, the `and` of it and the `or`, and the output.
fn add_upper(alloc: Global, draft: &mut Draft, change: Change) -> Result<(), Memory> {
    let cells = [
        RowCell::gate(CellKind::Inverter, &[from(0, 0)]),
        RowCell::gate(CellKind::Buffer, &[from(1, 0)]),
        RowCell::bare(CellKind::Zero),
    ];
    add(alloc, draft, 3, &cells, (&[9, 10, 0], &[0, 3, 4]), change)?;
    let cells = [RowCell::gate(CellKind::Majority, &[from(0, 0), from(1, 0), from(2, 0)])];
    add(alloc, draft, 4, &cells, (&[12], &[2_147_483_644]), change)?;
    let cells = [RowCell::output(from(0, 0), 0)];
    add(alloc, draft, 5, &cells, (&[12], &[9]), change)
}

/// Whether the draft of the exclusive or of the first two of three inputs is taken with a change, for the graph whose
/// output shows a literal.
fn is_taken(alloc: Global, change: Change, output: u32) -> Result<bool, GraphRefusal> {
    let nodes = [[0, 2, 4], [1, 2, 4], [0, 9, 10]];
    let graph = made(alloc, 3, &nodes, &[output])?;
    let mut draft = Draft {
        rows: List::new(alloc),
        labels: List::new(alloc),
        slots: List::new(alloc),
    };
    add_lower(alloc, &mut draft, change)?;
    add_upper(alloc, &mut draft, change)?;
    Ok(check(alloc, &graph, draft)?.is_some())
}

// A draft is taken that is a placed net which answers as its graph.
#[test]
fn sound(rt: HostRuntime) -> Result<(), Fail> {
    let alloc = rt.alloc();
    assert!(rt; is_taken(alloc, Change::Nothing, 12)?);
    assert!(rt; !is_taken(alloc, Change::Nothing, 13)?);
    assert!(rt; !is_taken(alloc, Change::Nothing, 10)?);
    Ok(())
}

// Each of these is broken in one place.
#[test]
fn broken(rt: HostRuntime) -> Result<(), Fail> {
    let alloc = rt.alloc();
    let shared = [from(3, 0), from(0, 0), from(1, 1)];
    let shared = RowCell::gate(CellKind::Majority, &shared);
    let unfed = [from(3, 0), from(0, 1)];
    let unfed = RowCell::gate(CellKind::Majority, &unfed);
    let shown = RowCell::output(from(0, 0), 0);
    let one = RowCell::bare(CellKind::One);
    let changes = [
        ("source two rows below", Change::Cell(3, 1, buffer(2))),
        ("output that feeds two pins", Change::Cell(2, 1, shared)),
        ("pin without a source", Change::Cell(2, 1, unfed)),
        ("wrong label", Change::Label(2, 0, 10)),
        ("label left out", Change::FewLabels(3)),
        ("inverter left out", Change::Cell(3, 0, buffer(0))),
        ("the other constant", Change::Cell(1, 2, one)),
        ("slots that overlap", Change::Slot(2, 1, 2)),
        ("slots past the limit", Change::Slot(4, 0, 2_147_483_645)),
        ("input twice", Change::Extra(0, RowCell::input(2), 6, 5)),
        ("input not shown", Change::Fewer(0)),
        ("output shown twice", Change::Extra(5, shown, 12, 10)),
        ("output not shown", Change::Cell(5, 0, buffer(0))),
        ("output too early", Change::Cell(4, 0, shown)),
        ("row left out", Change::NoRow(3)),
    ];
    for (name, change) in changes {
        assert!(rt; !is_taken(alloc, change, 12)?, "{name}");
    }
    Ok(())
}
