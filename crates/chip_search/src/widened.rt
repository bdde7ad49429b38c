// Drafts that are wider than a net in rows: which of their cells are those of the net.
use crate::arrays::{at, between, narrow, put};
use aq_base::{List, Memory};
use circuit::CellKind;
use placement_check::{Draft, Mark, Place, WideDraft};
use rowed::{RowCell, RowNet, Source};
use std::alloc::Global;

/// A draft on its way to a wide one, from the last row down.
#[derive(Drop)]
struct Marking {
    /// The first number of each row's cells in the net, and how many cells there are.
    starts: Vec<u32>,
    /// The row of the draft that each row of the net has become.
    became: Vec<u32>,
    /// Where each cell of the net stands.
    places: Vec<Place>,
    /// What the cells of a row are asked to be by the row above, where they are asked.
    asked: Vec<Option<Mark>>,
    /// The same of the row below.
    below: Vec<Option<Mark>>,
}

/// The cell of the net at a place, if there is one.
fn own_cell(net: &RowNet, row: u32, cell: u32) -> Option<RowCell> {
    let row = net.rows.as_slice().get(row as usize)?;
    row.as_slice().get(cell as usize).copied()
}

/// Whether a cell of a draft in which the net's buffers pose as inverters is an added buffer.
fn is_added(cell: &RowCell) -> bool {
    matches!(cell.kind, CellKind::Buffer)
}

/// The place of the cell that shows an input, in the first row.
fn input_cell(row: &[RowCell], input: Option<u32>) -> u32 {
    let mut place: u32 = 0;
    for cell in row {
        if input.is_some() && cell.input == input {
            return place;
        }
        place = place.saturating_add(1);
    }
    0
}

/// The cells of a row, if there is one.
fn cells_at(rows: &[List<RowCell>], row: usize) -> &[RowCell] {
    match rows.get(row) {
        Some(cells) => cells.as_slice(),
        None => &[],
    }
}

/// As many empty marks as there are cells.
fn no_marks(marks: &mut Vec<Option<Mark>>, cells: &[RowCell]) -> Result<(), Memory> {
    marks.clear();
    for _ in cells {
        marks.push(None)?;
    }
    Ok(())
}

impl Marking {
    /// A marking of a draft for a net, before its first row.
    fn new(alloc: Global, net: &RowNet) -> Result<Marking, Memory> {
        let mut starts = Vec::new(alloc);
        let mut became = Vec::new(alloc);
        let mut places = Vec::new(alloc);
        for row in net.rows.as_slice() {
            starts.push(narrow(places.len()))?;
            became.push(0)?;
            for _cell in row.as_slice() {
                places.push(Place { row: 0, cell: 0 })?;
            }
        }
        Ok(Marking {
            starts,
            became,
            places,
            asked: Vec::new(alloc),
            below: Vec::new(alloc),
        })
    }

    /// Asks the cell of a source to lead on an output of a cell of the net.
    fn ask(&mut self, below: &[RowCell], source: Source, row: u32, target: Source) {
        let carried = match below.get(source.cell as usize) {
            Some(cell) if is_added(cell) => Some(target.output),
            _ => None,
        };
        let mark = Mark {
            row,
            cell: target.cell,
            carried,
        };
        put(&mut self.below, source.cell, Some(mark));
    }

    /// Asks what feeds a pin of a cell of the net to lead on what feeds it there.
    fn ask_pin(
        &mut self,
        below: &[RowCell],
        row: u32,
        source: Option<Source>,
        target: Option<Source>,
    ) {
        if let (Some(source), Some(target)) = (source, target) {
            self.ask(below, source, row.saturating_sub(1), target);
        }
    }

    /// A cell that is one of the net, as it stands there; it has its place in row `row` of the draft.
    fn keep(
        &mut self,
        below: &[RowCell],
        cell: &RowCell,
        own: &RowCell,
        mark: Mark,
        place: Place,
    ) -> RowCell {
        self.ask_pin(below, mark.row, cell.source0, own.source0);
        self.ask_pin(below, mark.row, cell.source1, own.source1);
        self.ask_pin(below, mark.row, cell.source2, own.source2);
        let first = at(&self.starts, mark.row);
        put(&mut self.places, first.saturating_add(mark.cell), place);
        if !matches!(own.kind, CellKind::Zero | CellKind::One) {
            put(&mut self.became, mark.row, place.row);
        }
        RowCell {
            kind: own.kind,
            input: own.input,
            output: own.output,
            ..*cell
        }
    }

    /// A cell as its mark tells.
    fn mark_cell(
        &mut self,
        net: &RowNet,
        below: &[RowCell],
        cell: &RowCell,
        mark: Mark,
        place: Place,
    ) -> RowCell {
        match (mark.carried, own_cell(net, mark.row, mark.cell)) {
            (None, Some(own)) => self.keep(below, cell, &own, mark, place),
            (Some(output), _) => {
                let target = Source {
                    cell: mark.cell,
                    output,
                };
                if let Some(source) = cell.source0 {
                    self.ask(below, source, mark.row, target);
                }
                *cell
            }
            (None, None) => *cell,
        }
    }

    /// The mark of a cell of row `row` of the draft: as it is asked, or by the input or the output that it shows.
    fn mark_of(&self, net: &RowNet, is_last: bool, cell: &RowCell, number: u32) -> Mark {
        let rows = net.rows.as_slice();
        if let Some(Some(mark)) = self.asked.get(number as usize) {
            return *mark;
        }
        let (row, cell) = if is_last {
            let last = narrow(rows.len()).saturating_sub(1);
            (last, cell.output.unwrap_or(0))
        } else {
            (0, input_cell(cells_at(rows, 0), cell.input))
        };
        Mark {
            row,
            cell,
            carried: None,
        }
    }

    /// The cells of a row of the draft as they stand in the wide one, with their marks.
    fn mark_row(
        &mut self,
        alloc: Global,
        net: &RowNet,
        rows: &[List<RowCell>],
        row: usize,
    ) -> Result<(List<RowCell>, List<Mark>), Memory> {
        let is_last = row.saturating_add(1) == rows.len();
        let below = match row.checked_sub(1) {
            Some(lower) => cells_at(rows, lower),
            None => &[],
        };
        no_marks(&mut self.below, below)?;
        let mut cells = List::new(alloc);
        let mut marks = List::new(alloc);
        let mut number: u32 = 0;
        for cell in cells_at(rows, row) {
            let mark = self.mark_of(net, is_last, cell, number);
            let place = Place {
                row: narrow(row),
                cell: number,
            };
            cells.push(self.mark_cell(net, below, cell, mark, place))?;
            marks.push(mark)?;
            number = number.saturating_add(1);
        }
        std::mem::swap(&mut self.asked, &mut self.below);
        Ok((cells, marks))
    }

    /// The places of the net's cells by row.
    fn places_by_row(&self, alloc: Global) -> Result<List<List<Place>>, Memory> {
        let mut places = List::new(alloc);
        let mut row: u32 = 0;
        for first in &self.starts {
            row = row.saturating_add(1);
            let end = match self.starts.get(row as usize) {
                Some(end) => *end,
                None => narrow(self.places.len()),
            };
            let own = between(&self.places, *first, end);
            places.push(List::from_vec(Vec::from_slice(alloc, own)?))?;
        }
        Ok(places)
    }
}

/// The wide draft of a draft whose cells of kind Buffer were added to those of a net, and whose last row shows the
/// cells of the net's last row by their places there. Nothing is promised of it: a check takes it or not.
pub(crate) fn widened(alloc: Global, net: &RowNet, draft: Draft) -> Result<WideDraft, Memory> {
    let mut marking = Marking::new(alloc, net)?;
    let mut rows = Vec::new(alloc);
    let mut marks = Vec::new(alloc);
    let count = draft.rows.len();
    let old = draft.rows.as_slice();
    for turn in 0..count {
        let row = count.saturating_sub(turn).saturating_sub(1);
        let (cells, own) = marking.mark_row(alloc, net, old, row)?;
        rows.push(cells)?;
        marks.push(own)?;
    }
    rows.reverse();
    marks.reverse();
    let places = marking.places_by_row(alloc)?;
    Ok(WideDraft {
        rows: List::from_vec(rows),
        slots: draft.slots,
        became: List::from_vec(marking.became),
        places,
        marks: List::from_vec(marks),
    })
}
