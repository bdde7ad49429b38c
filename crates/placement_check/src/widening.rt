// Whether rows are those of a net and added buffers, which carry its outputs to the pins that they feed.
ghost use Rattle.std.specs.Prelude.{◌≡◌, [], slice_get, slice_index_or, length};
ghost use Rattle.placement_check.specs.Wider.{given_by, leads, is_pin, is_same, is_constant, is_cell, is_row, is_kept};
ghost use Rattle.placement_check.specs.Wider.{is_added, item_at, is_marked, is_there, has_place, fits_mark};
ghost use Rattle.placement_check.specs.Wider.{row_marked, rows_marked, is_mark_of, stands_at, is_found, row_stands, rows_stand};
ghost use Rattle.placement_check.specs.Wider.{is_widened};

use crate::marks::{Mark, Place};
use aq_base::List;
use circuit::CellKind;
use rowed::{RowCell, Source};

/// The number of the output that is carried, or the cell's own.
fn given_by(carried: Option<u32>, own: u32) -> u32
    ensures { result ≡ given_by carried own }
{
    match carried {
        Some(output) => output,
        None => own,
    }
}

/// Whether an output of a cell with this mark leads on the output of a cell of this row of the net.
fn leads(row: u32, target: Source, mark: Mark, own: u32) -> bool
    ensures { result ≡ leads row target mark own }
{
    mark.row == row && mark.cell == target.cell && given_by(mark.carried, own) == target.output
}

/// Whether a pin over a row with these marks is led to what feeds it in the net, an output of a cell of this row. A pin
/// that is not fed there is not fed here.
fn is_pin(row: u32, below: &[Mark], source: Option<Source>, target: Option<Source>) -> bool
    ensures { result ≡ is_pin row below.now source target }
{
    match (source, target) {
        (None, None) => true,
        (Some(source), Some(target)) => match below.get(source.cell as usize) {
            Some(mark) => leads(row, target, *mark, source.output),
            None => false,
        },
        (Some(_), None) | (None, Some(_)) => false,
    }
}

/// Whether both are one number, or none.
fn is_same(one: Option<u32>, other: Option<u32>) -> bool
    ensures { result ≡ is_same one other }
{
    match (one, other) {
        (None, None) => true,
        (Some(one), Some(other)) => one == other,
        (Some(_), None) | (None, Some(_)) => false,
    }
}

/// Whether a cell of this kind is a constant.
fn is_constant(kind: CellKind) -> bool
    ensures { result ≡ is_constant kind }
{
    matches!(kind, CellKind::Zero | CellKind::One)
}

/// Whether a cell over a row with these marks is one of the net, whose sources are of this row of the net.
fn is_cell(row: u32, below: &[Mark], cell: &RowCell, own: &RowCell) -> bool
    ensures { result ≡ is_cell row below.now cell.now own.now }
{
    cell.kind.number() == own.kind.number()
        && is_same(cell.input, own.input)
        && is_same(cell.output, own.output)
        && is_pin(row, below, cell.source0, own.source0)
        && is_pin(row, below, cell.source1, own.source1)
        && is_pin(row, below, cell.source2, own.source2)
}

/// Whether row `number` is what a row of the net has become.
fn is_row(number: usize, became: Option<u32>) -> bool
    ensures { result ≡ is_row number became }
{
    match became {
        Some(became) => became as usize == number,
        None => false,
    }
}

/// Whether a cell in row `number`, over a row with these marks, is that of row `row` of the net, in the row that this
/// has become unless it is a constant.
fn is_kept(
    became: &[u32],
    number: usize,
    below: &[Mark],
    cell: &RowCell,
    row: u32,
    own: Option<RowCell>,
) -> bool
    ensures { result ≡ is_kept became.now number below.now cell.now row own }
{
    match own {
        Some(own) => {
            let is_in_row = is_constant(cell.kind)
                || is_row(number, became.get(row as usize).copied());
            is_cell(row.saturating_sub(1), below, cell, &own) && is_in_row
        }
        None => false,
    }
}

/// Whether a cell over a row with these marks is an added buffer, which carries an output of a cell of this row.
fn is_added(below: &[Mark], cell: &RowCell, row: u32, target: Source) -> bool
    ensures { result ≡ is_added below.now cell.now row target }
{
    cell.kind.number() == CellKind::Buffer.number()
        && is_same(cell.input, None)
        && is_same(cell.output, None)
        && is_pin(row, below, cell.source0, Some(target))
}

/// The item of this number in a row, if there is one.
fn item_at<T: Copy>(rows: &[List<T>], row: usize, item: usize) -> Option<T>
    ensures { result ≡ item_at rows.now row item }
{
    match rows.get(row) {
        Some(items) => items.as_slice().get(item).copied(),
        None => None,
    }
}

/// Where a row of the wider net stands: what a net became, the number of the row, and the marks of the row below it.
#[derive(Clone, Copy)]
struct RowBelow<'a> {
    net: &'a [List<RowCell>],
    became: &'a [u32],
    places: &'a [List<Place>],
    number: usize,
    marks: &'a [Mark],
}

/// Whether a cell of a row is what its mark tells.
fn is_marked(below: &RowBelow<'_>, cell: &RowCell, mark: Mark) -> bool
    ensures { result ≡ is_marked below.now.net.now below.now.became.now below.now.number below.now.marks.now cell.now
        mark.row mark.cell mark.carried }
{
    match mark.carried {
        Some(output) => {
            let target = Source {
                cell: mark.cell,
                output,
            };
            is_added(below.marks, cell, mark.row, target)
        }
        None => {
            let own = item_at(below.net, mark.row as usize, mark.cell as usize);
            is_kept(below.became, below.number, below.marks, cell, mark.row, own)
        }
    }
}

/// Whether this is the place of a cell.
fn is_there(row: usize, cell: usize, place: Option<Place>) -> bool
    ensures { result ≡ is_there row cell place }
{
    match place {
        Some(place) => place.row as usize == row && place.cell as usize == cell,
        None => false,
    }
}

/// Whether a cell is an added buffer, or stands in the place of a cell of the net.
fn has_place(places: &[List<Place>], row: usize, cell: usize, mark: Mark) -> bool
    ensures { result ≡ has_place places.now row cell mark }
{
    let place = item_at(places, mark.row as usize, mark.cell as usize);
    mark.carried.is_some() || is_there(row, cell, place)
}

/// Whether a cell is what its mark tells, and no other cell of the wider net is that.
#[tactic(auto, unfolding(crate::specs::Wider::fits_mark))]
fn fits_mark(below: &RowBelow<'_>, place: usize, cell: &RowCell, mark: Mark) -> bool
    ensures { result ≡ fits_mark below.now.net.now below.now.became.now below.now.places.now below.now.number
        below.now.marks.now place cell.now mark }
{
    let is_told = is_marked(below, cell, mark);
    is_told && has_place(below.places, below.number, place, mark)
}

/// Whether the cells of a row are what their own marks tell, each in its place.
fn row_marked(below: &RowBelow<'_>, cells: &[RowCell], marks: &[Mark]) -> bool
    ensures { result ≡ row_marked below.now.net.now below.now.became.now below.now.places.now below.now.number
        below.now.marks.now 0 cells.now marks.now }
{
    if cells.len() != marks.len() {
        return false;
    }
    for (place, cell) in cells.iter().enumerate() {
        let mark = marks[place];
        if !fits_mark(below, place, cell, mark) {
            return false;
        }
    }
    true
}

/// Whether the cells of all rows are what their marks tell, each in its place.
fn rows_marked(
    net: &[List<RowCell>],
    became: &[u32],
    places: &[List<Place>],
    rows: &[List<RowCell>],
    marks: &[List<Mark>],
) -> bool
    ensures { result ≡ rows_marked net.now became.now places.now 0 [] rows.now marks.now }
{
    if rows.len() != marks.len() {
        return false;
    }
    let mut below: &[Mark] = &[];
    for (number, row) in rows.iter().enumerate() {
        let own = marks[number].as_slice();
        let stand = RowBelow {
            net,
            became,
            places,
            number,
            marks: below,
        };
        if !row_marked(&stand, row.as_slice(), own) {
            return false;
        }
        below = own;
    }
    true
}

/// Whether this is the mark of a cell of the net itself.
fn is_mark_of(row: usize, cell: usize, mark: Option<Mark>) -> bool
    ensures { result ≡ is_mark_of row cell mark }
{
    match mark {
        Some(mark) => {
            mark.row as usize == row && mark.cell as usize == cell && !mark.carried.is_some()
        }
        None => false,
    }
}

/// Whether a cell of the net stands at this place.
fn stands_at(marks: &[List<Mark>], row: usize, cell: usize, place: Option<Place>) -> bool
    ensures { result ≡ stands_at marks.now row cell place }
{
    match place {
        Some(place) => {
            let mark = item_at(marks, place.row as usize, place.cell as usize);
            is_mark_of(row, cell, mark)
        }
        None => false,
    }
}

/// Whether a cell of the net stands in its place.
#[tactic(auto, unfolding(crate::specs::Wider::is_found))]
fn is_found(places: &[List<Place>], marks: &[List<Mark>], row: usize, cell: usize) -> bool
    ensures { result ≡ is_found places.now marks.now row cell }
{
    let place = item_at(places, row, cell);
    stands_at(marks, row, cell, place)
}

/// Whether each cell of a row of the net stands in its place.
fn row_stands(
    places: &[List<Place>],
    marks: &[List<Mark>],
    number: usize,
    cells: &[RowCell],
) -> bool
    ensures { result ≡ row_stands places.now marks.now number 0 cells.now }
{
    for (cell, _own) in cells.iter().enumerate() {
        if !is_found(places, marks, number, cell) {
            return false;
        }
    }
    true
}

/// Whether each cell of the net stands in its place.
fn rows_stand(places: &[List<Place>], marks: &[List<Mark>], net: &[List<RowCell>]) -> bool
    ensures { result ≡ rows_stand places.now marks.now 0 net.now }
{
    for (number, row) in net.iter().enumerate() {
        if !row_stands(places, marks, number, row.as_slice()) {
            return false;
        }
    }
    true
}

/// Whether rows are those of the net and added buffers, as places and marks tell.
pub(crate) fn is_widened(
    net: &[List<RowCell>],
    rows: &[List<RowCell>],
    became: &[u32],
    places: &[List<Place>],
    marks: &[List<Mark>],
) -> bool
    ensures { result ≡ is_widened net.now rows.now became.now places.now marks.now }
{
    rows_marked(net, became, places, rows, marks) && rows_stand(places, marks, net)
}
