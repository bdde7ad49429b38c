// How far the cells of a circuit are ahead of the cells that they feed, or that feed them, along the excitation lines.
ghost use Rattle.std.specs.Prelude.{◌≡◌, ℕ, ◌-◌, ◌<◌, IfOk, length, max, slice_get, slice_index, Some};
ghost use Rattle.circuit_extracted.specs.declared.cells.ExCell.{ExCell};
ghost use Rattle.pulse_sim.specs.Travelling.{cell_most, even_beyond, even_of, most_from, odd_beyond, odd_of};
ghost use Rattle.shape_extract.specs.CellPlaces.{far_at, near_at};
ghost use Rattle.text_report.specs.Skews.{pair_skew, reader_skew, readers_skew, row_skew, wire_skew};
ghost use Rattle.text_report.specs.Code.Skews.{FeedsStand, FeedStands, Raises};
ghost use Rattle.text_report.specs.Code.Tables.{HasEntries};

use aq_base::Memory;
use circuit_extracted::{ExCell, Extracted, Feed};
use shape_extract::Span;
use std::alloc::Global;

/// Where the cell of this number lies; 0 both past the last one.
fn span_at(spans: &[Span], c: usize) -> Span
    ensures near { result.near ≡ near_at spans.now c }
    ensures far { result.far ≡ far_at spans.now c }
{
    match spans.get(c) {
        Some(span) => *span,
        None => Span { near: 0, far: 0 },
    }
}

/// How far the end of cell c is beyond the begin of cell d.
fn beyond(spans: &[Span], c: usize, d: usize) -> u128
    ensures { result ≡ far_at spans.now c - near_at spans.now d }
{
    let ahead = span_at(spans, c);
    let behind = span_at(spans, d);
    ahead.far.saturating_sub(behind.near)
}

/// How far the one of cell c and its feed that stands in an even row is beyond the other; cell c stands in this row.
fn even_beyond(spans: &[Span], row: u32, c: usize, feed: &Feed) -> u128
    ensures { result ≡ even_beyond (near_at spans.now) (far_at spans.now) row c feed.now }
{
    match feed {
        Feed::Pin { cell, .. } => {
            let source = *cell as usize;
            if row % 2 == 0 {
                beyond(spans, c, source)
            } else {
                beyond(spans, source, c)
            }
        }
        Feed::Nothing => 0,
        Feed::Label(_) => 0,
    }
}

/// The same of the one in an odd row.
fn odd_beyond(spans: &[Span], row: u32, c: usize, feed: &Feed) -> u128
    ensures { result ≡ odd_beyond (near_at spans.now) (far_at spans.now) row c feed.now }
{
    match feed {
        Feed::Pin { cell, .. } => {
            let source = *cell as usize;
            if row % 2 == 0 {
                beyond(spans, source, c)
            } else {
                beyond(spans, c, source)
            }
        }
        Feed::Nothing => 0,
        Feed::Label(_) => 0,
    }
}

fn cell_even(spans: &[Span], c: usize, cell: &ExCell) -> u128
    ensures { result ≡ cell_most (even_beyond (near_at spans.now) (far_at spans.now)) (near_at spans.now)
        (far_at spans.now) c cell.now }
{
    let last = even_beyond(spans, cell.row, c, &cell.feed1).max(even_beyond(
        spans,
        cell.row,
        c,
        &cell.feed2,
    ));
    beyond(spans, c, c).max(even_beyond(spans, cell.row, c, &cell.feed0).max(last))
}

fn cell_odd(spans: &[Span], c: usize, cell: &ExCell) -> u128
    ensures { result ≡ cell_most (odd_beyond (near_at spans.now) (far_at spans.now)) (near_at spans.now)
        (far_at spans.now) c cell.now }
{
    let last = odd_beyond(spans, cell.row, c, &cell.feed1).max(odd_beyond(
        spans,
        cell.row,
        c,
        &cell.feed2,
    ));
    beyond(spans, c, c).max(odd_beyond(spans, cell.row, c, &cell.feed0).max(last))
}

/// How far the even rows are ahead of the odd ones, in nanometres.
pub fn even_ahead(cells: &[ExCell], spans: &[Span]) -> u128
    ensures { result ≡ most_from (even_beyond (near_at spans.now) (far_at spans.now)) (near_at spans.now)
        (far_at spans.now) 0 cells.now }
{
    let mut most: u128 = 0;
    for (c, cell) in cells.iter().enumerate() {
        most = most.max(cell_even(spans, c, cell));
    }
    most
}

/// How far the odd rows are ahead of the even ones.
pub fn odd_ahead(cells: &[ExCell], spans: &[Span]) -> u128
    ensures { result ≡ most_from (odd_beyond (near_at spans.now) (far_at spans.now)) (near_at spans.now)
        (far_at spans.now) 0 cells.now }
{
    let mut most: u128 = 0;
    for (c, cell) in cells.iter().enumerate() {
        most = most.max(cell_odd(spans, c, cell));
    }
    most
}

/// The greatest distance between two points of cell c, and of cells c and d.
fn pair_skew(spans: &[Span], c: usize, d: usize) -> u128
    ensures { result ≡ pair_skew (near_at spans.now) (far_at spans.now) c d }
{
    let wire = beyond(spans, c, d).max(beyond(spans, d, c));
    beyond(spans, c, c).max(wire)
}

/// Raises the skew of the row that a wire to cell c leaves.
fn raise_wire(cells: &[ExCell], spans: &[Span], c: usize, feed: &Feed, skews: &mut [u128])
    requires { FeedStands cells.now (length skews.old) feed.now }
    ensures { Raises (λ row. wire_skew (near_at spans.now) (far_at spans.now) row cells.now c feed.now)
        skews.old skews.new }
{
    if let Feed::Pin { cell, .. } = feed {
        let source = *cell as usize;
        let row = cells[source].row as usize;
        skews[row] = skews[row].max(pair_skew(spans, c, source));
    }
}

/// Raises the skews of the rows that the wires to cell c leave.
fn raise_cell(cells: &[ExCell], spans: &[Span], c: usize, cell: &ExCell, skews: &mut [u128])
    requires { FeedsStand cells.now (length skews.old) cell.now }
    ensures { Raises (λ row. reader_skew (near_at spans.now) (far_at spans.now) row cells.now c cell.now)
        skews.old skews.new }
{
    raise_wire(cells, spans, c, &cell.feed0, skews);
    raise_wire(cells, spans, c, &cell.feed1, skews);
    raise_wire(cells, spans, c, &cell.feed2, skews);
}

/// Raises the skews of all rows, which are 0 before.
fn raise_all(cells: &[ExCell], spans: &[Span], skews: &mut [u128])
    requires none { (row : ℕ) → slice_index skews.old row ≡ 0 }
    requires feeds { (c : ℕ) (cell : ExCell) → slice_get cells.now c ≡ Some cell
        → FeedsStand cells.now (length skews.old) cell }
    ensures { (row : ℕ) → row < length skews.new → slice_index skews.new row
        ≡ readers_skew (near_at spans.now) (far_at spans.now) row cells.now 0 cells.now }
{
    for (c, cell) in cells.iter().enumerate() {
        raise_cell(cells, spans, c, cell, skews);
    }
}

/// For each row the greatest skew of the wires that leave it.
pub fn skews_by_row(alloc: Global, circuit: &Extracted, spans: &[Span]) -> Result<Vec<u128>, Memory>
    ensures { IfOk result (λ skews. HasEntries circuit.now.rows
        (row_skew circuit.now (near_at spans.now) (far_at spans.now)) skews.items) }
{
    circuit.known();
    let mut skews = vec![in alloc; 0; circuit.rows as usize]?;
    raise_all(circuit.cells.as_slice(), spans, &mut skews);
    Ok(skews)
}
