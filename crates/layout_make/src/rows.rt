// What is drawn of each row: its excitation line and the wires of its channel.
ghost use Rattle.std.specs.Prelude.{◌≡◌, suc, ◌+◌, ◌%◌, ◌<◌, ◌≤◌, ◌*◌, ◌^◌, ◌++◌, pos, neg_ℤ, ◌<ℤ◌, ◌≤ℤ◌, OnOk};
ghost use Rattle.cell_library.specs.Laws.{IsLibrary};
ghost use Rattle.layout_make.specs.Code.Sizes.{AreSizes};
ghost use Rattle.layout_make.specs.Code.Boxes.{bend_of, wire_boxes, lead_box, bar_box, lag_start, lag_bar, lag_boxes};
ghost use Rattle.geom.specs.declared.layout.Element.TheVariants.{Box};
ghost use Rattle.layout_make.specs.Sheet.{lead_use};

use crate::areas::{Area, across_area, boxed, fall_area, rise_area, square};
use aq_base::Memory;
use cell_library::Library;
use geom::{Element, Rect, Shape};
use layout_rules::layers::{BAR, EVEN_LINE, LINK, M1, M2, ODD_LINE, START, VIA};
use rowed::Wire;

/// What every library keeps of its sizes. It does nothing else.
pub(crate) fn known_sizes(library: &Library)
    ensures { AreSizes library.now }
{
    library.known();
}

/// The height of a track in the channel above the row with this lower edge.
fn bend_of(library: &Library, row: u64, track: u32) -> u64
    requires { row < 2 ^ 40 }
    ensures value { result ≡ bend_of library.now row track }
    ensures small { result < 2 ^ 55 }
{
    library.known();
    row + library.height() + (u64::from(track) + 1) * library.pitch()
}

/// Adds the five shapes of a wire between rows with these lower edges.
pub(crate) fn push_wire_boxes(
    library: &Library,
    row: u64,
    next: u64,
    wire: &Wire,
    track: u32,
    elements: &mut Vec<Element>,
) -> Result<(), Memory>
    requires row { row < 2 ^ 40 }
    requires next { next < 2 ^ 40 }
    requires below { bend_of library.now row track ≤ next }
    ensures { OnOk result (elements.new.items ≡ elements.old.items
        ++ wire_boxes library.now row next wire.now track) }
{
    known_sizes(library);
    let bend = bend_of(library, row, track);
    let (from, to) = (wire.from_column, wire.to_column);
    elements.push(boxed(M1, 0, rise_area(library, row, from, bend)))?;
    elements.push(boxed(M1, 0, fall_area(library, next, to, bend)))?;
    elements.push(boxed(M2, 0, across_area(library, from, to, bend)))?;
    elements.push(boxed(VIA, 0, square(library, from, bend)))?;
    elements.push(boxed(VIA, 0, square(library, to, bend)))?;
    Ok(())
}

/// The layer of a row's excitation line.
fn line_layer(row: usize) -> u16
    ensures { result ≡ EVEN_LINE + row % 2 }
{
    if row % 2 == 0 { EVEN_LINE } else { ODD_LINE }
}

/// The datatype of a row's lead, where the excitation of the odd rows is delayed by a bar of this width: a start where
/// the line begins at the row, and else a link.
fn lead_use(lag: u64, row: usize) -> u16
    ensures { result ≡ lead_use lag (suc row) }
{
    if row == 0 || (row == 1 && lag == 0) {
        START
    } else {
        LINK
    }
}

/// A start or a link of a row between these sides, with its upper edge one cell's height above `edge`.
fn lead_from(
    library: &Library,
    lag: u64,
    sides: (i64, i64),
    row: usize,
    first: i64,
    edge: u64,
) -> Element
    requires wide { sides.0 <ℤ sides.1 }
    requires first { first ≤ℤ pos edge }
    requires edge { edge < 2 ^ 40 }
    ensures { result ≡ Box (record {
      layer = EVEN_LINE + row % 2;
      datatype = lead_use lag (suc row);
      rect = record { x0 = sides.0; y0 = first; x1 = sides.1; y1 = pos (edge + library.now.height) };
    }) }
{
    known_sizes(library);
    Element::Box(Shape {
        layer: line_layer(row),
        datatype: lead_use(lag, row),
        rect: Rect {
            x0: sides.0,
            y0: first,
            x1: sides.1,
            y1: (edge + library.height()) as i64,
        },
    })
}

/// The start or the link that leads to the bar of row `row`, from the height `first`. It stands left of the chip or
/// right of it.
pub(crate) fn lead(
    library: &Library,
    right: u64,
    lag: u64,
    row: usize,
    first: i64,
    edge: u64,
) -> Element
    requires right { right < 2 ^ 40 }
    requires first { first ≤ℤ pos edge }
    requires edge { edge < 2 ^ 40 }
    ensures { result ≡ lead_box library.now right lag row first edge }
{
    known_sizes(library);
    let reach = 2 * library.pitch() as i64;
    let start = right as i64;
    if row % 4 > 1 {
        lead_from(library, lag, (start, start + reach), row, first, edge)
    } else {
        lead_from(library, lag, (-reach, 0), row, first, edge)
    }
}

/// The bar of a row.
pub(crate) fn bar(library: &Library, right: u64, row: usize, edge: u64) -> Element
    requires some { 0 < right }
    requires right { right < 2 ^ 40 }
    requires edge { edge < 2 ^ 40 }
    ensures { result ≡ bar_box library.now right row edge }
{
    known_sizes(library);
    let area = Area {
        left: 0,
        low: edge,
        right,
        high: edge + library.height(),
    };
    boxed(line_layer(row), BAR, area)
}

/// A shape of the odd line between these sides, a row's height below the rows.
fn below_rows(library: &Library, datatype: u16, left: i64, right: i64) -> Element
    requires { left <ℤ right }
    ensures { result ≡ Box (record {
      layer = ODD_LINE;
      datatype = datatype;
      rect =
          record {
            x0 = left;
            y0 = neg_ℤ (pos (2 * library.now.height));
            x1 = right;
            y1 = neg_ℤ (pos library.now.height);
          };
    }) }
{
    known_sizes(library);
    let height = library.height() as i64;
    Element::Box(Shape {
        layer: ODD_LINE,
        datatype,
        rect: Rect {
            x0: left,
            y0: -2 * height,
            x1: right,
            y1: -height,
        },
    })
}

/// The start of the odd line, at the right end of the bar that delays it.
fn lag_start(library: &Library, lag: u64) -> Element
    requires { lag < 2 ^ 40 }
    ensures { result ≡ lag_start library.now lag }
{
    known_sizes(library);
    let right = lag as i64;
    below_rows(library, START, right, right + 2 * library.pitch() as i64)
}

/// The bar that delays the odd line.
fn lag_bar(library: &Library, lag: u64) -> Element
    requires some { 0 < lag }
    requires few { lag < 2 ^ 40 }
    ensures { result ≡ lag_bar library.now lag }
{
    below_rows(library, BAR, 0, lag as i64)
}

/// Adds the start and the bar that delay the odd rows; nothing for a bar of no width.
#[tactic(auto, using(crate::proofs::Lagging::lags))]
pub(crate) fn push_lag(
    library: &Library,
    lag: u64,
    elements: &mut Vec<Element>,
) -> Result<(), Memory>
    requires { lag < 2 ^ 40 }
    ensures { OnOk result (elements.new.items ≡ elements.old.items ++ lag_boxes library.now lag) }
{
    if lag > 0 {
        elements.push(lag_start(library, lag))?;
        elements.push(lag_bar(library, lag))?;
    }
    Ok(())
}
