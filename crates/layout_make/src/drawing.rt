// The drawing of a placed net.
ghost use Rattle.std.specs.Prelude.{◌≡◌, ℕ, ◌<◌, ◌≤◌, ◌+◌, ◌*◌, ◌^◌, ◌++◌, length, map, slice_get, Some, pos, ◌≤ℤ◌};
ghost use Rattle.std.specs.Prelude.{IfOk, IfErr, OnOk};
ghost use Rattle.geom.specs.Writable.{IsWritable};
ghost use Rattle.rowed.specs.PlacedNets.{placed_rows};
ghost use Rattle.sorting.specs.Numbers.{numbers};
ghost use Rattle.channel_route.specs.Tracks.{tracks_used, route_of};
ghost use Rattle.cell_library.specs.Reach.{slot_width_of};
ghost use Rattle.layout_make.specs.Spots.{spots_of};
ghost use Rattle.layout_make.specs.Sheet.{lower_edge, lead_first};
ghost use Rattle.layout_make.specs.Channel.{channel as channel_of};
ghost use Rattle.std.specs.List.{flat_map};
ghost use Rattle.circuit.specs.declared.cell_kind.CellKind.{CellKind as Kind};
ghost use Rattle.cell_library.specs.Library.{IsGiven};
ghost use Rattle.layout_make.specs.Tags.{sheet, wire_tags};
ghost use Rattle.layout_make.specs.Draw.{draw as drawn, boxes, used_kinds, cell_structure, last_row};
ghost use Rattle.layout_make.specs.Draw.{row_elements, top_elements};
ghost use Rattle.layout_make.specs.Code.Boxes.{bend_of, place_box, row_boxes, channel_boxes, lead_low};
ghost use Rattle.layout_make.specs.Size.{element_number, RefusesSize};
ghost use Rattle.rowed.specs.Limits.{element_limit, KeepsWidth};
ghost use Rattle.rowed.specs.Extent.{widest};
ghost use Rattle.layout_make.specs.MayDraw.{MayDraw};

use crate::marks::{PortLabels, Ports, push_labels};
use crate::rows::{bar, known_sizes, lead, push_lag, push_wire_boxes};
use crate::sizing::element_number;
use crate::spots::{Row, Spot, input_count, output_count};
use crate::structures::{cell_structure, kind_place, used_kinds};
use crate::wires::channel_wires;
use aq_base::{Bytes, List, Memory};
use cell_library::Library;
use channel_route::{RouteRefusal, Tracks, route, tracks_are_fewest};
use circuit::CellKind;
use geom::{Element, Layout, Structure};
use rowed::limits::ELEMENT_LIMIT;
use rowed::{Placed, Wire};
use std::alloc::Global;

/// Why a placed net is not drawn.
#[derive(Clone, Copy, Debug, PartialEq, Eq)]
pub enum DrawRefusal {
    /// The top structure would have this many elements, more than 2,000,000.
    TooManyElements { count: u64 },
    /// Want of memory.
    Memory,
}

impl From<Memory> for DrawRefusal {
    ghost use Rattle.std.specs.Prelude.{◌≡◌};
    ghost use Rattle.layout_make.specs.declared.drawing.DrawRefusal.TheVariants.{Memory as NoMemory};

    ghost from_gives = { λ _ refusal. refusal ≡ NoMemory };

    fn from(_: Memory) -> Self {
        DrawRefusal::Memory
    }
}

/// Where a slot begins.
fn left_end(library: &Library, slot: u32) -> u64
    ensures value { result ≡ slot * slot_width_of library.now }
    ensures small { result < 2 ^ 63 }
{
    known_sizes(library);
    u64::from(slot) * (library.columns() * library.pitch())
}

/// A reference to the structure of a cell's kind, in a row with this lower edge.
fn place_box(library: &Library, kinds: &[CellKind], spot: &Spot, edge: u64) -> Element
    requires kinds { length kinds.now < 2 ^ 32 }
    requires edge { edge < 2 ^ 40 }
    ensures { result ≡ place_box library.now kinds.now edge spot.now }
{
    Element::Place {
        structure: kind_place(spot.cell.kind, kinds) as u32,
        x: left_end(library, spot.slot) as i64,
        y: edge as i64,
    }
}

/// Adds references to the structures of a row's cells.
fn push_places(
    library: &Library,
    kinds: &[CellKind],
    row: &Row,
    edge: u64,
    elements: &mut Vec<Element>,
) -> Result<(), Memory>
    requires long { length row.now.slots.now ≡ length row.now.cells.now }
    requires kinds { length kinds.now < 2 ^ 32 }
    requires edge { edge < 2 ^ 40 }
    ensures { OnOk result (elements.new.items ≡ elements.old.items
        ++ map (place_box library.now kinds.now edge) (spots_of row.now.cells.now row.now.slots.now)) }
{
    for number in 0..row.cells.len() {
        let spot = row.spot(number);
        elements.push(place_box(library, kinds, &spot, edge))?;
    }
    Ok(())
}

/// Adds the wires of a channel, on these tracks.
fn push_wires(
    library: &Library,
    edge: u64,
    next: u64,
    wires: &[Wire],
    tracks: &[u32],
    elements: &mut Vec<Element>,
) -> Result<(), Memory>
    requires edge { edge < 2 ^ 40 }
    requires next { next < 2 ^ 40 }
    requires long { length tracks.now ≡ length wires.now }
    requires below { (n track : ℕ) → slice_get tracks.now n ≡ Some track → bend_of library.now edge track ≤ next }
    ensures { OnOk result (elements.new.items ≡ elements.old.items
        ++ channel_boxes library.now edge next wires.now tracks.now) }
{
    for number in 0..wires.len() {
        push_wire_boxes(
            library,
            edge,
            next,
            &wires[number],
            tracks[number],
            elements,
        )?;
    }
    Ok(())
}

/// The tracks of a channel's wires.
fn tracks_of(
    alloc: Global,
    placed: &Placed,
    library: &Library,
    row: u32,
    wires: &List<Wire>,
) -> Result<Tracks, Memory>
    requires may { MayDraw placed.now library.now }
    requires small { element_number placed.now ≤ element_limit }
    requires wires { wires.now ≡ channel_of placed.now library.now row }
    ensures track { IfOk result (λ tracks. tracks.track ≡ route_of (channel_of placed.now library.now row)) }
    ensures used { IfOk result (λ tracks. tracks.used ≡ tracks_used (channel_of placed.now library.now row)) }
{
    placed.known();
    tracks_are_fewest();
    library.known();
    match route(alloc, wires.as_slice(), library.capacity() as u32) {
        Ok(tracks) => Ok(tracks),
        Err(RouteRefusal::Memory) => Err(Memory),
        Err(RouteRefusal::Full { .. }) => unreachable!(),
    }
}

/// Adds the wires of the channel above a row with this lower edge, and answers the lower edge of the next row.
fn push_channel(
    alloc: Global,
    placed: &Placed,
    library: &Library,
    row: u32,
    edge: u64,
    elements: &mut Vec<Element>,
) -> Result<u64, Memory>
    requires may { MayDraw placed.now library.now }
    requires small { element_number placed.now ≤ element_limit }
    requires row { row + 1 < length placed.now.net.rows }
    requires edge { edge ≡ lower_edge (sheet placed.now library.now) row }
    ensures next { IfOk result (λ next. next ≡ lower_edge (sheet placed.now library.now) (row + 1)) }
    ensures elements { OnOk result (elements.new.items ≡ elements.old.items
        ++ boxes (sheet placed.now library.now) (flat_map (wire_tags row) (channel_of placed.now library.now row))) }
{
    tracks_are_fewest();
    library.known();
    let wires = channel_wires(alloc, placed, library, row)?;
    let tracks = tracks_of(alloc, placed, library, row, &wires)?;
    let next = edge + library.height() + (u64::from(tracks.used) + 1) * library.pitch();
    push_wires(
        library,
        edge,
        next,
        wires.as_slice(),
        tracks.track.as_slice(),
        elements,
    )?;
    Ok(next)
}

/// The right end of the rows.
fn right_end(placed: &Placed, library: &Library) -> u64
    requires { KeepsWidth (widest (placed_rows placed.now)) (slot_width_of library.now) }
    ensures { result ≡ widest (placed_rows placed.now) * slot_width_of library.now }
{
    library.known();
    placed.span() * (library.columns() * library.pitch())
}

/// How the excitation lines run: to the right end of all rows, and along a bar of such a width that delays the odd one.
#[derive(Clone, Copy)]
struct Lines {
    right: u64,
    lag: u64,
}

/// Where a row stands: its number, its lower edge, and that of the row two below, from which its lead comes.
#[derive(Clone, Copy)]
struct Standing {
    number: usize,
    edge: u64,
    two_before: u64,
}

/// Where the lead of a row begins, with a bar of such a width.
fn lead_low(library: &Library, lag: u64, standing: Standing) -> i64
    requires edge { standing.edge < 2 ^ 40 }
    requires two_before { standing.two_before < 2 ^ 40 }
    ensures { result ≡ lead_low library.now lag standing.number standing.edge standing.two_before }
{
    known_sizes(library);
    if standing.number == 1 && lag > 0 {
        -2 * library.height() as i64
    } else if standing.number < 2 {
        standing.edge as i64
    } else {
        standing.two_before as i64
    }
}

/// Adds the cells and the line of a row.
#[tactic(auto, using(crate::proofs::RowsDrawn::low_leads))]
fn push_row(
    library: &Library,
    kinds: &[CellKind],
    lines: Lines,
    row: &Row,
    standing: Standing,
    elements: &mut Vec<Element>,
) -> Result<(), Memory>
    requires long { length row.now.slots.now ≡ length row.now.cells.now }
    requires kinds { length kinds.now < 2 ^ 32 }
    requires some { 0 < lines.right }
    requires right { lines.right < 2 ^ 40 }
    requires two_before { standing.two_before ≤ standing.edge }
    requires edge { standing.edge < 2 ^ 40 }
    ensures { OnOk result (elements.new.items ≡ elements.old.items
        ++ row_boxes library.now kinds.now lines.right lines.lag standing.number
        (spots_of row.now.cells.now row.now.slots.now)
        (lead_low library.now lines.lag standing.number standing.edge standing.two_before) standing.edge) }
{
    let Standing { number, edge, .. } = standing;
    push_places(library, kinds, row, edge, elements)?;
    let first = lead_low(library, lines.lag, standing);
    elements.push(lead(library, lines.right, lines.lag, number, first, edge))?;
    elements.push(bar(library, lines.right, number, edge))?;
    Ok(())
}

/// The rows of a drawing, and their wires, with the lower edge of the last row.
fn row_elements(
    alloc: Global,
    placed: &Placed,
    library: &Library,
    kinds: &[CellKind],
) -> Result<(Vec<Element>, u64), Memory>
    requires may { MayDraw placed.now library.now }
    requires small { element_number placed.now ≤ element_limit }
    requires kinds { kinds.now ≡ used_kinds placed.now }
    ensures elements { IfOk result (λ drawn. drawn.0.items
        ≡ flat_map (row_elements placed.now library.now) (numbers 0 (length placed.now.net.rows))) }
    ensures edge { IfOk result (λ drawn. drawn.1 ≡ lower_edge (sheet placed.now library.now) (last_row placed.now)) }
{
    placed.known();
    library.known();
    tracks_are_fewest();
    let count = placed.row_count();
    let right = right_end(placed, library);
    let mut elements = Vec::with_capacity(alloc, element_number(placed) as usize)?;
    let mut edge = 0;
    let mut one_before = 0;
    let mut two_before = 0;
    for number in 0..count {
        let row = Row::of(placed, number);
        push_row(
            library,
            kinds,
            Lines {
                right,
                lag: placed.lag,
            },
            &row,
            Standing {
                number,
                edge,
                two_before,
            },
            &mut elements,
        )?;
        two_before = one_before;
        one_before = edge;
        if number + 1 < count {
            edge = push_channel(alloc, placed, library, number as u32, edge, &mut elements)?;
        }
    }
    Ok((elements, edge))
}

/// The elements of the top structure.
fn top_elements(
    alloc: Global,
    placed: &Placed,
    library: &Library,
    kinds: &[CellKind],
) -> Result<Vec<Element>, Memory>
    requires may { MayDraw placed.now library.now }
    requires small { element_number placed.now ≤ element_limit }
    requires kinds { kinds.now ≡ used_kinds placed.now }
    ensures { IfOk result (λ elements. elements.items ≡ top_elements placed.now library.now) }
{
    placed.known();
    library.known();
    tracks_are_fewest();
    let (mut elements, edge) = row_elements(alloc, placed, library, kinds)?;
    push_lag(library, placed.lag, &mut elements)?;
    let bottom = Row::of(placed, 0);
    let column = library.input_column(CellKind::Buffer, 0);
    push_labels(
        alloc,
        library,
        &bottom,
        PortLabels {
            ports: Ports::Inputs,
            count: input_count(placed),
            column,
            y: library.pin() / 2,
        },
        &mut elements,
    )?;
    let last = placed.row_count() - 1;
    let top = Row::of(placed, last);
    let column = library.output_column(CellKind::Buffer, 0);
    let y = (edge + library.height()).saturating_sub(library.pin() / 2);
    push_labels(
        alloc,
        library,
        &top,
        PortLabels {
            ports: Ports::Outputs,
            count: output_count(placed),
            column,
            y,
        },
        &mut elements,
    )?;
    Ok(elements)
}

/// The structures of the kinds.
fn kind_structures(
    alloc: Global,
    library: &Library,
    kinds: &[CellKind],
) -> Result<Vec<Structure>, Memory>
    requires { (n : ℕ) (kind : Kind) → slice_get kinds.now n ≡ Some kind → IsGiven library.now kind }
    ensures { IfOk result (λ structures. structures.items ≡ map (cell_structure library.now) kinds.now) }
{
    let mut structures = Vec::new(alloc);
    for kind in kinds {
        structures.push(cell_structure(alloc, library, *kind)?)?;
    }
    Ok(structures)
}

/// The layout of a placed net.
fn layout_of(alloc: Global, placed: &Placed, library: &Library) -> Result<Layout, Memory>
    requires may { MayDraw placed.now library.now }
    requires small { element_number placed.now ≤ element_limit }
    ensures { IfOk result (λ layout. layout ≡ drawn placed.now library.now) }
{
    let kinds = used_kinds(alloc, placed)?;
    let mut structures = kind_structures(alloc, library, &kinds)?;
    let top = structures.len() as u32;
    let mut name = Vec::new(alloc);
    name.extend_from_slice(b"TOP")?;
    let elements = top_elements(alloc, placed, library, &kinds)?;
    structures.push(Structure {
        name: Bytes::from_vec(name),
        elements: List::from_vec(elements),
    })?;
    Ok(Layout {
        structures: List::from_vec(structures),
        top,
    })
}

/// The layout of a placed net with a library, in database units of one nanometre: a structure for each kind of its
/// cells, by the kinds' numbers, and then the top. The top has for each row, from the lowest on, its cells, the lead
/// and the bar of its excitation line, and the wires of the channel above it; and last the labels of the inputs and
/// outputs.
///
/// The library gives the kinds of all cells, each wire moves fewer slots than the library's reach, the rows are at
/// most 2,000,000,000 units wide, and they and full channels come to at most 2,147,483,647 units in height. Then no
/// channel is full, and the layout is writable.
///
/// `TooManyElements` comes exactly where the top structure would have more than 2,000,000 elements, with their
/// number, and nothing is made before. Time and memory are in proportion to what is drawn.
pub fn draw(alloc: Global, placed: &Placed, library: &Library) -> Result<Layout, DrawRefusal>
    requires { MayDraw placed.now library.now }
    ensures drawn { IfOk result (λ layout. layout ≡ drawn placed.now library.now) }
    ensures writable { IfOk result IsWritable }
    ensures small { OnOk result (element_number placed.now ≤ element_limit) }
    ensures refused { IfErr result (RefusesSize placed.now) }
{
    tracks_are_fewest();
    let count = element_number(placed);
    if count > ELEMENT_LIMIT {
        return Err(DrawRefusal::TooManyElements { count });
    }
    Ok(layout_of(alloc, placed, library)?)
}
