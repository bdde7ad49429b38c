// The structures of the kinds of cells that a net uses.
ghost use Rattle.std.specs.Prelude.{◌≡◌, ◌<◌, ◌≤◌, ◌+◌, length, ◌++◌, map, IfOk, OnOk, []};
ghost use Rattle.cell_library.specs.Library.{IsGiven};
ghost use Rattle.sorting.specs.Numbers.{numbers};
ghost use Rattle.circuit.specs.CellKinds.{inputs_of, outputs_of};
ghost use Rattle.layout_make.specs.Draw.{kind_name, kind_place, row_has, uses, used_kinds, cell_structure};
ghost use Rattle.layout_make.specs.Code.Boxes.{in_box, out_box, cell_boxes};

use crate::areas::{Area, boxed, upright};
use crate::rows::known_sizes;
use aq_base::{Bytes, List, Memory};
use cell_library::Library;
use circuit::CellKind;
use geom::{Element, Structure};
use layout_rules::layers::{FRAME, INPUT_PIN, OUTPUT_PIN};
use rowed::{Placed, RowCell};
use std::alloc::Global;

/// The kinds by rising number.
const KINDS: [CellKind; 7] = [
    CellKind::Buffer,
    CellKind::Inverter,
    CellKind::Zero,
    CellKind::One,
    CellKind::Split2,
    CellKind::Split3,
    CellKind::Majority,
];

/// The name of a kind's structure.
fn kind_name(kind: CellKind) -> &'static str
    ensures { result.now ≡ kind_name kind }
{
    match kind {
        CellKind::Buffer => "BUF",
        CellKind::Inverter => "INV",
        CellKind::Zero => "ZERO",
        CellKind::One => "ONE",
        CellKind::Split2 => "SPL2",
        CellKind::Split3 => "SPL3",
        CellKind::Majority => "MAJ",
    }
}

/// Whether a cell of the kind stands in the row.
fn row_has(kind: CellKind, cells: &[RowCell]) -> bool
    ensures { result ≡ row_has kind cells.now }
{
    for cell in cells {
        if kind.number() == cell.kind.number() {
            return true;
        }
    }
    false
}

/// Whether a cell of the kind stands in some row.
fn uses(placed: &Placed, kind: CellKind) -> bool
    ensures { result ≡ uses placed.now kind }
{
    for row in placed.net.rows.as_slice() {
        if row_has(kind, row.as_slice()) {
            return true;
        }
    }
    false
}

/// The kinds of the net's cells, by rising number.
pub(crate) fn used_kinds(alloc: Global, placed: &Placed) -> Result<Vec<CellKind>, Memory>
    ensures { IfOk result (λ kinds. kinds.items ≡ used_kinds placed.now) }
{
    let mut kinds = Vec::new(alloc);
    for kind in KINDS {
        if uses(placed, kind) {
            kinds.push(kind)?;
        }
    }
    Ok(kinds)
}

/// The place of a kind among others.
pub(crate) fn kind_place(kind: CellKind, kinds: &[CellKind]) -> usize
    ensures place { result ≡ kind_place kind kinds.now }
    ensures most { result ≤ length kinds.now }
{
    for (place, other) in kinds.iter().enumerate() {
        if other.number() == kind.number() {
            return place;
        }
    }
    kinds.len()
}

/// An input pin of a cell by itself.
fn in_box(library: &Library, kind: CellKind, pin: u32) -> Element
    requires given { IsGiven library.now kind }
    requires pin { pin < inputs_of kind }
    ensures { result ≡ in_box library.now kind pin }
{
    known_sizes(library);
    let area = upright(library, library.input_column(kind, pin), 0, library.pin());
    boxed(INPUT_PIN, pin as u16, area)
}

/// An output pin of a cell by itself.
fn out_box(library: &Library, kind: CellKind, pin: u32) -> Element
    requires given { IsGiven library.now kind }
    requires pin { pin < outputs_of kind }
    ensures { result ≡ out_box library.now kind pin }
{
    known_sizes(library);
    let high = library.height();
    let low = high.saturating_sub(library.pin());
    let area = upright(library, library.output_column(kind, pin), low, high);
    boxed(OUTPUT_PIN, pin as u16, area)
}

/// Adds the input pins of a cell by itself.
fn push_inputs(library: &Library, kind: CellKind, elements: &mut Vec<Element>) -> Result<(), Memory>
    requires { IsGiven library.now kind }
    ensures { OnOk result (elements.new.items ≡ elements.old.items
        ++ map (in_box library.now kind) (numbers 0 (inputs_of kind))) }
{
    for pin in 0..kind.inputs() {
        elements.push(in_box(library, kind, pin))?;
    }
    Ok(())
}

/// Adds the output pins of a cell by itself.
fn push_outputs(
    library: &Library,
    kind: CellKind,
    elements: &mut Vec<Element>,
) -> Result<(), Memory>
    requires { IsGiven library.now kind }
    ensures { OnOk result (elements.new.items ≡ elements.old.items
        ++ map (out_box library.now kind) (numbers 0 (outputs_of kind))) }
{
    for pin in 0..kind.outputs() {
        elements.push(out_box(library, kind, pin))?;
    }
    Ok(())
}

/// The shapes of a cell by itself: its frame and its pins.
fn cell_boxes(alloc: Global, library: &Library, kind: CellKind) -> Result<Vec<Element>, Memory>
    requires { IsGiven library.now kind }
    ensures { IfOk result (λ elements. elements.items ≡ cell_boxes library.now kind) }
{
    known_sizes(library);
    let frame = Area {
        left: 0,
        low: 0,
        right: u64::from(kind.slots()) * (library.columns() * library.pitch()),
        high: library.height(),
    };
    let mut elements = Vec::new(alloc);
    elements.push(boxed(FRAME, kind.number(), frame))?;
    push_inputs(library, kind, &mut elements)?;
    push_outputs(library, kind, &mut elements)?;
    Ok(elements)
}

/// The structure of a kind.
pub(crate) fn cell_structure(
    alloc: Global,
    library: &Library,
    kind: CellKind,
) -> Result<Structure, Memory>
    requires { IsGiven library.now kind }
    ensures { IfOk result (λ structure. structure ≡ cell_structure library.now kind) }
{
    let mut name = Vec::new(alloc);
    name.extend_from_slice(kind_name(kind).as_bytes())?;
    let elements = cell_boxes(alloc, library, kind)?;
    Ok(Structure {
        name: Bytes::from_vec(name),
        elements: List::from_vec(elements),
    })
}
