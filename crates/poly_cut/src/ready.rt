// Items with their figures cut, and without what adds nothing.
ghost use Rattle.std.specs.Prelude.{◌≡◌, ◌∷◌, [], Some, map, length, IfOk, OnOk};
ghost use Rattle.std.specs.List.{AllByRecursion};
ghost use Rattle.geom.specs.Rectangle.{Rectangle};
ghost use Rattle.poly_cut.specs.Figures.{cut_of, IsDrawn};
ghost use Rattle.poly_cut.specs.Conditions.{IsItem, AreItems};
ghost use Rattle.poly_cut.specs.FlatForm.{shape};
ghost use Rattle.poly_cut.specs.Code.Holding.{MarksAll};
ghost use Rattle.poly_cut.specs.Code.Readied.{AddsAs, GainsItem, IsDrawing, IsEntry, IsReadied, IsTable};

use crate::boxes::rectangle_of;
use crate::cutting::cut;
use crate::holding::mark_at;
use crate::layout::{Figure, Grid, Item, Point, Turn, WideStructure};
use aq_base::{List, Memory};
use geom::{Label, Rect, Shape};
use std::alloc::Global;

/// An item that adds something to a flat form, its figure being cut.
#[derive(Drop)]
pub enum Ready {
    /// The one rectangle of a ring that goes around it.
    Boxed(Shape),
    /// The rectangles of another figure.
    Drawn {
        layer: u16,
        datatype: u16,
        rects: List<Rect>,
    },
    /// A placement of a structure that holds something.
    Placed {
        structure: u32,
        at: Point,
        turn: Turn,
        grid: Grid,
    },
    /// A label.
    Shown(Label),
}

/// A rectangle on a layer and datatype.
pub fn shape_on(layer: u16, datatype: u16, rect: &Rect) -> Shape
    ensures { result ≡ shape layer datatype rect.now }
{
    Shape {
        layer,
        datatype,
        rect: *rect,
    }
}

/// The rectangle of a figure that is a ring around one.
fn boxed(figure: &Figure) -> Option<Rect>
    ensures { (rect : Rectangle) → result ≡ Some rect → cut_of figure.now ≡ rect ∷ [] }
{
    match figure {
        Figure::Ring(ring) => rectangle_of(ring.as_slice()),
        Figure::Path { .. } => None,
    }
}

/// A figure that is cut, on a layer and datatype. A rectangle takes no memory of its own.
fn drawn(alloc: Global, layer: u16, datatype: u16, figure: &Figure) -> Result<Ready, Memory>
    requires { IsDrawn figure.now }
    ensures { IfOk result (IsDrawing (map (shape layer datatype) (cut_of figure.now))) }
{
    if let Some(rect) = boxed(figure) {
        return Ok(Ready::Boxed(shape_on(layer, datatype, &rect)));
    }
    Ok(Ready::Drawn {
        layer,
        datatype,
        rects: cut(alloc, figure)?,
    })
}

/// A copy of a label, whose text it shares.
pub fn copied_label(label: &Label) -> Result<Label, Memory>
    ensures { IfOk result (λ l. l ≡ label.now) }
{
    Ok(Label {
        layer: label.layer,
        x: label.x,
        y: label.y,
        text: label.text.clone()?,
    })
}

/// What an item adds, unless it places a structure that holds nothing.
pub fn ready_item(
    alloc: Global,
    structures: &[WideStructure],
    marks: &[bool],
    item: &Item,
) -> Result<Option<Ready>, Memory>
    requires marks { MarksAll structures.now marks.now }
    requires item { IsItem (length structures.now) item.now }
    ensures { IfOk result (IsReadied structures.now item.now) }
{
    match item {
        Item::Draw {
            layer,
            datatype,
            figure,
        } => Ok(Some(drawn(alloc, *layer, *datatype, figure)?)),
        Item::Place {
            structure,
            at,
            turn,
            grid,
        } => {
            if !mark_at(marks, *structure) {
                return Ok(None);
            }
            Ok(Some(Ready::Placed {
                structure: *structure,
                at: *at,
                turn: *turn,
                grid: *grid,
            }))
        }
        Item::Text(label) => Ok(Some(Ready::Shown(copied_label(label)?))),
    }
}

/// Adds what an item adds.
fn add_ready(
    alloc: Global,
    structures: &[WideStructure],
    marks: &[bool],
    item: &Item,
    ready: &mut List<Ready>,
) -> Result<(), Memory>
    requires marks { MarksAll structures.now marks.now }
    requires item { IsItem (length structures.now) item.now }
    ensures { OnOk result (GainsItem structures.now item.now ready.old ready.new) }
{
    match ready_item(alloc, structures, marks, item)? {
        Some(adds) => ready.push(adds),
        None => Ok(()),
    }
}

/// What items add.
fn ready_items(
    alloc: Global,
    structures: &[WideStructure],
    marks: &[bool],
    items: &[Item],
) -> Result<List<Ready>, Memory>
    requires marks { MarksAll structures.now marks.now }
    requires items { AllByRecursion (IsItem (length structures.now)) items.now }
    ensures { IfOk result (λ ready. AddsAs structures.now items.now ready) }
{
    let mut ready = List::new(alloc);
    for item in items {
        add_ready(alloc, structures, marks, item, &mut ready)?;
    }
    Ok(ready)
}

/// Counts a visit to a structure, and has it wait to be looked into. Visits behind the second are not told.
fn note_visit(visits: &mut Vec<u8>, waiting: &mut Vec<u32>, structure: u32) -> Result<(), Memory> {
    if let Some(count) = visits.get_mut(structure as usize)
        && *count < 2
    {
        *count += 1;
        waiting.push(structure)?;
    }
    Ok(())
}

/// How often each structure is visited from the top down, as far as two: once for each item that places it in each
/// visit to the structure of that item. No clause rests on it: what it misses is made ready at each visit.
fn visits(alloc: Global, structures: &[WideStructure], top: u32) -> Result<Vec<u8>, Memory> {
    let mut visits = Vec::with_capacity(alloc, structures.len())?;
    for _ in 0..structures.len() {
        visits.push(0)?;
    }
    let mut waiting = Vec::new(alloc);
    note_visit(&mut visits, &mut waiting, top)?;
    for _ in 0..structures.len().saturating_mul(2) {
        let Some(visited) = waiting.pop() else {
            break;
        };
        let Some(visited) = structures.get(visited as usize) else {
            continue;
        };
        for item in visited.items.as_slice() {
            if let Item::Place { structure, .. } = item {
                note_visit(&mut visits, &mut waiting, *structure)?;
            }
        }
    }
    Ok(visits)
}

/// What the items of a structure add, if that is asked.
fn entry(
    alloc: Global,
    structures: &[WideStructure],
    marks: &[bool],
    structure: &WideStructure,
    asked: bool,
) -> Result<Option<List<Ready>>, Memory>
    requires marks { MarksAll structures.now marks.now }
    requires items { AllByRecursion (IsItem (length structures.now)) structure.now.items }
    ensures { IfOk result (IsEntry structures.now structure.now.items) }
{
    if !asked {
        return Ok(None);
    }
    Ok(Some(ready_items(alloc, structures, marks, structure.items.as_slice())?))
}

/// What the items of each structure add that is visited more than once: so each figure is cut once, and what is visited
/// once is not kept a second time.
pub fn ready_table(
    alloc: Global,
    structures: &[WideStructure],
    marks: &[bool],
    top: u32,
) -> Result<Vec<Option<List<Ready>>>, Memory>
    requires marks { MarksAll structures.now marks.now }
    requires items { AreItems (length structures.now) structures.now }
    ensures { IfOk result (λ table. IsTable structures.now table.items) }
{
    let visits = visits(alloc, structures, top)?;
    let mut table = Vec::with_capacity(alloc, structures.len())?;
    for (number, structure) in structures.iter().enumerate() {
        let asked = visits.get(number).copied() == Some(2);
        table.push(entry(alloc, structures, marks, structure, asked)?)?;
    }
    Ok(table)
}
