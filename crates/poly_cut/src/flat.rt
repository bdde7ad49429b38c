// The flat form of a wide layout.
ghost use Rattle.std.specs.Prelude.{◌≡◌, ◌≤◌, ◌<◌, ◌^◌, ◌++◌, [], map, length, All, IfOk, OnOk};
ghost use Rattle.std.specs.List.{flat_map, AllByRecursion};
ghost use Rattle.poly_cut.specs.Turns.{placed_shape, placed_label};
ghost use Rattle.poly_cut.specs.Bounds.{IsShapeWithin, IsLabelWithin, IsNear};
ghost use Rattle.poly_cut.specs.Conditions.{IsItem, IsFlattenable};
ghost use Rattle.poly_cut.specs.FlatForm.{shape, item_shapes, item_labels, shapes_of, labels_of, wide_flat};
ghost use Rattle.poly_cut.specs.Code.Flattening.{IsFlattening};
ghost use Rattle.poly_cut.specs.Code.Readied.{IsReady, ready_shapes, ready_labels};

use crate::grids::grid_points;
use crate::holding::marks;
use crate::layout::{Item, Point, Turn, WideLayout, WideStructure};
use crate::ready::{Ready, copied_label, ready_item, ready_table, shape_on};
use crate::turns::{placed_label, placed_shape};
use aq_base::{List, Memory};
use geom::{Flat, Label, Rect, Shape};
use std::alloc::Global;

/// Shapes and labels.
#[derive(Drop)]
struct Part {
    shapes: List<Shape>,
    labels: List<Label>,
}

/// No shapes and no labels.
fn nothing(alloc: Global) -> Part
    ensures shapes { result.shapes ≡ [] }
    ensures labels { result.labels ≡ [] }
{
    Part {
        shapes: List::new(alloc),
        labels: List::new(alloc),
    }
}

/// Adds shapes, turned and moved.
fn add_shapes(
    shapes: &mut List<Shape>,
    part: &[Shape],
    turn: &Turn,
    by: &Point,
) -> Result<(), Memory>
    requires part { All (IsShapeWithin (2 ^ 40)) part.now }
    requires turn { turn.now.quarter < 4 }
    requires by { IsNear (2 ^ 40) by.now }
    ensures { OnOk result (shapes.new ≡ shapes.old ++ map (placed_shape turn.now by.now) part.now) }
{
    for shape in part {
        shapes.push(placed_shape(shape, turn, by))?;
    }
    Ok(())
}

/// Adds labels, turned and moved.
fn add_labels(
    labels: &mut List<Label>,
    part: &[Label],
    turn: &Turn,
    by: &Point,
) -> Result<(), Memory>
    requires part { All (IsLabelWithin (2 ^ 40)) part.now }
    requires turn { turn.now.quarter < 4 }
    requires by { IsNear (2 ^ 40) by.now }
    ensures { OnOk result (labels.new ≡ labels.old ++ map (placed_label turn.now by.now) part.now) }
{
    for label in part {
        labels.push(placed_label(label, turn, by)?)?;
    }
    Ok(())
}

/// Adds the rectangles of a figure on a layer and datatype.
fn add_drawn(
    shapes: &mut List<Shape>,
    layer: u16,
    datatype: u16,
    rects: &[Rect],
) -> Result<(), Memory>
    ensures { OnOk result (shapes.new ≡ shapes.old ++ map (shape layer datatype) rects.now) }
{
    for rect in rects {
        shapes.push(shape_on(layer, datatype, rect))?;
    }
    Ok(())
}

/// Adds a part at each of the points.
fn add_copies(flat: &mut Part, part: &Part, turn: &Turn, points: &[Point]) -> Result<(), Memory>
    requires shapes { All (IsShapeWithin (2 ^ 40)) part.now.shapes }
    requires labels { All (IsLabelWithin (2 ^ 40)) part.now.labels }
    requires turn { turn.now.quarter < 4 }
    requires points { All (IsNear (2 ^ 40)) points.now }
    ensures shapes { OnOk result (flat.new.shapes ≡ flat.old.shapes ++ flat_map
        (λ p. map (placed_shape turn.now p) part.now.shapes) points.now) }
    ensures labels { OnOk result (flat.new.labels ≡ flat.old.labels ++ flat_map
        (λ p. map (placed_label turn.now p) part.now.labels) points.now) }
{
    for point in points {
        add_shapes(&mut flat.shapes, part.shapes.as_slice(), turn, point)?;
        add_labels(&mut flat.labels, part.labels.as_slice(), turn, point)?;
    }
    Ok(())
}

/// What is flattened: structures, which of them hold something, and what the items of each add that is visited more
/// than once.
#[derive(Clone, Copy)]
struct Flattening<'a> {
    structures: &'a [WideStructure],
    marks: &'a [bool],
    table: &'a [Option<List<Ready>>],
}

/// Adds what an item adds, down chains of fewer references than this.
#[cycle(flatten)]
fn add_item(
    alloc: Global,
    flattening: &Flattening<'_>,
    depth: usize,
    item: &Ready,
    flat: &mut Part,
) -> Result<(), Memory>
    requires depth { depth ≤ 64 }
    requires flattening { IsFlattening flattening.now }
    requires item { IsReady (length flattening.now.structures.now) item.now }
    ensures shapes { OnOk result (flat.new.shapes ≡ flat.old.shapes ++ ready_shapes
        (shapes_of depth flattening.now.structures.now) item.now) }
    ensures labels { OnOk result (flat.new.labels ≡ flat.old.labels ++ ready_labels
        (labels_of depth flattening.now.structures.now) item.now) }
{
    match item {
        Ready::Boxed(shape) => flat.shapes.push(*shape),
        Ready::Drawn {
            layer,
            datatype,
            rects,
        } => add_drawn(&mut flat.shapes, *layer, *datatype, rects.as_slice()),
        Ready::Placed {
            structure,
            at,
            turn,
            grid,
        } => {
            let part = part_of(alloc, flattening, depth, *structure)?;
            let points = grid_points(alloc, at, grid)?;
            add_copies(flat, &part, turn, points.as_slice())
        }
        Ready::Shown(label) => flat.labels.push(copied_label(label)?),
    }
}

/// The shapes and labels that items add, down chains of fewer references than this.
#[cycle(flatten)]
fn part_with(
    alloc: Global,
    flattening: &Flattening<'_>,
    depth: usize,
    items: &[Ready],
) -> Result<Part, Memory>
    requires depth { depth ≤ 64 }
    requires flattening { IsFlattening flattening.now }
    requires each { AllByRecursion (IsReady (length flattening.now.structures.now)) items.now }
    ensures shapes { IfOk result
        (λ part. part.shapes ≡ flat_map (ready_shapes (shapes_of depth flattening.now.structures.now)) items.now) }
    ensures labels { IfOk result
        (λ part. part.labels ≡ flat_map (ready_labels (labels_of depth flattening.now.structures.now)) items.now) }
{
    let mut part = nothing(alloc);
    for item in items {
        add_item(alloc, flattening, depth, item, &mut part)?;
    }
    Ok(part)
}

/// Adds what an item adds, which is made ready and let go again.
#[cycle(flatten)]
fn add_own(
    alloc: Global,
    flattening: &Flattening<'_>,
    depth: usize,
    item: &Item,
    flat: &mut Part,
) -> Result<(), Memory>
    requires depth { depth ≤ 64 }
    requires flattening { IsFlattening flattening.now }
    requires item { IsItem (length flattening.now.structures.now) item.now }
    ensures shapes { OnOk result (flat.new.shapes ≡ flat.old.shapes ++ item_shapes
        (shapes_of depth flattening.now.structures.now) item.now) }
    ensures labels { OnOk result (flat.new.labels ≡ flat.old.labels ++ item_labels
        (labels_of depth flattening.now.structures.now) item.now) }
{
    match ready_item(alloc, flattening.structures, flattening.marks, item)? {
        Some(ready) => add_item(alloc, flattening, depth, &ready, flat),
        None => Ok(()),
    }
}

/// The shapes and labels that items add, one by one, down chains of fewer references than this.
#[cycle(flatten)]
fn part_from(
    alloc: Global,
    flattening: &Flattening<'_>,
    depth: usize,
    items: &[Item],
) -> Result<Part, Memory>
    requires depth { depth ≤ 64 }
    requires flattening { IsFlattening flattening.now }
    requires each { AllByRecursion (IsItem (length flattening.now.structures.now)) items.now }
    ensures shapes { IfOk result
        (λ part. part.shapes ≡ flat_map (item_shapes (shapes_of depth flattening.now.structures.now)) items.now) }
    ensures labels { IfOk result
        (λ part. part.labels ≡ flat_map (item_labels (labels_of depth flattening.now.structures.now)) items.now) }
{
    let mut part = nothing(alloc);
    for item in items {
        add_own(alloc, flattening, depth, item, &mut part)?;
    }
    Ok(part)
}

/// The flat form of a structure, down chains of fewer references than this: so at most 65 structures stand on one
/// another.
#[cycle(flatten)]
fn part_of(
    alloc: Global,
    flattening: &Flattening<'_>,
    depth: usize,
    number: u32,
) -> Result<Part, Memory>
    requires depth { depth ≤ 65 }
    requires flattening { IsFlattening flattening.now }
    ensures shapes { IfOk result (λ part. part.shapes ≡ shapes_of depth flattening.now.structures.now number) }
    ensures labels { IfOk result (λ part. part.labels ≡ labels_of depth flattening.now.structures.now number) }
{
    if depth == 0 || number as usize >= flattening.structures.len() {
        return Ok(nothing(alloc));
    }
    if let Some(Some(ready)) = flattening.table.get(number as usize) {
        return part_with(alloc, flattening, depth - 1, ready.as_slice());
    }
    let structure = &flattening.structures[number as usize];
    part_from(alloc, flattening, depth - 1, structure.items.as_slice())
}

/// The flat form of a wide layout: that of the top structure, where a reference stands at each point of its grid for
/// what its structure holds, turned and moved. Coordinates are in nanometres.
pub fn flatten_wide(alloc: Global, wide: &WideLayout) -> Result<Flat, Memory>
    requires { IsFlattenable wide.now }
    ensures { IfOk result (λ flat. flat ≡ wide_flat wide.now) }
{
    let structures = wide.structures.as_slice();
    let marks = marks(alloc, structures)?;
    let table = ready_table(alloc, structures, &marks, wide.top)?;
    let flattening = Flattening {
        structures,
        marks: &marks,
        table: &table,
    };
    let Part { shapes, labels } = part_of(alloc, &flattening, 65, wide.top)?;
    Ok(Flat { shapes, labels })
}
