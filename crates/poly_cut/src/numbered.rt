// The shape or label of a number in a flat form, without making it: counts tell the way down to it.
ghost use Rattle.std.specs.Prelude.{◌≡◌, ◌*◌, ◌^◌, ◌-◌, ◌<◌, ℕ, length, map, slice_get, option_map, IfOk};
ghost use Rattle.poly_cut.specs.declared.numbered.Drawn.TheVariants.{Shape as Boxed, Label as Named};
ghost use Rattle.poly_cut.specs.Turns.{grid_points, placed_shape, placed_label};
ghost use Rattle.poly_cut.specs.Figures.{cut_of, IsDrawn};
ghost use Rattle.poly_cut.specs.Conditions.{AreItems, IsFlattenable, IsGrid};
ghost use Rattle.poly_cut.specs.FlatForm.{shape, items_at, wide_flat};
ghost use Rattle.poly_cut.specs.Counts.{item_count};
ghost use Rattle.poly_cut.specs.Numbers.{drawn_at};
ghost use Rattle.poly_cut.specs.Code.Counted.{Tell};
ghost use Rattle.poly_cut.specs.Code.Numbered.{all_shapes, all_labels, AreShort, EndsWithin, IsSpot, IsCopied};

use crate::counts::{CountedKinds, count_at, counts, item_count};
use crate::cutting::cut;
use crate::grids::grid_point;
use crate::layout::{Figure, Grid, Item, Point, WideLayout, WideStructure};
use crate::ready::{copied_label, shape_on};
use crate::turns::{placed_label, placed_shape};
use aq_base::Memory;
use geom::{Label, Shape};
use std::alloc::Global;

/// A shape or a label of a flat form.
#[derive(Drop)]
pub enum Drawn {
    Shape(Shape),
    Label(Label),
}

/// Where the shape or label of a number is: in the item at this place, as the one of this number there.
#[derive(Clone, Copy)]
struct Spot {
    item: usize,
    number: u64,
}

/// So among the copies of a structure: at this point, as the one of this number there.
#[derive(Clone, Copy)]
struct Copied {
    point: Point,
    number: u64,
}

/// The spot of a number, if the items add so many.
#[tactic(auto, using(crate::proofs::Numbering::spot_here))]
fn spot_of(items: &[Item], counts: &[u64], kinds: CountedKinds, number: u64) -> Option<Spot>
    requires { number < 2 ^ 64 - 1 }
    ensures { (of : ℕ → ℕ) → Tell counts.now of → IsSpot (item_count kinds of) items.now number result }
{
    let mut left = number;
    for (place, item) in items.iter().enumerate() {
        let count = item_count(item, counts, kinds);
        if left < count {
            return Some(Spot {
                item: place,
                number: left,
            });
        }
        left -= count;
    }
    None
}

/// The copy of a number, where each has so many.
fn copy_at(at: &Point, grid: &Grid, count: u64, number: u64) -> Copied
    requires grid { IsGrid at.now grid.now }
    requires some { 0 < count }
    requires within { number < grid.now.rows * grid.now.columns * count }
    ensures { IsCopied (grid_points at.now grid.now) count number result }
{
    Copied {
        point: grid_point(at, grid, number / count),
        number: number % count,
    }
}

/// The items of a structure; none past the last.
fn items_of(structures: &[WideStructure], structure: u32) -> &[Item]
    ensures { result.now ≡ items_at structures.now structure }
{
    match structures.get(structure as usize) {
        Some(structure) => structure.items.as_slice(),
        None => &[],
    }
}

/// The rectangle of a number in a figure, on a layer and datatype.
fn rect_at(
    alloc: Global,
    layer: u16,
    datatype: u16,
    figure: &Figure,
    number: u64,
) -> Result<Option<Shape>, Memory>
    requires { IsDrawn figure.now }
    ensures { IfOk result (λ found. found ≡ slice_get (map (shape layer datatype) (cut_of figure.now)) number) }
{
    let rects = cut(alloc, figure)?;
    match rects.as_slice().get(number as usize) {
        Some(rect) => Ok(Some(shape_on(layer, datatype, rect))),
        None => Ok(None),
    }
}

/// The shape of a number in what a structure adds, from which no chain of so many references goes down.
fn shape_in(
    alloc: Global,
    structures: &[WideStructure],
    counts: &[u64],
    depth: usize,
    structure: u32,
    number: u64,
) -> Result<Option<Shape>, Memory>
    requires items { AreItems (length structures.now) structures.now }
    requires short { AreShort structures.now }
    requires counts { Tell counts.now (λ n. length (all_shapes structures.now n)) }
    requires deep { EndsWithin depth structures.now structure }
    requires number { number < 2 ^ 64 - 1 }
    ensures { IfOk result (λ found. found ≡ slice_get (all_shapes structures.now structure) number) }
{
    let items = items_of(structures, structure);
    let kinds = CountedKinds {
        shapes: true,
        labels: false,
    };
    let Some(spot) = spot_of(items, counts, kinds, number) else {
        return Ok(None);
    };
    match &items[spot.item] {
        Item::Draw {
            layer,
            datatype,
            figure,
        } => rect_at(alloc, *layer, *datatype, figure, spot.number),
        Item::Place {
            structure,
            at,
            turn,
            grid,
        } => {
            let copied = copy_at(at, grid, count_at(counts, *structure), spot.number);
            match shape_in(
                alloc,
                structures,
                counts,
                depth - 1,
                *structure,
                copied.number,
            )? {
                Some(shape) => Ok(Some(placed_shape(&shape, turn, &copied.point))),
                None => Ok(None),
            }
        }
        Item::Text(_) => Ok(None),
    }
}

/// The label of a number in what a structure adds, from which no chain of so many references goes down.
fn label_in(
    alloc: Global,
    structures: &[WideStructure],
    counts: &[u64],
    depth: usize,
    structure: u32,
    number: u64,
) -> Result<Option<Label>, Memory>
    requires items { AreItems (length structures.now) structures.now }
    requires short { AreShort structures.now }
    requires counts { Tell counts.now (λ n. length (all_labels structures.now n)) }
    requires deep { EndsWithin depth structures.now structure }
    requires number { number < 2 ^ 64 - 1 }
    ensures { IfOk result (λ found. found ≡ slice_get (all_labels structures.now structure) number) }
{
    let items = items_of(structures, structure);
    let kinds = CountedKinds {
        shapes: false,
        labels: true,
    };
    let Some(spot) = spot_of(items, counts, kinds, number) else {
        return Ok(None);
    };
    match &items[spot.item] {
        Item::Draw { .. } => Ok(None),
        Item::Place {
            structure,
            at,
            turn,
            grid,
        } => {
            let copied = copy_at(at, grid, count_at(counts, *structure), spot.number);
            match label_in(
                alloc,
                structures,
                counts,
                depth - 1,
                *structure,
                copied.number,
            )? {
                Some(label) => Ok(Some(placed_label(&label, turn, &copied.point)?)),
                None => Ok(None),
            }
        }
        Item::Text(label) => Ok(Some(copied_label(label)?)),
    }
}

/// The shape of a number in the flat form, where these are the counts of shapes.
fn shape_at(
    alloc: Global,
    wide: &WideLayout,
    counts: &[u64],
    number: u64,
) -> Result<Option<Drawn>, Memory>
    requires layout { IsFlattenable wide.now }
    requires counts { Tell counts.now (λ n. length (all_shapes wide.now.structures n)) }
    requires number { number < 2 ^ 64 - 1 }
    ensures { IfOk result (λ found. found ≡ option_map Boxed (slice_get (wide_flat wide.now).shapes number)) }
{
    match shape_in(
        alloc,
        wide.structures.as_slice(),
        counts,
        65,
        wide.top,
        number,
    )? {
        Some(shape) => Ok(Some(Drawn::Shape(shape))),
        None => Ok(None),
    }
}

/// The label of a number in the flat form, where these are the counts of labels.
fn label_at(
    alloc: Global,
    wide: &WideLayout,
    counts: &[u64],
    number: u64,
) -> Result<Option<Drawn>, Memory>
    requires layout { IsFlattenable wide.now }
    requires counts { Tell counts.now (λ n. length (all_labels wide.now.structures n)) }
    requires number { number < 2 ^ 64 - 1 }
    ensures { IfOk result (λ found. found ≡ option_map Named (slice_get (wide_flat wide.now).labels number)) }
{
    match label_in(
        alloc,
        wide.structures.as_slice(),
        counts,
        65,
        wide.top,
        number,
    )? {
        Some(label) => Ok(Some(Drawn::Label(label))),
        None => Ok(None),
    }
}

/// How many shapes each structure has.
fn shape_counts(alloc: Global, structures: &[WideStructure]) -> Result<Vec<u64>, Memory>
    ensures { IfOk result (λ counts. Tell counts.items (λ n. length (all_shapes structures.now n))) }
{
    let kinds = CountedKinds {
        shapes: true,
        labels: false,
    };
    counts(alloc, structures, kinds)
}

/// How many labels each structure has.
fn label_counts(alloc: Global, structures: &[WideStructure]) -> Result<Vec<u64>, Memory>
    ensures { IfOk result (λ counts. Tell counts.items (λ n. length (all_labels structures.now n))) }
{
    let kinds = CountedKinds {
        shapes: false,
        labels: true,
    };
    counts(alloc, structures, kinds)
}

/// The shape or label of a number in the flat form of a wide layout, which isn't made: no more memory is taken than
/// for the counts of the layout's structures and for the rectangles of one figure. Labels are numbered after all
/// shapes.
pub fn drawn_at(alloc: Global, wide: &WideLayout, number: u64) -> Result<Option<Drawn>, Memory>
    requires { IsFlattenable wide.now }
    ensures { IfOk result (λ found. found ≡ drawn_at (wide_flat wide.now) number) }
{
    let structures = wide.structures.as_slice();
    let counts = shape_counts(alloc, structures)?;
    let shapes = count_at(counts.as_slice(), wide.top);
    if number < shapes {
        return shape_at(alloc, wide, counts.as_slice(), number);
    }
    let counts = label_counts(alloc, structures)?;
    let number = number - shapes;
    if number >= count_at(counts.as_slice(), wide.top) {
        return Ok(None);
    }
    label_at(alloc, wide, counts.as_slice(), number)
}
