// Worked chips, drawn with library A. The rectangles are those of another program that draws by the same formulas.
ghost use Rattle.std.specs.Prelude.{◌≡◌, IfOk};
ghost use Rattle.cell_library.specs.Laws.{IsLibrary};
ghost use Rattle.cell_library.specs.LibraryA.{library_a_view};
ghost use Rattle.layout_make.specs.MayDraw.{MayDraw};
ghost use Rattle.layout_make.specs.Chips as chips;
ghost use Rattle.test_plans.specs.TestChips as test_chips;

use crate::fixtures::{first, list, placed, second};
use aq_base::{List, Memory};
use cell_library::library_a;
use circuit::CellKind;
use geom::{Element, Layout};
use layout_make::{channel_wires, draw, element_number};
use rowed::{Placed, RowCell, Source, Wire};
use std::alloc::Global;
use std::test::Fail;

fn third_rows(alloc: Global) -> Result<Vec<List<RowCell>>, Memory>
    ensures { IfOk result (λ rows. rows.items ≡ chips.third_placed.net.rows) }
{
    let below = list(alloc, [RowCell::input(0)])?;
    let middle = list(alloc, [RowCell::fed(CellKind::Split3, first(0))])?;
    let above = list(
        alloc,
        [
            RowCell::output(first(0), 0),
            RowCell::output(second(0), 1),
            RowCell::output(Source { cell: 0, output: 2 }, 2),
        ],
    )?;
    Ok(Vec::from_array(alloc, [below, middle, above])?)
}

fn third_slots(alloc: Global) -> Result<Vec<List<u32>>, Memory>
    ensures { IfOk result (λ slots. slots.items ≡ chips.third_placed.slots) }
{
    let below = list(alloc, [0])?;
    let middle = list(alloc, [0])?;
    let above = list(alloc, [0, 1, 2])?;
    Ok(Vec::from_array(alloc, [below, middle, above])?)
}

// One input that is read three times.
fn third(alloc: Global) -> Result<Placed, Memory>
    ensures { IfOk result (λ placed. placed ≡ chips.third_placed) }
{
    let rows = third_rows(alloc)?;
    let slots = third_slots(alloc)?;
    Ok(placed(1, 3, rows, slots))
}

fn crossing_rows(alloc: Global) -> Result<Vec<List<RowCell>>, Memory>
    ensures { IfOk result (λ rows. rows.items ≡ test_chips.crossing_placed.net.rows) }
{
    let below = list(
        alloc,
        [
            RowCell::input(0),
            RowCell::bare(CellKind::Zero),
            RowCell::input(1),
        ],
    )?;
    let above = list(
        alloc,
        [RowCell::output(first(2), 1), RowCell::output(first(0), 0)],
    )?;
    Ok(Vec::from_array(alloc, [below, above])?)
}

fn crossing_slots(alloc: Global) -> Result<Vec<List<u32>>, Memory>
    ensures { IfOk result (λ slots. slots.items ≡ test_chips.crossing_placed.slots) }
{
    let below = list(alloc, [0, 1, 6])?;
    let above = list(alloc, [0, 7])?;
    Ok(Vec::from_array(alloc, [below, above])?)
}

// Two wires that cross, with slots between cells, and a constant that feeds nothing.
fn crossing(alloc: Global) -> Result<Placed, Memory>
    ensures { IfOk result (λ placed. placed ≡ test_chips.crossing_placed) }
{
    let rows = crossing_rows(alloc)?;
    let slots = crossing_slots(alloc)?;
    Ok(placed(2, 2, rows, slots))
}

fn column_rows(alloc: Global) -> Result<Vec<List<RowCell>>, Memory>
    ensures { IfOk result (λ rows. rows.items ≡ test_chips.column_placed.net.rows) }
{
    let lowest = list(alloc, [RowCell::input(0)])?;
    let second = list(alloc, [RowCell::buffer(first(0))])?;
    let third = list(alloc, [RowCell::buffer(first(0))])?;
    let fourth = list(alloc, [RowCell::buffer(first(0))])?;
    let last = list(alloc, [RowCell::output(first(0), 0)])?;
    Ok(Vec::from_array(alloc, [lowest, second, third, fourth, last])?)
}

fn column_slots(alloc: Global) -> Result<Vec<List<u32>>, Memory>
    ensures { IfOk result (λ slots. slots.items ≡ test_chips.column_placed.slots) }
{
    let lowest = list(alloc, [0])?;
    let second = list(alloc, [0])?;
    let third = list(alloc, [0])?;
    let fourth = list(alloc, [0])?;
    let last = list(alloc, [0])?;
    Ok(Vec::from_array(alloc, [lowest, second, third, fourth, last])?)
}

// Five rows of one buffer.
fn column(alloc: Global) -> Result<Placed, Memory>
    ensures { IfOk result (λ placed. placed ≡ test_chips.column_placed) }
{
    let rows = column_rows(alloc)?;
    let slots = column_slots(alloc)?;
    Ok(placed(1, 1, rows, slots))
}

// The layout of a net with library A.
fn layout(alloc: Global, net: &Placed) -> Result<Layout, Memory>
    requires { IsLibrary library_a_view → MayDraw net.now library_a_view }
{
    let library = library_a(alloc)?;
    library.known();
    match draw(alloc, net, &library) {
        Ok(layout) => Ok(layout),
        Err(_) => Err(Memory),
    }
}

// Whether the layout has so many structures, and so many elements in its top.
fn has_sizes(layout: &Layout, structures: usize, elements: usize) -> bool {
    match layout.structures.as_slice().get(layout.top as usize) {
        Some(top) => layout.structures.len() == structures && top.elements.len() == elements,
        None => false,
    }
}

// Whether an element of the top is a rectangle of a layer and a datatype.
fn has_box(layout: &Layout, number: usize, layer: u16, datatype: u16, sides: [i64; 4]) -> bool {
    let Some(top) = layout.structures.as_slice().get(layout.top as usize) else {
        return false;
    };
    match top.elements.as_slice().get(number) {
        Some(Element::Box(shape)) => {
            let rect = &shape.rect;
            shape.layer == layer
                && shape.datatype == datatype
                && [rect.x0, rect.y0, rect.x1, rect.y1] == sides
        }
        _ => false,
    }
}

// Whether an element of the top is a reference to a structure.
fn has_place(layout: &Layout, number: usize, structure: u32, x: i64, y: i64) -> bool {
    let Some(top) = layout.structures.as_slice().get(layout.top as usize) else {
        return false;
    };
    top.elements.as_slice().get(number) == Some(&Element::Place { structure, x, y })
}

fn third_chip(alloc: Global) -> Result<Layout, Memory> {
    let net = third(alloc)?;
    layout(alloc, &net)
}

#[test]
fn an_input_read_three_times(rt: HostRuntime) -> Result<(), Fail> {
    let chip = third_chip(rt.alloc())?;
    assert!(rt; has_sizes(&chip, 3, 35));
    assert!(rt; has_place(&chip, 8, 1, 0, 14000));
    assert!(rt; has_box(&chip, 10, 15, 0, [0, 14000, 24000, 24000]));
    assert!(rt; has_box(&chip, 25, 11, 0, [18700, 25700, 19300, 26300]));
    Ok(())
}

fn crossing_chip(alloc: Global) -> Result<Layout, Memory> {
    let net = crossing(alloc)?;
    layout(alloc, &net)
}

#[test]
fn crossing_wires(rt: HostRuntime) -> Result<(), Fail> {
    let chip = crossing_chip(rt.alloc())?;
    assert!(rt; has_sizes(&chip, 3, 23));
    assert!(rt; has_place(&chip, 2, 0, 48000, 0));
    assert!(rt; has_box(&chip, 7, 12, 0, [4500, 13500, 59500, 14500]));
    assert!(rt; has_box(&chip, 12, 12, 0, [2500, 11500, 53500, 12500]));
    assert!(rt; has_place(&chip, 16, 0, 56000, 16000));
    Ok(())
}

fn column_chip(alloc: Global) -> Result<Layout, Memory> {
    let net = column(alloc)?;
    layout(alloc, &net)
}

#[test]
fn links_of_five_rows(rt: HostRuntime) -> Result<(), Fail> {
    let chip = column_chip(rt.alloc())?;
    assert!(rt; has_sizes(&chip, 2, 37));
    assert!(rt; has_box(&chip, 17, 14, 1, [8000, 0, 12000, 38000]));
    assert!(rt; has_box(&chip, 25, 15, 1, [8000, 14000, 12000, 52000]));
    assert!(rt; has_box(&chip, 33, 14, 1, [-4000, 28000, 0, 66000]));
    Ok(())
}

// The wires of the lowest channel of a net, with library A.
fn lowest_wires(alloc: Global, net: &Placed) -> Result<List<Wire>, Memory>
    requires { net.now ≡ test_chips.crossing_placed }
{
    let library = library_a(alloc)?;
    channel_wires(alloc, net, &library, 0)
}

fn crossing_channel(alloc: Global) -> Result<List<Wire>, Memory> {
    let net = crossing(alloc)?;
    lowest_wires(alloc, &net)
}

#[test]
fn wires_of_a_channel(rt: HostRuntime) -> Result<(), Fail> {
    let wires = crossing_channel(rt.alloc())?;
    let first = Wire {
        from_slot: 0,
        to_slot: 7,
        from_column: 2,
        to_column: 29,
    };
    let second = Wire {
        from_slot: 6,
        to_slot: 0,
        from_column: 26,
        to_column: 1,
    };
    assert!(rt; wires.as_slice() == [first, second].as_slice());
    Ok(())
}

#[test]
fn elements_are_counted(rt: HostRuntime) -> Result<(), Fail> {
    let net = crossing(rt.alloc())?;
    assert_eq!(rt; element_number(&net), 23);
    Ok(())
}
