ghost use Rattle.std.specs.Prelude.{◌<ℤ◌};

use crate::{Rect, Shape, file_numbered, file_shapes};
use aq_base::{List, Memory};
use std::test::Fail;

fn shape(x0: i64, y0: i64, x1: i64, y1: i64) -> Shape
    requires x { x0 <ℤ x1 }
    requires y { y0 <ℤ y1 }
{
    Shape {
        layer: 10,
        datatype: 0,
        rect: Rect { x0, y0, x1, y1 },
    }
}

#[test]
fn three_rectangles(rt: HostRuntime) -> Result<(), Fail> {
    let mut shapes = List::new(rt.alloc());
    shapes.push(shape(0, 0, 2, 2))?;
    shapes.push(shape(2, 2, 4, 4))?;
    shapes.push(shape(5, 0, 6, 2))?;
    let index = file_shapes(rt.alloc(), &shapes)?;
    let first = shape(0, 0, 2, 2);
    let touching = index.near(rt.alloc(), &first.rect, 0)?;
    assert_eq!(rt; touching.as_slice(), [0, 1].as_slice());
    let close = index.near(rt.alloc(), &first.rect, 3)?;
    assert_eq!(rt; close.as_slice(), [0, 1, 2].as_slice());
    let apart = index.near(rt.alloc(), &first.rect, 2)?;
    assert_eq!(rt; apart.as_slice(), [0, 1].as_slice());
    Ok(())
}

/// Those that are found have the places of their numbers.
#[test]
fn numbered_rectangles(rt: HostRuntime) -> Result<(), Fail> {
    let mut shapes = List::new(rt.alloc());
    shapes.push(shape(0, 0, 2, 2))?;
    shapes.push(shape(2, 2, 4, 4))?;
    shapes.push(shape(5, 0, 6, 2))?;
    let numbers: [u32; 2] = [2, 1];
    let index = file_numbered(rt.alloc(), shapes.as_slice(), numbers.as_slice())?;
    assert_eq!(rt; index.len(), 2);
    let touching = index.near(rt.alloc(), &shapes.get(0).rect, 0)?;
    assert_eq!(rt; touching.as_slice(), [1].as_slice());
    Ok(())
}

/// One coordinate of more than 32 bits changes nothing of what is found.
#[test]
fn far_rectangles(rt: HostRuntime) -> Result<(), Fail> {
    let mut shapes = List::new(rt.alloc());
    shapes.push(shape(0, 0, 2, 2))?;
    shapes.push(shape(2, 2, 4, 4))?;
    shapes.push(shape(2_147_483_646, 0, 2_147_483_648, 2))?;
    shapes.push(shape(2_147_483_648, 2, 2_147_483_650, 4))?;
    let numbers: [u32; 4] = [0, 1, 2, 3];
    let index = file_numbered(rt.alloc(), shapes.as_slice(), numbers.as_slice())?;
    let near = index.near(rt.alloc(), &shapes.get(0).rect, 0)?;
    assert_eq!(rt; near.as_slice(), [0, 1].as_slice());
    let far = index.near(rt.alloc(), &shapes.get(2).rect, 0)?;
    assert_eq!(rt; far.as_slice(), [2, 3].as_slice());
    Ok(())
}

/// A bar as wide as the chip meets all that stands in its row, and a shape in the row meets the bar.
#[test]
fn a_bar_over_a_row(rt: HostRuntime) -> Result<(), Fail> {
    let mut shapes = List::new(rt.alloc());
    shapes.push(shape(-4_000, 0, 3_000_000, 10_000))?;
    shapes.push(shape(2_500, 0, 3_500, 1_000))?;
    shapes.push(shape(2_990_000, 9_000, 2_991_000, 12_500))?;
    shapes.push(shape(2_990_000, 14_000, 2_998_000, 24_000))?;
    shapes.push(shape(-4_000, 14_000, 3_000_000, 24_000))?;
    let index = file_shapes(rt.alloc(), &shapes)?;
    let row = index.near(rt.alloc(), &shapes.get(0).rect, 0)?;
    assert_eq!(rt; row.as_slice(), [0, 1, 2].as_slice());
    let next = index.near(rt.alloc(), &shapes.get(2).rect, 1_500)?;
    assert_eq!(rt; next.as_slice(), [0, 2, 3, 4].as_slice());
    Ok(())
}
