// Nets of a few shapes.
ghost use Rattle.std.specs.Prelude.{◌<◌, length};

use aq_base::{List, Memory};
use geom::{Flat, Rect, Shape};
use layout_rules::layers::{INPUT_PIN, M1, M2, OUTPUT_PIN, VIA};
use shape_extract::nets;
use std::alloc::Global;
use std::test::Fail;

fn shape(layer: u16, x: i32, y: i32, wider: u8, higher: u8) -> Shape {
    let (x0, y0) = (i64::from(x), i64::from(y));
    Shape {
        layer,
        datatype: 0,
        rect: Rect {
            x0,
            y0,
            x1: x0 + 10 + i64::from(wider),
            y1: y0 + 10 + i64::from(higher),
        },
    }
}

fn nets_of(alloc: Global, shapes: &[Shape]) -> Result<List<u32>, Memory>
    requires { length shapes.now < 100 }
{
    let flat = Flat {
        shapes: List::from_vec(shapes.to_vec(alloc)?),
        labels: List::new(alloc),
    };
    nets(alloc, &flat)
}

fn lower() -> Shape {
    shape(M1, 0, 0, 90, 0)
}

fn upper() -> Shape {
    shape(M2, 50, -50, 0, 90)
}

fn via(x: i32) -> Shape {
    shape(VIA, x, 0, 0, 0)
}

#[test]
fn nets_of_a_few_shapes(rt: HostRuntime) -> Result<(), Fail> {
    let crossing = nets_of(rt.alloc(), &[lower(), upper()])?;
    assert_eq!(rt; crossing.as_slice(), [0, 1].as_slice());
    let by_via = nets_of(rt.alloc(), &[upper(), lower(), via(50)])?;
    assert_eq!(rt; by_via.as_slice(), [0, 0, 0].as_slice());
    let vias = nets_of(rt.alloc(), &[via(0), via(5)])?;
    assert_eq!(rt; vias.as_slice(), [0, 1].as_slice());
    let heaps = nets_of(
        rt.alloc(),
        &[via(200), via(200), lower(), via(50), via(50), lower()],
    )?;
    assert_eq!(rt; heaps.as_slice(), [0, 1, 2, 2, 2, 2].as_slice());
    Ok(())
}

#[test]
fn pins_that_share_a_corner(rt: HostRuntime) -> Result<(), Fail> {
    let pins = nets_of(
        rt.alloc(),
        &[
            shape(OUTPUT_PIN, 0, 0, 0, 0),
            shape(INPUT_PIN, 10, 10, 0, 0),
        ],
    )?;
    assert_eq!(rt; pins.as_slice(), [0, 0].as_slice());
    Ok(())
}
