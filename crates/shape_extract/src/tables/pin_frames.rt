// The frames of pins, where the rule of cells is kept.
ghost use Rattle.std.specs.Prelude.{◌≡◌, ◌^◌, ◌<◌, ℕ, IfOk, true, length, slice_get, Some};
ghost use Rattle.geom.specs.declared.shapes.Shape.{Shape};
ghost use Rattle.layout_rules.specs.Layers.{is_pin};
ghost use Rattle.layout_rules.specs.Pins.{LiesIn};
ghost use Rattle.layout_rules.specs.Reports.{ReportsNone, Passes};
ghost use Rattle.layout_rules.specs.CircuitRules.{CellsBroken};
ghost use Rattle.shape_extract.specs.Code.FramesOfPins.{ArePinFrames};
ghost use Rattle.shape_extract.specs.Filed.{IsFiled};

use crate::filed_shapes::FiledShapes;
use crate::layers::is_pin;
use crate::pairs::list_filed_partners;
use crate::planes::Plane;
use crate::tables::pins_in_frames::PinInFrame;
use aq_base::Memory;
use geom::Shape;
use std::alloc::Global;

/// The one frame in which a pin lies.
fn frame_of(
    shapes: &[Shape],
    filed: &FiledShapes,
    p: u32,
    found: &mut Vec<u32>,
) -> Result<u32, Memory>
    requires filed { IsFiled shapes.now filed.now }
    requires few { length shapes.now < 2 ^ 32 }
    requires kept { ReportsNone (CellsBroken shapes.now) }
    requires pin { Passes is_pin shapes.now p }
    ensures { IfOk result (λ f. LiesIn shapes.now p f) }
{
    list_filed_partners(&PinInFrame, Plane::Frames, shapes, filed, p, found)?;
    Ok(found[0])
}

/// The frame of a pin, and 0 for another shape.
fn frame_or_zero(
    shapes: &[Shape],
    filed: &FiledShapes,
    p: u32,
    found: &mut Vec<u32>,
) -> Result<u32, Memory>
    requires filed { IsFiled shapes.now filed.now }
    requires few { length shapes.now < 2 ^ 32 }
    requires kept { ReportsNone (CellsBroken shapes.now) }
    requires within { p < length shapes.now }
    ensures { IfOk result (λ f. Passes is_pin shapes.now p → LiesIn shapes.now p f) }
{
    if !is_pin(&shapes[p as usize]) {
        return Ok(0);
    }
    frame_of(shapes, filed, p, found)
}

/// For each shape a number, which for a pin is that of the frame in which it lies. It is refused for want of memory
/// alone.
pub fn pin_frames(alloc: Global, shapes: &[Shape], filed: &FiledShapes) -> Result<Vec<u32>, Memory>
    requires filed { IsFiled shapes.now filed.now }
    requires few { length shapes.now < 2 ^ 32 }
    requires kept { ReportsNone (CellsBroken shapes.now) }
    ensures { IfOk result (λ frames. ArePinFrames shapes.now frames.items) }
{
    let mut found = Vec::new(alloc);
    let mut frames = Vec::new(alloc);
    for p in 0..shapes.len() as u32 {
        frames.push(frame_or_zero(shapes, filed, p, &mut found)?)?;
    }
    Ok(frames)
}
