// The frames in the order of the cells.
ghost use Rattle.std.specs.Prelude.{◌≡◌, ◌^◌, ◌<◌, ◌≤◌, IfOk, IsSorted, length};
ghost use Rattle.shape_extract.specs.Code.Corners.{corner_of, AreCorners, numbers_of, ArePlaces};
ghost use Rattle.shape_extract.specs.Frames.{AreFrames};

use crate::layers::is_frame;
use aq_base::Memory;
use geom::Shape;
use std::alloc::Global;

/// The lower left corner of a frame and the frame's number. Cells are counted in the order of these.
#[derive(Clone, Copy, PartialEq, Eq, PartialOrd, Ord)]
pub struct Corner {
    pub y: i64,
    pub x: i64,
    pub number: u32,
}

fn corner_of(frame: &Shape, number: u32) -> Corner
    ensures { result ≡ corner_of frame.now number }
{
    let rect = &frame.rect;
    Corner {
        y: rect.y0,
        x: rect.x0,
        number,
    }
}

/// The corners of the frames, by rising number.
fn corners(alloc: Global, shapes: &[Shape]) -> Result<Vec<Corner>, Memory>
    requires { length shapes.now < 2 ^ 32 }
    ensures are { IfOk result (λ corners. AreCorners shapes.now corners.items) }
    ensures few { IfOk result (λ corners. length corners.items ≤ length shapes.now) }
{
    let mut corners = Vec::new(alloc);
    for (number, shape) in shapes.iter().enumerate() {
        if is_frame(shape) {
            corners.push(corner_of(shape, number as u32))?;
        }
    }
    Ok(corners)
}

fn numbers_of(alloc: Global, corners: &[Corner]) -> Result<Vec<u32>, Memory>
    ensures { IfOk result (λ numbers. numbers.items ≡ numbers_of corners.now) }
{
    let mut numbers = Vec::new(alloc);
    for corner in corners {
        numbers.push(corner.number)?;
    }
    Ok(numbers)
}

/// The numbers of the frames in the order of the cells.
pub fn ordered_frames(alloc: Global, shapes: &[Shape]) -> Result<Vec<u32>, Memory>
    requires { length shapes.now < 2 ^ 32 }
    ensures are { IfOk result (λ frames. AreFrames shapes.now frames.items) }
    ensures few { IfOk result (λ frames. length frames.items ≤ length shapes.now) }
{
    let mut corners = corners(alloc, shapes)?;
    corners.sort_unstable();
    numbers_of(alloc, corners.as_slice())
}

/// For each frame its place in the order of the cells; 0 for other shapes.
pub fn places_of(alloc: Global, shapes: &[Shape], frames: &[u32]) -> Result<Vec<u32>, Memory>
    requires few { length shapes.now < 2 ^ 32 }
    requires fewer { length frames.now ≤ length shapes.now }
    requires frames { AreFrames shapes.now frames.now }
    ensures { IfOk result (λ places. ArePlaces frames.now places.items) }
{
    let mut places = vec![in alloc; 0; shapes.len()]?;
    for (place, frame) in frames.iter().enumerate() {
        places[*frame as usize] = place as u32;
    }
    Ok(places)
}
