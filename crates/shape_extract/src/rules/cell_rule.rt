// The rule of cells: each frame is that of a cell of some kind, and each pin lies in one frame.
ghost use Rattle.std.specs.Prelude.{◌≡◌, ◌⊎◌, ◌^◌, ◌<◌, ℕ, length, IfOk, slice_get, Some};
ghost use Rattle.geom.specs.declared.shapes.Shape.{Shape};
ghost use Rattle.layout_rules.specs.Layers.{is_frame};
ghost use Rattle.layout_rules.specs.Reports.{Alone, Passes};
ghost use Rattle.layout_rules.specs.CircuitRules.{IsCell, LiesInOneFrame, IsNoCell, IsStrayPin, CellsBroken};
ghost use Rattle.shape_extract.specs.Searches.{SaysWhether, Finds};
ghost use Rattle.shape_extract.specs.Filed.{IsFiled};

use crate::filed_shapes::FiledShapes;
use crate::layers::{is_frame, is_pin};
use crate::pairs::list_filed_partners;
use crate::planes::Plane;
use crate::rules::cell_pins::{are_numbered, kind_numbered};
use crate::search::{Part, Report, first_of};
use crate::tables::pins_in_frames::{HoldsPin, PinInFrame};
use aq_base::Memory;
use geom::Shape;
use layout_rules::layers::{INPUT_PIN, OUTPUT_PIN};
use std::alloc::Global;

/// Whether the frame of this number is that of a cell.
fn is_cell(
    shapes: &[Shape],
    filed: &FiledShapes,
    f: u32,
    found: &mut Vec<u32>,
) -> Result<bool, Memory>
    requires filed { IsFiled shapes.now filed.now }
    requires few { length shapes.now < 2 ^ 32 }
    requires within { f < length shapes.now }
    ensures { IfOk result (λ yes. (frame : Shape) → slice_get shapes.now f ≡ Some frame
        → SaysWhether yes (IsCell shapes.now f frame)) }
{
    let Some(kind) = kind_numbered(shapes[f as usize].datatype) else {
        return Ok(false);
    };
    list_filed_partners(&HoldsPin, Plane::Pins, shapes, filed, f, found)?;
    let pins = found.as_slice();
    Ok(
        are_numbered(shapes, pins, INPUT_PIN, kind.inputs())
            && are_numbered(shapes, pins, OUTPUT_PIN, kind.outputs()),
    )
}

/// Whether the pin of this number lies in one frame and in no second one.
fn lies_in_one_frame(
    shapes: &[Shape],
    filed: &FiledShapes,
    p: u32,
    found: &mut Vec<u32>,
) -> Result<bool, Memory>
    requires filed { IsFiled shapes.now filed.now }
    requires few { length shapes.now < 2 ^ 32 }
    requires within { p < length shapes.now }
    ensures { IfOk result (λ yes. SaysWhether yes (LiesInOneFrame shapes.now p)) }
{
    list_filed_partners(&PinInFrame, Plane::Frames, shapes, filed, p, found)?;
    Ok(found.len() == 1)
}

/// Whether the shape of this number is a frame that is no cell's, or a pin that doesn't lie in one frame.
fn is_at_fault(
    shapes: &[Shape],
    filed: &FiledShapes,
    n: u32,
    found: &mut Vec<u32>,
) -> Result<bool, Memory>
    requires filed { IsFiled shapes.now filed.now }
    requires few { length shapes.now < 2 ^ 32 }
    requires within { n < length shapes.now }
    ensures { IfOk result (λ yes. SaysWhether yes (IsNoCell shapes.now n ⊎ IsStrayPin shapes.now n)) }
{
    let shape = &shapes[n as usize];
    if is_frame(shape) {
        let cell = is_cell(shapes, filed, n, found)?;
        return Ok(!cell);
    }
    if is_pin(shape) {
        let one = lies_in_one_frame(shapes, filed, n, found)?;
        return Ok(!one);
    }
    Ok(false)
}

/// Frames that are no cells', and pins that don't lie in one frame.
#[derive(Drop)]
struct Cells<'a> {
    shapes: &'a [Shape],
    filed: &'a FiledShapes,
}

impl<'a> Part for Cells<'a> {
    ghost valid = { λ s. (length s.shapes.now < 2 ^ 32) × IsFiled s.shapes.now s.filed.now };

    ghost count = { λ s. length s.shapes.now };

    ghost reported = { λ s. Alone (λ n. IsNoCell s.shapes.now n ⊎ IsStrayPin s.shapes.now n) };

    fn count(&self) -> u32 {
        self.shapes.len() as u32
    }

    fn second(&self, a: u32, found: &mut Vec<u32>) -> Result<Option<u32>, Memory> {
        if is_at_fault(self.shapes, self.filed, a, found)? {
            return Ok(Some(a));
        }
        Ok(None)
    }
}

/// Whether there is a frame.
fn has_frame(shapes: &[Shape]) -> bool
    ensures { SaysWhether result ((f : ℕ) × Passes is_frame shapes.now f) }
{
    for shape in shapes {
        if is_frame(shape) {
            return true;
        }
    }
    false
}

/// The first report of the rule of cells.
pub fn find_cells(
    alloc: Global,
    shapes: &[Shape],
    filed: &FiledShapes,
) -> Result<Option<Report>, Memory>
    requires few { length shapes.now < 2 ^ 32 }
    requires filed { IsFiled shapes.now filed.now }
    ensures { IfOk result (Finds (CellsBroken shapes.now)) }
{
    if !has_frame(shapes) {
        return Ok(Some(Report {
            first: 0,
            second: 0,
        }));
    }
    first_of(alloc, &Cells { shapes, filed })
}
