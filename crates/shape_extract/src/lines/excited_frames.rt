// Frames and the bars over them.
ghost use Rattle.std.specs.Prelude.{◌≡◌, ◌^◌, ◌<◌, Some, IfOk, length, slice_get};
ghost use Rattle.geom.specs.declared.shapes.Shape.{Shape};
ghost use Rattle.layout_rules.specs.Layers.{is_frame};
ghost use Rattle.layout_rules.specs.Reports.{Alone, Passes};
ghost use Rattle.layout_rules.specs.Rows.{AreRows};
ghost use Rattle.layout_rules.specs.ExcitationLines.{phase_of};
ghost use Rattle.layout_rules.specs.ExcitationRule.{AreLaidOut};
ghost use Rattle.layout_rules.specs.Code.ChainRule.{IsChainExcited, IsChainUnexcited};
ghost use Rattle.shape_extract.specs.Searches.{SaysWhether, Finds};
ghost use Rattle.shape_extract.specs.Code.Edges.{IsAmong};
ghost use Rattle.shape_extract.specs.Code.Lines.{AreWalked, lies_over, Excites, Judges, ChainsExciteFrames};
ghost use Rattle.shape_extract.specs.Planes.{IsPlane};
ghost use Rattle.shape_extract.specs.declared.planes.Plane.TheVariants.{Lines};

use crate::layers::{is_frame, is_line};
use crate::lines::contacts::is_part;
use crate::lines::crossed_bars::at_left;
use crate::lines::reached_parts::is_reached;
use crate::pairs::{PairTest, list_line_partners};
use crate::planes::FiledPlane;
use crate::search::Report;
use crate::tables::row_edges::{lower_edge, row_at};
use aq_base::Memory;
use geom::{Shape, is_within, overlaps};
use layout_rules::layers::{BAR, EVEN_LINE};
use std::alloc::Global;

/// A frame, and a part of a line over it.
pub struct LiesOver;

impl PairTest for LiesOver {
    ghost passes = { λ s frame part. lies_over frame part };

    ghost reach = { λ s. 0 };

    fn passes(&self, a: &Shape, b: &Shape) -> bool {
        is_line(b) && overlaps(&b.rect, &a.rect)
    }

    fn reach(&self) -> u64 {
        0
    }
}

/// The phase of a bar to which the line comes from this shape.
fn phase_of(before: &Shape, bar: &Shape) -> u16
    ensures { result ≡ phase_of before.now bar.now }
{
    let to_right = at_left(before, bar);
    if bar.layer == EVEN_LINE {
        if to_right { 0 } else { 2 }
    } else {
        if to_right { 1 } else { 3 }
    }
}

/// Whether the shape of this number is a bar that contains the frame and has the phase of the frame's row.
fn excites(shapes: &[Shape], before: &[u32], edges: &[i64], b: u32, frame: &Shape) -> bool
    requires within { b < length shapes.now }
    requires lines { AreLaidOut shapes.now }
    requires walked { AreWalked shapes.now before.now }
    requires rows { AreRows shapes.now edges.now }
    requires among { IsAmong edges.now frame.now.rect.y0 }
    ensures { SaysWhether result (Excites shapes.now b frame.now) }
{
    if !is_part(shapes, BAR, b) {
        return false;
    }
    if !is_reached(shapes, before, b) {
        return false;
    }
    let bar = &shapes[b as usize];
    let from = &shapes[before[b as usize] as usize];
    let row = row_at(edges, lower_edge(frame));
    is_within(&frame.rect, &bar.rect) && usize::from(phase_of(from, bar)) == row % 4
}

/// Whether one bar alone lies over the frame of this number, contains it and has the phase of its row.
fn is_excited(
    shapes: &[Shape],
    lines: &FiledPlane,
    before: &[u32],
    edges: &[i64],
    f: u32,
    found: &mut Vec<u32>,
) -> Result<bool, Memory>
    requires filed { IsPlane Lines shapes.now lines.now }
    requires few { length shapes.now < 2 ^ 32 }
    requires lines { AreLaidOut shapes.now }
    requires walked { AreWalked shapes.now before.now }
    requires rows { AreRows shapes.now edges.now }
    requires frame { Passes is_frame shapes.now f }
    requires within { f < length shapes.now }
    ensures { IfOk result (λ yes. (frame : Shape) → slice_get shapes.now f ≡ Some frame
        → SaysWhether yes (IsChainExcited shapes.now frame)) }
{
    list_line_partners(&LiesOver, shapes, lines, f, found)?;
    if found.len() != 1 {
        return Ok(false);
    }
    Ok(excites(shapes, before, edges, found[0], &shapes[f as usize]))
}

/// Whether the shape of this number is a frame that is not excited.
fn is_unexcited(
    shapes: &[Shape],
    lines: &FiledPlane,
    before: &[u32],
    edges: &[i64],
    f: u32,
    found: &mut Vec<u32>,
) -> Result<bool, Memory>
    requires filed { IsPlane Lines shapes.now lines.now }
    requires few { length shapes.now < 2 ^ 32 }
    requires lines { AreLaidOut shapes.now }
    requires walked { AreWalked shapes.now before.now }
    requires rows { AreRows shapes.now edges.now }
    requires within { f < length shapes.now }
    ensures { IfOk result (Judges shapes.now f) }
{
    if !is_frame(&shapes[f as usize]) {
        return Ok(false);
    }
    let excited = is_excited(shapes, lines, before, edges, f, found)?;
    Ok(!excited)
}

/// The first frame that is not excited by one bar alone, in the phase of its row. Where there is none, each frame is
/// excited.
pub fn find_unexcited(
    alloc: Global,
    shapes: &[Shape],
    lines: &FiledPlane,
    before: &[u32],
    edges: &[i64],
) -> Result<Option<Report>, Memory>
    requires filed { IsPlane Lines shapes.now lines.now }
    requires few { length shapes.now < 2 ^ 32 }
    requires lines { AreLaidOut shapes.now }
    requires walked { AreWalked shapes.now before.now }
    requires rows { AreRows shapes.now edges.now }
    ensures finds { IfOk result (Finds (Alone (IsChainUnexcited shapes.now))) }
    ensures excited { IfOk result (ChainsExciteFrames shapes.now) }
{
    let mut found = Vec::new(alloc);
    for f in 0..shapes.len() as u32 {
        if is_unexcited(shapes, lines, before, edges, f, &mut found)? {
            return Ok(Some(Report {
                first: f,
                second: f,
            }));
        }
    }
    Ok(None)
}
