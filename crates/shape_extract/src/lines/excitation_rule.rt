// The rule of excitation lines.
ghost use Rattle.std.specs.Prelude.{◌≡◌, ◌^◌, ◌<◌, IfOk, length};
ghost use Rattle.layout_rules.specs.Reports.{Alone, Afterwards};
ghost use Rattle.layout_rules.specs.ExcitationRule.{IsCutOff, IsNotCrossed, IsUnexcited, ExcitationBroken, AreLaidOut};
ghost use Rattle.shape_extract.specs.Searches.{Finds};
ghost use Rattle.shape_extract.specs.Code.Lines.{ExcitesFrames};
ghost use Rattle.shape_extract.specs.Filed.{IsFiled};
ghost use Rattle.shape_extract.specs.Planes.{IsPlane};
ghost use Rattle.shape_extract.specs.declared.planes.Plane.TheVariants.{Lines};

use crate::filed_shapes::FiledShapes;
use crate::lines::crossed_bars::find_uncrossed;
use crate::lines::excited_frames::find_unexcited;
use crate::lines::line_parts::find_misjoined;
use crate::lines::line_walk::walk_lines;
use crate::lines::reached_parts::find_cut_off;
use crate::lines::starts::find_start_fault;
use crate::lines::unknown_parts::find_unknown_part;
use crate::planes::{FiledPlane, Plane, file_plane};
use crate::search::Report;
use crate::tables::row_edges::rows;
use aq_base::Memory;
use geom::Shape;
use layout_rules::layers::{EVEN_LINE, ODD_LINE};
use std::alloc::Global;

/// The first report of the parts of the rule that follow the lines from their starts.
fn find_along_lines(
    alloc: Global,
    shapes: &[Shape],
    lines: &FiledPlane,
) -> Result<Option<Report>, Memory>
    requires filed { IsPlane Lines shapes.now lines.now }
    requires few { length shapes.now < 2 ^ 32 }
    requires lines { AreLaidOut shapes.now }
    ensures finds { IfOk result (Finds (Afterwards (Alone (IsCutOff shapes.now))
        (Afterwards (Alone (IsNotCrossed shapes.now)) (Alone (IsUnexcited shapes.now))))) }
    ensures excited { IfOk result (ExcitesFrames shapes.now) }
{
    let before = walk_lines(alloc, shapes, lines)?;
    let cut_off = find_cut_off(alloc, shapes, before.as_slice())?;
    if let Some(report) = cut_off {
        return Ok(Some(report));
    }
    let uncrossed = find_uncrossed(alloc, shapes, lines, before.as_slice())?;
    if let Some(report) = uncrossed {
        return Ok(Some(report));
    }
    let edges = rows(alloc, shapes)?;
    find_unexcited(alloc, shapes, lines, before.as_slice(), edges.as_slice())
}

/// The first report of the rule of excitation lines. Where there is none, each frame lies under one bar alone, which
/// contains it and has the phase of its row.
pub fn find_excitation(
    alloc: Global,
    shapes: &[Shape],
    filed: &FiledShapes,
) -> Result<Option<Report>, Memory>
    requires few { length shapes.now < 2 ^ 32 }
    requires filed { IsFiled shapes.now filed.now }
    ensures finds { IfOk result (Finds (ExcitationBroken shapes.now)) }
    ensures excited { IfOk result (ExcitesFrames shapes.now) }
{
    let unknown = find_unknown_part(alloc, shapes)?;
    if let Some(report) = unknown {
        return Ok(Some(report));
    }
    if let Some(report) = find_start_fault(shapes, EVEN_LINE) {
        return Ok(Some(report));
    }
    if let Some(report) = find_start_fault(shapes, ODD_LINE) {
        return Ok(Some(report));
    }
    let misjoined = find_misjoined(alloc, shapes, filed)?;
    if let Some(report) = misjoined {
        return Ok(Some(report));
    }
    let lines = file_plane(alloc, shapes, Plane::Lines)?;
    find_along_lines(alloc, shapes, &lines)
}
