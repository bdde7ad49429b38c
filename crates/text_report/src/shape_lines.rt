// The line of a shape or a label.
ghost use Rattle.std.specs.Prelude.{◌≡◌, ◌++◌, OnOk, IfErr};
ghost use Rattle.std.specs.Fmt.{signed_decimal};
ghost use Rattle.aq_base.specs.Output.{printed};
ghost use Rattle.text_answers.specs.Printing.{PrintsWithin};
ghost use Rattle.text_report.specs.ShapeLines.{point_text, corners_text, box_head, box_line, label_head, label_line};

use aq_base::{Memory, Sink, StoreRefusal};
use geom::{Label, Rect, Shape};
use std::alloc::Global;

fn add_signed(alloc: Global, number: i64, line: &mut Vec<u8>) -> Result<(), Memory>
    ensures { OnOk result (line.new.items ≡ line.old.items ++ signed_decimal number) }
{
    let text = format!(in alloc; "{number}")?;
    line.extend_from_slice(text.as_bytes())?;
    Ok(())
}

fn add_point(alloc: Global, x: i64, y: i64, line: &mut Vec<u8>) -> Result<(), Memory>
    ensures { OnOk result (line.new.items ≡ line.old.items ++ point_text x y) }
{
    add_signed(alloc, x, line)?;
    line.push(b' ')?;
    add_signed(alloc, y, line)
}

#[tactic(auto, unfolding(crate::specs::ShapeLines::box_head))]
fn add_box_head(alloc: Global, number: u64, shape: &Shape, line: &mut Vec<u8>) -> Result<(), Memory>
    ensures { OnOk result (line.new.items ≡ line.old.items ++ box_head number shape.now.layer shape.now.datatype) }
{
    let (layer, datatype) = (shape.layer, shape.datatype);
    let head = format!(in alloc; "shape {number} layer {layer} datatype {datatype} box ")?;
    line.extend_from_slice(head.as_bytes())?;
    Ok(())
}

/// Adds the lower left corner.
fn add_low(alloc: Global, rect: &Rect, line: &mut Vec<u8>) -> Result<(), Memory>
    ensures { OnOk result (line.new.items ≡ line.old.items ++ point_text rect.now.x0 rect.now.y0) }
{
    add_point(alloc, rect.x0, rect.y0, line)
}

/// Adds the upper right corner.
fn add_high(alloc: Global, rect: &Rect, line: &mut Vec<u8>) -> Result<(), Memory>
    ensures { OnOk result (line.new.items ≡ line.old.items ++ point_text rect.now.x1 rect.now.y1) }
{
    add_point(alloc, rect.x1, rect.y1, line)
}

#[tactic(auto, unfolding(crate::specs::ShapeLines::corners_text))]
fn add_corners(alloc: Global, rect: &Rect, line: &mut Vec<u8>) -> Result<(), Memory>
    ensures { OnOk result (line.new.items ≡ line.old.items ++ corners_text rect.now) }
{
    add_low(alloc, rect, line)?;
    line.push(b' ')?;
    add_high(alloc, rect, line)
}

#[tactic(auto, unfolding(crate::specs::ShapeLines::box_line))]
fn add_box(alloc: Global, number: u64, shape: &Shape, line: &mut Vec<u8>) -> Result<(), Memory>
    ensures { OnOk result (line.new.items ≡ line.old.items ++ box_line number shape.now) }
{
    add_box_head(alloc, number, shape, line)?;
    add_corners(alloc, &shape.rect, line)?;
    line.push(b'\n')?;
    Ok(())
}

#[tactic(auto, unfolding(crate::specs::ShapeLines::label_head))]
fn add_label_head(
    alloc: Global,
    number: u64,
    label: &Label,
    line: &mut Vec<u8>,
) -> Result<(), Memory>
    ensures { OnOk result (line.new.items ≡ line.old.items ++ label_head number label.now.layer) }
{
    let layer = label.layer;
    let head = format!(in alloc; "label {number} layer {layer} at ")?;
    line.extend_from_slice(head.as_bytes())?;
    Ok(())
}

#[tactic(auto, unfolding(crate::specs::ShapeLines::label_line))]
fn add_label(alloc: Global, number: u64, label: &Label, line: &mut Vec<u8>) -> Result<(), Memory>
    ensures { OnOk result (line.new.items ≡ line.old.items ++ label_line number label.now) }
{
    add_label_head(alloc, number, label, line)?;
    add_point(alloc, label.x, label.y, line)?;
    line.push(b'\n')?;
    Ok(())
}

/// Prints the line of the shape of a number. On a refusal some first bytes of the line were put.
#[tactic(auto, using(text_answers::proofs::Pages::texts))]
pub fn print_shape<O: Sink>(
    alloc: Global,
    number: u64,
    shape: &Shape,
    out: &mut O,
) -> Result<(), StoreRefusal>
    ensures added { OnOk result (O.output out.new ≡ printed (box_line number shape.now) (O.output out.old)) }
    ensures part { IfErr result (PrintsWithin (O.output out.old) (O.output out.new) (box_line number shape.now)) }
{
    let mut line = Vec::new(alloc);
    match add_box(alloc, number, shape, &mut line) {
        Ok(()) => out.put(line.as_slice()),
        Err(Memory) => Err(StoreRefusal::Memory),
    }
}

/// Prints the line of the label of a number. On a refusal some first bytes of the line were put.
#[tactic(auto, using(text_answers::proofs::Pages::texts))]
pub fn print_label<O: Sink>(
    alloc: Global,
    number: u64,
    label: &Label,
    out: &mut O,
) -> Result<(), StoreRefusal>
    ensures added { OnOk result (O.output out.new ≡ printed (label_line number label.now) (O.output out.old)) }
    ensures part { IfErr result (PrintsWithin (O.output out.old) (O.output out.new) (label_line number label.now)) }
{
    let mut line = Vec::new(alloc);
    match add_label(alloc, number, label, &mut line) {
        Ok(()) => out.put(line.as_slice()),
        Err(Memory) => Err(StoreRefusal::Memory),
    }
}
