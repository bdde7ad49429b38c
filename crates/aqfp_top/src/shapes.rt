// `shapes GDS A B`.
ghost use Rattle.std.specs.Prelude.{◌≡◌, ◌++◌, ◌≤◌, length, Some, IfOk, IfErr, OnOk};
ghost use Rattle.std.specs.Result.{result_err};
ghost use Rattle.aq_base.specs.Output.{printed};
ghost use Rattle.geom.specs.FlatForm.{flat_count};
ghost use Rattle.poly_cut.specs.Conditions.{IsFlattenable};
ghost use Rattle.poly_cut.specs.FlatForm.{wide_flat};
ghost use Rattle.poly_cut.specs.Numbers.{drawn_at};
ghost use Rattle.text_answers.specs.Printing.{PrintsWithin};
ghost use Rattle.aqfp_top.specs.Words.{spelled};
ghost use Rattle.aqfp_top.specs.Stages.{Answers};
ghost use Rattle.aqfp_top.specs.Due.{showing_stages};
ghost use Rattle.aqfp_top.specs.Faults.{IsShapesFault};
ghost use Rattle.aqfp_top.specs.Loads.{gds_limit};
ghost use Rattle.aqfp_top.specs.Printed.{TextPrints};
ghost use Rattle.aqfp_top.specs.Shown.{HasLines, AreShapes};
ghost use Rattle.aqfp_top.specs.Code.Printing.{PrintsText};
ghost use Rattle.aqfp_top.specs.Code.Reporting.{drawn_line, IsUnfoundFault, IsNamingFault, IsShowingFault};
ghost use Rattle.aqfp_top.specs.Runs.{RunsAs};
ghost use Rattle.aqfp_top.specs.declared.words.Form.{Form};

use crate::fault::Fault;
use crate::load::{GDS_LIMIT, load_word};
use crate::out::out_end;
use crate::reading::read_layout;
use aq_base::{Files, Memory, Sink, StoreRefusal};
use gds_records::one_wide_reading;
use poly_cut::{Drawn, WideLayout, count_flat, count_is_exact, drawn_at};
use std::alloc::Global;
use text_report::{print_label, print_shape};

// That the layout has no shape or label of this number.
fn no_shape(alloc: Global, layout: &WideLayout, number: u64) -> Fault
    requires layout { IsFlattenable layout.now }
    requires past { flat_count (wide_flat layout.now) ≤ number }
    ensures { IsUnfoundFault (wide_flat layout.now) number result }
{
    count_is_exact();
    match count_flat(alloc, layout) {
        Ok(count) => Fault::NoShape { number, count },
        Err(Memory) => Fault::Memory,
    }
}

// The shape or label of a number.
#[tactic(auto, using(crate::proofs::FoundShapes::finds))]
fn find(alloc: Global, layout: &WideLayout, number: u64) -> Result<Drawn, Fault>
    requires { IsFlattenable layout.now }
    ensures there { IfOk result (λ drawn. Some drawn ≡ drawn_at (wide_flat layout.now) number) }
    ensures bad { IfErr result (IsUnfoundFault (wide_flat layout.now) number) }
{
    match drawn_at(alloc, layout, number) {
        Ok(Some(drawn)) => Ok(drawn),
        Ok(None) => Err(no_shape(alloc, layout, number)),
        Err(Memory) => Err(Fault::Memory),
    }
}

// Puts the line of the shape or label of a number.
fn put_line<O: Sink>(
    alloc: Global,
    number: u64,
    drawn: &Drawn,
    out: &mut O,
) -> Result<(), StoreRefusal>
    ensures added { OnOk result (O.output out.new ≡ printed (drawn_line number drawn.now) (O.output out.old)) }
    ensures part { IfErr result (PrintsWithin (O.output out.old) (O.output out.new) (drawn_line number drawn.now)) }
{
    match drawn {
        Drawn::Shape(shape) => print_shape(alloc, number, shape, out),
        Drawn::Label(label) => print_label(alloc, number, label, out),
    }
}

// Puts the two lines.
#[tactic(auto, using(text_answers::proofs::Pages::texts))]
fn put_lines<O: Sink>(
    alloc: Global,
    first: u64,
    one: &Drawn,
    second: u64,
    other: &Drawn,
    out: &mut O,
) -> Result<(), StoreRefusal>
    ensures added { OnOk result (O.output out.new
        ≡ printed (drawn_line first one.now ++ drawn_line second other.now) (O.output out.old)) }
    ensures part { IfErr result (PrintsWithin (O.output out.old) (O.output out.new)
        (drawn_line first one.now ++ drawn_line second other.now)) }
{
    put_line(alloc, first, one, out)?;
    put_line(alloc, second, other, out)
}

#[tactic(auto, using(crate::proofs::OutEnds::ends_text))]
fn print_both<O: Sink>(
    alloc: Global,
    first: u64,
    one: &Drawn,
    second: u64,
    other: &Drawn,
    out: &mut O,
) -> Result<(), Fault>
    ensures { PrintsText (drawn_line first one.now ++ drawn_line second other.now)
        (O.output out.old) (O.output out.new) result }
{
    let printed = put_lines(alloc, first, one, second, other, out);
    out_end(printed)
}

// Prints the lines of the two shapes or labels of a layout, which are found through its references.
#[tactic(auto, using(crate::proofs::FoundShapes::shows))]
fn show_layout<O: Sink>(
    alloc: Global,
    layout: &WideLayout,
    first: u64,
    second: u64,
    out: &mut O,
) -> Result<(), Fault>
    requires { IsFlattenable layout.now }
    ensures prints { TextPrints (HasLines (wide_flat layout.now) first second) (O.output out.old)
        (O.output out.new) (result_err result) }
    ensures bad { IfErr result (IsNamingFault (wide_flat layout.now) first second) }
{
    let one = find(alloc, layout, first)?;
    let other = find(alloc, layout, second)?;
    print_both(alloc, first, &one, second, &other, out)
}

// Prints the lines of the two shapes or labels of the layout; or gives the first thing that is wrong with it or with
// the numbers.
#[tactic(auto, using(crate::proofs::ShowingShapes::shows))]
fn show<O: Sink>(
    alloc: Global,
    gds: Vec<u8>,
    first: u64,
    second: u64,
    out: &mut O,
) -> Result<(), Fault>
    requires { length gds.items ≤ gds_limit }
    ensures answer { Answers (showing_stages gds.items first second) (result_err result) }
    ensures prints { TextPrints (AreShapes gds.items first second) (O.output out.old)
        (O.output out.new) (result_err result) }
    ensures only { IfErr result IsShowingFault }
{
    one_wide_reading();
    let layout = read_layout(alloc, &gds)?;
    drop(gds);
    show_layout(alloc, &layout, first, second, out)
}

/// Reads a chip's stream, and prints the lines of the shapes or labels of two numbers.
#[tactic(auto, using(crate::proofs::ShowingShapes::ends, crate::proofs::Running::refusals))]
pub fn shapes<F: Files, O: Sink>(
    alloc: Global,
    words: &[String],
    first: u64,
    second: u64,
    files: &mut F,
    out: &mut O,
) -> Result<(), Fault>
    requires { length words.now ≡ 4 }
    ensures runs { RunsAs (Form.Shapes first second) (F.outside files.old).history (F.outside files.new).history
        (spelled words.now) (O.output out.old) (O.output out.new) (result_err result) }
    ensures only { IfErr result IsShapesFault }
    ensures kept { (F.outside files.new).opened ≡ (F.outside files.old).opened }
{
    let gds = load_word(alloc, files, words, 1, GDS_LIMIT)?;
    show(alloc, gds, first, second, out)
}
