// `report GDS LIB`.
ghost use Rattle.std.specs.Prelude.{◌≡◌, ℕ, ◌≤◌, ◌^◌, length, IfErr};
ghost use Rattle.std.specs.Result.{result_err};
ghost use Rattle.shape_extract.specs.CellPlaces.{AreCellPlaces};
ghost use Rattle.text_report.specs.ReportText.{report_text};
ghost use Rattle.aqfp_top.specs.Words.{spelled};
ghost use Rattle.aqfp_top.specs.Stages.{Answers};
ghost use Rattle.aqfp_top.specs.Due.{circuit_stages};
ghost use Rattle.aqfp_top.specs.Faults.{IsReportFault};
ghost use Rattle.aqfp_top.specs.Loads.{gds_limit};
ghost use Rattle.aqfp_top.specs.Printed.{TextPrints};
ghost use Rattle.aqfp_top.specs.Reported.{IsReport};
ghost use Rattle.aqfp_top.specs.Code.Printing.{PrintsText};
ghost use Rattle.aqfp_top.specs.Code.Checking.{KeepsAll};
ghost use Rattle.aqfp_top.specs.Code.Reporting.{IsPrintingFault};
ghost use Rattle.cell_library.specs.Library.{limits_of};
ghost use Rattle.aqfp_top.specs.Runs.{RunsAs};
ghost use Rattle.aqfp_top.specs.declared.words.Form.{Form};

use crate::design::read_cells;
use crate::fault::Fault;
use crate::judge::{JudgedChip, judged};
use crate::load::{GDS_LIMIT, load_two};
use crate::out::out_end;
use crate::reading::read_layout;
use aq_base::{Files, Sink};
use cell_library::Library;
use gds_records::one_wide_reading;
use shape_extract::cells_have_places;
use std::alloc::Global;
use text_report::print_report;

fn print<O: Sink>(
    alloc: Global,
    chip: &JudgedChip,
    cells: &Library,
    out: &mut O,
) -> Result<(), Fault>
    requires { KeepsAll (limits_of cells.now) chip.now }
    ensures { (near far : ℕ → ℕ) → AreCellPlaces chip.now.flat.shapes near far
        → PrintsText (report_text chip.now.flat chip.now.circuit near far cells.now.limit)
        (O.output out.old) (O.output out.new) result }
{
    let printed = print_report(alloc, &chip.flat, &chip.circuit, cells, out);
    out_end(printed)
}

// Prints the report of the chip that the texts make; or gives the first thing that is wrong with these.
#[tactic(auto, using(crate::proofs::Reporting::prints))]
fn report_texts<O: Sink>(alloc: Global, gds: Vec<u8>, lib: &[u8], out: &mut O) -> Result<(), Fault>
    requires gds { length gds.items ≤ gds_limit }
    requires lib { length lib.now ≤ 2 ^ 28 }
    ensures answer { Answers (circuit_stages gds.items lib.now) (result_err result) }
    ensures prints { TextPrints (IsReport gds.items lib.now) (O.output out.old) (O.output out.new) (result_err result) }
    ensures only { IfErr result IsPrintingFault }
{
    one_wide_reading();
    cells_have_places();
    let layout = read_layout(alloc, &gds)?;
    drop(gds);
    let cells = read_cells(alloc, lib)?;
    let chip = judged(alloc, layout, &cells)?;
    print(alloc, &chip, &cells, out)
}

/// Judges a chip's stream and a library, and prints the chip's counts and what is in it.
#[tactic(auto, using(crate::proofs::Reporting::ends, crate::proofs::Running::refusals))]
pub fn report<F: Files, O: Sink>(
    alloc: Global,
    words: &[String],
    files: &mut F,
    out: &mut O,
) -> Result<(), Fault>
    requires { length words.now ≡ 3 }
    ensures runs { RunsAs Form.Report (F.outside files.old).history (F.outside files.new).history
        (spelled words.now) (O.output out.old) (O.output out.new) (result_err result) }
    ensures only { IfErr result IsReportFault }
    ensures kept { (F.outside files.new).opened ≡ (F.outside files.old).opened }
{
    let texts = load_two(alloc, files, words, GDS_LIMIT)?;
    report_texts(alloc, texts.first, &texts.lib, out)
}
