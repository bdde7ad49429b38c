// The law that joins the commands: what one stores, the other accepts and prints.
ghost use Rattle.std.specs.Prelude.{ℕ, ◌≤◌, ◌^◌, List, length};
ghost use Rattle.blif_read.specs.Parts.{NetView};
ghost use Rattle.rowed.specs.PlacedNets.{PlacedView};
ghost use Rattle.cell_library.specs.Library.{LibraryView};
ghost use Rattle.cell_library.specs.Says.{SaysLibrary};
ghost use Rattle.plan_build.specs.Plans.{chip_of};
ghost use Rattle.plan_draw.specs.CellPlans.{IsCellChip};
ghost use Rattle.text_answers.specs.WordsText.{SaysWords};
ghost use Rattle.aqfp_top.specs.Designs.{SaysDesign, KeepsLimits, IsChipFor};
ghost use Rattle.aqfp_top.specs.Joined.{VerifiesAsNet};

use blif_flat::each_design;
use cell_library::each_library;
use gds_read::strict_reading_is_wide;
use gds_records::{one_layout, one_wide_reading, written_is_read};
use layout_make::drawing_laws;
use layout_realises::drawn_chip_realises;
use plan_build::plan_laws;
use plan_draw::cell_plan_laws;
use pulse_sim::{clocks_are_enough, shown_once};
use shape_extract::one_circuit;
use text_answers::answers_are_shown;

/// What `build`, `compact` or `draw` stores, a chip for the netlist, `verify` with the same library accepts, whatever
/// words with a value for each input of the netlist are given, and prints as the chip's counts and the netlist's answer
/// to each word. The chip of the defined plan is such a chip, where it keeps all limits, and so is that of the cells of
/// a netlist of cells.
pub fn built_is_verified()
    ensures verified { (lib text : List ℕ) (net : NetView) (chip : PlacedView) (cells : LibraryView)
        → SaysLibrary lib cells → IsChipFor net cells chip → SaysWords net.inputs text
        → VerifiesAsNet net chip cells lib text }
    ensures of_plan { (net_text lib : List ℕ) (net : NetView) (cells : LibraryView) → length net_text ≤ 2 ^ 27
        → SaysDesign net_text lib net cells → KeepsLimits net cells → IsChipFor net cells (chip_of cells net) }
    ensures of_cells { (net_text lib : List ℕ) (net : NetView) (chip : PlacedView) (cells : LibraryView)
        → length net_text ≤ 2 ^ 27 → SaysDesign net_text lib net cells → IsCellChip cells net chip
        → IsChipFor net cells chip }
{
    drawing_laws();
    each_design();
    each_library();
    cell_plan_laws();
    plan_laws();
    written_is_read();
    drawn_chip_realises();
    one_layout();
    one_wide_reading();
    strict_reading_is_wide();
    one_circuit();
    answers_are_shown();
    clocks_are_enough();
    shown_once();
}
