// The law on chips that were made by a plan.
ghost use Rattle.std.specs.Prelude.{◌≡◌, ℕ, List};
ghost use Rattle.aq_base.specs.History.{Event};
ghost use Rattle.aq_base.specs.Output.{Output};
ghost use Rattle.blif_read.specs.Parts.{NetView};
ghost use Rattle.cell_library.specs.Library.{LibraryView};
ghost use Rattle.rowed.specs.PlacedNets.{PlacedView};
ghost use Rattle.aqfp_top.specs.Chips.{IsChipOfTexts, IsPlannedChip};
ghost use Rattle.aqfp_top.specs.Designs.{SaysDesign, IsChipFor, stream_of};
ghost use Rattle.aqfp_top.specs.Histories.{BuiltHistory, HearsChip};
ghost use Rattle.aqfp_top.specs.declared.planner.Planner.{Planner};

use blif_flat::netlist_answers;
use gds_records::{one_layout, written_is_read};
use layout_make::drawing_laws;
use layout_realises::drawn_chip_realises;
use pulse_sim::clocks_are_enough;
use shape_extract::one_circuit;

/// A chip of two texts whose bytes are those of a plan for the netlist and the library that they say has all that
/// follows of a plan. What a store has heard of a chip and what it has heard of its plan is of the same texts and bytes.
pub fn chip_is_planned()
    ensures follows { (net lib bytes : List ℕ) (out after : Output) (equations : NetView) (cells : LibraryView)
        (placed : PlacedView) (chip : IsChipOfTexts net lib bytes out after) → SaysDesign net lib equations cells
        → IsChipFor equations cells placed → bytes ≡ stream_of placed cells
        → IsPlannedChip equations cells bytes chip.circuit }
    ensures heard { (planner : Planner) (history later : List Event) (words : List (List ℕ)) (out after : Output)
        (hears : HearsChip history later words out after)
        (built : BuiltHistory planner history later words out after) →
        (hears.net ≡ built.net) × (hears.lib ≡ built.lib) × (hears.bytes ≡ stream_of built.chip built.cells) }
{
    netlist_answers();
    drawing_laws();
    written_is_read();
    one_layout();
    drawn_chip_realises();
    one_circuit();
    clocks_are_enough();
}
