// What is accepted: where nothing is wrong with the texts of a command, it does its work.
ghost use Rattle.std.specs.Prelude.{◌≡◌, ◌<◌, ℕ, List, length, Option, None};
ghost use Rattle.geom.specs.FlatForm.{flat_count};
ghost use Rattle.poly_cut.specs.declared.layout.WideLayout.{WideLayout};
ghost use Rattle.poly_cut.specs.FlatForm.{wide_flat};
ghost use Rattle.blif_read.specs.Parts.{NetView};
ghost use Rattle.blif_read.specs.Says as plain;
ghost use Rattle.rowed.specs.PlacedNets.{PlacedView};
ghost use Rattle.cell_library.specs.Library.{LibraryView, limits_of};
ghost use Rattle.cell_library.specs.LibraryA.{library_a_view};
ghost use Rattle.cell_library.specs.Says.{SaysLibrary};
ghost use Rattle.layout_rules.specs.Rules.{KeepsRules};
ghost use Rattle.circuit_extracted.specs.Circuits.{CircuitView};
ghost use Rattle.text_answers.specs.WordsText.{SaysWords};
ghost use Rattle.sample_adder.specs.Adder.{adder};
ghost use Rattle.aqfp_top.specs.Designs.{KeepsLimits, IsChipFor, stream_of};
ghost use Rattle.aqfp_top.specs.Checks.{IsLayoutOf, SaysSound};
ghost use Rattle.aqfp_top.specs.Comparing.{MakesBoth};
ghost use Rattle.aqfp_top.specs.Stages.{IsFirst, Answers};
ghost use Rattle.aqfp_top.specs.Due.{IsDoneOrOutside};
ghost use Rattle.aqfp_top.specs.Due.{circuit_stages, judging_stages, comparing_stages, showing_stages, sample_stages};
ghost use Rattle.aqfp_top.specs.declared.fault.Fault.{Fault};

use crate::joined::built_is_verified;
use gds_records::one_wide_reading;
use plan_build::plan_laws;
use poly_cut::count_is_exact;
use shape_extract::one_circuit;

/// Where the texts are a layout, a library and words, and the layout's shapes keep all rules with the library's numbers
/// and make a circuit for which the words are words, nothing is due for `verify` and `trace`; and then they print what
/// the circuit shows, but for want of memory and for faults of the outside. So it is of a chip that was built with the
/// same library, and of words with a value for each input of its netlist.
pub fn each_layout_is_checked()
    ensures well { (gds lib text : List ℕ) → SaysSound gds lib text → IsFirst (judging_stages gds lib text) None }
    ensures built { (lib text : List ℕ) (net : NetView) (chip : PlacedView) (cells : LibraryView)
        → SaysLibrary lib cells → IsChipFor net cells chip → SaysWords net.inputs text
        → IsFirst (judging_stages (stream_of chip cells) lib text) None }
    ensures ends { (gds lib text : List ℕ) (answer : Option Fault) → IsFirst (judging_stages gds lib text) None
        → Answers (judging_stages gds lib text) answer → IsDoneOrOutside answer }
{
    one_wide_reading();
    count_is_exact();
    one_circuit();
    built_is_verified();
}

/// Where the texts are a layout, a library and a netlist, the layout's shapes keep all rules with the library's numbers,
/// and their circuit has as many inputs and outputs as the netlist, nothing is due for `equal`; and then it prints a
/// verdict, but for want of memory, for faults of the outside, and for two circuits that have more than 1,000,000
/// subfunctions (`well_texts_are_done`).
pub fn each_pair_is_compared()
    ensures { (gds lib net : List ℕ) (circuit : CircuitView) (equations : NetView)
        → MakesBoth gds lib net circuit equations → equations.inputs ≡ circuit.inputs
        → length equations.outputs ≡ length circuit.outputs → IsFirst (comparing_stages gds lib net) None }
{
    one_wide_reading();
    count_is_exact();
    one_circuit();
}

/// Where the texts are a layout and a library, and the layout's shapes keep all rules with the library's numbers,
/// nothing is due for `netlist` and for `report`; and then the one stores the netlist of their circuit, and the other
/// prints what is in the chip, but for want of memory and for faults of the outside.
pub fn each_netlist_is_written()
    ensures well { (gds lib : List ℕ) (layout : WideLayout) (cells : LibraryView) → IsLayoutOf gds layout
        → SaysLibrary lib cells → KeepsRules (wide_flat layout) (limits_of cells)
        → IsFirst (circuit_stages gds lib) None }
    ensures ends { (gds lib : List ℕ) (answer : Option Fault) → IsFirst (circuit_stages gds lib) None
        → Answers (circuit_stages gds lib) answer → IsDoneOrOutside answer }
{
    one_wide_reading();
    count_is_exact();
}

/// Where the text is a layout, and two numbers are below that of its shapes and labels, nothing is due for `shapes` of
/// these; and then it prints their lines, but for want of memory and for faults of the outside.
pub fn each_shape_is_shown()
    ensures well { (gds : List ℕ) (layout : WideLayout) (first second : ℕ) → IsLayoutOf gds layout
        → first < flat_count (wide_flat layout) → second < flat_count (wide_flat layout)
        → IsFirst (showing_stages gds first second) None }
    ensures ends { (gds : List ℕ) (first second : ℕ) (answer : Option Fault)
        → IsFirst (showing_stages gds first second) None → Answers (showing_stages gds first second) answer
        → IsDoneOrOutside answer }
{
    one_wide_reading();
    count_is_exact();
}

/// Where the chip of an adder by the defined plan, with library A, keeps all limits, nothing is due for `sample` of its
/// bits; and then the sample is printed, but for want of memory and for faults of the outside.
pub fn each_sample_is_made()
    ensures well { (bits : ℕ) (equations : NetView) → plain.SaysNet (adder bits) equations
        → KeepsLimits equations library_a_view → IsFirst (sample_stages bits) None }
    ensures ends { (bits : ℕ) (answer : Option Fault) → IsFirst (sample_stages bits) None
        → Answers (sample_stages bits) answer → IsDoneOrOutside answer }
{
    plan_laws();
}
