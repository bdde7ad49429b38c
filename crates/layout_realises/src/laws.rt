// The laws of drawn chips. The functions do nothing.
ghost use Rattle.std.specs.Prelude.{ℕ, ◌≤◌, List, count_by};
ghost use Rattle.cell_library.specs.Library.{LibraryView};
ghost use Rattle.geom.specs.FlatForm.{flat_of};
ghost use Rattle.layout_rules.specs.Nets.{AreNets};
ghost use Rattle.rowed.specs.PlacedNets.{PlacedView};
ghost use Rattle.shape_extract.specs.Extraction.{is_wired};
ghost use Rattle.layout_make.specs.Draw.{draw};
ghost use Rattle.layout_make.specs.MayDraw.{MayDraw};
ghost use Rattle.layout_make.specs.Size.{element_number};
ghost use Rattle.rowed.specs.Limits.{element_limit};
ghost use Rattle.layout_realises.specs.DrawnCircuit.{drawn_circuit, IsDrawnAs};
ghost use Rattle.layout_realises.specs.RealisesNet.{RealisesNet};

use channel_route::tracks_are_fewest;
use layout_make::drawing_laws;
use pulse_sim::every_clock;
use shape_extract::{extracted_keeps, one_answer};

/// The circuit of a drawing is the placed net, cell by cell, and answers every word as it does.
pub fn drawing_circuit()
    ensures { (p : PlacedView) (l : LibraryView) (nets : List ℕ) → MayDraw p l
        → AreNets (flat_of (draw p l)).shapes nets
        → IsDrawnAs p (flat_of (draw p l))
        (drawn_circuit p (count_by (is_wired (flat_of (draw p l))) (flat_of (draw p l)).shapes) nets) }
{
    tracks_are_fewest();
}

/// The drawing of a net that has no more elements than a chip may have can be written; its shapes keep all rules, and
/// its circuit has the net's rows, cells, wires, inputs and outputs. The circuit shows the net's answer to every word,
/// one beat later for each row but the lowest, by every clock whose windows keep clear at each cell and its feeds. It
/// keeps what every extracted circuit keeps, and the shapes and bytes are few enough to be read back.
pub fn drawn_chip_realises()
    ensures chip { (p : PlacedView) (l : LibraryView) → MayDraw p l → element_number p ≤ element_limit
        → RealisesNet p l }
{
    tracks_are_fewest();
    drawing_laws();
    extracted_keeps();
    one_answer();
    every_clock();
}
