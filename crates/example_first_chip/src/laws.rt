// The steps of the first chip, and what its bytes realise. The functions do nothing.
ghost use Rattle.std.specs.Prelude.{◌≡◌, true};
ghost use Rattle.geom.specs.FirstChip.{first_layout};
ghost use Rattle.gds_records.specs.FirstChip.{first_bytes};
ghost use Rattle.gds_records.specs.Writing.{bytes_of};
ghost use Rattle.blif_read.specs.Equations.{IsAnswer};
ghost use Rattle.blif_read.specs.Reads.{SaysText};
ghost use Rattle.blif_read.specs.declared.texts.ReadText.TheVariants.{Plain};
ghost use Rattle.cell_library.specs.Library.{limits_of};
ghost use Rattle.cell_library.specs.LibraryA.{library_a_view};
ghost use Rattle.cell_library.specs.Says.{SaysLibrary};
ghost use Rattle.maj_mapping.specs.Plan.{map_net};
ghost use Rattle.level_balance.specs.Plan.{level_net};
ghost use Rattle.row_place.specs.Places.{place};
ghost use Rattle.repeater_rows.specs.Repeaters.{repeated};
ghost use Rattle.plan_build.specs.Plans.{IsWithin, chip_of};
ghost use Rattle.layout_make.specs.Chips.{first_placed};
ghost use Rattle.layout_make.specs.Draw.{draw};
ghost use Rattle.circuit_extracted.specs.FirstCircuit.{first_circuit};
ghost use Rattle.layout_realises.specs.Realises.{Realises};
ghost use Rattle.example_first_chip.specs.Texts.{wire_text, library_a_text};
ghost use Rattle.example_first_chip.specs.Wire.{wire, wire_gates, wire_rows};

use circuit_extracted::first_circuit_keeps;
use gds_records::first_chip_is_stream;
use geom::{first_chip_flat, first_chip_is_writable};
use layout_make::worked_chips;
use layout_rules::laws::first_chip_keeps_rules;
use pulse_sim::every_clock;
use shape_extract::first_chip_extracted;

/// The text of library A says the numbers and pins of library A.
#[tactic(auto, using(crate::proofs::LibrarySaid::library_said))]
pub fn library_a_is_said()
    ensures { SaysLibrary library_a_text library_a_view }
{}

/// The text of the netlist is one model, and says one input that is the only output.
#[tactic(auto, using(crate::proofs::WireSaid::wire_said))]
pub fn wire_is_said()
    ensures { SaysText wire_text (Plain wire) }
{}

/// The plan of this netlist with library A, pass by pass: its gates, its rows, their places, and the same places, since
/// its wire moves fewer slots than the reach, which is 14. So its chip is this placed net, and it keeps all limits.
pub fn wire_is_planned()
    ensures gates { map_net wire ≡ wire_gates }
    ensures rows { level_net wire_gates true ≡ wire_rows }
    ensures places { place wire_rows ≡ first_placed }
    ensures repeaters { repeated first_placed 14 ≡ first_placed }
    ensures chip { chip_of library_a_view wire ≡ first_placed }
    ensures within { IsWithin library_a_view wire }
{}

/// The drawing of this chip is the first chip's layout, whose stream are these 1,046 bytes. They realise the netlist
/// with library A: the layout's shapes keep all rules, and their circuit, two buffers, has one input and one output and
/// shows the netlist's answer to each word one beat after it entered, by every clock whose windows keep clear.
pub fn first_chip_realises()
    ensures layout { draw (chip_of library_a_view wire) library_a_view ≡ first_layout }
    ensures bytes { bytes_of first_layout ≡ first_bytes }
    ensures realises { Realises first_bytes (limits_of library_a_view) 1 1 (IsAnswer wire) first_circuit 1 }
{
    wire_is_planned();
    worked_chips();
    first_chip_flat();
    first_chip_is_writable();
    first_chip_is_stream();
    first_chip_keeps_rules();
    first_circuit_keeps();
    first_chip_extracted();
    every_clock();
}
