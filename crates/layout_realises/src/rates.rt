// The laws of the rates that a chip bears. The functions do nothing.
ghost use Rattle.std.specs.Prelude.{◌≡◌, ℕ, ◌-◌, ◌*◌, ◌<◌, ◌≤◌, ◌^◌, Bool, All, List, length};
ghost use Rattle.std.specs.List.{AllZip};
ghost use Rattle.geom.specs.declared.shapes.Flat.{Flat};
ghost use Rattle.geom.specs.FlatForm.{flat_of};
ghost use Rattle.layout_rules.specs.Limits.{Limits};
ghost use Rattle.layout_rules.specs.Rules.{KeepsRules};
ghost use Rattle.circuit_extracted.specs.Circuits.{CircuitView};
ghost use Rattle.circuit_extracted.specs.Answers.{IsAnswer};
ghost use Rattle.rowed.specs.PlacedNets.{PlacedView};
ghost use Rattle.cell_library.specs.Library.{LibraryView};
ghost use Rattle.layout_make.specs.Draw.{draw};
ghost use Rattle.layout_make.specs.LineWays.{skew_limit};
ghost use Rattle.layout_make.specs.MayDraw.{MayDraw};
ghost use Rattle.layout_make.specs.Size.{element_number};
ghost use Rattle.rowed.specs.Limits.{element_limit};
ghost use Rattle.layout_make.specs.Tags.{sheet};
ghost use Rattle.shape_extract.specs.Extraction.{IsCircuitOf};
ghost use Rattle.shape_extract.specs.Extracts.{KeepsFive};
ghost use Rattle.pulse_sim.specs.Clocked.{IsWellTimed, ShowsByClocks};
ghost use Rattle.pulse_sim.specs.Travelling.{arrives, is_past, every_quarter, ShowsAtRates};
ghost use Rattle.layout_realises.specs.Realises.{Realises};
ghost use Rattle.layout_realises.specs.Rates.{IsSkewOf, AnswersAtRates};

use channel_route::tracks_are_fewest;
use circuit::Answers;
use layout_make::{drawing_laws, drawing_ways};
use pulse_sim::{every_clock, every_rate, rate_is_exact, skew_is_computed};
use shape_extract::{cells_have_places, extracted_keeps, one_answer, one_circuit};

/// The circuit of a flat form has a skew, and where the flat form keeps the rules no other one.
pub fn one_skew()
    ensures some { (flat : Flat) (circuit : CircuitView) → IsCircuitOf flat circuit
        → (skew : ℕ) × IsSkewOf flat circuit skew }
    ensures once { (flat : Flat) (limits : Limits) (circuit : CircuitView) (skew other : ℕ) → KeepsRules flat limits
        → IsSkewOf flat circuit skew → IsSkewOf flat circuit other → skew ≡ other }
{
    cells_have_places();
    skew_is_computed();
}

/// A circuit that is extracted from shapes shows its answers at every rate at which the excitation runs the skew of the
/// shapes in less than a quarter of the period: of clocks nothing else is asked. At no other rate do windows keep clear.
pub fn rates_of_skew()
    ensures extracted { (flat : Flat) (circuit : CircuitView) (skew : ℕ) (words answers : List (List Bool))
        → length flat.shapes < 2 ^ 32 → length circuit.cells < 2 ^ 32 → KeepsFive flat → IsCircuitOf flat circuit
        → (is : IsSkewOf flat circuit skew) → AllZip (IsAnswer circuit) words answers
        → ShowsAtRates circuit is.near is.far skew (circuit.rows - 1) words answers }

    // So what is shown by every clock whose windows keep clear is shown at each such rate.
    ensures by_clocks { (flat : Flat) (circuit : CircuitView) (delay skew : ℕ) (words answers : List (List Bool))
        → (is : IsSkewOf flat circuit skew) → ShowsByClocks circuit delay words answers
        → ShowsAtRates circuit is.near is.far skew delay words answers }
    ensures clear { (flat : Flat) (circuit : CircuitView) (skew slow quarter : ℕ)
        → (is : IsSkewOf flat circuit skew) → slow * skew < quarter
        → IsWellTimed circuit (arrives (every_quarter quarter) slow is.near)
        (is_past (every_quarter quarter) slow 0 is.far) }
    ensures exact { (flat : Flat) (circuit : CircuitView) (skew slow quarter : ℕ)
        → (is : IsSkewOf flat circuit skew) → 1 ≤ slow
        → IsWellTimed circuit (arrives (every_quarter quarter) slow is.near)
        (is_past (every_quarter quarter) slow 0 is.far)
        → slow * skew < quarter }
{
    cells_have_places();
    extracted_keeps();
    every_rate();
    rate_is_exact();
}

/// The bytes of every chip that realises a netlist, or any other net, show its answers at every rate at which the
/// excitation runs the skew of their shapes in less than a quarter of the period.
pub fn chips_bear_rates<A: Answers>()
    ensures { (net : A) (bytes : List ℕ) (limits : Limits) (inputs outputs : ℕ) (circuit : CircuitView)
        (delay skew : ℕ) (chip : Realises bytes limits inputs outputs (A.meaning net) circuit delay)
        (is : IsSkewOf (flat_of chip.layout) circuit skew) (words : List (List Bool))
        → All (λ word. length word ≡ inputs) words
        → AnswersAtRates circuit is.near is.far skew delay (A.meaning net) words }
{
    rates_of_skew();
}

/// The skew of a drawing is at most twice the width of its widest row, with the height of three rows and the heights of
/// the lowest channel and of the highest one, less the delay of its odd rows; or the width, with the height of the
/// highest channel and the delay.
pub fn drawings_have_low_skew()
    ensures { (p : PlacedView) (l : LibraryView) (circuit : CircuitView) (skew : ℕ) → MayDraw p l
        → element_number p ≤ element_limit → IsCircuitOf (flat_of (draw p l)) circuit
        → IsSkewOf (flat_of (draw p l)) circuit skew → skew ≤ skew_limit (sheet p l) }
{
    tracks_are_fewest();
    drawing_laws();
    drawing_ways();
    extracted_keeps();
    one_answer();
    every_clock();
    one_circuit();
}
