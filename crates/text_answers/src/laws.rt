// What the printed answers are.
ghost use Rattle.std.specs.Prelude.{◌≡◌, List, Bool, All, length};
ghost use Rattle.std.specs.List.{AllZip};
ghost use Rattle.circuit_extracted.specs.Circuits.{CircuitView, KeepsFacts};
ghost use Rattle.circuit_extracted.specs.Answers.{IsAnswer};
ghost use Rattle.pulse_sim.specs.Shows.{Shows};
ghost use Rattle.text_answers.specs.Counts.{delay_of};
ghost use Rattle.text_answers.specs.WordLines.{answers_to};

use circuit_extracted::one_answer;
use pulse_sim::{every_order, settled_is_lawful};

/// The answers that are read off the settled run are those of the circuit's functions, and the circuit shows them in
/// every run, whatever the order of switching.
pub fn answers_are_shown()
    ensures shown { (circuit : CircuitView) (words : List (List Bool))
        → KeepsFacts circuit → All (λ word. length word ≡ circuit.inputs) words
        → Shows circuit (delay_of circuit) words (answers_to circuit words) }
    ensures answers { (circuit : CircuitView) (words : List (List Bool))
        → KeepsFacts circuit → All (λ word. length word ≡ circuit.inputs) words
        → AllZip (IsAnswer circuit) words (answers_to circuit words) }
{
    one_answer();
    every_order();
    settled_is_lawful();
}
