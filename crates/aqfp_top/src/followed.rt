// The law of a chip that is made and then verified, over what the two runs heard.
ghost use Rattle.std.specs.Prelude.{◌≡◌, ℕ, List, Option};
ghost use Rattle.aq_base.specs.History.{Event};
ghost use Rattle.aq_base.specs.Output.{Output};
ghost use Rattle.text_answers.specs.WordsText.{words_of, SaysWords};
ghost use Rattle.aqfp_top.specs.Words.{IsVerify};
ghost use Rattle.aqfp_top.specs.Designs.{stream_of};
ghost use Rattle.aqfp_top.specs.Histories.{loaded_three, BuiltHistory};
ghost use Rattle.aqfp_top.specs.Joined.{VerifiesNet};
ghost use Rattle.aqfp_top.specs.Runs.{HearsRun};
ghost use Rattle.aqfp_top.specs.declared.planner.Planner.{Planner};
ghost use Rattle.aqfp_top.specs.declared.fault.Fault.{Fault};

use crate::accepted::each_layout_is_checked;
use crate::joined::built_is_verified;

/// A chip was made; in a later run of `verify`, over this or another store, the first file gave the bytes that OUT took
/// then, and the second the library that LIB gave, and the third words with a value for each input of the netlist. Then
/// that run prints the chip's counts and the netlist's answer to each word, but for want of memory and for faults of
/// the outside.
pub fn made_then_verified()
    ensures { (planner : Planner) (history later : List Event) (words : List (List ℕ)) (out after : Output)
        (made : BuiltHistory planner history later words out after)
        (checked : List Event) (end : List Event) (check : List (List ℕ)) (shown shown' : Output)
        (answer : Option Fault) (text : List ℕ) → IsVerify check → HearsRun checked end check shown shown' answer
        → end ≡ loaded_three checked check (stream_of made.chip made.cells) made.lib text
        → SaysWords made.equations.inputs text
        → VerifiesNet made.equations made.chip (words_of text) shown shown' answer }
{
    built_is_verified();
    each_layout_is_checked();
}
