// What follows of what a run was heard to do for a store that tells its files.
ghost use Rattle.std.specs.Prelude.{◌≡◌, ℕ, List, Some};
ghost use Rattle.aq_base.specs.History.{Event};
ghost use Rattle.aq_base.specs.Output.{Output};
ghost use Rattle.aq_base.specs.Store.{with_file};
ghost use Rattle.aq_base.specs.Replay.{contents_after, AreTold};
ghost use Rattle.aqfp_top.specs.Words.{word_at};
ghost use Rattle.aqfp_top.specs.Loads.{Load};
ghost use Rattle.aqfp_top.specs.Histories.{HearsChip};
ghost use Rattle.aqfp_top.specs.Runs.{given, after_storing};
ghost use Rattle.aqfp_top.specs.Told.{AreHeld, StandsMade};

use aq_base::told_is_heard;

/// A store that tells its files, as the one in memory does (`aq_base::told_is_heard`), holds what its history says, and
/// its loads gave what stood there. So the texts of a run are those that stood under the names of its words, its loads
/// change nothing, and what it stores stands under OUT and changes no other name; and a chip that was made is one of the
/// netlist and the library that stood under NET and LIB.
pub fn told_runs_are_heard()
    ensures texts { (history : List Event) (words : List (List ℕ)) (loads : List Load) (texts : List (List ℕ))
        → AreTold (given history words loads texts) → AreHeld (contents_after history) words loads texts }
    ensures kept { (history : List Event) (words : List (List ℕ)) (loads : List Load) (texts : List (List ℕ))
        → contents_after (given history words loads texts) ≡ contents_after history }
    ensures stored { (history : List Event) (words : List (List ℕ)) (bytes : List ℕ)
        → contents_after (after_storing history words (Some bytes))
        ≡ with_file (contents_after history) (word_at words 3) bytes }
    ensures chip { (history history' : List Event) (words : List (List ℕ)) (out out' : Output)
        (chip : HearsChip history history' words out out') → AreTold history'
        → StandsMade (contents_after history) (contents_after history') words chip.net chip.lib chip.bytes }
{
    told_is_heard();
}
