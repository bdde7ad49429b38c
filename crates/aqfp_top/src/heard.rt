// What follows of what a run was heard to do.
ghost use Rattle.std.specs.Prelude.{ℕ, List, Option, None};
ghost use Rattle.aq_base.specs.History.{Event};
ghost use Rattle.aq_base.specs.FaultCounts.{load_failed};
ghost use Rattle.aq_base.specs.Output.{Output};
ghost use Rattle.aqfp_top.specs.Counted.{counts_of, HasFaults, FailedLoad};
ghost use Rattle.aqfp_top.specs.Stages.{IsFirst};
ghost use Rattle.aqfp_top.specs.Ended.{IsDoneOrGivesUp};
ghost use Rattle.aqfp_top.specs.Runs.{stages_by, Judges, HearsRun};
ghost use Rattle.aqfp_top.specs.declared.words.Form.{Form};
ghost use Rattle.aqfp_top.specs.declared.fault.Fault.{Fault};

/// Where nothing is wrong with the texts that the loads of a run gave, its work is done, but for want of memory, for
/// faults of the outside, and for the size for which a comparison or the search for a chip gives up. Of which texts
/// that holds the laws on what is accepted say.
pub fn well_texts_are_done()
    ensures { (form : Form) (history history' : List Event) (words : List (List ℕ)) (out out' : Output)
        (answer : Option Fault) (judges : Judges form history history' words out out' answer)
        → IsFirst (stages_by form judges.texts) None → IsDoneOrGivesUp (stages_by form judges.texts) answer }
{}

/// A fault of the outside was heard: the count of the failure that it tells, of a read, a write or a close of the
/// store, or of `out`, has risen, and a failed load was the last that failed.
pub fn faults_are_heard()
    ensures counted { (history history' : List Event) (words : List (List ℕ)) (out out' : Output)
        (answer : Option Fault) → HearsRun history history' words out out' answer
        → HasFaults (counts_of history out.history) (counts_of history' out'.history) answer }
    ensures named { (history history' : List Event) (words : List (List ℕ)) (out out' : Output)
        (answer : Option Fault) → HearsRun history history' words out out' answer
        → FailedLoad (load_failed history') words answer }
{}
