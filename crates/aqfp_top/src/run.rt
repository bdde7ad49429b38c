// The top call.
ghost use Rattle.std.specs.Prelude.{◌≡◌, ℕ, Some, None, IfSome, IfErr};
ghost use Rattle.std.specs.Result.{result_err};
ghost use Rattle.aqfp_top.specs.Words.{spelled, IsMakeBy, IsVerify, IsTrace, IsEqual, IsWrite, IsReport, IsShapesOf};
ghost use Rattle.aqfp_top.specs.Words.{IsSampleOf, HasForm};
ghost use Rattle.aqfp_top.specs.Statuses.{status_of};
ghost use Rattle.aqfp_top.specs.Lines.{Reports, IsCutShort};
ghost use Rattle.aqfp_top.specs.Faults.{RunsOnly};
ghost use Rattle.aqfp_top.specs.Histories.{BuiltHistory, HearsChip, HearsNetlist, HearsAnswers, HearsFluxes};
ghost use Rattle.aqfp_top.specs.Histories.{HearsVerdict};
ghost use Rattle.aqfp_top.specs.SampleHistories.{HearsSample};
ghost use Rattle.aqfp_top.specs.Runs.{HearsRun};
ghost use Rattle.aqfp_top.specs.declared.planner.Planner.{Planner};
ghost use Rattle.aqfp_top.specs.Reported.{HearsReport};
ghost use Rattle.aqfp_top.specs.Shown.{HearsShapes};
ghost use Rattle.aqfp_top.specs.declared.fault.Fault.{Fault};

use crate::build::build;
use crate::check::{Printing, check};
use crate::chip_report::report;
use crate::equal::equal;
use crate::fault::Fault;
use crate::report::say;
use crate::sample::sample;
use crate::shapes::shapes;
use crate::words::{Form, form_of};
use crate::write::write_netlist;
use aq_base::{Files, Sink};
use blif_flat::{netlist_answers, written_answers};
use cell_library::limits_are_said;
use layout_realises::drawn_chip_realises;
use pulse_sim::every_clock;
use std::alloc::Global;
use text_answers::answers_are_shown;

/// How a run ended: the status of the program, and the fault where the status is not 0.
#[derive(Drop)]
pub struct Ending {
    pub status: u8,
    pub fault: Option<Fault>,
}

#[tactic(auto, using(crate::proofs::Runs::runs, crate::proofs::Running::forms))]
fn work<F: Files, O: Sink>(
    alloc: Global,
    words: &[String],
    files: &mut F,
    out: &mut O,
) -> Result<(), Fault>
    requires { (F.outside files.old).opened ≡ None }
    ensures usage { ¬ HasForm (spelled words.now) → result_err result ≡ Some Fault.Usage }
    ensures runs { HearsRun (F.outside files.old).history (F.outside files.new).history (spelled words.now)
        (O.output out.old) (O.output out.new) (result_err result) }
    ensures only { IfErr result (RunsOnly (spelled words.now)) }
    ensures shut { (F.outside files.new).opened ≡ None }
{
    match form_of(words) {
        Form::Make { planner } => build(alloc, planner, words, files, out),
        Form::Verify => check(alloc, Printing::Answers, words, files, out),
        Form::Trace => check(alloc, Printing::Fluxes, words, files, out),
        Form::Equal => equal(alloc, words, files, out),
        Form::Write => write_netlist(alloc, words, files, out),
        Form::Report => report(alloc, words, files, out),
        Form::Shapes { first, second } => shapes(alloc, words, first, second, files, out),
        Form::Sample { bits } => sample(alloc, bits, out),
        Form::Wrong => Err(Fault::Usage),
    }
}

/// Does what the words of a command line say.
pub fn aqfp_run<F: Files, O: Sink, E: Sink>(
    alloc: Global,
    words: &[String],
    files: &mut F,
    out: &mut O,
    err: &mut E,
) -> Ending
    requires { (F.outside files.old).opened ≡ None }

    ensures status { result.status ≡ status_of result.fault }

    // What the store hears, the system's files too, and what `out` gains. The files of the words' form are loaded; the
    // answer says why a load was refused, or it is what the stages of the texts may answer that the loads gave, and
    // what is due of these was stored and printed as far as it says. How often a call failed follows
    // (`faults_are_heard`), and what stands in a store that tells its files (`told_is_heard`).
    ensures runs { HearsRun (F.outside files.old).history (F.outside files.new).history (spelled words.now)
        (O.output out.old) (O.output out.new) result.fault }

    // Which faults a command may answer; the usage where there is none.
    ensures only { IfSome result.fault (RunsOnly (spelled words.now)) }
    ensures usage { ¬ HasForm (spelled words.now) → result.fault ≡ Some Fault.Usage }

    // What a command that makes a chip has made where it ends well, of what NET and LIB gave: OUT took a chip of the
    // netlist, which answers by every clock whose windows keep clear.
    ensures hears { (planner : Planner) → IsMakeBy planner (spelled words.now) → result.fault ≡ None
        → HearsChip (F.outside files.old).history (F.outside files.new).history (spelled words.now) (O.output out.old)
        (O.output out.new) }

    // And by which plan: the defined one, or one that is no larger, or that of the netlist's own cells. What follows of
    // both is said once (`chip_is_planned`).
    ensures planned { (planner : Planner) → IsMakeBy planner (spelled words.now) → result.fault ≡ None
        → BuiltHistory planner (F.outside files.old).history (F.outside files.new).history (spelled words.now)
        (O.output out.old) (O.output out.new) }

    // What a check that ends well has shown of what GDS, LIB and WORDS gave: the answers to the words, whatever the
    // order of switching and by every clock whose windows keep clear, or the fluxes.
    ensures hears_answers { IsVerify (spelled words.now) → result.fault ≡ None
        → HearsAnswers (F.outside files.old).history (F.outside files.new).history (spelled words.now)
        (O.output out.old)
        (O.output out.new) }
    ensures hears_fluxes { IsTrace (spelled words.now) → result.fault ≡ None
        → HearsFluxes (F.outside files.old).history (F.outside files.new).history (spelled words.now) (O.output out.old)
        (O.output out.new) }

    // What a comparison that ends well has shown of what GDS, LIB and NET gave: that chip and netlist answer every word
    // alike, or where first not.
    ensures hears_verdict { IsEqual (spelled words.now) → result.fault ≡ None
        → HearsVerdict (F.outside files.old).history (F.outside files.new).history (spelled words.now)
        (O.output out.old)
        (O.output out.new) }

    // What a `netlist` that ends well has stored of what GDS and LIB gave: the chip's circuit, as a netlist that answers
    // every word as it does.
    ensures hears_netlist { IsWrite (spelled words.now) → result.fault ≡ None
        → HearsNetlist (F.outside files.old).history (F.outside files.new).history (spelled words.now)
        (O.output out.old)
        (O.output out.new) }

    // What a sample that ends well has printed. It asks nothing of the store.
    ensures hears_sample { (bits : ℕ) → IsSampleOf (spelled words.now) bits → result.fault ≡ None
        → HearsSample bits (F.outside files.old).history (F.outside files.new).history (O.output out.old)
        (O.output out.new) }

    // What a `report` that ends well has printed: the counts of the chip, its cells by kind, its size and its wires.
    ensures hears_report { IsReport (spelled words.now) → result.fault ≡ None
        → HearsReport (F.outside files.old).history (F.outside files.new).history (spelled words.now) (O.output out.old)
        (O.output out.new) }

    // What a `shapes` that ends well has printed: the lines of the shapes or labels of two numbers.
    ensures hears_shapes { (first second : ℕ) → IsShapesOf (spelled words.now) first second → result.fault ≡ None
        → HearsShapes (F.outside files.old).history (F.outside files.new).history (spelled words.now) first second
        (O.output out.old) (O.output out.new) }

    // What is left.
    ensures shut { (F.outside files.new).opened ≡ None }
    ensures reports { Reports IsCutShort (E.output err.old) (E.output err.new) (spelled words.now) result.fault }
{
    drawn_chip_realises();
    limits_are_said();
    netlist_answers();
    answers_are_shown();
    every_clock();
    written_answers();
    match work(alloc, words, files, out) {
        Ok(()) => Ending {
            status: 0,
            fault: None,
        },
        Err(fault) => {
            say(words, &fault, err);
            Ending {
                status: fault.status(),
                fault: Some(fault),
            }
        }
    }
}
