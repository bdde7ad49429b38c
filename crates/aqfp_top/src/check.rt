// `verify GDS LIB WORDS` and `trace GDS LIB WORDS`.
ghost use Rattle.std.specs.Prelude.{◌≡◌, ◌^◌, ◌<◌, ℕ, All, List, Some, None, length, IfOk, IfErr, OnOk};
ghost use Rattle.std.specs.Result.{result_err};
ghost use Rattle.text_answers.specs.WordsText.{words_of, SaysWords};
ghost use Rattle.aqfp_top.specs.Words.{spelled};
ghost use Rattle.aqfp_top.specs.Stages.{IsFirst, Answers};
ghost use Rattle.aqfp_top.specs.Due.{circuit_stages, judging_stages};
ghost use Rattle.aqfp_top.specs.Faults.{IsCheckFault};
ghost use Rattle.aqfp_top.specs.Checks.{MakesCircuit, text_of};
ghost use Rattle.aqfp_top.specs.Code.Printing.{PrintsText};
ghost use Rattle.aqfp_top.specs.Code.Checking.{IsJudgingFault};
ghost use Rattle.aqfp_top.specs.Runs.{RunsAs};
ghost use Rattle.aqfp_top.specs.Code.Running.{checking};

use crate::fault::Fault;
use crate::out::out_end;
use crate::reading::{load_texts, read_circuit};
use aq_base::{Files, Sink};
use gds_records::one_wide_reading;
use shape_extract::{Extracted, one_circuit};
use std::alloc::Global;
use text_answers::{GivenWords, print_answers, print_fluxes, read_words};

/// What is printed of a chip's circuit.
#[derive(Clone, Copy, PartialEq, Eq)]
pub enum Printing {
    /// The counts line, and the answer to each word.
    Answers,
    /// The counts line, and the flux of each cell at each time.
    Fluxes,
}

// The words of the text, for the circuit, whatever the bytes of a layout and a library of which it was read.
fn words_for<'a>(text: &'a [u8], circuit: &Extracted) -> Result<GivenWords<'a>, Fault>
    requires { length text.now < 2 ^ 32 }
    ensures says { OnOk result (SaysWords circuit.now.inputs text.now) }
    ensures words { IfOk result (λ words. words ≡ words_of text.now) }
    ensures wide { IfOk result (All (λ word. length word ≡ circuit.now.inputs)) }
    ensures well { (gds lib : List ℕ) → MakesCircuit gds lib circuit.now → IsFirst (circuit_stages gds lib) None
        → OnOk result (IsFirst (judging_stages gds lib text.now) None) }
    ensures bad { (gds lib : List ℕ) → MakesCircuit gds lib circuit.now → IsFirst (circuit_stages gds lib) None
        → IfErr result (λ fault. Answers (judging_stages gds lib text.now) (Some fault)) }
    ensures only { IfErr result IsJudgingFault }
{
    one_wide_reading();
    one_circuit();
    match read_words(text, circuit.inputs) {
        Ok(words) => Ok(words),
        Err(bad) => Err(Fault::BadWords { line: bad.line }),
    }
}

#[tactic(auto, using(crate::proofs::OutEnds::ends_text))]
fn print<O: Sink>(
    alloc: Global,
    printing: Printing,
    circuit: &Extracted,
    words: &GivenWords<'_>,
    out: &mut O,
) -> Result<(), Fault>
    requires { All (λ word. length word ≡ circuit.now.inputs) words.now }
    ensures { PrintsText (text_of printing circuit.now words.now) (O.output out.old) (O.output out.new) result }
{
    let printed = match printing {
        Printing::Answers => print_answers(alloc, circuit, words, out),
        Printing::Fluxes => print_fluxes(alloc, circuit, words, out),
    };
    out_end(printed)
}

/// Judges a chip's stream, a library and words, and prints the chip's counts and what its circuit shows.
#[tactic(auto, using(crate::proofs::CheckEnds::ends, crate::proofs::Running::refusals))]
pub fn check<F: Files, O: Sink>(
    alloc: Global,
    printing: Printing,
    words: &[String],
    files: &mut F,
    out: &mut O,
) -> Result<(), Fault>
    requires { length words.now ≡ 4 }
    ensures runs { RunsAs (checking printing) (F.outside files.old).history (F.outside files.new).history
        (spelled words.now) (O.output out.old) (O.output out.new) (result_err result) }
    ensures only { IfErr result IsCheckFault }
    ensures kept { (F.outside files.new).opened ≡ (F.outside files.old).opened }
{
    let texts = load_texts(alloc, files, words)?;
    let circuit = read_circuit(alloc, texts.gds, &texts.lib)?;
    circuit.known();
    let given = words_for(&texts.third, &circuit)?;
    print(alloc, printing, &circuit, &given, out)
}
