// `sample N`.
ghost use Rattle.std.specs.Prelude.{◌≡◌, ◌≤◌, ◌^◌, Some, None, IfOk, IfErr, OnOk, All, length};
ghost use Rattle.std.specs.List.{AllZip};
ghost use Rattle.std.specs.Result.{result_err};
ghost use Rattle.blif_read.specs.Says as netlist;
ghost use Rattle.blif_read.specs.Equations.{IsAnswer};
ghost use Rattle.sample_adder.specs.Adder.{adder};
ghost use Rattle.sample_adder.specs.EightWords.{eight};
ghost use Rattle.aqfp_top.specs.Designs.{IsPlainFault};
ghost use Rattle.aqfp_top.specs.Stages.{IsFirst, Answers};
ghost use Rattle.aqfp_top.specs.Due.{sample_stages};
ghost use Rattle.aqfp_top.specs.Faults.{IsSampleFault};
ghost use Rattle.aqfp_top.specs.Code.Staging.{OrMemory};
ghost use Rattle.aqfp_top.specs.Code.Printing.{PrintsText};
ghost use Rattle.aqfp_top.specs.Code.Sampling.{IsSampleOfBits, text_in, IsMakingFault};
ghost use Rattle.aqfp_top.specs.declared.fault.Fault.{Fault};
ghost use Rattle.aqfp_top.specs.Runs.{RunsAs};
ghost use Rattle.aqfp_top.specs.declared.words.Form.{Form};
ghost use Rattle.std.specs.Prelude.{ℕ, List};
ghost use Rattle.aq_base.specs.History.{Event};

use crate::counts::ChipCounts;
use crate::design::Chip;
use crate::fault::Fault;
use crate::out::out_end;
use crate::planner::Planner;
use aq_base::{List, Memory, Sink};
use blif_read::{BlifRefusal, Netlist, blif_read};
use cell_library::library_a;
use circuit::{Word, answer_word};
use sample_adder::{SampleCounts, adder_text, print_sample, sample_laws, sample_words};
use std::alloc::Global;

/// The counts of the adder's chip, and the adder's answers to the eight words.
#[derive(Drop)]
pub struct SampleResult {
    pub counts: ChipCounts,
    pub answers: List<Word>,
}

// The netlist that a text of one model without calls says.
fn read_plain(alloc: Global, text: &[u8]) -> Result<Netlist, Fault>
    requires { length text.now ≤ 2 ^ 28 }
    ensures ok { IfOk result (λ net. netlist.SaysNet text.now net) }
    ensures bad { IfErr result (OrMemory (IsPlainFault text.now)) }
{
    match blif_read(alloc, text) {
        Ok(net) => Ok(net),
        Err(BlifRefusal::Bad(fault)) => Err(Fault::BadBlif { fault }),
        Err(BlifRefusal::Memory) => Err(Fault::Memory),
    }
}

// The adder of so many bits.
#[tactic(auto, using(crate::proofs::Sampling::reads))]
fn read_adder(alloc: Global, bits: u32) -> Result<Netlist, Fault>
    requires some { 1 ≤ bits }
    requires most { bits ≤ 64 }
    ensures ok { IfOk result (λ net. netlist.SaysNet (adder bits) net) }
    ensures bad { IfErr result (OrMemory (IsPlainFault (adder bits))) }
{
    sample_laws();
    let Ok(text) = adder_text(alloc, bits) else {
        return Err(Fault::Memory);
    };
    read_plain(alloc, &text)
}

// The netlist's answer to each of the words.
fn answers_to(alloc: Global, net: &Netlist, words: &List<Word>) -> Result<List<Word>, Memory>
    requires { All (λ word. length word ≡ net.now.inputs) words.now }
    ensures { IfOk result (AllZip (IsAnswer net.now) words.now) }
{
    let mut answers = List::new(alloc);
    for word in words.as_slice() {
        answers.push(answer_word(alloc, net, word)?)?;
    }
    Ok(answers)
}

// The netlist's answers to the eight words.
#[tactic(auto, using(crate::proofs::Sampling::wide_words))]
fn eight_answers(alloc: Global, bits: u32, net: &Netlist) -> Result<List<Word>, Memory>
    requires some { 1 ≤ bits }
    requires most { bits ≤ 64 }
    requires says { netlist.SaysNet (adder bits) net.now }
    ensures { IfOk result (AllZip (IsAnswer net.now) (eight bits)) }
{
    sample_laws();
    let words = sample_words(alloc, bits)?;
    answers_to(alloc, net, &words)
}

// The adder, its chip with library A, and its answers.
#[tactic(auto, using(crate::proofs::Sampling::makes))]
fn make(alloc: Global, bits: u32) -> Result<SampleResult, Fault>
    requires some { 1 ≤ bits }
    requires most { bits ≤ 64 }
    ensures ok { IfOk result (IsSampleOfBits bits) }
    ensures well { OnOk result (IsFirst (sample_stages bits) None) }
    ensures bad { IfErr result (λ fault. Answers (sample_stages bits) (Some fault)) }
    ensures only { IfErr result IsMakingFault }
{
    let net = read_adder(alloc, bits)?;
    let Ok(cells) = library_a(alloc) else {
        return Err(Fault::Memory);
    };
    let chip = Chip::of_net(alloc, Planner::Build, &net, &cells)?;
    let Ok(answers) = eight_answers(alloc, bits, &net) else {
        return Err(Fault::Memory);
    };
    Ok(SampleResult {
        counts: chip.counts,
        answers,
    })
}

#[tactic(auto, using(crate::proofs::OutEnds::ends_text))]
fn print<O: Sink>(alloc: Global, bits: u32, sample: &SampleResult, out: &mut O) -> Result<(), Fault>
    requires { IsSampleOfBits bits sample.now }
    ensures { PrintsText (text_in bits sample.now) (O.output out.old) (O.output out.new) result }
{
    let counts = &sample.counts;
    let printed = print_sample(
        alloc,
        SampleCounts {
            bits,
            rows: counts.rows,
            cells: counts.cells,
            wires: counts.wires,
        },
        &sample.answers,
        out,
    );
    out_end(printed)
}

/// Makes the adder of so many bits, 1 to 64, and its chip with library A, evaluates it on eight words, and prints the
/// chip's counts and the answers.
#[tactic(auto, using(crate::proofs::Sampling::ends))]
pub fn sample<O: Sink>(alloc: Global, bits: u32, out: &mut O) -> Result<(), Fault>
    requires some { 1 ≤ bits }
    requires most { bits ≤ 64 }
    ensures runs { (words : List (List ℕ)) (history : List Event) → RunsAs (Form.Sample bits) history history words
        (O.output out.old) (O.output out.new) (result_err result) }
    ensures only { IfErr result IsSampleFault }
{
    let made = make(alloc, bits)?;
    print(alloc, bits, &made, out)
}
