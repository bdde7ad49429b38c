// A run of a circuit under the words of a text.
ghost use Rattle.std.specs.Prelude.{◌≡◌, ◌+◌, ◌^◌, ◌<◌, ◌≤◌, ℕ, All, IfOk, List, length, slice_get, Some};
ghost use Rattle.std.specs.Str.Lines.{lines};
ghost use Rattle.pulse_sim.specs.Settled.{settled_run, settled_tick};
ghost use Rattle.text_answers.specs.Running.{present_word, IsWaiting, IsFed};

use crate::lines::first_line;
use crate::words::{GivenWords, copy_word};
use aq_base::{List, Memory};
use circuit::Word;
use circuit_extracted::Extracted;
use pulse_sim::{Flux, Pulses};
use std::alloc::Global;
use std::marker::Model;

/// A run of a circuit, in which a word enters at each fourth tick. Contracts see the circuit, the words and the time.
#[derive(Drop)]
pub struct Run<'a> {
    pulses: Pulses,
    text: &'a [u8],
    /// The lines that are to enter.
    rest: &'a [u8],
    /// The word that has entered last.
    word: Word,
    /// Whether a word is present.
    is_given: bool,
}

impl<'a> Model for Run<'a> {
    ghost use Rattle.text_answers.specs.WordsText.{words_of};
    ghost use Rattle.text_answers.specs.Running.{Running, IsRunning};

    ghost Value = { Running };

    ghost view = { λ s. record { circuit = s.pulses.circuit; words = words_of s.text.now; time = s.pulses.time } };

    ghost invariant = { λ s. IsRunning s.text.now s.rest.now s.word s.is_given s.pulses };
}

/// A word of so many values, all false.
pub fn blank_word(alloc: Global, width: u32) -> Result<Word, Memory>
    ensures { IfOk result (λ word. length word ≡ width) }
{
    let values = vec![in alloc; false; width as usize]?;
    Ok(List::from_vec(values))
}

/// The next word enters where the time is its own; what is left of the text, and whether a word is present.
fn enter<'a>(time: u64, rest: &'a [u8], is_given: bool, word: &mut Word) -> (&'a [u8], bool)
    requires { All (λ line. length line ≡ length word.old) (lines rest.now) }
    ensures { (text : List ℕ) (width : ℕ) → IsWaiting text rest.now word.old is_given time width
        → IsFed text result.0.now word.new result.1 time width }
{
    if time % 4 != 0 {
        return (rest, is_given);
    }
    if rest.is_empty() {
        return (rest, false);
    }
    let (line, after) = first_line(rest);
    copy_word(line, word);
    (after, true)
}

/// The next tick, with the word where it is present.
fn give(pulses: &mut Pulses, word: &Word, is_given: bool)
    requires wide { length word.now ≡ pulses.old.circuit.inputs }
    requires time { pulses.old.time < 2 ^ 60 }
    ensures { pulses.new
        ≡ record {
          circuit = pulses.old.circuit;
          time = pulses.old.time + 1;
          fluxes = settled_tick pulses.old.circuit (present_word is_given word.now) pulses.old.time pulses.old.fluxes;
        } }
{
    if is_given {
        pulses.step(Some(word));
    } else {
        pulses.step(None);
    }
}

impl<'a> Run<'a> {
    /// The run before anything has happened. It makes all the room that it needs.
    pub fn new(
        alloc: Global,
        circuit: &Extracted,
        words: &GivenWords<'a>,
    ) -> Result<Run<'a>, Memory>
        requires { All (λ word. length word ≡ circuit.now.inputs) words.now }
        ensures { IfOk result (λ run. run ≡ record { circuit = circuit.now; words = words.now; time = 0 }) }
    {
        let pulses = Pulses::new(alloc, circuit)?;
        let word = blank_word(alloc, circuit.inputs)?;
        let text = words.text();
        Ok(Run {
            pulses,
            text,
            rest: text,
            word,
            is_given: false,
        })
    }

    /// The next tick, with the word of its time; the time is below 2^60.
    pub fn tick(&mut self)
        requires { self.old.time < 2 ^ 60 }
        ensures { self.new ≡ record { circuit = self.old.circuit; words = self.old.words; time = self.old.time + 1 } }
    {
        let time = self.pulses.time();
        let (rest, is_given) = enter(time, self.rest, self.is_given, &mut self.word);
        self.rest = rest;
        self.is_given = is_given;
        give(&mut self.pulses, &self.word, is_given);
    }

    /// The flux of a cell, by its number in the circuit.
    pub fn flux(&self, cell: u32) -> Flux
        requires { cell < length self.now.circuit.cells }
        ensures { slice_get (settled_run self.now.circuit self.now.words self.now.time) cell ≡ Some result }
    {
        self.pulses.flux(cell)
    }
}
