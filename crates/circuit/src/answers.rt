// What answers words.
ghost use Rattle.std.specs.Prelude.{◌≡◌, ℕ, List, Bool, length, IfOk};
ghost use Rattle.circuit.specs.OneAnswer.{HasOneAnswer};

use crate::Word;
use aq_base::Memory;
use std::alloc::Global;

/// A circuit without memory of its own: it has one answer to each word of as many values as it has inputs.
pub trait Answers {
    /// How many values a word has.
    ghost inputs: { Self → ℕ };

    /// How many values an answer has.
    ghost outputs: { Self → ℕ };

    /// The second word is the answer to the first.
    ghost meaning: { Self → List Bool → List Bool → Type 0 };

    /// How many values a word has. Each word of so many has one answer.
    fn input_count(&self) -> u32
        ensures count { result ≡ inputs self.now }
        ensures once { HasOneAnswer (inputs self.now) (outputs self.now) (meaning self.now) };

    /// How many values an answer has.
    fn output_count(&self) -> u32
        ensures { result ≡ outputs self.now };

    /// The answer to a word of as many values as there are inputs. It is refused for want of memory alone.
    fn answer(&self, alloc: Global, word: &Word) -> Result<Word, Memory>
        requires { length word.now ≡ inputs self.now }
        ensures { IfOk result (λ answer. meaning self.now word.now answer) };
}

/// The circuit's answer to a word of as many values as it has inputs. It is refused for want of memory alone.
pub fn answer_word<C: Answers>(alloc: Global, circuit: &C, word: &Word) -> Result<Word, Memory>
    requires { length word.now ≡ C.inputs circuit.now }
    ensures { IfOk result (λ answer. C.meaning circuit.now word.now answer) }
{
    circuit.answer(alloc, word)
}
