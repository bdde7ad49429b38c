// The eight words of the sample.
ghost use Rattle.std.specs.Prelude.{◌≡◌, ◌*◌, ◌≤◌, ◌<◌, IfOk};
ghost use Rattle.sample_adder.specs.EightWords.{sample_value, sample_word, eight};

use aq_base::{List, Memory};
use circuit::Word;
use std::alloc::Global;

fn value_at(word: u32, place: u32) -> bool
    requires word { word < 8 }
    requires place { place < 128 }
    ensures { result ≡ sample_value word place }
{
    (word + 1) * (place + 3) % 11 < 5
}

fn word_of(alloc: Global, word: u32, width: u32) -> Result<Word, Memory>
    requires word { word < 8 }
    requires width { width ≤ 128 }
    ensures { IfOk result (λ values. values ≡ sample_word word width) }
{
    let mut values = List::new(alloc);
    for place in 0..width {
        values.push(value_at(word, place))?;
    }
    Ok(values)
}

/// The eight words on which the sample is evaluated, for 1 to 64 bits, each with a value for each of the `2 * bits`
/// inputs of the adder: value i of word k is true exactly where `(k + 1) * (i + 3) mod 11` is below 5. They are refused
/// for want of memory alone.
#[tactic(auto, unfolding(crate::specs::EightWords::eight))]
pub fn sample_words(alloc: Global, bits: u32) -> Result<List<Word>, Memory>
    requires some { 1 ≤ bits }
    requires most { bits ≤ 64 }
    ensures { IfOk result (λ words. words ≡ eight bits) }
{
    let mut words = List::new(alloc);
    for word in 0..8 {
        words.push(word_of(alloc, word, 2 * bits)?)?;
    }
    Ok(words)
}
