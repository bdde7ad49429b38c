// Words by their number.
ghost use Rattle.std.specs.Prelude.{◌≡◌, IfOk, length};

use aq_base::{List, Memory};
use circuit::Word;
use std::alloc::Global;

/// The word of this number of so many inputs: input 0 is its highest digit, and where there are more than 32 inputs,
/// digits repeat. It is refused for want of memory alone.
pub fn numbered_word(alloc: Global, inputs: u32, number: u32) -> Result<Word, Memory>
    ensures { IfOk result (λ word. length word ≡ inputs) }
{
    let mut word = List::new(alloc);
    for input in 0..inputs {
        word.push((number >> ((inputs - 1 - input) % 32)) & 1 == 1)?;
    }
    Ok(word)
}
