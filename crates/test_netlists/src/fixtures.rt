// Words, and what answers them.
use aq_base::{List, Memory};
use circuit::{Answers, Word, answer_word};
use std::alloc::Global;

/// The values that a text of zeros and ones has.
pub fn word_of(alloc: Global, bits: &str) -> Result<Word, Memory> {
    let mut word = List::new(alloc);
    for bit in bits.as_bytes() {
        word.push(*bit == b'1')?;
    }
    Ok(word)
}

/// Whether the circuit answers the word so; not where the word has another number of values than the circuit inputs.
pub fn answers_so<C: Answers>(
    alloc: Global,
    circuit: &C,
    word: &Word,
    want: &[bool],
) -> Result<bool, Memory> {
    if word.len() != circuit.input_count() as usize {
        return Ok(false);
    }
    let answer = answer_word(alloc, circuit, word)?;
    Ok(answer.as_slice() == want)
}

/// The same, where the word and the answer are texts of zeros and ones.
pub fn answers_bits<C: Answers>(
    alloc: Global,
    circuit: &C,
    word: &str,
    want: &str,
) -> Result<bool, Memory> {
    let word = word_of(alloc, word)?;
    let want = word_of(alloc, want)?;
    answers_so(alloc, circuit, &word, want.as_slice())
}
