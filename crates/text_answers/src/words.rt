// The words of a text.
ghost use Rattle.std.specs.Prelude.{◌≡◌, ℕ, ◌+◌, ◌^◌, ◌<◌, ◌≤◌, ◌&&◌, All, IfOk, IfErr, length};
ghost use Rattle.std.specs.List.{list_all};
ghost use Rattle.text_answers.specs.WordsText.{is_digit, is_one, is_word, word_of, words_of, SaysWords, IsBadLine};

use crate::lines::first_line;
use circuit::Word;
use std::marker::Model;

/// The number of a line, counted from 1, that is no word.
#[derive(Clone, Copy, PartialEq, Eq)]
pub struct BadLine {
    pub line: u64,
}

/// The words of a text, which contracts see as the list of the words. It stands on the text and takes no memory.
#[derive(Drop)]
pub struct GivenWords<'a> {
    text: &'a [u8],
    count: u64,
}

impl<'a> Model for GivenWords<'a> {
    ghost use Rattle.std.specs.Prelude.{◌≡◌, ◌<◌, ◌^◌, Bool, List, length};
    ghost use Rattle.text_answers.specs.WordsText.{words_of};

    ghost Value = { List (List Bool) };

    ghost view = { λ s. words_of s.text.now };

    ghost invariant = { λ s. (s.count ≡ length (words_of s.text.now)) × (s.count < 2 ^ 32) };
}

impl<'a> GivenWords<'a> {
    /// How many words there are: fewer than 2^32.
    pub fn count(&self) -> u64
        ensures count { result ≡ length self.now }
        ensures few { result < 2 ^ 32 }
    {
        self.count
    }

    /// The text that the words stand in.
    pub fn text(&self) -> &'a [u8]
        ensures { words_of result.now ≡ self.now }
    {
        self.text
    }
}

fn is_digit(b: u8) -> bool
    ensures { result ≡ is_digit b }
{
    b == b'0' || b == b'1'
}

fn all_digits(line: &[u8]) -> bool
    ensures { result ≡ list_all is_digit line.now }
{
    line.iter().all(|b| is_digit(*b))
}

fn is_word(line: &[u8], width: u32) -> bool
    ensures { result ≡ is_word width line.now }
{
    line.len() == width as usize && all_digits(line)
}

/// The words of a text, whose lines are to be words of this many values each; or the first line that is none. Lines end
/// at line feeds, before which one carriage return is dropped, and the last may lack its own where it is not empty.
pub fn read_words(text: &[u8], width: u32) -> Result<GivenWords<'_>, BadLine>
    requires { length text.now < 2 ^ 32 }
    ensures words { IfOk result (λ words. words ≡ words_of text.now) }
    ensures says { IfOk result (λ words. SaysWords width text.now) }
    ensures wide { IfOk result (λ words. All (λ word. length word ≡ width) words) }
    ensures bad { IfErr result (λ bad. IsBadLine width text.now bad.line) }
{
    let mut count: u64 = 0;
    let mut rest = text;
    while !rest.is_empty() {
        let (line, after) = first_line(rest);
        if !is_word(line, width) {
            return Err(BadLine { line: count + 1 });
        }
        count += 1;
        rest = after;
    }
    Ok(GivenWords { text, count })
}

/// Puts the values of a line's word into a word of as many values.
pub fn copy_word(line: &[u8], into: &mut Word)
    requires { length into.old ≡ length line.now }
    ensures { into.new ≡ word_of line.now }
{
    for (place, digit) in line.iter().enumerate() {
        into.set(place, *digit == b'1');
    }
}
