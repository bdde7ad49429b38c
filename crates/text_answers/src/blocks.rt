// Blocks of up to 128 words: they are read off lines, and their answers are printed as lines.
ghost use Rattle.std.specs.Prelude.{◌≡◌, ◌≢◌, ◌<◌, ◌≤◌, ◌++◌, ℕ, List, Bool, All, length, drop, slice_index_or, OnOk};
ghost use Rattle.std.specs.Prelude.{IfErr, []};
ghost use Rattle.std.specs.Str.Lines.{lines};
ghost use Rattle.truth_tables.specs.Tables.{holds};
ghost use Rattle.circuit_extracted.specs.Answers.{IsAnswer};
ghost use Rattle.text_answers.specs.Code.Lanes.{in_lane, lines_of};
ghost use Rattle.text_answers.specs.Printing.{PrintsLine, RefusesLine};
ghost use Rattle.text_answers.specs.WordLines.{digit_of, word_line};
ghost use Rattle.text_answers.specs.WordsText.{word_of};

use crate::lanes::{Lanes, answer_lanes};
use crate::lines::first_line;
use crate::page::put_full_page;
use aq_base::{Memory, Sink, StoreRefusal};
use circuit_extracted::{Extracted, one_answer};

/// The digit of a value, 0 or 1.
pub fn digit_of(value: bool) -> u8
    ensures { result ≡ digit_of value }
{
    if value { b'1' } else { b'0' }
}

/// Whether the bit of a lane is set.
fn is_set(number: u128, lane: u32) -> bool
    requires { lane < 128 }
    ensures { result ≡ holds number lane }
{
    (number >> lane) & 1 == 1
}

/// The number with another bit in a lane.
fn with_bit(number: u128, lane: u32, bit: bool) -> u128
    requires { lane < 128 }
    ensures here { holds result lane ≡ bit }
    ensures others { (l : ℕ) → l < 128 → l ≢ lane → holds result l ≡ holds number l }
{
    if bit {
        number | (1 << lane)
    } else {
        number & !(1 << lane)
    }
}

/// Puts the values of a line's word into a lane.
fn copy_line(line: &[u8], lane: u32, into: &mut [u128])
    requires lane { lane < 128 }
    requires long { length into.old ≡ length line.now }
    ensures here { in_lane lane into.new ≡ word_of line.now }
    ensures others { (l : ℕ) → l < 128 → l ≢ lane → in_lane l into.new ≡ in_lane l into.old }
{
    for (place, digit) in line.iter().enumerate() {
        into[place] = with_bit(into[place], lane, *digit == b'1');
    }
}

/// Puts the words of the next lines into the first lanes, and answers what follows these lines.
fn next_words<'a>(text: &'a [u8], count: u32, words: &mut [u128]) -> &'a [u8]
    requires few { count ≤ 128 }
    requires there { count ≤ length (lines text.now) }
    requires wide { All (λ line. length line ≡ length words.old) (lines text.now) }
    ensures left { lines result.now ≡ drop count (lines text.now) }
    ensures words { (l : ℕ) → l < count → in_lane l words.new ≡ word_of (slice_index_or (lines text.now) l []) }
{
    let mut rest = text;
    for lane in 0..count {
        let (line, after) = first_line(rest);
        copy_line(line, lane, words);
        rest = after;
    }
    rest
}

/// Enters the words of the next lines, a lane each, and answers what follows these lines.
pub fn enter_block<'a>(text: &'a [u8], count: u32, lanes: &mut Lanes) -> &'a [u8]
    requires few { count ≤ 128 }
    requires there { count ≤ length (lines text.now) }
    requires wide { All (λ line. length line ≡ length lanes.old.words.items) (lines text.now) }
    ensures left { lines result.now ≡ drop count (lines text.now) }
    ensures long { length lanes.new.words.items ≡ length lanes.old.words.items }
    ensures words { (l : ℕ) → l < count
        → in_lane l lanes.new.words.items ≡ word_of (slice_index_or (lines text.now) l []) }
{
    next_words(text, count, lanes.words.as_mut_slice())
}

/// Adds the line of a lane's word to the page.
fn add_lane(numbers: &[u128], lane: u32, page: &mut Vec<u8>) -> Result<(), Memory>
    requires { lane < 128 }
    ensures { OnOk result (page.new.items ≡ page.old.items ++ word_line (in_lane lane numbers.now)) }
{
    for number in numbers {
        page.push(digit_of(is_set(*number, lane)))?;
    }
    page.push(b'\n')?;
    Ok(())
}

/// Prints the line of a lane's word.
fn print_lane<O: Sink>(
    numbers: &[u128],
    lane: u32,
    page: &mut Vec<u8>,
    out: &mut O,
) -> Result<(), StoreRefusal>
    requires { lane < 128 }
    ensures put { OnOk result (PrintsLine (O.output out.old) (O.output out.new) page.old.items page.new.items
        (word_line (in_lane lane numbers.now))) }
    ensures refused { IfErr result (RefusesLine (O.output out.old) (O.output out.new) page.old.items
        (word_line (in_lane lane numbers.now))) }
{
    match add_lane(numbers, lane, page) {
        Ok(()) => put_full_page(out, page),
        Err(Memory) => Err(StoreRefusal::Memory),
    }
}

/// Prints the lines of the first lanes' words.
fn print_lanes<O: Sink>(
    numbers: &[u128],
    count: u32,
    page: &mut Vec<u8>,
    out: &mut O,
) -> Result<(), StoreRefusal>
    requires { count ≤ 128 }
    ensures put { OnOk result (PrintsLine (O.output out.old) (O.output out.new) page.old.items page.new.items
        (lines_of (λ l. in_lane l numbers.now) count)) }
    ensures refused { IfErr result (RefusesLine (O.output out.old) (O.output out.new) page.old.items
        (lines_of (λ l. in_lane l numbers.now) count)) }
{
    for lane in 0..count {
        print_lane(numbers, lane, page, out)?;
    }
    Ok(())
}

/// Prints the lines of the circuit's answers to the words of the first lanes.
pub fn print_block<O: Sink>(
    circuit: &Extracted,
    count: u32,
    lanes: &mut Lanes,
    page: &mut Vec<u8>,
    out: &mut O,
) -> Result<(), StoreRefusal>
    requires { count ≤ 128 }
    ensures words { lanes.new.words.items ≡ lanes.old.words.items }
    ensures put { (answer : ℕ → List Bool)
        → ((l : ℕ) → l < count → IsAnswer circuit.now (in_lane l lanes.old.words.items) (answer l))
        → OnOk result
        (PrintsLine (O.output out.old) (O.output out.new) page.old.items page.new.items (lines_of answer count)) }
    ensures refused { (answer : ℕ → List Bool)
        → ((l : ℕ) → l < count → IsAnswer circuit.now (in_lane l lanes.old.words.items) (answer l))
        → IfErr result (RefusesLine (O.output out.old) (O.output out.new) page.old.items (lines_of answer count)) }
{
    circuit.known();
    one_answer();
    match answer_lanes(circuit, lanes) {
        Ok(()) => print_lanes(lanes.answers.as_slice(), count, page, out),
        Err(Memory) => Err(StoreRefusal::Memory),
    }
}
