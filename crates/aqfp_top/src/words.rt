// The words of the command line.
ghost use Rattle.std.specs.Prelude.{ℕ, ◌≡◌, ◌<◌, ◌↔◌, IsTrue, IfSome, None, codes, length};
ghost use Rattle.aqfp_top.specs.Words.{IsOfForm, IsSampleSize, IsNumber, spelled, word_at};

use crate::planner::Planner;
use aq_base::read_decimal;

/// Which form a command line has.
#[derive(Clone, Copy, PartialEq, Eq)]
pub enum Form {
    /// `build NET LIB OUT`, `compact NET LIB OUT` or `draw NET LIB OUT`, by the plan.
    Make { planner: Planner },
    /// `verify GDS LIB WORDS`.
    Verify,
    /// `trace GDS LIB WORDS`.
    Trace,
    /// `equal GDS LIB NET`.
    Equal,
    /// `netlist GDS LIB OUT`.
    Write,
    /// `report GDS LIB`.
    Report,
    /// `shapes GDS A B`, A and B being the numbers.
    Shapes { first: u64, second: u64 },
    /// `sample N`, N being the number of bits.
    Sample { bits: u32 },
    /// None of the forms.
    Wrong,
}

/// The word at a place, counted from 0.
pub fn word(words: &[String], place: usize) -> &str
    requires { place < length words.now }
    ensures { result.now ≡ word_at (spelled words.now) place }
{
    words[place].as_str()
}

fn is_word(words: &[String], place: usize, text: &str) -> bool
    requires { place < length words.now }
    ensures { IsTrue result ↔ (word_at (spelled words.now) place ≡ text.now) }
{
    word(words, place) == text
}

// The number of bits of a sample that the text writes, from 1 to 64, if it writes one.
#[tactic(auto, using(crate::proofs::Sizes::sizes))]
fn sample_size(text: &str) -> Option<u32>
    ensures some { IfSome result (IsSampleSize text.now) }
    ensures none { result ≡ None → (bits : ℕ) → ¬ IsSampleSize text.now bits }
{
    match read_decimal(text.as_bytes()) {
        Some(bits) => {
            if 1 <= bits && bits <= 64 {
                Some(bits as u32)
            } else {
                None
            }
        }
        None => None,
    }
}

// The number that the text writes, if it writes one of at most 64 bits.
#[tactic(auto, using(crate::proofs::Sizes::numbers))]
fn number_of(text: &str) -> Option<u64>
    ensures some { IfSome result (IsNumber text.now) }
    ensures none { result ≡ None → (number : ℕ) → ¬ IsNumber text.now number }
{
    read_decimal(text.as_bytes())
}

// The form of four words of which the first is `shapes`.
#[tactic(auto, using(crate::proofs::Sizes::forms))]
fn form_of_shapes(words: &[String]) -> Form
    requires four { length words.now ≡ 4 }
    requires named { word_at (spelled words.now) 0 ≡ codes "shapes" }
    ensures { IsOfForm (spelled words.now) result }
{
    let (Some(first), Some(second)) = (number_of(word(words, 2)), number_of(word(words, 3))) else {
        return Form::Wrong;
    };
    Form::Shapes { first, second }
}

// The form of four words.
#[tactic(auto, using(crate::proofs::Sizes::forms))]
fn form_of_four(words: &[String]) -> Form
    requires { length words.now ≡ 4 }
    ensures { IsOfForm (spelled words.now) result }
{
    if is_word(words, 0, "build") {
        return Form::Make {
            planner: Planner::Build,
        };
    }
    if is_word(words, 0, "compact") {
        return Form::Make {
            planner: Planner::Compact,
        };
    }
    if is_word(words, 0, "draw") {
        return Form::Make {
            planner: Planner::Draw,
        };
    }
    if is_word(words, 0, "verify") {
        return Form::Verify;
    }
    if is_word(words, 0, "trace") {
        return Form::Trace;
    }
    if is_word(words, 0, "equal") {
        return Form::Equal;
    }
    if is_word(words, 0, "netlist") {
        return Form::Write;
    }
    if is_word(words, 0, "shapes") {
        return form_of_shapes(words);
    }
    Form::Wrong
}

/// Which form the words have.
#[tactic(auto, using(crate::proofs::Sizes::forms))]
pub fn form_of(words: &[String]) -> Form
    ensures { IsOfForm (spelled words.now) result }
{
    if words.len() == 4 {
        return form_of_four(words);
    }
    if words.len() == 3 && is_word(words, 0, "report") {
        return Form::Report;
    }
    if words.len() == 2 && is_word(words, 0, "sample") {
        if let Some(bits) = sample_size(word(words, 1)) {
            return Form::Sample { bits };
        }
    }
    Form::Wrong
}
