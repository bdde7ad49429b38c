// The tokens of a logical line, which are cut one by one where they are wanted, and are not stored.
ghost use Rattle.std.specs.Prelude.{◌≡◌, ◌<◌, ◌^◌, ◌∷◌, ◌||◌, [], length, take, IfSome, IfNone, not, true, false};
ghost use Rattle.std.specs.List.{position};
ghost use Rattle.std.specs.Option.{option_copied};
ghost use Rattle.blif_read.specs.Lines.{tokens_of, is_blank, is_empty};
ghost use Rattle.blif_read.specs.Code.Reading.{begins_filled, begins_row, first_tokens, tokens_left};
ghost use Rattle.blif_read.specs.Code.Ends.{first_of};
ghost use Rattle.blif_read.specs.Statements.{begins_with_dot};

use crate::physical::{behind, content_of, uncommented_line};
use std::marker::Model;

fn first_blank(line: &[u8]) -> Option<usize>
    ensures { result ≡ position is_blank line.now }
{
    line.iter().position(|b| *b == b' ' || *b == b'\t')
}

/// The first token of a part of a physical line, and the part behind it.
fn token_in(line: &[u8]) -> Option<(&[u8], &[u8])>
    ensures some { IfSome result (λ r. tokens_of line.now ≡ r.0.now ∷ tokens_of r.1.now) }
    ensures none { IfNone result (tokens_of line.now ≡ []) }
{
    let mut rest = line;
    while let Some(at) = first_blank(rest) {
        let (token, after) = rest.split_at(at);
        rest = after.split_at(1).1;
        if token.len() > 0 {
            return Some((token, rest));
        }
    }
    if rest.len() > 0 {
        Some((rest, &[]))
    } else {
        None
    }
}

/// The first byte is no blank, so a token begins with it.
fn begins_filled(line: &[u8]) -> bool
    ensures { result ≡ begins_filled line.now }
{
    match line {
        [b, ..] => !(*b == b' ' || *b == b'\t'),
        [] => false,
    }
}

/// The first byte is neither a blank nor a dot, so the token that begins with it begins no statement.
fn begins_row(line: &[u8]) -> bool
    ensures { result ≡ begins_row line.now }
{
    match line {
        [b, ..] => !(*b == b' ' || *b == b'\t' || *b == b'.'),
        [] => false,
    }
}

/// Whether there is a token already, or one in a part of a physical line.
#[tactic(auto, using(crate::proofs::Passing::filled_token))]
pub fn any_token(any: bool, line: &[u8]) -> bool
    ensures { result ≡ (any || not (is_empty (tokens_of line.now))) }
{
    if any {
        return true;
    }
    if begins_filled(line) {
        return true;
    }
    match token_in(line) {
        Some(_) => true,
        None => false,
    }
}

/// What is left of a logical line: a part of a physical line, and the text that goes on with it, if it goes on.
#[derive(Clone, Copy)]
pub struct Rest<'a> {
    pub line: &'a [u8],
    pub more: Option<&'a [u8]>,
}

/// What a text adds to the logical line that it begins, or goes on with.
fn part_of(text: &[u8]) -> Rest<'_>
    ensures tokens { first_tokens text.now ≡ tokens_left result.line.now (option_copied result.more) }
    ensures shorter { IfSome result.more (λ rest. length rest.now < length text.now) }
{
    let (line, more) = uncommented_line(text);
    let (content, goes_on) = content_of(line);
    Rest {
        line: content,
        more: behind(goes_on, more),
    }
}

/// The first token, and what is left behind it.
#[inline(always)]
fn first_token<'a>(rest: Rest<'a>) -> Option<(&'a [u8], Rest<'a>)>
    ensures some { IfSome result (λ r. tokens_left rest.entry.line.now (option_copied rest.entry.more)
        ≡ r.0.now ∷ tokens_left r.1.line.now (option_copied r.1.more)) }
    ensures none { IfNone result (tokens_left rest.entry.line.now (option_copied rest.entry.more) ≡ []) }
{
    let mut line = rest.line;
    let mut more = rest.more;
    'parts: loop {
        if let Some((token, line)) = token_in(line) {
            return Some((token, Rest { line, more }));
        }
        let Some(text) = more else {
            return None;
        };
        let part = part_of(text);
        line = part.line;
        more = part.more;
    }
}

/// The tokens that are left of a logical line: at most so many. Contracts see them as a list, but they stand on the
/// text and take no memory.
#[derive(Drop)]
pub struct Tokens<'a> {
    rest: Rest<'a>,
    most: usize,
}

impl<'a> Model for Tokens<'a> {
    ghost use Rattle.std.specs.Prelude.{ℕ, ◌<◌, ◌^◌, List, take};
    ghost use Rattle.std.specs.Option.{option_copied};
    ghost use Rattle.blif_read.specs.Code.Reading.{tokens_left};

    ghost Value = { List (List ℕ) };

    ghost view = { λ t. take t.most (tokens_left t.rest.line.now (option_copied t.rest.more)) };

    ghost invariant = { λ t. t.most < 2 ^ 63 };
}

impl<'a> Tokens<'a> {
    /// No tokens.
    pub fn none() -> Self
        ensures { result ≡ [] }
    {
        Tokens {
            rest: Rest {
                line: &[],
                more: None,
            },
            most: 0,
        }
    }

    /// The tokens of the logical line that a text begins with, the first part of which is this. Each has a byte of its
    /// own.
    pub fn at(text: &'a [u8], part: Rest<'a>) -> Self
        requires few { length text.now < 2 ^ 63 }
        requires part { first_tokens text.now ≡ tokens_left part.line.now (option_copied part.more) }
        ensures { result ≡ first_tokens text.now }
    {
        Tokens {
            rest: part,
            most: text.len(),
        }
    }

    /// Their first byte says that the first token begins no statement; where it doesn't say so, the token may begin
    /// none all the same.
    #[tactic(auto, using(crate::proofs::Passing::row_first))]
    pub fn begins_row(&self) -> bool
        ensures { result ≡ true → begins_with_dot (first_of self.now) ≡ false }
    {
        begins_row(self.rest.line)
    }

    /// The same tokens.
    pub fn copy(&self) -> Tokens<'a>
        ensures same { result ≡ self.now }
        ensures few { length result < 2 ^ 63 }
    {
        Tokens {
            rest: self.rest,
            most: self.most,
        }
    }

    /// The first so many of the tokens.
    pub fn front(&self, most: usize) -> Tokens<'a>
        ensures { result ≡ take most self.now }
    {
        Tokens {
            rest: self.rest,
            most: self.most.min(most),
        }
    }

    /// Takes the first token off.
    #[inline(always)]
    pub fn take_first(&mut self) -> Option<&'a [u8]>
        ensures some { IfSome result (λ token. self.old ≡ token.now ∷ self.new) }
        ensures none { IfNone result (self.old ≡ []) }
    {
        if self.most == 0 {
            return None;
        }
        match first_token(self.rest) {
            Some((token, rest)) => {
                self.rest = rest;
                self.most -= 1;
                Some(token)
            }
            None => None,
        }
    }

    /// Whether there are none.
    pub fn is_empty(&self) -> bool
        ensures { result ≡ is_empty self.now }
    {
        let mut rest = self.copy();
        match rest.take_first() {
            Some(_) => false,
            None => true,
        }
    }

    /// How many there are, which are gone over.
    pub fn len(&self) -> usize
        ensures { result ≡ length self.now }
    {
        let mut count = 0;
        let mut rest = self.copy();
        'tokens: while let Some(_token) = rest.take_first() {
            count += 1;
        }
        count
    }
}
