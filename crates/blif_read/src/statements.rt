// What a line says: its arguments, and the names that it speaks of.
ghost use Rattle.std.specs.Prelude.{◌≡◌, drop};
ghost use Rattle.blif_read.specs.Statements.{front_of, last_of, outputs_in};

use crate::lines::LogicalLine;
use crate::token_list::Tokens;
use crate::words::Statement;

/// The tokens after the first.
pub fn arguments(tokens: Tokens<'_>) -> Tokens<'_>
    ensures { result ≡ drop 1 tokens.entry }
{
    let mut rest = tokens.copy();
    match rest.take_first() {
        Some(_) => rest,
        None => tokens,
    }
}

/// All tokens but the last.
pub fn front_of(tokens: Tokens<'_>) -> Tokens<'_>
    ensures { result ≡ front_of tokens.entry }
{
    let len = tokens.len();
    if len == 0 {
        return tokens;
    }
    tokens.front(len - 1)
}

/// The last token, by itself.
pub fn last_of(tokens: Tokens<'_>) -> Tokens<'_>
    ensures { result ≡ last_of tokens.entry }
{
    let mut last = Tokens::none();
    let mut rest = tokens;
    'tokens: loop {
        let here = rest.copy();
        match rest.take_first() {
            Some(_) => last = here.front(1),
            None => return last,
        }
    }
}

/// The names that a line adds to the outputs.
pub fn outputs_in<'a>(line: &LogicalLine<'a>) -> Tokens<'a>
    ensures { result ≡ outputs_in line.now }
{
    match line.statement() {
        Statement::Outputs => arguments(line.tokens()),
        _ => Tokens::none(),
    }
}
