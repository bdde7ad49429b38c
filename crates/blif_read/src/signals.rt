// The signals of lines, and the numbers of names.
ghost use Rattle.std.specs.Prelude.{◌≡◌, ◌<◌, ◌^◌, ◌++◌, map, length, drop, IfOk, OnOk, [], true};
ghost use Rattle.std.specs.List.{list_all};
ghost use Rattle.std.specs.Str.{bytes_eq};
ghost use Rattle.indexmap.specs.IndexSet.{insert_all};
ghost use Rattle.blif_read.specs.Parts.{number, signals, is_defined};
ghost use Rattle.blif_read.specs.Statements.{inputs_in, defined_in, last_of};

use crate::lines::{Lines, LogicalLine};
use crate::names::{Names, insert_each, number};
use crate::seen_line::SeenLine;
use crate::statements::arguments;
use crate::token_list::Tokens;
use crate::words::Statement;
use aq_base::{List, Memory};
use indexmap::IndexSet;
use name_hash::NameHash;
use short_bytes::ShortBytes;
use std::alloc::Global;

/// Whether a line defines a signal. Only the room that is taken ahead depends on it.
fn is_definition(line: &LogicalLine<'_>) -> bool {
    match line.statement() {
        Statement::Names => true,
        _ => false,
    }
}

/// Adds a copy of each name that a line adds to the inputs, where it is not there yet.
fn insert_inputs(alloc: Global, names: &mut Names, line: &LogicalLine<'_>) -> Result<(), Memory>
    ensures { OnOk result (names.new.keys ≡ insert_all bytes_eq names.old.keys (inputs_in line.now)) }
{
    match line.statement() {
        Statement::Inputs => insert_each(alloc, names, arguments(line.tokens())),
        _ => Ok(()),
    }
}

/// Adds a copy of the last name of a line that is a definition, where it is not there yet.
#[tactic(auto, using(crate::proofs::SeenEnds::no_last))]
fn insert_last(alloc: Global, names: &mut Names, line: &SeenLine<'_>) -> Result<(), Memory>
    ensures { OnOk result (names.new.keys
        ≡ insert_all bytes_eq names.old.keys (last_of (drop 1 line.now.tokens))) }
{
    let count = line.count();
    if count < 2 {
        return Ok(());
    }
    let copy = ShortBytes::copy(alloc, line.last())?;
    names.insert(copy)?;
    Ok(())
}

/// Adds a copy of the name that a line defines, where it is not there yet.
fn insert_defined(alloc: Global, names: &mut Names, line: LogicalLine<'_>) -> Result<(), Memory>
    ensures { OnOk result (names.new.keys
        ≡ insert_all bytes_eq names.old.keys (defined_in line.entry)) }
{
    match line.statement() {
        Statement::Names => insert_last(alloc, names, &SeenLine::of(line)),
        _ => Ok(()),
    }
}

/// The names of the inputs, and then those of the defined signals, for which room is taken ahead; and how many lines
/// define one, on which only room depends.
pub fn signals(alloc: Global, hash: NameHash, lines: &Lines<'_>) -> Result<(Names, usize), Memory>
    ensures { IfOk result (λ r. r.0.keys ≡ insert_all bytes_eq [] (signals lines.now)) }
{
    let mut names = IndexSet::with_hasher(alloc, hash);
    let mut definitions: usize = 0;
    let mut rest = lines.copy();
    'inputs: while let Some(line) = rest.take_first() {
        insert_inputs(alloc, &mut names, &line)?;
        if is_definition(&line) {
            definitions = definitions.saturating_add(1);
        }
    }
    names.reserve_exact(definitions)?;
    rest = lines.copy();
    'defined: while let Some(line) = rest.take_first() {
        insert_defined(alloc, &mut names, line)?;
    }
    Ok((names, definitions))
}

/// Adds the numbers of names, and answers whether each has one.
pub fn push_numbers(
    alloc: Global,
    names: &Names,
    tokens: Tokens<'_>,
    numbers: &mut List<u32>,
) -> Result<bool, Memory>
    requires { length names.now.keys < 2 ^ 32 }
    ensures all { IfOk result (λ all. all
        ≡ list_all (is_defined names.now.keys) tokens.entry) }
    ensures numbers { IfOk result (λ all. all ≡ true → numbers.new
        ≡ numbers.old ++ map (number names.now.keys) tokens.entry) }
{
    let mut rest = tokens;
    'tokens: while let Some(token) = rest.take_first() {
        match number(alloc, names, token)? {
            Some(place) => numbers.push(place as u32)?,
            None => return Ok(false),
        }
    }
    Ok(true)
}
