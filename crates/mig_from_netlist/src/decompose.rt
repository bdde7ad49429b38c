// Tables as majorities, by what they are where one input is true and where it is false.
ghost use Rattle.std.specs.Prelude.{ℕ, List, ◌≡◌, ◌<◌, ◌≤◌, ◌∷◌, ◌++◌, [], length, Some, true, slice_get, bit_xor};
ghost use Rattle.std.specs.Prelude.{IfOk, OnOk, IfSome, IfNone};
ghost use Rattle.mig.specs.Building.{BuilderView, Grown, Gives, limit, AllThere};
ghost use Rattle.mig_from_netlist.specs.Code.Parts.{AreParts, Implies};
ghost use Rattle.mig_from_netlist.specs.Code.Known.{value_at, AreKnown};

use crate::gates::{choice, differ};
use crate::parts::{Parts, are_parts, parts_of};
use crate::votes::{Voter, Votes, votes_of};
use mig::{Builder, GraphRefusal, turned};
use truth_tables::{majority_table, mask};

/// A table that has its literal.
#[derive(Clone, Copy)]
pub(crate) struct Known {
    pub table: u64,
    pub literal: u32,
}

/// The literal of a table, if it was made.
fn find(memo: &[Known], table: u64) -> Option<u32>
    ensures { IfSome result (λ l. (k : ℕ) × (slice_get memo.now k ≡ Some (record { table = table; literal = l }))) }
{
    for known in memo {
        if known.table == table {
            return Some(known.literal);
        }
    }
    None
}

/// The literal of a table that needs no new node: of a constant, or of one that was made, or of its complement.
fn made(memo: &[Known], table: u64) -> Option<u32>
    ensures { (b : BuilderView) (inputs : List ℕ) → length inputs ≤ 6 → AreKnown b inputs memo.now
        → IfSome result (λ l. Gives b l (value_at table inputs)) }
{
    if table == 0 {
        return Some(0);
    }
    if table == u64::MAX {
        return Some(1);
    }
    if let Some(literal) = find(memo, table) {
        return Some(literal);
    }
    match find(memo, !table) {
        Some(literal) => Some(turned(literal)),
        None => None,
    }
}

/// Keeps the literal of a table.
fn keep(memo: &mut Vec<Known>, table: u64, literal: u32) -> Result<Option<u32>, GraphRefusal>
    ensures memo { OnOk result (memo.new.items ≡ memo.old.items ++ record { table = table; literal = literal } ∷ []) }
    ensures is { IfOk result (λ o. o ≡ Some literal) }
{
    memo.push(Known { table, literal })?;
    Ok(Some(literal))
}

/// A table whose parts are complements.
fn join_complements(
    builder: &mut Builder,
    inputs: &[u32],
    table: u64,
    parts: Parts,
    x: u32,
    low: u32,
) -> Result<u32, GraphRefusal>
    requires few { length inputs.now ≤ 6 }
    requires parts { AreParts table parts }
    requires other { bit_xor parts.low parts.high ≡ 18446744073709551615 }
    requires at { slice_get inputs.now parts.place ≡ Some x }
    requires x { x < limit builder.old }
    requires low { Gives builder.old low (value_at parts.low inputs.now) }
    ensures grown { Grown builder.old builder.new }
    ensures given { IfOk result (λ l. Gives builder.new l (value_at table inputs.now)) }
{
    differ(builder, x, low)
}

/// Whether the first table is true only where the second is.
fn implies(a: u64, b: u64) -> bool
    ensures { result ≡ true → Implies a b }
{
    a & !b == 0
}

/// The literals that a table is joined from: of an input, and of what the table is where that input is true, and where
/// it is false.
#[derive(Clone, Copy)]
struct Split {
    x: u32,
    high: u32,
    low: u32,
}

/// A table by both of its parts.
fn join_parts(
    builder: &mut Builder,
    inputs: &[u32],
    table: u64,
    parts: Parts,
    split: Split,
) -> Result<u32, GraphRefusal>
    requires few { length inputs.now ≤ 6 }
    requires parts { AreParts table parts }
    requires at { slice_get inputs.now parts.place ≡ Some split.x }
    requires x { split.x < limit builder.old }
    requires high { Gives builder.old split.high (value_at parts.high inputs.now) }
    requires low { Gives builder.old split.low (value_at parts.low inputs.now) }
    ensures grown { Grown builder.old builder.new }
    ensures given { IfOk result (λ l. Gives builder.new l (value_at table inputs.now)) }
{
    if implies(parts.low, parts.high) {
        return builder.maj(split.x, split.high, split.low);
    }
    if implies(parts.high, parts.low) {
        return builder.maj(turned(split.x), split.high, split.low);
    }
    choice(builder, split.x, split.high, split.low)
}

/// The literal of an input.
pub(crate) fn input_at(inputs: &[u32], place: usize) -> Option<u32>
    ensures some { IfSome result (λ x. slice_get inputs.now place ≡ Some x) }
    ensures none { IfNone result (length inputs.now ≤ place) }
{
    if place < inputs.len() {
        Some(inputs[place])
    } else {
        None
    }
}

/// The literal and the table of an input, or of its complement.
fn voter(inputs: &[u32], who: Voter) -> Option<Known>
    ensures { (b : BuilderView) → length inputs.now ≤ 6 → AllThere b inputs.now
        → IfSome result (λ k. Gives b k.literal (value_at k.table inputs.now)) }
{
    if who.place >= 6 {
        return None;
    }
    let literal = input_at(inputs, who.place)?;
    let table = mask(who.place);
    if who.is_turned {
        Some(Known {
            table: !table,
            literal: turned(literal),
        })
    } else {
        Some(Known { table, literal })
    }
}

/// The literal of a majority of three tables, if it has the table that is wanted.
fn vote(
    builder: &mut Builder,
    inputs: &[u32],
    table: u64,
    x: Known,
    y: Known,
    z: Known,
) -> Result<Option<u32>, GraphRefusal>
    requires few { length inputs.now ≤ 6 }
    requires x { Gives builder.old x.literal (value_at x.table inputs.now) }
    requires y { Gives builder.old y.literal (value_at y.table inputs.now) }
    requires z { Gives builder.old z.literal (value_at z.table inputs.now) }
    ensures grown { Grown builder.old builder.new }
    ensures given { IfOk result (λ o. IfSome o (λ l. Gives builder.new l (value_at table inputs.now))) }
{
    if majority_table(x.table, y.table, z.table) != table {
        return Ok(None);
    }
    Ok(Some(builder.maj(x.literal, y.literal, z.literal)?))
}

/// The literal of a table by two inputs and the literal of what decides where they don't agree.
fn join_votes(
    builder: &mut Builder,
    memo: &mut Vec<Known>,
    inputs: &[u32],
    table: u64,
    votes: Votes,
    rest: u32,
) -> Result<Option<u32>, GraphRefusal>
    requires few { length inputs.now ≤ 6 }
    requires there { AllThere builder.old inputs.now }
    requires known { AreKnown builder.old inputs.now memo.old.items }
    requires rest { Gives builder.old rest (value_at votes.rest inputs.now) }
    ensures grown { Grown builder.old builder.new }
    ensures known { OnOk result (AreKnown builder.new inputs.now memo.new.items) }
    ensures given { IfOk result (λ o. IfSome o (λ l. Gives builder.new l (value_at table inputs.now))) }
{
    let Some(first) = voter(inputs, votes.first) else {
        return Ok(None);
    };
    let Some(second) = voter(inputs, votes.second) else {
        return Ok(None);
    };
    let third = Known {
        table: votes.rest,
        literal: rest,
    };
    let Some(literal) = vote(builder, inputs, table, first, second, third)? else {
        return Ok(None);
    };
    keep(memo, table, literal)
}

/// The literal of a table whose inputs are these literals. It is none where the table depends on more inputs than there
/// are, or than so many, or than six.
pub(crate) fn decompose(
    builder: &mut Builder,
    memo: &mut Vec<Known>,
    inputs: &[u32],
    table: u64,
    most: u32,
) -> Result<Option<u32>, GraphRefusal>
    requires few { length inputs.now ≤ 6 }
    requires there { AllThere builder.old inputs.now }
    requires known { AreKnown builder.old inputs.now memo.old.items }
    ensures grown { Grown builder.old builder.new }
    ensures known { OnOk result (AreKnown builder.new inputs.now memo.new.items) }
    ensures given { IfOk result (λ o. IfSome o (λ l. Gives builder.new l (value_at table inputs.now))) }
{
    if let Some(literal) = made(memo.as_slice(), table) {
        return Ok(Some(literal));
    }
    if most == 0 {
        return Ok(None);
    }
    if let Some(votes) = votes_of(table) {
        let Some(rest) = decompose(builder, memo, inputs, votes.rest, most - 1)? else {
            return Ok(None);
        };
        return join_votes(builder, memo, inputs, table, votes, rest);
    }
    let Some(parts) = parts_of(table) else {
        return Ok(None);
    };
    if !are_parts(table, parts) {
        return Ok(None);
    }
    let Some(x) = input_at(inputs, parts.place) else {
        return Ok(None);
    };
    if parts.low ^ parts.high == u64::MAX {
        let Some(low) = decompose(builder, memo, inputs, parts.low, most - 1)? else {
            return Ok(None);
        };
        let literal = join_complements(builder, inputs, table, parts, x, low)?;
        return keep(memo, table, literal);
    }
    let Some(high) = decompose(builder, memo, inputs, parts.high, most - 1)? else {
        return Ok(None);
    };
    let Some(low) = decompose(builder, memo, inputs, parts.low, most - 1)? else {
        return Ok(None);
    };
    let literal = join_parts(builder, inputs, table, parts, Split { x, high, low })?;
    keep(memo, table, literal)
}
