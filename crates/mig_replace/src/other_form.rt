// Another form of a literal of a graph that grows, by its table over nodes that are there.
ghost use Rattle.std.specs.Prelude.{◌≡◌, ◌<◌, ◌≤◌, ℕ, List, length, IfOk, IfSome};
ghost use Rattle.mig.specs.Graphs.{literal_value};
ghost use Rattle.mig.specs.Building.{BuilderView, Grown, Gives, AllThere, limit};
ghost use Rattle.mig_replace.specs.Code.Cones.{IsEntry, AreEntries, HasTable};

use crate::replacement::Replacement;
use crate::run::{Entry, entry_at, first_entries, run, signed_literal};
use aq_base::Memory;
use mig::{Builder, GraphRefusal};
use std::alloc::Global;
use truth_tables::{majority_table, signed};

/// How long a path from a literal to a leaf may be.
const LONGEST: u32 = 64;

/// How many nodes may be looked at between a literal and its leaves.
const TURNS: u32 = 1_000;

/// How many leaves a form has at most.
const MOST_LEAVES: usize = 6;

/// The literals of these nodes, if all of them are there, and not too many.
fn literals_there(
    alloc: Global,
    builder: &Builder,
    nodes: &[u32],
) -> Result<Option<Vec<u32>>, Memory>
    ensures there { IfOk result (λ o. IfSome o (λ literals. AllThere builder.now literals.items)) }
    ensures few { IfOk result (λ o. IfSome o (λ literals. length literals.items ≤ 6)) }
{
    builder.known();
    if nodes.len() > MOST_LEAVES {
        return Ok(None);
    }
    let total = builder.inputs() as usize + 1 + builder.node_count();
    let mut literals = Vec::new(alloc);
    for node in nodes {
        if *node as usize >= total {
            return Ok(None);
        }
        literals.push(2 * *node)?;
    }
    Ok(Some(literals))
}

/// The table of a literal that is one of these or the complement of one.
fn known_table(entries: &[Entry], literal: u32) -> Option<u64>
    ensures { (b : BuilderView) (leaves : List ℕ) → length leaves ≤ 6 → AreEntries b leaves entries.now
        → IfSome result (HasTable b leaves literal) }
{
    for number in 0..entries.len() {
        let entry = entry_at(entries, number);
        if signed_literal(literal, entry.literal) == literal {
            let table = signed(literal, entry.table);
            return Some(table);
        }
    }
    None
}

/// The table of a literal over leaves, if no path from it leads past them, or is longer than `most`, and not too many
/// nodes are looked at.
fn literal_table(
    builder: &Builder,
    leaves: &[u32],
    entries: &[Entry],
    literal: u32,
    most: u32,
    turns: &mut u32,
) -> Option<u64>
    requires few { length leaves.now ≤ 6 }
    requires entries { AreEntries builder.now leaves.now entries.now }
    requires there { literal < limit builder.now }
    ensures { IfSome result (HasTable builder.now leaves.now literal) }
{
    if let Some(table) = known_table(entries, literal) {
        return Some(table);
    }
    if most == 0 || *turns == 0 {
        return None;
    }
    *turns -= 1;
    let Some(operands) = builder.operands(literal) else {
        return None;
    };
    let Some(x) = literal_table(builder, leaves, entries, operands.x, most - 1, turns) else {
        return None;
    };
    let Some(y) = literal_table(builder, leaves, entries, operands.y, most - 1, turns) else {
        return None;
    };
    let Some(z) = literal_table(builder, leaves, entries, operands.z, most - 1, turns) else {
        return None;
    };
    Some(majority_table(x, y, z))
}

/// The table of a literal over leaves, if they determine it by few nodes.
fn table_of(
    alloc: Global,
    builder: &Builder,
    leaves: &[u32],
    literal: u32,
) -> Result<Option<u64>, GraphRefusal>
    requires few { length leaves.now ≤ 6 }
    requires leaves { AllThere builder.now leaves.now }
    requires there { literal < limit builder.now }
    ensures { IfOk result (λ o. IfSome o (HasTable builder.now leaves.now literal)) }
{
    let entries = first_entries(alloc, leaves)?;
    let mut turns = TURNS;
    let known = entries.as_slice();
    Ok(literal_table(builder, leaves, known, literal, LONGEST, &mut turns))
}

/// The literal of the form that a replacement names, if it computes from the leaves what a literal does.
fn by_form(
    alloc: Global,
    builder: &mut Builder,
    literal: u32,
    by: &Replacement,
) -> Result<Option<u32>, GraphRefusal>
    requires { literal < limit builder.old }
    ensures grown { Grown builder.old builder.new }
    ensures same { IfOk result (λ o. IfSome o (λ l. Gives builder.new l (λ v. literal_value v literal))) }
{
    let Some(literals) = literals_there(alloc, builder, by.leaves.as_slice())? else {
        return Ok(None);
    };
    let leaves = literals.as_slice();
    let Some(table) = table_of(alloc, builder, leaves, literal)? else {
        return Ok(None);
    };
    let entry = run(alloc, builder, leaves, &[], by.steps.as_slice(), by.out)?;
    if entry.table == table {
        Ok(Some(entry.literal))
    } else {
        Ok(None)
    }
}

/// The literal of the form that a replacement names, if it computes from the leaves what a literal does, and else that
/// literal.
pub(crate) fn other_form(
    alloc: Global,
    builder: &mut Builder,
    literal: u32,
    by: &Replacement,
) -> Result<u32, GraphRefusal>
    requires { literal < limit builder.old }
    ensures grown { Grown builder.old builder.new }
    ensures same { IfOk result (λ l. Gives builder.new l (λ v. literal_value v literal)) }
{
    match by_form(alloc, builder, literal, by)? {
        Some(other) => Ok(other),
        None => Ok(literal),
    }
}
