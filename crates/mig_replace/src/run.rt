// Recipes, run on literals and on tables side by side.
ghost use Rattle.std.specs.Prelude.{ℕ, List, ◌≡◌, ◌<◌, ◌≤◌, ◌%◌, ◌==◌, cond, length, IfOk};
ghost use Rattle.mig.specs.Graphs.{turned};
ghost use Rattle.mig.specs.Building.{BuilderView, Grown, AllThere};
ghost use Rattle.mig_replace.specs.Code.Cones.{IsEntry, AreEntries};

use mig::{Builder, GraphRefusal, Node, turned};
use std::alloc::Global;
use truth_tables::{majority_table, mask, signed};

/// A literal, and its table over the leaves.
#[derive(Clone, Copy)]
pub(crate) struct Entry {
    pub literal: u32,
    pub table: u64,
}

/// The constant and the leaves.
pub(crate) fn first_entries(alloc: Global, leaves: &[u32]) -> Result<Vec<Entry>, GraphRefusal>
    requires { length leaves.now ≤ 6 }
    ensures { IfOk result
        (λ entries. (b : BuilderView) → AllThere b leaves.now → AreEntries b leaves.now entries.items) }
{
    let mut entries = Vec::new(alloc);
    entries.push(Entry {
        literal: 0,
        table: 0,
    })?;
    for (place, leaf) in leaves.iter().enumerate() {
        entries.push(Entry {
            literal: *leaf,
            table: mask(place),
        })?;
    }
    Ok(entries)
}

/// The entry of this number, and that of the constant past the last one.
pub(crate) fn entry_at(entries: &[Entry], number: usize) -> Entry
    ensures { (b : BuilderView) (leaves : List ℕ) → AreEntries b leaves entries.now → IsEntry b leaves result }
{
    if number < entries.len() {
        entries[number]
    } else {
        Entry {
            literal: 0,
            table: 0,
        }
    }
}

/// A literal, turned where the operand is odd.
pub(crate) fn signed_literal(operand: u32, literal: u32) -> u32
    ensures { result ≡ cond (operand % 2 == 1) (turned literal) literal }
{
    if operand % 2 == 1 {
        turned(literal)
    } else {
        literal
    }
}

/// The entry of an operand: an odd one is the complement. A missing one is the constant.
fn operand(entries: &[Entry], literal: u32) -> Entry
    ensures { (b : BuilderView) (leaves : List ℕ) → length leaves ≤ 6 → AreEntries b leaves entries.now
        → IsEntry b leaves result }
{
    let entry = entry_at(entries, (literal / 2) as usize);
    let table = signed(literal, entry.table);
    Entry {
        literal: signed_literal(literal, entry.literal),
        table,
    }
}

/// One step of a recipe.
fn step(
    builder: &mut Builder,
    leaves: &[u32],
    entries: &[Entry],
    step: Node,
) -> Result<Entry, GraphRefusal>
    requires few { length leaves.now ≤ 6 }
    requires entries { AreEntries builder.old leaves.now entries.now }
    ensures grown { Grown builder.old builder.new }
    ensures entry { IfOk result (λ entry. IsEntry builder.new leaves.now entry) }
{
    let x = operand(entries, step.x);
    let y = operand(entries, step.y);
    let z = operand(entries, step.z);
    let literal = builder.maj(x.literal, y.literal, z.literal)?;
    Ok(Entry {
        literal,
        table: majority_table(x.table, y.table, z.table),
    })
}

/// Runs the steps of a recipe on leaves and other entries, and answers the entry of its result.
pub(crate) fn run(
    alloc: Global,
    builder: &mut Builder,
    leaves: &[u32],
    others: &[Entry],
    steps: &[Node],
    out: u32,
) -> Result<Entry, GraphRefusal>
    requires few { length leaves.now ≤ 6 }
    requires there { AllThere builder.old leaves.now }
    requires others { AreEntries builder.old leaves.now others.now }
    ensures grown { Grown builder.old builder.new }
    ensures entry { IfOk result (λ entry. IsEntry builder.new leaves.now entry) }
{
    let mut entries = first_entries(alloc, leaves)?;
    entries.extend_from_slice(others)?;
    for one in steps {
        let entry = step(builder, leaves, &entries, *one)?;
        entries.push(entry)?;
    }
    Ok(operand(&entries, out))
}
