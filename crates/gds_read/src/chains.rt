// Chains of references: the first structure from which one of more than 64 goes down.
ghost use Rattle.std.specs.Prelude.{◌≡◌, ℕ, map, true, false, slice_index_or, IfOk};
ghost use Rattle.gds_records.specs.WideWhole.{first_long};
ghost use Rattle.gds_read.specs.Code.Numbering.{IsNumbering};
ghost use Rattle.gds_read.specs.Code.Outlining.{names_in, outline_of};
ghost use Rattle.gds_read.specs.Code.Graphs.{graph_of, some_target, is_long, targets_at};

use crate::element::named;
use crate::numbers::Numbers;
use crate::outline::NamedOutline;
use aq_base::{List, Memory};
use std::alloc::Global;

/// How many references a chain has that is too long.
const TOO_MANY: usize = 65;

// Whether a structure is marked; none is past the last.
fn mark_at(marks: &[bool], number: u32) -> bool
    ensures { result ≡ slice_index_or marks.now number false }
{
    match marks.get(number as usize) {
        Some(mark) => *mark,
        None => false,
    }
}

// Whether some of these structures is marked.
fn some_marked(targets: &[u32], marks: &[bool]) -> bool
    ensures { result ≡ some_target (λ n. slice_index_or marks.now n false) targets.now }
{
    for target in targets {
        if mark_at(marks, *target) {
            return true;
        }
    }
    false
}

fn has_targets(targets: &[u32]) -> bool
    ensures { result ≡ some_target (λ n. true) targets.now }
{
    !targets.is_empty()
}

// Marks the structures that reference one.
fn with_targets(alloc: Global, graph: &[List<u32>]) -> Result<Vec<bool>, Memory>
    ensures { IfOk result (λ marks. marks.items ≡ map (λ ns. some_target (λ n. true) ns) graph.now) }
{
    let mut marks = Vec::new(alloc);
    for targets in graph {
        marks.push(has_targets(targets.as_slice()))?;
    }
    Ok(marks)
}

// Marks the structures that reference a marked one.
fn above(alloc: Global, graph: &[List<u32>], marks: &[bool]) -> Result<Vec<bool>, Memory>
    ensures { IfOk result
        (λ above. above.items ≡ map (λ ns. some_target (λ n. slice_index_or marks.now n false) ns) graph.now) }
{
    let mut above = Vec::new(alloc);
    for targets in graph {
        above.push(some_marked(targets.as_slice(), marks))?;
    }
    Ok(above)
}

/// Marks the structures from which a chain of more than 64 references goes down.
pub fn long_chains(alloc: Global, graph: &[List<u32>]) -> Result<Vec<bool>, Memory>
    ensures { IfOk result (λ marks. (n : ℕ) → slice_index_or marks.items n false ≡ is_long graph.now n) }
{
    let mut marks = with_targets(alloc, graph)?;
    let mut length: usize = 1;
    'lengths: while length < TOO_MANY {
        let longer = above(alloc, graph, marks.as_slice())?;
        if longer == marks {
            return Ok(marks);
        }
        marks = longer;
        length += 1;
    }
    Ok(marks)
}

/// The place of the first structure from which a chain of more than 64 references goes down.
pub fn first_long(
    structures: &[NamedOutline<'_>],
    numbers: &Numbers<'_>,
    long: &[bool],
) -> Option<usize>
    requires numbers { IsNumbering numbers.now.entries (names_in structures.now) }
    requires marks { (n : ℕ) → slice_index_or long.now n false ≡ is_long (graph_of structures.now) n }
    ensures { result ≡ first_long (map outline_of structures.now) (map outline_of structures.now) }
{
    for outline in structures {
        let number = named(structures, numbers, outline.name);
        if mark_at(long, number) {
            return Some(outline.place);
        }
    }
    None
}
