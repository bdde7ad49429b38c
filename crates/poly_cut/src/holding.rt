// Which structures hold a figure or a label: so what holds nothing is left out of a flat form, and no figure is cut to
// tell it.
ghost use Rattle.std.specs.Prelude.{◌≡◌, ◌∷◌, [], false, map, slice_index_or, IfOk};
ghost use Rattle.poly_cut.specs.Code.Holding.{some_held, held};

use crate::layout::{Item, WideStructure};
use aq_base::Memory;
use std::alloc::Global;

/// Whether a structure is marked. None is past the last.
pub fn mark_at(marks: &[bool], structure: u32) -> bool
    ensures { result ≡ slice_index_or marks.now structure false }
{
    match marks.get(structure as usize) {
        Some(mark) => *mark,
        None => false,
    }
}

/// Whether an item is a figure or a label, or places a structure that is marked.
fn is_held(item: &Item, marks: &[bool]) -> bool
    ensures { result ≡ some_held marks.now (item.now ∷ []) }
{
    match item {
        Item::Place { structure, .. } => mark_at(marks, *structure),
        _ => true,
    }
}

/// Whether some item is.
fn some_held(items: &[Item], marks: &[bool]) -> bool
    ensures { result ≡ some_held marks.now items.now }
{
    for item in items {
        if is_held(item, marks) {
            return true;
        }
    }
    false
}

/// The marks of structures down chains of one reference more, from those down chains of so many.
fn marks_above(
    alloc: Global,
    structures: &[WideStructure],
    marks: &[bool],
) -> Result<Vec<bool>, Memory>
    ensures { IfOk result (λ above. above.items ≡ map (λ s. some_held marks.now s.items) structures.now) }
{
    let mut above = Vec::with_capacity(alloc, structures.len())?;
    for structure in structures {
        above.push(some_held(structure.items.as_slice(), marks))?;
    }
    Ok(above)
}

/// Marks the structures that hold a figure or a label, themselves or down chains of references. A round that marks no
/// other is the last.
pub fn marks(alloc: Global, structures: &[WideStructure]) -> Result<Vec<bool>, Memory>
    ensures { IfOk result (λ marks. marks.items ≡ held 65 structures.now) }
{
    let mut marks = Vec::new(alloc);
    let mut depth: usize = 0;
    'levels: while depth < 65 {
        let above = marks_above(alloc, structures, marks.as_slice())?;
        if above == marks {
            return Ok(marks);
        }
        marks = above;
        depth += 1;
    }
    Ok(marks)
}
