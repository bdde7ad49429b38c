// Shapes filed by where they lie, equal ones once, so that a query meets a heap of equal shapes as one.
ghost use Rattle.std.specs.Prelude.{◌≡◌, ℕ, ◌^◌, ◌<◌, ◌↔◌, Contains, IfOk, length, slice_index};
ghost use Rattle.std.specs.List.Sorted.{IsStrictlyIncreasing};
ghost use Rattle.shape_extract.specs.Searches.{AreThose};
ghost use Rattle.shape_extract.specs.Chains.{AreChains};
ghost use Rattle.shape_extract.specs.Filed.{AreFirsts, IsFiled};
ghost use Rattle.shape_extract.specs.Code.Filed.{IsOfKinds, AddsRest, ListsMembers};

use crate::connectivity::net_chains::chains;
use crate::distinct_shapes::{Distinct, distinct_of};
use crate::planes::{Planes, file_planes};
use aq_base::Memory;
use geom::Shape;
use std::alloc::Global;

/// The shapes of a layout by kinds: equal shapes are of one kind, and each kind is filed once.
#[derive(Drop)]
pub struct FiledShapes {
    pub kinds: Distinct,
    /// Where the kinds lie.
    pub planes: Planes,
    /// For each shape the next one of its kind, or the number of shapes where it is the last.
    pub next: Vec<u32>,
}

/// Files the shapes of a layout. It is refused for want of memory alone.
pub fn file_kinds(alloc: Global, shapes: &[Shape]) -> Result<FiledShapes, Memory>
    requires { length shapes.now < 2 ^ 32 }
    ensures { IfOk result (IsFiled shapes.now) }
{
    let kinds = distinct_of(alloc, shapes)?;
    let planes = file_planes(alloc, &kinds.among(shapes))?;
    let next = chains(alloc, kinds.places.as_slice())?;
    Ok(FiledShapes {
        kinds,
        planes,
        next,
    })
}

/// Adds the shapes that come after this one in its kind.
fn list_rest(places: &[u32], next: &[u32], n: u32, found: &mut Vec<u32>) -> Result<(), Memory>
    requires few { length places.now < 2 ^ 32 }
    requires chains { AreChains places.now next.now }
    requires within { n < length places.now }
    ensures { IfOk result (λ _. AddsRest places.now n found.old.items found.new.items) }
{
    let mut later = next[n as usize];
    while (later as usize) < places.len() {
        found.push(later)?;
        later = next[later as usize];
    }
    Ok(())
}

/// Puts the first shape of each kind in the kind's place, and adds the others behind all.
fn list_members(
    numbers: &[u32],
    places: &[u32],
    next: &[u32],
    found: &mut Vec<u32>,
) -> Result<(), Memory>
    requires few { length places.now < 2 ^ 32 }
    requires firsts { AreFirsts numbers.now places.now }
    requires chains { AreChains places.now next.now }
    requires kinds { (k : ℕ) → k < length found.old.items → slice_index found.old.items k < length numbers.now }
    ensures { IfOk result (λ _. ListsMembers numbers.now places.now found.old.items found.new.items) }
{
    for at in 0..found.len() {
        let first = numbers[found[at] as usize];
        found[at] = first;
        list_rest(places, next, first, found)?;
    }
    Ok(())
}

/// The numbers by rising order, each once.
fn make_rising(numbers: &mut Vec<u32>)
    ensures rising { IsStrictlyIncreasing numbers.new.items }
    ensures same { (n : ℕ) → Contains numbers.old.items n ↔ Contains numbers.new.items n }
{
    numbers.sort_unstable();
    numbers.dedup();
}

/// Lists the shapes of these kinds in their stead. Most kinds have a single shape, and then nothing is sorted.
pub fn list_of_kinds(filed: &FiledShapes, found: &mut Vec<u32>) -> Result<(), Memory>
    requires few { length filed.now.kinds.places.items < 2 ^ 32 }
    requires firsts { AreFirsts filed.now.kinds.numbers.items filed.now.kinds.places.items }
    requires chains { AreChains filed.now.kinds.places.items filed.now.next.items }
    requires kinds { (k : ℕ) → k < length found.old.items
        → slice_index found.old.items k < length filed.now.kinds.numbers.items }
    requires rising { (j k : ℕ) → j < k → k < length found.old.items
        → slice_index found.old.items j < slice_index found.old.items k }
    ensures { IfOk result (λ _. AreThose (IsOfKinds filed.now.kinds.places.items found.old.items) found.new.items) }
{
    let count = found.len();
    list_members(
        filed.kinds.numbers.as_slice(),
        filed.kinds.places.as_slice(),
        filed.next.as_slice(),
        found,
    )?;
    if count < found.len() {
        make_rising(found);
    }
    Ok(())
}
