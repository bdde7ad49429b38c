// The numbers of shapes and labels of a flat form, without making it.
ghost use Rattle.std.specs.Prelude.{◌≡◌, ◌*◌, ℕ, length, slice_index, not, ◌==◌, IsTrue, IfOk, sum_by};
ghost use Rattle.poly_cut.specs.Cuts.{ring_cut};
ghost use Rattle.poly_cut.specs.Figures.{cut_of};
ghost use Rattle.poly_cut.specs.FlatForm.{items_at};
ghost use Rattle.poly_cut.specs.Counts.{counted, item_count, count_of, wide_count, told};
ghost use Rattle.poly_cut.specs.Code.Counted.{Tell};

use crate::cutting::is_cut;
use crate::layout::{Figure, Grid, Item, Point, WideLayout, WideStructure};
use aq_base::Memory;
use std::alloc::Global;

/// The kinds that are counted.
#[derive(Clone, Copy)]
pub struct CountedKinds {
    pub shapes: bool,
    pub labels: bool,
}

/// Whether a ring has a square inside.
pub fn has_squares(alloc: Global, ring: &[Point]) -> Result<bool, Memory>
    ensures { IfOk result (λ some. some ≡ not (length (ring_cut ring.now) == 0)) }
{
    is_cut(alloc, ring)
}

/// How many rectangles a figure has.
fn figure_count(figure: &Figure) -> usize
    ensures { result ≡ length (cut_of figure.now) }
{
    match figure {
        Figure::Ring(ring) => ring.count(),
        Figure::Path { points, .. } => points.len().saturating_sub(1),
    }
}

/// So many, where they are counted.
fn counted(asked: bool, count: u64) -> u64
    ensures { result ≡ counted asked count }
{
    if asked { count } else { 0 }
}

/// How many points a grid has.
fn points_in(grid: &Grid) -> u64
    ensures { result ≡ grid.now.rows * grid.now.columns }
{
    grid.rows as u64 * grid.columns as u64
}

/// The count of a structure; 0 past the last.
pub fn count_at(counts: &[u64], structure: u32) -> u64
    ensures { result ≡ slice_index counts.now structure }
{
    match counts.get(structure as usize) {
        Some(count) => *count,
        None => 0,
    }
}

/// How many an item adds, where these are the counts of structures.
pub fn item_count(item: &Item, counts: &[u64], kinds: CountedKinds) -> u64
    ensures { (of : ℕ → ℕ) → Tell counts.now of → result ≡ told (item_count kinds of item.now) }
{
    match item {
        Item::Draw { figure, .. } => counted(kinds.shapes, figure_count(figure) as u64),
        Item::Place {
            structure,
            grid,
            ..
        } => { points_in(grid).saturating_mul(count_at(counts, *structure)) }
        Item::Text(_) => counted(kinds.labels, 1),
    }
}

/// How many items add, where these are the counts of structures; the greatest number stands for all above it.
fn items_count(items: &[Item], counts: &[u64], kinds: CountedKinds) -> u64
    ensures { (of : ℕ → ℕ) → Tell counts.now of → result ≡ told (sum_by (item_count kinds of) items.now) }
{
    let mut count: u64 = 0;
    for item in items {
        count = count.saturating_add(item_count(item, counts, kinds));
    }
    count
}

/// The counts of structures down chains of one reference more, from those down chains of so many.
fn counts_above(
    alloc: Global,
    structures: &[WideStructure],
    counts: &[u64],
    kinds: CountedKinds,
) -> Result<Vec<u64>, Memory>
    ensures { IfOk result (λ above. (of : ℕ → ℕ) → Tell counts.now of
        → Tell above.items (λ n. sum_by (item_count kinds of) (items_at structures.now n))) }
{
    let mut above = Vec::with_capacity(alloc, structures.len())?;
    for structure in structures {
        above.push(items_count(structure.items.as_slice(), counts, kinds))?;
    }
    Ok(above)
}

fn are_same(counts: &[u64], others: &[u64]) -> bool
    ensures { IsTrue result → counts.now ≡ others.now }
{
    counts == others
}

/// The counts of structures, as 64 bits tell them. A round that changes none is the last.
pub fn counts(
    alloc: Global,
    structures: &[WideStructure],
    kinds: CountedKinds,
) -> Result<Vec<u64>, Memory>
    ensures { IfOk result (λ counts. Tell counts.items (count_of kinds 65 structures.now)) }
{
    let mut counts = Vec::new(alloc);
    let mut depth: usize = 0;
    'levels: while depth < 65 {
        let above = counts_above(alloc, structures, counts.as_slice(), kinds)?;
        if are_same(above.as_slice(), counts.as_slice()) {
            return Ok(counts);
        }
        counts = above;
        depth += 1;
    }
    Ok(counts)
}

/// The number of shapes and labels of the flat form, or `u64::MAX` where it is larger.
pub fn count_flat(alloc: Global, wide: &WideLayout) -> Result<u64, Memory>
    ensures { IfOk result (λ count. count ≡ told (wide_count wide.now)) }
{
    let kinds = CountedKinds {
        shapes: true,
        labels: true,
    };
    let counts = counts(alloc, wide.structures.as_slice(), kinds)?;
    Ok(count_at(counts.as_slice(), wide.top))
}
