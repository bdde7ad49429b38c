// The index: rectangles in the cells of grids, one grid for each kind of size, so that long and short ones don't meet.
ghost use Rattle.std.specs.Prelude.{◌≡◌, ℕ, ◌+◌, ◌<◌, ◌≤◌, ◌^◌, ◌↔◌, All, Contains, length, IfOk, IsTrue};
ghost use Rattle.std.specs.Prelude.{slice_index};
ghost use Rattle.std.specs.List.Sorted.{IsStrictlyIncreasing};
ghost use Rattle.geom.specs.Code.Grids.{end_of};
ghost use Rattle.geom.specs.Rectangle.{AreProper};
ghost use Rattle.geom.specs.Near.{rects_of, AreNear, AreRectsAt};
ghost use Rattle.geom.specs.Code.Filed.{rects_in};
ghost use Rattle.geom.specs.Code.Bounds.{AreBlocks, IsPassed};
ghost use Rattle.geom.specs.Code.Spots.{AreOrdered, KeepsFilled, ListsAmong, ListsIn, ListsGrids};
ghost use Rattle.geom.specs.Code.Spots.{IsIndex};

use crate::index::blocks::{BLOCK_SIZE, Block, blocks};
use crate::index::filing::file_spots;
use crate::index::grid::Grid;
use crate::index::spots::Spots;
use crate::index::survey::grids_for;
use crate::index::zone::Zone;
use crate::rectangle::Rect;
use crate::shapes::Shape;
use aq_base::{List, Memory};
use std::alloc::Global;
use std::marker::Model;

/// A list of rectangles, filed by where they lie; it is seen as that list. Each stands in one bucket: the cell of its
/// lower left corner, in a grid of rectangles of like size. A query looks where the corners of near ones can be.
#[derive(Drop)]
pub struct Buckets {
    count: usize,
    grids: Vec<Grid>,
    spots: Spots,
    starts: Vec<u32>,
    blocks: Vec<Block>,
}

impl Model for Buckets {
    ghost use Rattle.std.specs.Prelude.{List};
    ghost use Rattle.geom.specs.Rectangle.{Rectangle};
    ghost use Rattle.geom.specs.Code.Bounds.{AreBlocks, IsPassed};
    ghost use Rattle.geom.specs.Code.Spots.{unfiled, IsIndex};

    ghost Value = { List Rectangle };

    ghost view = { λ b. unfiled b.count b.spots };

    ghost invariant = { λ b.
        IsIndex (unfiled b.count b.spots) b.grids.items b.spots b.starts.items b.blocks.items };
}

/// Whether the spots of the grid's first cell begin where those of all its cells end: then nothing stands in it.
fn is_bare(starts: &[u32], grid: &Grid) -> bool
    requires { end_of grid.now < length starts.now }
    ensures { IsTrue result ↔ slice_index starts.now grid.now.first ≡ slice_index starts.now (end_of grid.now) }
{
    starts[grid.first] == starts[grid.end()]
}

/// The grids in which something stands: a query looks at these alone.
fn filled_grids(alloc: Global, grids: &[Grid], starts: &[u32]) -> Result<Vec<Grid>, Memory>
    requires { All (λ g. end_of g < length starts.now) grids.now }
    ensures { IfOk result (λ kept. KeepsFilled grids.now starts.now (length grids.now) kept.items) }
{
    let mut kept = Vec::new(alloc);
    for grid in grids {
        if !is_bare(starts, grid) {
            kept.push(*grid)?;
        }
    }
    Ok(kept)
}

/// The index over the rectangles of these spots, whose numbers and cells are of no matter.
fn index_over(alloc: Global, unfiled: Spots) -> Result<Buckets, Memory>
    requires { length unfiled < 2 ^ 32 }
    ensures { IfOk result (λ buckets. buckets ≡ rects_in unfiled) }
{
    let mut spots = unfiled;
    let count = spots.len();
    let laid_out = grids_for(alloc, &spots)?;
    let starts = file_spots(alloc, laid_out.as_slice(), &mut spots)?;
    let grids = filled_grids(alloc, laid_out.as_slice(), starts.as_slice())?;
    let blocks = blocks(alloc, &spots)?;
    Ok(Buckets {
        count,
        grids,
        spots,
        starts,
        blocks,
    })
}

/// Files the rectangles of the shapes, which are fewer than 2^32, under the shapes' numbers. It is refused for want of
/// memory alone.
pub fn file_shapes(alloc: Global, shapes: &List<Shape>) -> Result<Buckets, Memory>
    requires { length shapes.now < 2 ^ 32 }
    ensures { IfOk result (λ buckets. buckets ≡ rects_of shapes.now) }
{
    let spots = Spots::of(alloc, shapes.as_slice())?;
    index_over(alloc, spots)
}

/// Files the rectangles of the shapes of these numbers, which are fewer than 2^32, under the places of the numbers. It
/// is refused for want of memory alone.
pub fn file_numbered(alloc: Global, shapes: &[Shape], numbers: &[u32]) -> Result<Buckets, Memory>
    requires few { length numbers.now < 2 ^ 32 }
    requires within { All (λ n. n < length shapes.now) numbers.now }
    ensures { IfOk result (AreRectsAt shapes.now numbers.now) }
{
    let spots = Spots::at_numbers(alloc, shapes, numbers)?;
    index_over(alloc, spots)
}

/// The place that a walk goes on from after this one: past a block that begins here, where its bounds are far away.
fn place_after(blocks: &[Block], place: usize, zone: &Zone) -> usize
    requires { place + 1 < 2 ^ 64 }
    ensures later { place < result }
    ensures passed { place + 1 < result → IsPassed blocks.now place result zone.now.rect zone.now.margin }
{
    if place % BLOCK_SIZE == 0 && place / BLOCK_SIZE < blocks.len() {
        let block = &blocks[place / BLOCK_SIZE];
        if !zone.meets(&block.bounds) {
            return block.past.max(place + 1);
        }
    }
    place + 1
}

/// Lists the near ones between two places.
fn list_among(
    spots: &Spots,
    blocks: &[Block],
    from: usize,
    to: usize,
    zone: &Zone,
    found: &mut Vec<u32>,
) -> Result<(), Memory>
    requires within { to ≤ length spots.now }
    requires blocks { AreBlocks spots.now blocks.now }
    ensures { IfOk result (λ _.
        ListsAmong spots.now from to zone.now.rect zone.now.margin found.old.items found.new.items) }
{
    let mut place = from;
    while place < to {
        let spot = spots.at(place);
        if zone.meets(&spot.rect) {
            found.push(spot.number)?;
            place += 1;
        } else {
            place = place_after(blocks, place, zone);
        }
    }
    Ok(())
}

/// Lists the near ones in the cells of a grid where their corners can be.
fn list_in(
    spots: &Spots,
    blocks: &[Block],
    starts: &[u32],
    grid: &Grid,
    zone: &Zone,
    found: &mut Vec<u32>,
) -> Result<(), Memory>
    requires blocks { AreBlocks spots.now blocks.now }
    requires order { AreOrdered starts.now (length spots.now) }
    requires long { end_of grid.now < length starts.now }
    ensures { IfOk result (λ _. ListsIn spots.now starts.now grid.now zone.now.rect zone.now.margin found.old.items
        found.new.items) }
{
    let window = grid.window(zone);
    for row in window.low..window.high + 1 {
        let from = starts[grid.cell_in(row, window.left)] as usize;
        let to = starts[grid.cell_in(row, window.right) + 1] as usize;
        list_among(spots, blocks, from, to, zone, found)?;
    }
    Ok(())
}

/// Lists the near ones grid by grid, some twice maybe.
fn list_all(
    spots: &Spots,
    blocks: &[Block],
    starts: &[u32],
    grids: &[Grid],
    zone: &Zone,
    found: &mut Vec<u32>,
) -> Result<(), Memory>
    requires blocks { AreBlocks spots.now blocks.now }
    requires order { AreOrdered starts.now (length spots.now) }
    requires long { All (λ g. end_of g < length starts.now) grids.now }
    ensures { IfOk result (λ _. ListsGrids spots.now starts.now grids.now (length grids.now) zone.now.rect
        zone.now.margin found.new.items) }
{
    found.clear();
    for grid in grids {
        list_in(spots, blocks, starts, grid, zone, found)?;
    }
    Ok(())
}

/// Whether each number is above the one before it, as in most answers: they are short.
fn is_rising(numbers: &[u32]) -> bool
    ensures { IsTrue result → IsStrictlyIncreasing numbers.now }
{
    for place in 1..numbers.len() {
        if numbers[place] <= numbers[place - 1] {
            return false;
        }
    }
    true
}

/// The numbers by rising order, each once.
fn make_rising(numbers: &mut Vec<u32>)
    ensures rising { IsStrictlyIncreasing numbers.new.items }
    ensures same { (n : ℕ) → Contains numbers.old.items n ↔ Contains numbers.new.items n }
{
    if !is_rising(numbers.as_slice()) {
        numbers.sort_unstable();
        numbers.dedup();
    }
}

impl Buckets {
    /// What every index keeps: each of its rectangles has a positive width and a positive height. It does nothing else.
    pub fn known(&self)
        ensures { AreProper self.now }
    {
        let _spots = &self.spots;
    }

    /// How many rectangles are filed.
    pub fn len(&self) -> usize
        ensures { result ≡ length self.now }
    {
        self.count
    }

    /// Leaves in `found` the numbers of exactly the rectangles that are no further from this one than the margin, in x
    /// and in y, rising; what was there before is dropped. The margin is in nanometres. It is refused for want of
    /// memory alone.
    pub fn list_near(&self, rect: &Rect, margin: u64, found: &mut Vec<u32>) -> Result<(), Memory>
        requires { margin ≤ 1000000 }
        ensures { IfOk result (λ _. AreNear self.now rect.now margin found.new.items) }
    {
        let zone = Zone::around(rect, margin);
        list_all(
            &self.spots,
            self.blocks.as_slice(),
            self.starts.as_slice(),
            self.grids.as_slice(),
            &zone,
            found,
        )?;
        make_rising(found);
        Ok(())
    }

    /// The numbers of exactly the rectangles that are no further from this one than the margin, in x and in y, rising.
    /// The margin is in nanometres: 0 asks for those that share a point with it. It is refused for want of memory
    /// alone.
    pub fn near(&self, alloc: Global, rect: &Rect, margin: u64) -> Result<List<u32>, Memory>
        requires { margin ≤ 1000000 }
        ensures { IfOk result (AreNear self.now rect.now margin) }
    {
        let mut found = Vec::new(alloc);
        self.list_near(rect, margin, &mut found)?;
        Ok(List::from_vec(found))
    }
}
