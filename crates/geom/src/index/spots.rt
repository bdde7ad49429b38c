// Spots: rectangles beside their numbers and their cells, so that a query reads them one after another.
ghost use Rattle.std.specs.Prelude.{◌≡◌, ◌<◌, ◌≤◌, All, IfOk, IfSome, IsPermutation, Some, length, set, slice_get};
ghost use Rattle.geom.specs.Near.{rects_of, AreRectsAt};
ghost use Rattle.geom.specs.Code.Filed.{rects_in, AreRising, with_cell};
ghost use Rattle.geom.specs.Code.Held.{IsPartMoved};
ghost use Rattle.geom.specs.declared.index.spots.Spot.{Spot as SpotView};

use crate::index::grid::Grid;
use crate::index::narrow::NarrowSpot;
use crate::rectangle::Rect;
use crate::shapes::Shape;
use aq_base::Memory;
use std::alloc::Global;
use std::marker::Model;

/// A rectangle, its number, and the number of the cell that it stands in.
#[derive(Clone, Copy)]
pub struct Spot {
    pub rect: Rect,
    pub number: u32,
    pub cell: u32,
}

/// The spots, all narrow or all wide.
#[derive(Drop)]
enum Held {
    Narrow(Vec<NarrowSpot>),
    Wide(Vec<Spot>),
}

/// A list of spots. It is narrow where each rectangle allows it.
#[derive(Drop)]
pub struct Spots {
    held: Held,
}

impl Model for Spots {
    ghost use Rattle.std.specs.Prelude.{List};
    ghost use Rattle.geom.specs.declared.index.spots.Spot.{Spot};
    ghost use Rattle.geom.specs.Code.Held.{spots_of};

    ghost Value = { List Spot };

    ghost view = { λ s. spots_of s.held };
}

impl Spot {
    /// A spot for the rectangle, with no number and no cell yet.
    fn of(rect: &Rect) -> Spot
        ensures { result.rect ≡ rect.now }
    {
        Spot {
            rect: *rect,
            number: 0,
            cell: 0,
        }
    }

    /// The spot with this number and in this cell.
    fn with(&self, number: u32, cell: u32) -> Spot
        ensures { result ≡ with_cell self.now number cell }
    {
        Spot {
            rect: self.rect,
            number,
            cell,
        }
    }
}

/// Wide spots for the shapes of these numbers, in the order of the numbers.
fn wide_at(alloc: Global, shapes: &[Shape], numbers: &[u32]) -> Result<Vec<Spot>, Memory>
    requires { All (λ n. n < length shapes.now) numbers.now }
    ensures { IfOk result (λ spots. AreRectsAt shapes.now numbers.now (rects_in spots.items)) }
{
    let mut spots = Vec::with_capacity(alloc, numbers.len())?;
    for number in numbers {
        spots.push(Spot::of(&shapes[*number as usize].rect))?;
    }
    Ok(spots)
}

/// Narrow spots for the shapes of these numbers; none where one is too wide.
fn narrow_at(
    alloc: Global,
    shapes: &[Shape],
    numbers: &[u32],
) -> Result<Option<Vec<NarrowSpot>>, Memory>
    requires { All (λ n. n < length shapes.now) numbers.now }
    ensures { IfOk result (λ found. IfSome found
        (λ spots. AreRectsAt shapes.now numbers.now (rects_in spots.items))) }
{
    let mut spots = Vec::with_capacity(alloc, numbers.len())?;
    for number in numbers {
        let Some(spot) = NarrowSpot::of(&shapes[*number as usize].rect) else {
            return Ok(None);
        };
        spots.push(spot)?;
    }
    Ok(Some(spots))
}

fn sort_narrow(spots: &mut [NarrowSpot])
    ensures moved { IsPermutation spots.old spots.new }
    ensures rising { AreRising spots.new }
{
    spots.sort_unstable_by_key(|spot| spot.cell());
}

fn sort_wide(spots: &mut [Spot])
    ensures moved { IsPermutation spots.old spots.new }
    ensures rising { AreRising spots.new }
{
    spots.sort_unstable_by_key(|spot| spot.cell);
}

impl Spots {
    /// Spots for the shapes, in their order: wide ones.
    pub fn of(alloc: Global, shapes: &[Shape]) -> Result<Spots, Memory>
        ensures { IfOk result (λ spots. rects_in spots ≡ rects_of shapes.now) }
    {
        let mut spots = Vec::with_capacity(alloc, shapes.len())?;
        for shape in shapes {
            spots.push(Spot::of(&shape.rect))?;
        }
        Ok(Spots {
            held: Held::Wide(spots),
        })
    }

    /// Spots for the shapes of these numbers, in the order of the numbers.
    pub fn at_numbers(alloc: Global, shapes: &[Shape], numbers: &[u32]) -> Result<Spots, Memory>
        requires { All (λ n. n < length shapes.now) numbers.now }
        ensures { IfOk result (λ spots. AreRectsAt shapes.now numbers.now (rects_in spots)) }
    {
        let held = match narrow_at(alloc, shapes, numbers)? {
            Some(spots) => Held::Narrow(spots),
            None => Held::Wide(wide_at(alloc, shapes, numbers)?),
        };
        Ok(Spots { held })
    }

    /// How many there are.
    pub fn len(&self) -> usize
        ensures { result ≡ length self.now }
    {
        match &self.held {
            Held::Narrow(spots) => spots.len(),
            Held::Wide(spots) => spots.len(),
        }
    }

    /// The spot at a place.
    pub fn at(&self, place: usize) -> Spot
        requires { place < length self.now }
        ensures { slice_get self.now place ≡ Some result }
    {
        match &self.held {
            Held::Narrow(spots) => spots[place].wide(),
            Held::Wide(spots) => spots[place],
        }
    }

    /// Gives the spot at a place a number and a cell.
    pub fn tell(&mut self, place: usize, number: u32, cell: u32)
        requires { place < length self.old }
        ensures { (s : SpotView) → slice_get self.old place ≡ Some s
            → self.new ≡ set self.old place (with_cell s number cell) }
    {
        match &mut self.held {
            Held::Narrow(spots) => {
                let spot = spots[place].with(number, cell);
                spots[place] = spot;
            }
            Held::Wide(spots) => {
                let spot = spots[place].with(number, cell);
                spots[place] = spot;
            }
        }
    }

    /// Puts the spots by rising cell.
    pub fn sort(&mut self)
        ensures moved { IsPermutation self.old self.new }
        ensures rising { AreRising self.new }
    {
        match &mut self.held {
            Held::Narrow(spots) => sort_narrow(spots),
            Held::Wide(spots) => sort_wide(spots),
        }
    }

    /// Puts the spots between two places by rising order in the grid, so that those near each other mostly stand near
    /// each other.
    pub fn order(&mut self, from: usize, past: usize, grid: &Grid)
        requires order { from ≤ past }
        requires within { past ≤ length self.old }
        ensures { IsPartMoved from past self.old self.new }
    {
        match &mut self.held {
            Held::Narrow(spots) => {
                spots[from..past].sort_unstable_by_key(|spot| grid.order_of(&spot.rect()));
            }
            Held::Wide(spots) => {
                spots[from..past].sort_unstable_by_key(|spot| grid.order_of(&spot.rect));
            }
        }
    }
}
