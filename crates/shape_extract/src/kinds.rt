// The shapes of a list at some numbers, read where they lie: they are not copied.
ghost use Rattle.std.specs.Prelude.{◌≡◌, ℕ, ◌<◌, ◌^◌, All, IfOk, Some, length, slice_get, slice_index};
ghost use Rattle.geom.specs.Near.{AreRectsAt};
ghost use Rattle.shape_extract.specs.Distinct.{kinds_at};
ghost use Rattle.shape_extract.specs.Planes.{AreNamed};

use aq_base::Memory;
use geom::{Buckets, Shape, file_numbered};
use std::alloc::Global;
use std::marker::Model;

/// Some shapes of a list, by their numbers there. It is seen as the list of these shapes.
#[derive(Drop)]
pub struct Kinds<'a> {
    shapes: &'a [Shape],
    numbers: &'a [u32],
}

impl<'a> Model for Kinds<'a> {
    ghost use Rattle.std.specs.Prelude.{ℕ, ◌<◌, List, length, slice_index};
    ghost use Rattle.geom.specs.declared.shapes.Shape.{Shape};
    ghost use Rattle.shape_extract.specs.Distinct.{kinds_at};

    ghost Value = { List Shape };

    ghost view = { λ s. kinds_at s.shapes.now s.numbers.now };

    ghost invariant = { λ s. (k : ℕ) → k < length s.numbers.now → slice_index s.numbers.now k < length s.shapes.now };
}

/// The numbers at these places.
fn numbers_at(alloc: Global, numbers: &[u32], places: &[u32]) -> Result<Vec<u32>, Memory>
    requires { All (λ p. p < length numbers.now) places.now }
    ensures { IfOk result (λ named. AreNamed numbers.now places.now named.items) }
{
    let mut named = Vec::with_capacity(alloc, places.len())?;
    for place in places {
        named.push(numbers[*place as usize])?;
    }
    Ok(named)
}

impl<'a> Kinds<'a> {
    /// The shapes of these numbers.
    pub fn of(shapes: &'a [Shape], numbers: &'a [u32]) -> Kinds<'a>
        requires { (k : ℕ) → k < length numbers.now → slice_index numbers.now k < length shapes.now }
        ensures { result ≡ kinds_at shapes.now numbers.now }
    {
        Kinds { shapes, numbers }
    }

    /// How many they are.
    pub fn count(&self) -> usize
        ensures { result ≡ length self.now }
    {
        self.numbers.len()
    }

    /// The shape at this place.
    pub fn get(&self, place: u32) -> &Shape
        requires { place < length self.now }
        ensures { slice_get self.now place ≡ Some result.now }
    {
        &self.shapes[self.numbers[place as usize] as usize]
    }

    /// Files the shapes at these places. It is refused for want of memory alone.
    pub fn file(&self, alloc: Global, places: &[u32]) -> Result<Buckets, Memory>
        requires few { length places.now < 2 ^ 32 }
        requires within { All (λ p. p < length self.now) places.now }
        ensures { IfOk result (AreRectsAt self.now places.now) }
    {
        let numbers = numbers_at(alloc, self.numbers, places)?;
        let index = file_numbered(alloc, self.shapes, numbers.as_slice())?;
        Ok(index)
    }
}
