// Planes: groups of layers, each filed by itself, so that a query meets only shapes of the layers that it asks for.
ghost use Rattle.std.specs.Prelude.{◌≡◌, ◌^◌, ◌<◌, ◌≤◌, IfOk, List, length};
ghost use Rattle.geom.specs.declared.shapes.Shape.{Shape};
ghost use Rattle.shape_extract.specs.Searches.{AreThose};
ghost use Rattle.shape_extract.specs.Passing.{PassesIn};
ghost use Rattle.shape_extract.specs.Planes.{in_plane, IsPlane, ArePlanes, AreNamed, AreNearIn};

use crate::kinds::Kinds;
use crate::layers::{is_frame, is_line, is_lower, is_pin, is_upper, is_via};
use aq_base::Memory;
use geom::{Buckets, Rect, Shape, file_numbered};
use std::alloc::Global;

/// A group of layers. A pin lies in two planes, and any other shape in one at most.
#[derive(Clone, Copy, PartialEq, Eq)]
pub enum Plane {
    /// The lower metal and the pins.
    Lower,
    /// The vias.
    Vias,
    /// The upper metal.
    Upper,
    /// The frames of cells.
    Frames,
    /// The parts of excitation lines.
    Lines,
    /// The pins alone, so that a question for them meets no metal.
    Pins,
}

impl Plane {
    /// Whether the shape lies in the plane.
    pub fn holds(self, s: &Shape) -> bool
        ensures { result ≡ in_plane self s.now }
    {
        match self {
            Plane::Lower => is_lower(s),
            Plane::Vias => is_via(s),
            Plane::Upper => is_upper(s),
            Plane::Frames => is_frame(s),
            Plane::Lines => is_line(s),
            Plane::Pins => is_pin(s),
        }
    }
}

/// The shapes of a plane, by their numbers, rising, and where they lie.
#[derive(Drop)]
pub struct FiledPlane {
    pub numbers: Vec<u32>,
    pub index: Buckets,
}

/// Shapes by planes; those of no plane are left out.
#[derive(Drop)]
pub struct Planes {
    pub lower: FiledPlane,
    pub vias: FiledPlane,
    pub upper: FiledPlane,
    pub frames: FiledPlane,
    pub lines: FiledPlane,
    pub pins: FiledPlane,
}

/// The numbers of the shapes in the plane.
fn numbers_in(alloc: Global, shapes: &[Shape], plane: Plane) -> Result<Vec<u32>, Memory>
    requires { length shapes.now < 2 ^ 32 }
    ensures { IfOk result (λ numbers. AreThose (PassesIn (in_plane plane) shapes.now) numbers.items) }
{
    let mut numbers = Vec::new(alloc);
    for number in 0..shapes.len() {
        if plane.holds(&shapes[number]) {
            numbers.push(number as u32)?;
        }
    }
    Ok(numbers)
}

/// Files the shapes of the plane. It is refused for want of memory alone.
pub fn file_plane(alloc: Global, shapes: &[Shape], plane: Plane) -> Result<FiledPlane, Memory>
    requires { length shapes.now < 2 ^ 32 }
    ensures { IfOk result (IsPlane plane shapes.now) }
{
    let numbers = numbers_in(alloc, shapes, plane)?;
    let index = file_numbered(alloc, shapes, numbers.as_slice())?;
    Ok(FiledPlane { numbers, index })
}

/// The places of the kinds in the plane.
fn places_in(alloc: Global, kinds: &Kinds, plane: Plane) -> Result<Vec<u32>, Memory>
    requires { length kinds.now < 2 ^ 32 }
    ensures { IfOk result (λ places. AreThose (PassesIn (in_plane plane) kinds.now) places.items) }
{
    let mut places = Vec::new(alloc);
    for place in 0..kinds.count() {
        if plane.holds(kinds.get(place as u32)) {
            places.push(place as u32)?;
        }
    }
    Ok(places)
}

/// Files the kinds of the plane. It is refused for want of memory alone.
fn file_kinds_in(alloc: Global, kinds: &Kinds, plane: Plane) -> Result<FiledPlane, Memory>
    requires { length kinds.now < 2 ^ 32 }
    ensures { IfOk result (IsPlane plane kinds.now) }
{
    let numbers = places_in(alloc, kinds, plane)?;
    let index = kinds.file(alloc, numbers.as_slice())?;
    Ok(FiledPlane { numbers, index })
}

/// Files the kinds by planes. It is refused for want of memory alone.
pub fn file_planes(alloc: Global, kinds: &Kinds) -> Result<Planes, Memory>
    requires { length kinds.now < 2 ^ 32 }
    ensures { IfOk result (ArePlanes kinds.now) }
{
    Ok(Planes {
        lower: file_kinds_in(alloc, kinds, Plane::Lower)?,
        vias: file_kinds_in(alloc, kinds, Plane::Vias)?,
        upper: file_kinds_in(alloc, kinds, Plane::Upper)?,
        frames: file_kinds_in(alloc, kinds, Plane::Frames)?,
        lines: file_kinds_in(alloc, kinds, Plane::Lines)?,
        pins: file_kinds_in(alloc, kinds, Plane::Pins)?,
    })
}

/// Puts the number at each place that is found in the place's stead; what is no place stays.
fn name_places(numbers: &[u32], found: &mut Vec<u32>)
    ensures { AreNamed numbers.now found.old.items found.new.items }
{
    for at in 0..found.len() {
        let place = found[at] as usize;
        if place < numbers.len() {
            found[at] = numbers[place];
        }
    }
}

impl FiledPlane {
    /// Leaves in `found` the numbers of the shapes in the plane that are no further from the rectangle than the margin,
    /// in x and in y, rising. It is refused for want of memory alone.
    pub(crate) fn list_near(
        &self,
        rect: &Rect,
        margin: u64,
        found: &mut Vec<u32>,
    ) -> Result<(), Memory>
        requires { margin ≤ 1000000 }
        ensures { IfOk result (λ _. (plane : Plane) (shapes : List Shape) → IsPlane plane shapes self.now
            → AreNearIn plane shapes rect.now margin found.new.items) }
    {
        self.index.known();
        self.index.list_near(rect, margin, found)?;
        name_places(self.numbers.as_slice(), found);
        Ok(())
    }
}

impl Planes {
    /// The shapes of the plane.
    fn filed(&self, plane: Plane) -> &FiledPlane
        ensures { (shapes : List Shape) → ArePlanes shapes self.now → IsPlane plane shapes result.now }
    {
        match plane {
            Plane::Lower => &self.lower,
            Plane::Vias => &self.vias,
            Plane::Upper => &self.upper,
            Plane::Frames => &self.frames,
            Plane::Lines => &self.lines,
            Plane::Pins => &self.pins,
        }
    }

    /// Leaves in `found` the numbers of the shapes in the plane that are no further from the rectangle than the margin,
    /// in x and in y, rising; what was there before is dropped. The margin is in nanometres. It is refused for want of
    /// memory alone.
    pub fn list_near(
        &self,
        plane: Plane,
        rect: &Rect,
        margin: u64,
        found: &mut Vec<u32>,
    ) -> Result<(), Memory>
        requires { margin ≤ 1000000 }
        ensures { IfOk result (λ _. (shapes : List Shape) → ArePlanes shapes self.now
            → AreNearIn plane shapes rect.now margin found.new.items) }
    {
        self.filed(plane).list_near(rect, margin, found)?;
        Ok(())
    }
}
