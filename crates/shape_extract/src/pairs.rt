// All shapes that pass a test together with one, by a query of the index.
ghost use Rattle.std.specs.Prelude.{◌≡◌, ℕ, ◌<◌, ◌≤◌, ◌^◌, Bool, true, All, length, IfOk};
ghost use Rattle.std.specs.List.{filter};
ghost use Rattle.geom.specs.Rectangle.{IsProper};
ghost use Rattle.geom.specs.Near.{rects_of, IsClose};
ghost use Rattle.geom.specs.declared.shapes.Shape.{Shape};
ghost use Rattle.layout_rules.specs.Reports.{PassTogether};
ghost use Rattle.shape_extract.specs.Searches.{AreThose, passes_with};
ghost use Rattle.shape_extract.specs.Filed.{IsFiled};
ghost use Rattle.shape_extract.specs.Passing.{PassesIn};
ghost use Rattle.shape_extract.specs.Planes.{in_plane, ArePlanes, IsPlane};
ghost use Rattle.shape_extract.specs.declared.planes.Plane.TheVariants.{Lines};

use crate::filed_shapes::{FiledShapes, list_of_kinds};
use crate::kinds::Kinds;
use crate::planes::{FiledPlane, Plane, Planes};
use aq_base::Memory;
use geom::{Buckets, Shape};

/// A test of two shapes that only shapes pass that are close to each other.
pub trait PairTest {
    /// What it answers.
    ghost passes: { Self → Shape → Shape → Bool };

    /// How far apart, in x and in y, two that pass are at most.
    ghost reach: { Self → ℕ };

    /// Whether the two pass.
    fn passes(&self, a: &Shape, b: &Shape) -> bool
        ensures { result ≡ passes self.now a.now b.now };

    /// How far apart, in nanometres, two that pass are at most, in x and in y.
    fn reach(&self) -> u64
        ensures reach { result ≡ reach self.now }
        ensures close { (a b : Shape) → IsProper a.rect → IsProper b.rect → passes self.now a b ≡ true
            → IsClose a.rect b.rect (reach self.now) };
}

/// Keeps those of the numbers whose shapes pass the test together with the first.
pub fn keep_passing<T: PairTest>(test: &T, first: &Shape, shapes: &[Shape], numbers: &mut Vec<u32>)
    requires { All (λ n. n < length shapes.now) numbers.old.items }
    ensures { numbers.new.items ≡ filter (passes_with (T.passes test.now) first.now shapes.now) numbers.old.items }
{
    let mut kept = 0;
    for place in 0..numbers.len() {
        let number = numbers[place];
        if test.passes(first, &shapes[number as usize]) {
            numbers[kept] = number;
            kept += 1;
        }
    }
    numbers.truncate(kept);
}

/// Keeps those of the places at which kinds stand that pass the test together with the shape.
pub fn keep_kinds<T: PairTest>(test: &T, first: &Shape, kinds: &Kinds, places: &mut Vec<u32>)
    requires { All (λ p. p < length kinds.now) places.old.items }
    ensures { places.new.items ≡ filter (passes_with (T.passes test.now) first.now kinds.now) places.old.items }
{
    let mut kept = 0;
    for at in 0..places.len() {
        let place = places[at];
        if test.passes(first, kinds.get(place)) {
            places[kept] = place;
            kept += 1;
        }
    }
    places.truncate(kept);
}

/// Lists the numbers of the shapes that pass the test together with the one of this number, by a query of the index for
/// those within reach of it.
pub fn list_partners<T: PairTest>(
    test: &T,
    shapes: &[Shape],
    index: &Buckets,
    a: u32,
    found: &mut Vec<u32>,
) -> Result<(), Memory>
    requires few { length shapes.now < 2 ^ 32 }
    requires filed { index.now ≡ rects_of shapes.now }
    requires within { a < length shapes.now }
    requires reach { T.reach test.now ≤ 1000000 }
    ensures { IfOk result (λ _. AreThose (PassTogether (T.passes test.now) shapes.now a) found.new.items) }
{
    index.known();
    let first = &shapes[a as usize];
    index.list_near(&first.rect, test.reach(), found)?;
    keep_passing(test, first, shapes, found);
    Ok(())
}

/// Lists the places of the kinds that pass the test together with this shape, by a query of a plane in which all such
/// kinds lie for those within reach of it. It is refused for want of memory alone.
pub fn list_passing<T: PairTest>(
    test: &T,
    plane: Plane,
    first: &Shape,
    kinds: &Kinds,
    planes: &Planes,
    found: &mut Vec<u32>,
) -> Result<(), Memory>
    requires planes { ArePlanes kinds.now planes.now }
    requires reach { T.reach test.now ≤ 1000000 }
    requires planar { (s : Shape) → T.passes test.now first.now s ≡ true → in_plane plane s ≡ true }
    ensures { IfOk result (λ _. AreThose (PassesIn (T.passes test.now first.now) kinds.now) found.new.items) }
{
    first.rect.known();
    planes.list_near(plane, &first.rect, test.reach(), found)?;
    keep_kinds(test, first, kinds, found);
    Ok(())
}

/// Lists the numbers of the shapes that pass the test together with the one of this number, by a query of the kinds in
/// a plane in which all such shapes lie: a heap of equal shapes is tested once, and listed only where it passes.
pub fn list_filed_partners<T: PairTest>(
    test: &T,
    plane: Plane,
    shapes: &[Shape],
    filed: &FiledShapes,
    a: u32,
    found: &mut Vec<u32>,
) -> Result<(), Memory>
    requires few { length shapes.now < 2 ^ 32 }
    requires filed { IsFiled shapes.now filed.now }
    requires within { a < length shapes.now }
    requires reach { T.reach test.now ≤ 1000000 }
    requires planar { (s t : Shape) → T.passes test.now s t ≡ true → in_plane plane t ≡ true }
    ensures { IfOk result (λ _. AreThose (PassTogether (T.passes test.now) shapes.now a) found.new.items) }
{
    let first = &shapes[a as usize];
    list_passing(
        test,
        plane,
        first,
        &filed.kinds.among(shapes),
        &filed.planes,
        found,
    )?;
    list_of_kinds(filed, found)?;
    Ok(())
}

/// Lists the numbers of the parts of lines that pass the test together with the shape of this number, by a query of
/// these parts alone. Of a heap of equal parts each one is tested.
pub fn list_line_partners<T: PairTest>(
    test: &T,
    shapes: &[Shape],
    lines: &FiledPlane,
    a: u32,
    found: &mut Vec<u32>,
) -> Result<(), Memory>
    requires filed { IsPlane Lines shapes.now lines.now }
    requires within { a < length shapes.now }
    requires reach { T.reach test.now ≤ 1000000 }
    requires planar { (s t : Shape) → T.passes test.now s t ≡ true → in_plane Lines t ≡ true }
    ensures { IfOk result (λ _. AreThose (PassTogether (T.passes test.now) shapes.now a) found.new.items) }
{
    let first = &shapes[a as usize];
    first.rect.known();
    lines.list_near(&first.rect, test.reach(), found)?;
    keep_passing(test, first, shapes, found);
    Ok(())
}
