// Shapes without their repetitions: of equal shapes the one with the least number stands for all.
ghost use Rattle.std.specs.Prelude.{◌≡◌, ◌≢◌, ℕ, ◌<◌, ◌^◌, ◌↔◌, IfOk, IsTrue, length, slice_index};
ghost use Rattle.shape_extract.specs.Code.DistinctShapes.{sided_of, AreInOrder, AreHeads, IsLeastHead, GoesOn};
ghost use Rattle.shape_extract.specs.Distinct.{ArePlaces, IsDistinct, kinds_at};
ghost use Rattle.shape_extract.specs.Code.DistinctShapes.{AreLeast, AreOwn};

use crate::kinds::Kinds;
use aq_base::Memory;
use geom::Shape;
use std::alloc::Global;

/// The shapes that stand for all of a list, by their numbers there, rising. Every shape of the list is equal to one of
/// them whose number is not above its own.
#[derive(Drop)]
pub struct Distinct {
    pub numbers: Vec<u32>,
    /// For each shape of the list the place of the one that stands for it.
    pub places: Vec<u32>,
}

impl Distinct {
    /// The shapes that stand for all, where these are all.
    pub fn among<'a>(&'a self, shapes: &'a [Shape]) -> Kinds<'a>
        requires { (k : ℕ) → k < length self.now.numbers.items
            → slice_index self.now.numbers.items k < length shapes.now }
        ensures { result ≡ kinds_at shapes.now self.now.numbers.items }
    {
        Kinds::of(shapes, self.numbers.as_slice())
    }
}

/// A shape as equal ones are brought together: by its sides, its layer and its datatype, then by its number.
#[derive(Clone, Copy, PartialEq, Eq, PartialOrd, Ord)]
struct Sided {
    x0: i64,
    y0: i64,
    x1: i64,
    y1: i64,
    layer: u16,
    datatype: u16,
    number: u32,
}

fn sided_at(shape: &Shape, number: u32) -> Sided
    ensures { result ≡ sided_of shape.now number }
{
    let rect = &shape.rect;
    Sided {
        x0: rect.x0,
        y0: rect.y0,
        x1: rect.x1,
        y1: rect.y1,
        layer: shape.layer,
        datatype: shape.datatype,
        number,
    }
}

/// All shapes, equal ones one after the other by rising number.
fn in_order(alloc: Global, shapes: &[Shape]) -> Result<Vec<Sided>, Memory>
    requires { length shapes.now < 2 ^ 32 }
    ensures { IfOk result (λ order. AreInOrder shapes.now order.items) }
{
    let mut order = Vec::with_capacity(alloc, shapes.len())?;
    for (number, shape) in shapes.iter().enumerate() {
        order.push(sided_at(shape, number as u32))?;
    }
    order.sort_unstable();
    Ok(order)
}

/// Each number as its own head.
fn own_heads(alloc: Global, shapes: &[Shape]) -> Result<Vec<u32>, Memory>
    requires { length shapes.now < 2 ^ 32 }
    ensures { IfOk result (λ heads. AreHeads shapes.now heads.items) }
{
    let mut heads = Vec::with_capacity(alloc, shapes.len())?;
    for n in 0..shapes.len() {
        heads.push(n as u32)?;
    }
    Ok(heads)
}

/// Whether the two are equal.
pub fn is_equal(a: &Shape, b: &Shape) -> bool
    ensures { IsTrue result ↔ (a.now ≡ b.now) }
{
    *a == *b
}

/// Shape n goes by the head of the shape before it in the order, where the two are equal.
fn link(shapes: &[Shape], heads: &mut [u32], before: u32, n: u32)
    requires heads { AreHeads shapes.now heads.old }
    requires before { before < length shapes.now }
    requires within { n < length shapes.now }
    ensures heads { AreHeads shapes.now heads.new }
    ensures least { GoesOn shapes.now heads.old before n → IsLeastHead shapes.now heads.new n }
    ensures others { (m : ℕ) → m ≢ n → IsLeastHead shapes.now heads.old m → IsLeastHead shapes.now heads.new m }
{
    let head = heads[before as usize];
    if head < n && is_equal(&shapes[head as usize], &shapes[n as usize]) {
        heads[n as usize] = head;
    }
}

/// For each shape the least number of an equal one. That the number is one of an equal shape and not above is what
/// `link` tests; that it is the least is what the order is for.
fn heads(alloc: Global, shapes: &[Shape]) -> Result<Vec<u32>, Memory>
    requires { length shapes.now < 2 ^ 32 }
    ensures heads { IfOk result (λ heads. AreHeads shapes.now heads.items) }
    ensures least { IfOk result (λ heads. AreLeast shapes.now heads.items) }
{
    let order = in_order(alloc, shapes)?;
    let mut heads = own_heads(alloc, shapes)?;
    for place in 1..order.len() {
        link(
            shapes,
            &mut heads,
            order[place - 1].number,
            order[place].number,
        );
    }
    Ok(heads)
}

/// The numbers that are their own heads stand for themselves, and each other one goes where its head went.
fn stand_ins(alloc: Global, shapes: &[Shape], heads: &[u32]) -> Result<Distinct, Memory>
    requires few { length shapes.now < 2 ^ 32 }
    requires heads { AreHeads shapes.now heads.now }
    ensures places { IfOk result (λ d. ArePlaces shapes.now d.numbers.items d.places.items) }
    ensures own { IfOk result (λ d. AreOwn heads.now d.numbers.items) }
{
    let mut numbers = Vec::with_capacity(alloc, shapes.len())?;
    let mut places = Vec::with_capacity(alloc, shapes.len())?;
    for n in 0..shapes.len() {
        let head = heads[n] as usize;
        if head < n {
            let place: u32 = places[head];
            places.push(place)?;
        } else {
            places.push(numbers.len() as u32)?;
            numbers.push(n as u32)?;
        }
    }
    Ok(Distinct { numbers, places })
}

/// The shapes of a list, each kind of equal ones once. It is refused for want of memory alone.
pub fn distinct_of(alloc: Global, shapes: &[Shape]) -> Result<Distinct, Memory>
    requires { length shapes.now < 2 ^ 32 }
    ensures distinct { IfOk result (λ d. IsDistinct shapes.now d.numbers.items
        (kinds_at shapes.now d.numbers.items)) }
    ensures places { IfOk result (λ d. ArePlaces shapes.now d.numbers.items d.places.items) }
{
    let heads = heads(alloc, shapes)?;
    let distinct = stand_ins(alloc, shapes, heads.as_slice())?;
    Ok(distinct)
}
