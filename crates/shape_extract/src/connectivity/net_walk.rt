// Nets by connected components: a walk from each shape that is not reached yet.
ghost use Rattle.std.specs.Prelude.{◌≡◌, ℕ, ◌^◌, ◌<◌, ◌≤◌, length, IfOk, nat_lt, slice_index, slice_set};
ghost use Rattle.geom.specs.FlatForm.{flat_count};
ghost use Rattle.layout_rules.specs.Nets.{AreNets};
ghost use Rattle.shape_extract.specs.Code.Walk.{AreTouching, IsWalk, IsSpreadTo, IsLowest, IsReached, IsTold, AreTold};
ghost use Rattle.shape_extract.specs.Code.Walk.{net_at, IsUnbegun, IsDoneTo, IsGrown};
ghost use Rattle.shape_extract.specs.Distinct.{ArePlaces, IsDistinct, kinds_at};
ghost use Rattle.shape_extract.specs.Filed.{IsFiled};
ghost use Rattle.shape_extract.specs.Planes.{ArePlanes};

use crate::connectivity::neighbours::list_touching;
use crate::distinct_shapes::Distinct;
use crate::filed_shapes::{FiledShapes, file_kinds};
use crate::kinds::Kinds;
use crate::planes::Planes;
use aq_base::{List, Memory};
use geom::{Flat, Shape};
use std::alloc::Global;

/// Labels those of these shapes that have no label yet as shape `from` is labelled, and adds them to the order.
fn spread(
    kinds: &Kinds,
    numbers: &[u32],
    labels: &mut [u32],
    order: &mut Vec<u32>,
    from: u32,
) -> Result<(), Memory>
    requires walk { IsWalk kinds.now labels.old order.old.items }
    requires touching { AreTouching kinds.now from numbers.now }
    requires at { from < length kinds.now }
    requires marked { slice_index labels.old from < length kinds.now }
    requires lowest { IsLowest kinds.now labels.old (slice_index labels.old from) }
    ensures { IfOk result (λ _. IsSpreadTo (length numbers.now) kinds.now numbers.now labels.old order.old.items
        labels.new order.new.items from) }
{
    let count = kinds.count();
    let mark = labels[from as usize];
    for number in numbers {
        if labels[*number as usize] as usize >= count {
            labels[*number as usize] = mark;
            order.push(*number)?;
        }
    }
    Ok(())
}

/// Notes whether there are shapes that touch the one of this number.
fn note_touched(numbers: &[u32], touched: &mut [bool], from: u32)
    requires { from < length touched.old }
    ensures { touched.new ≡ slice_set touched.old from (nat_lt 0 (length numbers.now)) }
{
    touched[from as usize] = 0 < numbers.len();
}

/// A walk along nets over shapes of which each lies once.
#[derive(Drop)]
struct Walk {
    /// For each shape its label, or the number of shapes where it has none yet.
    labels: Vec<u32>,
    /// The labelled shapes in the order in which they were labelled.
    order: Vec<u32>,
    /// For each shape that was spread from whether some shape touches it.
    touched: Vec<bool>,
    /// The shapes that touch the one that is spread from.
    found: Vec<u32>,
    /// A list for use within.
    more: Vec<u32>,
}

/// A walk over so many shapes that has not begun.
fn unbegun(alloc: Global, count: u32) -> Result<Walk, Memory>
    ensures { IfOk result (IsUnbegun count) }
{
    Ok(Walk {
        labels: vec![in alloc; count; count as usize]?,
        order: Vec::with_capacity(alloc, count as usize)?,
        touched: vec![in alloc; false; count as usize]?,
        found: Vec::new(alloc),
        more: Vec::new(alloc),
    })
}

/// Spreads from the shape of this number, and notes whether some shape touches it.
fn reach(kinds: &Kinds, planes: &Planes, walk: &mut Walk, from: u32) -> Result<(), Memory>
    requires planes { ArePlanes kinds.now planes.now }
    requires few { length kinds.now < 2 ^ 32 }
    requires walk { IsWalk kinds.now walk.old.labels.items walk.old.order.items }
    requires touched { length walk.old.touched.items ≡ length kinds.now }
    requires at { from < length kinds.now }
    requires marked { slice_index walk.old.labels.items from < length kinds.now }
    requires lowest { IsLowest kinds.now walk.old.labels.items (slice_index walk.old.labels.items from) }
    ensures reached { IfOk result (λ _. IsReached kinds.now walk.old.labels.items walk.old.order.items
        walk.new.labels.items walk.new.order.items from) }
    ensures told { IfOk result (λ _. IsTold kinds.now from walk.old.touched.items walk.new.touched.items) }
{
    list_touching(kinds, planes, from, &mut walk.found, &mut walk.more)?;
    let numbers = walk.found.as_slice();
    note_touched(numbers, &mut walk.touched, from);
    spread(kinds, numbers, &mut walk.labels, &mut walk.order, from)?;
    Ok(())
}

/// Spreads from each shape of the order from this place on, until all have been spread from.
fn grow(
    kinds: &Kinds,
    planes: &Planes,
    walk: &mut Walk,
    start: usize,
    mark: u32,
) -> Result<(), Memory>
    requires planes { ArePlanes kinds.now planes.now }
    requires few { length kinds.now < 2 ^ 32 }
    requires begun { IsDoneTo start mark kinds.now walk.old }
    requires mark { mark < length kinds.now }
    requires lowest { IsLowest kinds.now walk.old.labels.items mark }
    ensures { IfOk result (λ _. IsGrown kinds.now walk.old walk.new) }
{
    let mut done = start;
    while done < walk.order.len() {
        let from = walk.order[done];
        reach(kinds, planes, walk, from)?;
        done += 1;
    }
    Ok(())
}

/// Begins a net at each shape that is not reached.
fn walk_all(kinds: &Kinds, planes: &Planes, walk: &mut Walk) -> Result<(), Memory>
    requires planes { ArePlanes kinds.now planes.now }
    requires few { length kinds.now < 2 ^ 32 }
    requires unbegun { IsUnbegun (length kinds.now) walk.old }
    ensures nets { IfOk result (λ _. AreNets kinds.now walk.new.labels.items) }
    ensures told { IfOk result (λ _. AreTold kinds.now walk.new.touched.items) }
{
    let count = kinds.count();
    for i in 0..count {
        if walk.labels[i] as usize >= count {
            let start = walk.order.len();
            let mark = i as u32;
            walk.labels[i] = mark;
            walk.order.push(mark)?;
            grow(kinds, planes, walk, start, mark)?;
        }
    }
    Ok(())
}

/// What a walk over the kinds of shapes finds: the net of each, and whether some shape touches it. Equal vias don't
/// touch each other, so those that touch nothing else are each a net of their own.
#[derive(Drop)]
struct Walked {
    labels: Vec<u32>,
    touched: Vec<bool>,
}

fn walk_kinds(alloc: Global, kinds: &Kinds, planes: &Planes) -> Result<Walked, Memory>
    requires few { length kinds.now < 2 ^ 32 }
    requires planes { ArePlanes kinds.now planes.now }
    ensures nets { IfOk result (λ w. AreNets kinds.now w.labels.items) }
    ensures told { IfOk result (λ w. AreTold kinds.now w.touched.items) }
{
    let mut walk = unbegun(alloc, kinds.count() as u32)?;
    walk_all(kinds, planes, &mut walk)?;
    let Walk {
        labels,
        touched,
        ..
    } = walk;
    Ok(Walked { labels, touched })
}

/// The net of the shape of this number.
fn net_of(kinds: &Distinct, walked: &Walked, n: u32) -> u32
    requires within { n < length kinds.now.places.items }
    requires place { slice_index kinds.now.places.items n < length walked.now.labels.items }
    requires long { length walked.now.touched.items ≡ length walked.now.labels.items }
    requires label { slice_index walked.now.labels.items (slice_index kinds.now.places.items n)
        < length kinds.now.numbers.items }
    ensures { result ≡ net_at kinds.now.numbers.items kinds.now.places.items walked.now.labels.items
        walked.now.touched.items n }
{
    let place = kinds.places[n as usize] as usize;
    if walked.touched[place] {
        kinds.numbers[walked.labels[place] as usize]
    } else {
        n
    }
}

/// The nets of all shapes by those of their kinds.
fn own_nets(
    alloc: Global,
    shapes: &[Shape],
    kinds: &Distinct,
    walked: &Walked,
) -> Result<Vec<u32>, Memory>
    requires few { length shapes.now < 2 ^ 32 }
    requires distinct { IsDistinct shapes.now kinds.now.numbers.items
        (kinds_at shapes.now kinds.now.numbers.items) }
    requires places { ArePlaces shapes.now kinds.now.numbers.items kinds.now.places.items }
    requires nets { AreNets (kinds_at shapes.now kinds.now.numbers.items) walked.now.labels.items }
    requires told { AreTold (kinds_at shapes.now kinds.now.numbers.items) walked.now.touched.items }
    ensures { IfOk result (λ nets. AreNets shapes.now nets.items) }
{
    let mut nets = Vec::with_capacity(alloc, shapes.len())?;
    for n in 0..shapes.len() as u32 {
        nets.push(net_of(kinds, walked, n))?;
    }
    Ok(nets)
}

/// The nets, by queries of the kinds. It is refused for want of memory alone.
pub fn nets_by(alloc: Global, shapes: &[Shape], filed: &FiledShapes) -> Result<List<u32>, Memory>
    requires few { length shapes.now < 2 ^ 32 }
    requires filed { IsFiled shapes.now filed.now }
    ensures { IfOk result (λ nets. AreNets shapes.now nets) }
{
    let walked = walk_kinds(alloc, &filed.kinds.among(shapes), &filed.planes)?;
    let nets = own_nets(alloc, shapes, &filed.kinds, &walked)?;
    Ok(List::from_vec(nets))
}

/// For each shape the least number of a shape that is joined to it, itself counted. It is refused for want of memory
/// alone.
pub fn nets(alloc: Global, flat: &Flat) -> Result<List<u32>, Memory>
    requires { flat_count flat.now < 2 ^ 32 }
    ensures { IfOk result (λ nets. AreNets flat.now.shapes nets) }
{
    let filed = file_kinds(alloc, flat.shapes.as_slice())?;
    nets_by(alloc, flat.shapes.as_slice(), &filed)
}
