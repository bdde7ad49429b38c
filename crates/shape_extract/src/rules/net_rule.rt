// The rule of nets: each net leads from one output pin to one input pin.
ghost use Rattle.std.specs.Prelude.{◌≡◌, ◌^◌, ◌<◌, ℕ, IfOk, length, slice_index};
ghost use Rattle.layout_rules.specs.Nets.{AreNets};
ghost use Rattle.layout_rules.specs.Reports.{Alone, Otherwise};
ghost use Rattle.layout_rules.specs.CircuitRules.{HasRival, IsUndriven, IsDriven, NetsBroken};
ghost use Rattle.shape_extract.specs.Searches.{Finds, FindsAt};
ghost use Rattle.shape_extract.specs.Chains.{AreChains};
ghost use Rattle.shape_extract.specs.Code.Marking.{AreMarks};
ghost use Rattle.shape_extract.specs.Code.NetPins.{FindsOther, FindsFirst, lone_number};

use crate::connectivity::net_chains::{chains, list_in_net};
use crate::layers::is_pin;
use crate::search::{Part, Report, first_of};
use crate::tables::mark_table::Mark;
use aq_base::Memory;
use geom::{Flat, Shape};
use layout_rules::layers::{INPUT_PIN, OUTPUT_PIN};
use std::alloc::Global;

/// The first of these numbers that is another than a.
fn first_other(numbers: &[u32], a: u32) -> Option<u32>
    ensures { FindsOther numbers.now a result }
{
    for number in numbers {
        if *number != a {
            return Some(*number);
        }
    }
    None
}

/// The first of these numbers.
pub fn first_number(numbers: &[u32]) -> Option<u32>
    ensures { FindsFirst numbers.now result }
{
    if numbers.is_empty() {
        None
    } else {
        Some(numbers[0])
    }
}

/// The least other pin of the layer of a pin in its net.
fn rival(
    shapes: &[Shape],
    nets: &[u32],
    next: &[u32],
    a: u32,
    found: &mut Vec<u32>,
) -> Result<Option<u32>, Memory>
    requires nets { AreNets shapes.now nets.now }
    requires chains { AreChains nets.now next.now }
    requires few { length shapes.now < 2 ^ 32 }
    requires within { a < length shapes.now }
    ensures { IfOk result (FindsAt (HasRival shapes.now) a) }
{
    let shape = &shapes[a as usize];
    if !is_pin(shape) {
        return Ok(None);
    }
    list_in_net(shapes, nets, next, shape.layer, a, found)?;
    let other = first_other(found.as_slice(), a);
    Ok(other)
}

/// What is wrong with the source of an input pin: none without a label, or one with a label.
fn source_fault(
    flat: &Flat,
    marking: &[Mark],
    nets: &[u32],
    next: &[u32],
    a: u32,
    found: &mut Vec<u32>,
) -> Result<Option<u32>, Memory>
    requires nets { AreNets flat.now.shapes nets.now }
    requires chains { AreChains nets.now next.now }
    requires few { length flat.now.shapes < 2 ^ 32 }
    requires marking { AreMarks flat.now.shapes flat.now.labels marking.now }
    requires within { a < length flat.now.shapes }
    ensures { IfOk result (FindsAt (Otherwise (Alone (IsUndriven flat.now)) (IsDriven flat.now)) a) }
{
    let shapes = flat.shapes.as_slice();
    let shape = &shapes[a as usize];
    if shape.layer != INPUT_PIN {
        return Ok(None);
    }
    list_in_net(shapes, nets, next, OUTPUT_PIN, a, found)?;
    let source = first_number(found.as_slice());
    if marking[a as usize].has_label() {
        return Ok(source);
    }
    let fault = lone(source, a);
    Ok(fault)
}

/// The number, where there is no other.
fn lone(other: Option<u32>, a: u32) -> Option<u32>
    ensures { result ≡ lone_number other a }
{
    match other {
        Some(_) => None,
        None => Some(a),
    }
}

/// What the rule of nets reports of each pin.
#[derive(Drop)]
struct Pins<'a> {
    flat: &'a Flat,
    marking: &'a [Mark],
    nets: &'a [u32],
    next: &'a [u32],
}

impl<'a> Part for Pins<'a> {
    ghost valid = { λ s. (length s.flat.now.shapes < 2 ^ 32) × AreNets s.flat.now.shapes s.nets.now
        × AreChains s.nets.now s.next.now × AreMarks s.flat.now.shapes s.flat.now.labels s.marking.now };

    ghost count = { λ s. length s.flat.now.shapes };

    ghost reported = { λ s. NetsBroken s.flat.now };

    fn count(&self) -> u32 {
        self.flat.shapes.len() as u32
    }

    fn second(&self, a: u32, found: &mut Vec<u32>) -> Result<Option<u32>, Memory> {
        let other = rival(self.flat.shapes.as_slice(), self.nets, self.next, a, found)?;
        if let Some(b) = other {
            return Ok(Some(b));
        }
        source_fault(self.flat, self.marking, self.nets, self.next, a, found)
    }
}

/// The first report of the rule of nets.
pub fn find_nets(
    alloc: Global,
    flat: &Flat,
    marking: &[Mark],
    nets: &[u32],
) -> Result<Option<Report>, Memory>
    requires marking { AreMarks flat.now.shapes flat.now.labels marking.now }
    requires nets { AreNets flat.now.shapes nets.now }
    requires few { length flat.now.shapes < 2 ^ 32 }
    ensures { IfOk result (Finds (NetsBroken flat.now)) }
{
    let next = chains(alloc, nets)?;
    first_of(
        alloc,
        &Pins {
            flat,
            marking,
            nets,
            next: &next,
        },
    )
}
