// The numbers of a design's outputs.
ghost use Rattle.std.specs.Prelude.{◌≡◌, ◌<◌, ◌^◌, ℕ, List as Items, map, length, IfOk, OnOk};
ghost use Rattle.blif_flat.specs.Designs.{names_in};
ghost use Rattle.blif_flat.specs.Expansion.{wire, number};
ghost use Rattle.blif_flat.specs.declared.expansion.wires.Place.{Place as ThePlace};
ghost use Rattle.blif_flat.specs.Code.Numbering.{IsNumbering, number_in, number_or};
ghost use Rattle.blif_flat.specs.Code.Wired.{wires_of, is_own};

use crate::expansion::wires::Place;
use crate::models::numbers::{Numbers, add, narrow, number_of};
use aq_base::{List, Memory};
use blif_read::Named;
use indexmap::IndexMap;
use name_hash::NameHash;
use std::alloc::Global;

/// Gives the name of a wire of the first model itself its number, unless it has one.
fn add_own<'a>(numbers: &mut Numbers<'a>, number: u32, place: &Place<'a>) -> Result<(), Memory>
    ensures { OnOk result ((t : Items ℕ) → number_in numbers.new.entries t
        ≡ number_or (number_in numbers.old.entries t) (is_own t place.now) number) }
{
    if place.call == 0 {
        add(numbers, place.name, number)?;
    }
    Ok(())
}

/// The numbers of the wires of the first model itself by their names.
fn own_numbers<'a>(
    alloc: Global,
    hash: NameHash,
    places: &[Place<'a>],
) -> Result<Numbers<'a>, Memory>
    requires { length places.now < 2 ^ 32 }
    ensures { IfOk result (λ numbers. IsNumbering is_own numbers.entries places.now) }
{
    let mut numbers = IndexMap::with_hasher(alloc, hash);
    for (number, place) in places.iter().enumerate() {
        add_own(&mut numbers, narrow(number), place)?;
    }
    Ok(numbers)
}

/// The number of a wire of the first model itself; that behind the last where there is none.
fn own_number(numbers: &Numbers<'_>, count: u32, name: &[u8]) -> u32
    ensures { (places : Items ThePlace) → IsNumbering is_own numbers.now.entries places → count ≡ length places
        → result ≡ number (wires_of places) (wire 0 name.now) }
{
    match number_of(numbers, name) {
        Some(number) => number,
        None => count,
    }
}

/// The numbers of outputs of the first model, whose wires stand among these.
pub fn output_numbers(
    alloc: Global,
    hash: NameHash,
    places: &[Place<'_>],
    outputs: &[Named],
) -> Result<List<u32>, Memory>
    requires { length places.now < 2 ^ 32 }
    ensures { IfOk result (λ numbers. numbers
        ≡ map (λ o. number (wires_of places.now) (wire 0 o)) (names_in outputs.now)) }
{
    let numbers = own_numbers(alloc, hash, places)?;
    let count = narrow(places.len());
    let mut list = List::new(alloc);
    for output in outputs {
        list.push(own_number(&numbers, count, output.name.as_slice()))?;
    }
    Ok(list)
}
