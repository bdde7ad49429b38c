// The names of wires: those that the netlist keeps, and those that a fault tells.
ghost use Rattle.std.specs.Prelude.{◌≡◌, ◌<◌, ◌^◌, ◌++◌, [], ◌∷◌, length, map, IfOk, OnOk, slice_index_or};
ghost use Rattle.std.specs.Fmt.{decimal};
ghost use Rattle.blif_flat.specs.Expansion.{wire, kept_name, kept_names, told_name};
ghost use Rattle.blif_flat.specs.Code.Wired.{wire_of, wires_of};

use crate::expansion::wires::Place;
use crate::models::numbers::narrow;
use aq_base::{List, Memory};
use short_bytes::ShortBytes;
use std::alloc::Global;

/// Adds the sign that names inside calls begin with, and a number.
fn add_number(alloc: Global, number: u32, text: &mut Vec<u8>) -> Result<(), Memory>
    ensures { OnOk result (text.new.items ≡ text.old.items ++ 35 ∷ decimal number) }
{
    text.push(b'#')?;
    text.extend_from_slice(format!(in alloc; "{number}")?.as_bytes())?;
    Ok(())
}

/// The name that the netlist keeps of the wire of a number.
fn kept_name(alloc: Global, number: u32, place: &Place<'_>) -> Result<ShortBytes, Memory>
    ensures { IfOk result (λ name. name ≡ kept_name number (wire_of place.now)) }
{
    if place.call == 0 {
        return ShortBytes::copy(alloc, place.name);
    }
    let mut text = Vec::new(alloc);
    add_number(alloc, number, &mut text)?;
    ShortBytes::from_vec(alloc, text)
}

/// The name that a fault tells of a wire.
fn told_name(alloc: Global, place: &Place<'_>) -> Result<ShortBytes, Memory>
    ensures { IfOk result (λ name. name ≡ told_name (wire_of place.now)) }
{
    if place.call == 0 {
        return ShortBytes::copy(alloc, place.name);
    }
    let mut text = Vec::new(alloc);
    add_number(alloc, place.call, &mut text)?;
    text.push(b'.')?;
    text.extend_from_slice(place.name)?;
    ShortBytes::from_vec(alloc, text)
}

/// The names that the netlist keeps of these wires, which are all.
pub fn kept_names(alloc: Global, places: &[Place<'_>]) -> Result<List<ShortBytes>, Memory>
    requires { length places.now < 2 ^ 32 }
    ensures { IfOk result (λ names. names ≡ kept_names 0 (wires_of places.now)) }
{
    let mut names = List::new(alloc);
    for (number, place) in places.iter().enumerate() {
        let name = kept_name(alloc, narrow(number), place)?;
        names.push(name)?;
    }
    Ok(names)
}

/// The name that a fault tells of the wire of a number; no name past the last.
fn told_at(alloc: Global, places: &[Place<'_>], signal: u32) -> Result<ShortBytes, Memory>
    ensures { IfOk result (λ name. name ≡ told_name (slice_index_or (wires_of places.now) signal (wire 0 []))) }
{
    if (signal as usize) < places.len() {
        told_name(alloc, &places[signal as usize])
    } else {
        Ok(ShortBytes::new())
    }
}

/// The names that a fault tells of some of these wires.
pub fn told_names(
    alloc: Global,
    places: &[Place<'_>],
    signals: &[u32],
) -> Result<List<ShortBytes>, Memory>
    ensures { IfOk result (λ names. names
        ≡ map (λ s. told_name (slice_index_or (wires_of places.now) s (wire 0 []))) signals.now) }
{
    let mut names = List::new(alloc);
    for signal in signals {
        let name = told_at(alloc, places, *signal)?;
        names.push(name)?;
    }
    Ok(names)
}
