// The ports of calls, and the places of signals in a block.
ghost use Rattle.std.specs.Prelude.{◌≡◌, ℕ, ◌+◌, ◌<◌, ◌^◌, ◌∷◌, ◌++◌, [], List as Items, map, length, replicate};
ghost use Rattle.std.specs.Prelude.{Option as Maybe, Some, None, IfOk, IfSome, MatchOption};
ghost use Rattle.std.specs.List.{position_or_len};
ghost use Rattle.blif_flat.specs.Designs.{formals};
ghost use Rattle.blif_flat.specs.Code.Blocks.{is_that};
ghost use Rattle.blif_flat.specs.Code.Joins.{ports_for, noted, actual_in, actuals_in, ArePlaces};

use crate::models::names::Names;
use crate::models::numbers::{Numbers, add, number_of};
use aq_base::Memory;
use blif_read::Call;
use std::alloc::Global;

/// Notes a port at a place, where none is yet.
fn note(ports: &mut Vec<Option<usize>>, at: Option<usize>, port: usize)
    requires { IfSome at (λ place. place < length ports.old.items) }
    ensures { ports.new.items ≡ noted ports.old.items at port }
{
    if let Some(at) = at {
        if ports[at].is_none() {
            ports[at] = Some(port);
        }
    }
}

/// So many places without a port.
fn no_ports(alloc: Global, count: usize) -> Result<Vec<Option<usize>>, Memory>
    ensures { IfOk result (λ ports. ports.items ≡ replicate count None) }
{
    let mut ports = Vec::with_capacity(alloc, count)?;
    for _place in 0..count {
        ports.push(None)?;
    }
    Ok(ports)
}

/// For each of the names the port of a call that has it for its formal, if one has.
pub fn ports_for(
    alloc: Global,
    names: &Names<'_>,
    call: &Call,
) -> Result<Vec<Option<usize>>, Memory>
    ensures { IfOk result (λ ports. ports.items ≡ ports_for names.now (formals call.now)) }
{
    let mut ports = no_ports(alloc, names.len())?;
    for (number, port) in call.ports.as_slice().iter().enumerate() {
        let at = names.number(port.formal.as_slice());
        note(&mut ports, at, number);
    }
    Ok(ports)
}

/// Gives a name the next place, unless it has one, and answers how many there are then.
pub fn add_name<'a>(places: &mut Numbers<'a>, count: u32, name: &'a [u8]) -> Result<u32, Memory>
    requires { count + 1 < 2 ^ 32 }
    ensures next { IfOk result (λ next. next ≡ count + 1) }
    ensures places { IfOk result (λ next. (names : Items (Maybe (Items ℕ))) → ArePlaces places.old.entries count names
        → ArePlaces places.new.entries next (names ++ Some name.now ∷ [])) }
{
    add(places, name, count)?;
    let next = count + 1;
    Ok(next)
}

/// Passes over so many places.
pub fn pass(places: &Numbers<'_>, count: u32, by: u32) -> u32
    requires { count + by < 2 ^ 32 }
    ensures next { result ≡ count + by }
    ensures places { (names : Items (Maybe (Items ℕ))) → ArePlaces places.now.entries count names
        → ArePlaces places.now.entries result (names ++ replicate by None) }
{
    count + by
}

/// The actual of a port.
pub fn actual_in<'a>(call: &'a Call, port: Option<usize>) -> Option<&'a [u8]>
    ensures { MatchOption result (actual_in call.now port ≡ []) (λ actual. actual_in call.now port
        ≡ actual.now ∷ []) }
{
    match port {
        Some(port) => match call.ports.as_slice().get(port) {
            Some(port) => Some(port.actual.as_slice()),
            None => None,
        },
        None => None,
    }
}

fn add_actual<'a>(
    places: &mut Numbers<'a>,
    count: u32,
    call: &'a Call,
    port: Option<usize>,
) -> Result<u32, Memory>
    requires { count + length (actual_in call.now port) < 2 ^ 32 }
    ensures next { IfOk result (λ next. next ≡ count + length (actual_in call.now port)) }
    ensures places { IfOk result (λ next. (names : Items (Maybe (Items ℕ))) → ArePlaces places.old.entries count names
        → ArePlaces places.new.entries next (names ++ map (λ n. Some n) (actual_in call.now port))) }
{
    match actual_in(call, port) {
        Some(actual) => {
            let next = add_name(places, count, actual)?;
            Ok(next)
        }
        None => Ok(count),
    }
}

/// Gives the next places to the actuals of some ports of a call.
pub fn add_actuals<'a>(
    places: &mut Numbers<'a>,
    count: u32,
    call: &'a Call,
    ports: &[Option<usize>],
) -> Result<u32, Memory>
    requires { count + length (actuals_in call.now ports.now) < 2 ^ 32 }
    ensures next { IfOk result (λ next. next ≡ count + length (actuals_in call.now ports.now)) }
    ensures places { IfOk result (λ next. (names : Items (Maybe (Items ℕ))) → ArePlaces places.old.entries count names
        → ArePlaces places.new.entries next (names ++ map (λ n. Some n) (actuals_in call.now ports.now))) }
{
    let mut next = count;
    for port in ports {
        next = add_actual(places, next, call, *port)?;
    }
    Ok(next)
}

/// The place of a name; behind the last where it has none.
pub fn place_of(places: &Numbers<'_>, count: u32, name: &[u8]) -> u32
    ensures { (names : Items (Maybe (Items ℕ))) → ArePlaces places.now.entries count names → result
        ≡ position_or_len (is_that name.now) names }
{
    match number_of(places, name) {
        Some(place) => place,
        None => count,
    }
}
