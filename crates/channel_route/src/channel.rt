// The tracks of a channel.
ghost use Rattle.std.specs.Prelude.{◌≡◌, ◌^◌, ◌<◌, ◌≤◌, length, IfOk, IfErr, OnOk};
ghost use Rattle.channel_route.specs.Crossing.{EndsApart, crosses, numbers_crossing, HasRoom};
ghost use Rattle.channel_route.specs.Tracks.{AreTracks};
ghost use Rattle.channel_route.specs.Routes.{IsPlan, Refuses};

use crate::assign::{Assigned, assign};
use crate::order::{by_lower_end, higher_end, lower_end};
use aq_base::{List, Memory};
use rowed::Wire;
use std::alloc::Global;

/// The tracks of a channel's wires.
#[derive(Clone, Drop, PartialEq)]
pub struct Tracks {
    /// The track of each wire, in the order of the wires, counted from 0 at the lower row.
    pub track: List<u32>,
    /// How many tracks are in use.
    pub used: u32,
    /// A column that as many wires cross as tracks are in use, so that no fewer would do; 0 without wires.
    pub column: u32,
}

/// Why a channel's wires get no tracks.
#[derive(Clone, Debug, Drop, PartialEq)]
pub enum RouteRefusal {
    /// More wires cross `column` than there are tracks, and no lower column has as many: their numbers, rising.
    Full { column: u32, wires: List<u32> },
    /// Want of memory.
    Memory,
}

impl From<Memory> for RouteRefusal {
    ghost use Rattle.std.specs.Prelude.{◌≡◌};
    ghost use Rattle.channel_route.specs.declared.channel.RouteRefusal.TheVariants.{Memory as NoMemory};

    ghost from_gives = { λ _ refusal. refusal ≡ NoMemory };

    fn from(_: Memory) -> Self {
        RouteRefusal::Memory
    }
}

/// Whether a wire crosses a column.
fn reaches(wire: &Wire, column: u32) -> bool
    ensures { result ≡ crosses column wire.now }
{
    lower_end(wire) <= column && column <= higher_end(wire)
}

/// The numbers of the wires that cross a column, rising.
fn numbers_over(alloc: Global, wires: &[Wire], column: u32) -> Result<Vec<u32>, Memory>
    requires { length wires.now < 2 ^ 32 }
    ensures { IfOk result (λ numbers. numbers.items ≡ numbers_crossing column 0 wires.now) }
{
    let mut numbers = Vec::new(alloc);
    for (number, wire) in wires.iter().enumerate() {
        if reaches(wire, column) {
            numbers.push(number as u32)?;
        }
    }
    Ok(numbers)
}

/// The tracks of a channel that has room for `capacity` of them. The wires are taken by rising lower end column, and
/// each gets the lowest track whose last wire ended in a lower column. Their end columns are all distinct.
pub fn route(alloc: Global, wires: &[Wire], capacity: u32) -> Result<Tracks, RouteRefusal>
    requires few { length wires.now < 2 ^ 32 }
    requires apart { EndsApart wires.now }
    ensures plan { IfOk result (λ tracks. IsPlan wires.now tracks) }
    ensures tracks { IfOk result (λ tracks. AreTracks wires.now tracks.track tracks.used tracks.column) }
    ensures within { IfOk result (λ tracks. tracks.used ≤ capacity) }

    // Ok only where no column is crossed by more wires than there is room for, and Full only where one is.
    ensures room { OnOk result (HasRoom wires.now capacity) }
    ensures refusal { IfErr result (λ refusal. Refuses wires.now capacity refusal) }
{
    let ones = by_lower_end(alloc, wires)?;
    match assign(alloc, &ones, capacity)? {
        Assigned::Done {
            track,
            used,
            column,
        } => Ok(Tracks {
            track: List::from_vec(track),
            used,
            column,
        }),
        Assigned::Full { column } => {
            let wires = List::from_vec(numbers_over(alloc, wires, column)?);
            Err(RouteRefusal::Full { column, wires })
        }
    }
}
