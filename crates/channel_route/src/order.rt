// Wires by rising lower end column.
ghost use Rattle.std.specs.Prelude.{◌≡◌, ◌^◌, ◌<◌, length, IfOk};
ghost use Rattle.channel_route.specs.Crossing.{low, high};
ghost use Rattle.channel_route.specs.Code.Numbered.{ordered};

use aq_base::Memory;
use rowed::Wire;
use std::alloc::Global;

/// A wire, and its number in the channel.
#[derive(Clone, Copy, PartialEq, Eq)]
pub(crate) struct Numbered {
    pub wire: Wire,
    pub number: u32,
}

/// The lower of a wire's two end columns.
pub(crate) fn lower_end(wire: &Wire) -> u32
    ensures { result ≡ low wire.now }
{
    wire.from_column.min(wire.to_column)
}

/// The higher of a wire's two end columns.
pub(crate) fn higher_end(wire: &Wire) -> u32
    ensures { result ≡ high wire.now }
{
    wire.from_column.max(wire.to_column)
}

/// The wires by rising lower end column, each with its number.
pub(crate) fn by_lower_end(alloc: Global, wires: &[Wire]) -> Result<Vec<Numbered>, Memory>
    requires { length wires.now < 2 ^ 32 }
    ensures { IfOk result (λ sorted. sorted.items ≡ ordered wires.now) }
{
    let mut sorted = Vec::with_capacity(alloc, wires.len())?;
    for (number, wire) in wires.iter().enumerate() {
        sorted.push(Numbered {
            wire: *wire,
            number: number as u32,
        })?;
    }
    sorted.sort_by_key(|one| lower_end(&one.wire))?;
    Ok(sorted)
}
