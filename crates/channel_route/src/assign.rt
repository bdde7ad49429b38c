// Tracks for wires that come by rising lower end column.
ghost use Rattle.std.specs.Prelude.{◌≡◌, ℕ, ◌^◌, ◌<◌, length, IfOk};
ghost use Rattle.std.specs.List.{All};
ghost use Rattle.sorting.specs.Sorting.{EachPair, Rising};
ghost use Rattle.channel_route.specs.Code.Numbered.{low_of};
ghost use Rattle.channel_route.specs.Code.Assigned.{IsAssigned};

use crate::ends::Ends;
use crate::order::{Numbered, higher_end, lower_end};
use aq_base::Memory;
use std::alloc::Global;

/// What became of a channel's wires.
#[derive(Drop)]
pub(crate) enum Assigned {
    /// Each has a track. `column` is where the last track was added, 0 without wires.
    Done {
        track: Vec<u32>,
        used: u32,
        column: u32,
    },
    /// A wire that begins at this column found no track free and none left.
    Full {
        column: u32,
    },
}

/// Gives each wire the lowest track that is free where it begins.
pub(crate) fn assign(alloc: Global, ones: &[Numbered], capacity: u32) -> Result<Assigned, Memory>
    requires few { length ones.now < 2 ^ 32 }
    requires rising { Rising low_of 0 ones.now }
    requires numbers { All (λ one. one.number < length ones.now) ones.now }
    requires distinct { EachPair (λ v w. v.number ≡ w.number → ⊥) ones.now }
    ensures { IfOk result (λ a. IsAssigned ones.now capacity a) }
{
    let mut track = vec![in alloc; 0u32; ones.len()]?;
    let mut ends = Ends::new(alloc);
    let mut column = 0u32;
    for one in ones {
        let low = lower_end(&one.wire);
        let used = ends.len();
        let taken = ends.take(alloc, low, higher_end(&one.wire))?;
        if taken == used {
            if used == capacity as usize {
                return Ok(Assigned::Full { column: low });
            }
            column = low;
        }
        track[one.number as usize] = taken as u32;
    }
    Ok(Assigned::Done {
        track,
        used: ends.len() as u32,
        column,
    })
}
