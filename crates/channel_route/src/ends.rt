// The tracks of a channel while its wires are placed.
ghost use Rattle.std.specs.Prelude.{◌≡◌, length, IfOk, OnOk, []};
ghost use Rattle.channel_route.specs.Tracks.{lowest_free, ends_after};
ghost use Rattle.channel_route.specs.Code.Levels.{AreLevels, lowest_level};

use crate::levels::{entry_count, first_below, put_entry};
use aq_base::{List, Memory};
use std::alloc::Global;

/// For each track the column where its last wire ends, in the lowest of levels of minima.
#[derive(Drop)]
pub(crate) struct Ends {
    levels: Vec<List<u32>>,
}

impl Ends {
    /// No track so far.
    pub fn new(alloc: Global) -> Self
        ensures { result.levels.items ≡ [] }
    {
        Ends {
            levels: Vec::new(alloc),
        }
    }

    /// How many tracks there are.
    pub fn len(&self) -> usize
        ensures { result ≡ length (lowest_level self.now.levels.items) }
    {
        entry_count(&self.levels)
    }

    /// Gives the lowest free track, which may be a new one, to a wire from column `low` to column `high`. Without
    /// memory nothing is said of the levels.
    pub fn take(&mut self, alloc: Global, low: u32, high: u32) -> Result<usize, Memory>
        requires { AreLevels self.old.levels.items }
        ensures levels { OnOk result (AreLevels self.new.levels.items) }
        ensures track { IfOk result (λ track. track ≡ lowest_free low (lowest_level self.old.levels.items)) }
        ensures ends { OnOk result (lowest_level self.new.levels.items
            ≡ ends_after low high (lowest_level self.old.levels.items)) }
    {
        let track = first_below(&self.levels, low);
        put_entry(alloc, &mut self.levels, track, high)?;
        Ok(track)
    }
}
