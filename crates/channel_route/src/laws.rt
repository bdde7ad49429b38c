// The laws of the plan of tracks.
ghost use Rattle.std.specs.Prelude.{◌≡◌, ℕ, ◌+◌, ◌-◌, ◌*◌, ◌/◌, ◌<◌, ◌≤◌, [], ◌∷◌, List, length};
ghost use Rattle.std.specs.List.{AllByRecursion};
ghost use Rattle.sorting.specs.Sorting.{by_key};
ghost use Rattle.rowed.specs.declared.wire.Wire.{Wire};
ghost use Rattle.rowed.specs.PlacedNets.{PlacedView, IsPlaced, placed_rows, row_of};
ghost use Rattle.rowed.specs.Channels.{channel_links};
ghost use Rattle.rowed.specs.Short.{AreShort};
ghost use Rattle.channel_route.specs.Crossing.{crossing, EndsApart, HasRoom, IsOver, numbers_crossing};
ghost use Rattle.channel_route.specs.ShortWires.{FromApart, IsShortWire};
ghost use Rattle.channel_route.specs.PinColumns.{GoAlong, IsPinned, ToApart};
ghost use Rattle.channel_route.specs.Tracks.{route_of, tracks_used, column_of, AreApart, AreTracks};
ghost use Rattle.channel_route.specs.Examples.{three};

/// The tracks of the plan are distinct where wires cross one column, and tracks that are need no fewer.
pub fn tracks_are_fewest()
    ensures plan { (ws : List Wire) → EndsApart ws
        → AreTracks ws (route_of ws) (tracks_used ws) (column_of ws) }
    ensures fewest { (ws : List Wire) (track : List ℕ) (used : ℕ) → EndsApart ws
        → AreApart ws track used → tracks_used ws ≤ used }
{}

/// Wires whose ends stand in the columns of their pins have distinct ends, as a route asks: lower ends in even columns
/// and upper ends in odd ones, each in a slot of its own.
pub fn ends_apart()
    ensures { (columns : ℕ) (ws : List Wire) → AllByRecursion (IsPinned columns) ws
        → FromApart ws → ToApart ws → EndsApart ws }
{}

/// Where every wire moves at most reach - 1 slots and begins in a slot of its own, no column is crossed by more than
/// 2 * reach - 1 wires.
pub fn few_cross()
    ensures { (reach columns : ℕ) (ws : List Wire) → 1 ≤ reach
        → AllByRecursion (IsShortWire reach columns) ws → FromApart ws
        → (x : ℕ) → length (crossing x ws) ≤ 2 * reach - 1 }
{}

/// So fewer wires than its capacity cross each column of a channel of such wires, where the reach is at most half the
/// capacity, rounded down, as that of every library is; and the channel is never full.
pub fn never_full()
    ensures below { (reach columns capacity : ℕ) (ws : List Wire) → 1 ≤ reach → reach ≤ capacity / 2
        → AllByRecursion (IsShortWire reach columns) ws → FromApart ws
        → (x : ℕ) → length (crossing x ws) < capacity }
    ensures full { (reach columns capacity : ℕ) (ws : List Wire) → 1 ≤ reach → reach ≤ capacity / 2
        → AllByRecursion (IsShortWire reach columns) ws → FromApart ws
        → (x : ℕ) → IsOver ws capacity x → ⊥ }
{}

/// In every channel of a placed net, wires that go along its links, with their ends in the columns of their pins, have
/// distinct ends, in the order of any key too; and where the net's wires are short, there is room for them.
pub fn placed_channels()
    ensures apart { (p : PlacedView) (k columns : ℕ) (ws : List Wire) → IsPlaced p → k + 1 < length p.net.rows
        → GoAlong (channel_links (row_of p k) (row_of p (k + 1))) ws → AllByRecursion (IsPinned columns) ws
        → EndsApart ws }
    ensures sorted { (key : Wire → ℕ) (ws : List Wire) → EndsApart ws → EndsApart (by_key key ws) }
    ensures room { (p : PlacedView) (k columns reach capacity : ℕ) (ws : List Wire) → IsPlaced p
        → k + 1 < length p.net.rows → GoAlong (channel_links (row_of p k) (row_of p (k + 1))) ws
        → AllByRecursion (IsPinned columns) ws → AreShort reach (placed_rows p) → 1 ≤ reach → reach ≤ capacity / 2
        → HasRoom ws capacity }
{}

/// Three wires of one channel, which all cross columns 5 and 6.
pub fn three_wires()
    ensures tracks { route_of three ≡ 1 ∷ 2 ∷ 0 ∷ [] }
    ensures used { tracks_used three ≡ 3 }
    ensures column { column_of three ≡ 5 }
    ensures over { IsOver three 2 5 }
    ensures wires { numbers_crossing 5 0 three ≡ 0 ∷ 1 ∷ 2 ∷ [] }
{}
