// The laws of drawings.
ghost use Rattle.std.specs.Prelude.{◌≡◌, ℕ, suc, ◌+◌, ◌<◌, ◌≤◌, length};
ghost use Rattle.geom.specs.FirstChip.{first_layout};
ghost use Rattle.geom.specs.FlatForm.{flat_of};
ghost use Rattle.geom.specs.Writable.{IsWritable};
ghost use Rattle.geom.specs.declared.shapes.Shape.{Shape};
ghost use Rattle.layout_rules.specs.Rules.{KeepsRules};
ghost use Rattle.layout_rules.specs.LinePlaces.{IsPlaced as LiesAt};
ghost use Rattle.rowed.specs.PlacedNets.{PlacedView, IsPlaced};
ghost use Rattle.channel_route.specs.Crossing.{crossing, IsOver};
ghost use Rattle.channel_route.specs.Tracks.{tracks_used};
ghost use Rattle.cell_library.specs.Library.{LibraryView, limits_of};
ghost use Rattle.cell_library.specs.LibraryA.{library_a_view};
ghost use Rattle.layout_make.specs.MayDraw.{MayDraw};
ghost use Rattle.layout_make.specs.Channel.{channel};
ghost use Rattle.layout_make.specs.Draw.{draw, top_elements};
ghost use Rattle.layout_make.specs.Size.{element_number};
ghost use Rattle.layout_make.specs.Tags.{sheet};
ghost use Rattle.layout_make.specs.Laws.{flat_shapes, Is, FrameAt, WiresJoinPins};
ghost use Rattle.layout_make.specs.LineWays.{way_to, skew_limit};
ghost use Rattle.layout_make.specs.CellsAreDrawn.{CellsAreDrawn};
ghost use Rattle.layout_make.specs.WireLaw.{WireLaw};
ghost use Rattle.layout_make.specs.Chips.{first_placed, second_placed, second_flat, third_placed, third_flat};
ghost use Rattle.layout_make.specs.Chips.{least_library, least_flat, wide_library, wide_flat};

use channel_route::tracks_are_fewest;
use layout_rules::laws::ways_add_up;

/// A drawing keeps all rules. Its frames, pins, lines and labels are those of the cells, rows and ports, and its
/// wires join each input pin with its source, and nothing else. Its layout is writable, and the top has as many
/// elements as are counted.
pub fn drawing_laws()
    ensures rules { (p : PlacedView) (l : LibraryView) → MayDraw p l → KeepsRules (flat_of (draw p l)) (limits_of l) }
    ensures cells { (p : PlacedView) (l : LibraryView) → MayDraw p l → CellsAreDrawn p l }
    ensures joined { (p : PlacedView) (l : LibraryView) → MayDraw p l → WiresJoinPins p l }
    ensures writable { (p : PlacedView) (l : LibraryView) → MayDraw p l → IsWritable (draw p l) }
    ensures size { (p : PlacedView) (l : LibraryView) → IsPlaced p → length (top_elements p l) ≡ element_number p }
    ensures wires { (p : PlacedView) (l : LibraryView) → MayDraw p l → WireLaw p l }
{
    tracks_are_fewest();
}

/// A cell of a drawing lies along its line between the beginning and the end of its row's bar, and from any point of a
/// bar to any of the next row's it is no further than the limit of the skew.
pub fn drawing_ways()
    ensures cells { (p : PlacedView) (l : LibraryView) (r n f near far : ℕ) (frame : Shape) → MayDraw p l
        → FrameAt p l r n f → Is (flat_shapes p l) f frame → LiesAt (flat_shapes p l) frame near far
        → (way_to (sheet p l) (suc r) ≤ near) × (far ≤ way_to (sheet p l) (suc r) + (sheet p l).right) }
    ensures rows { (p : PlacedView) (l : LibraryView) (r : ℕ) → r < length p.net.rows
        → (way_to (sheet p l) (suc r) + (sheet p l).right ≤ way_to (sheet p l) (suc (suc r)) + skew_limit (sheet p l))
        × (way_to (sheet p l) (suc (suc r)) + (sheet p l).right ≤ way_to (sheet p l) (suc r) + skew_limit (sheet p l)) }
{
    tracks_are_fewest();
    ways_add_up();
}

/// No channel of a net within a library's reach is ever full: fewer wires than the library's capacity cross each
/// column, so fewer tracks are in use, and no column is over.
pub fn never_full()
    ensures below { (p : PlacedView) (l : LibraryView) (r x : ℕ) → MayDraw p l
        → length (crossing x (channel p l r)) < l.capacity }
    ensures tracks { (p : PlacedView) (l : LibraryView) (r : ℕ) → MayDraw p l
        → tracks_used (channel p l r) < l.capacity }
    ensures none { (p : PlacedView) (l : LibraryView) (r x : ℕ) → MayDraw p l
        → IsOver (channel p l r) l.capacity x → ⊥ }
{
    tracks_are_fewest();
}

/// Three chips of library A: a wire; the and of two inputs; and one input that is read three times. The first has the
/// layout, and the others have the flat forms, that another program drew. So have the third with the least library that
/// keeps the laws, and the first with one of the widest slots; both may be drawn.
pub fn worked_chips()
    ensures first { draw first_placed library_a_view ≡ first_layout }
    ensures second { flat_of (draw second_placed library_a_view) ≡ second_flat }
    ensures third { flat_of (draw third_placed library_a_view) ≡ third_flat }
    ensures may_least { MayDraw third_placed least_library }
    ensures least { flat_of (draw third_placed least_library) ≡ least_flat }
    ensures may_wide { MayDraw first_placed wide_library }
    ensures wide { flat_of (draw first_placed wide_library) ≡ wide_flat }
{}
