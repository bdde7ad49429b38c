// The laws of placed nets: their rows and cells by number, and the wires between two rows.
ghost use Rattle.std.specs.Prelude.{◌≡◌, ℕ, ◌+◌, ◌<◌, ◌≤◌, List, length, slice_get, Some};
ghost use Rattle.std.specs.List.{Contains};
ghost use Rattle.rowed.specs.declared.source.Source.{Source};
ghost use Rattle.rowed.specs.declared.row_cell.RowCell.{RowCell};
ghost use Rattle.rowed.specs.RowNets.{row_at, cell_at, fed_at};
ghost use Rattle.rowed.specs.Counts.{cells_in, cell_number, IsCellAt};
ghost use Rattle.rowed.specs.Limits.{slot_limit};
ghost use Rattle.rowed.specs.PlacedNets.{PlacedView, IsPlaced, placed_rows, row_of};
ghost use Rattle.rowed.specs.Channels.{Link, IsChannel, User, channel_links, channel_slots, link_to};
ghost use Rattle.rowed.specs.Short.{IsShort, AreShort};

/// A placed net has a row with slots for each row of its net, and row k is the one of that number.
pub fn rows_by_number()
    ensures count { (p : PlacedView) → IsPlaced p → length (placed_rows p) ≡ length p.net.rows }
    ensures row { (p : PlacedView) (k : ℕ) → IsPlaced p → k < length p.net.rows
        → slice_get (placed_rows p) k ≡ Some (row_of p k) }
{}

/// Cells that stand in rows are numbered row by row, and each number below their count is that of one cell: a row's
/// numbers go on where those of the row before end, so lower rows have lower numbers.
pub fn cells_by_number()
    ensures below { (rows : List (List RowCell)) (r place : ℕ) → place < length (row_at rows r)
        → cell_number rows r place < cells_in rows }
    ensures next { (rows : List (List RowCell)) (r : ℕ)
        → cell_number rows (r + 1) 0 ≡ cell_number rows r (length (row_at rows r)) }
    ensures lower { (rows : List (List RowCell)) (q m r n : ℕ) → q < r → m < length (row_at rows q)
        → cell_number rows q m < cell_number rows r n }
    ensures one { (rows : List (List RowCell)) (q m r n : ℕ) → m < length (row_at rows q)
        → n < length (row_at rows r) → cell_number rows q m ≡ cell_number rows r n → (q ≡ r) × (m ≡ n) }
    ensures some { (rows : List (List RowCell)) (number : ℕ) → number < cells_in rows → IsCellAt rows number }
{}

/// Each channel of a placed net is one: each of its slots begins one wire at most and ends one at most, and all wires
/// lie within it. Its slots are within the limit.
pub fn channels_of_placed_nets()
    ensures channel { (p : PlacedView) (k : ℕ) → IsPlaced p → k + 1 < length p.net.rows
        → IsChannel (channel_links (row_of p k) (row_of p (k + 1))) (channel_slots (row_of p k) (row_of p (k + 1))) }
    ensures few { (p : PlacedView) (k : ℕ) → IsPlaced p → k + 1 < length p.net.rows
        → channel_slots (row_of p k) (row_of p (k + 1)) ≤ slot_limit }
{}

/// The wires of a placed net are its fed pins: each fed pin above the first row ends a wire from its source, and each
/// wire ends at a fed pin. That pin is told by the slot where the wire ends, and by the slot where it begins.
pub fn wires_are_fed_pins()
    ensures wire { (p : PlacedView) (k number pin : ℕ) (s : Source) → IsPlaced p → k + 1 < length p.net.rows
        → fed_at (cell_at p.net.rows (k + 1) number) pin ≡ Some s
        → Contains (channel_links (row_of p k) (row_of p (k + 1)))
        (link_to (row_of p k) (row_of p (k + 1)) number pin s) }
    ensures user { (p : PlacedView) (k : ℕ) (w : Link)
        → Contains (channel_links (row_of p k) (row_of p (k + 1))) w → User (row_of p k) (row_of p (k + 1)) w }
    ensures by_end { (p : PlacedView) (k : ℕ) (v w : Link) (a : User (row_of p k) (row_of p (k + 1)) v)
        (b : User (row_of p k) (row_of p (k + 1)) w) → IsPlaced p → k + 1 < length p.net.rows → v.to ≡ w.to
        → (a.number ≡ b.number) × (a.pin ≡ b.pin) }
    ensures by_start { (p : PlacedView) (k : ℕ) (v w : Link) (a : User (row_of p k) (row_of p (k + 1)) v)
        (b : User (row_of p k) (row_of p (k + 1)) w) → IsPlaced p → k + 1 < length p.net.rows → v.from ≡ w.from
        → (a.number ≡ b.number) × (a.pin ≡ b.pin) }
{}

/// The wires of a placed net are short exactly where those of each of its channels are.
pub fn short_by_channel()
    ensures each { (p : PlacedView) (reach k : ℕ) → IsPlaced p → AreShort reach (placed_rows p)
        → k + 1 < length p.net.rows → IsShort reach (row_of p k) (row_of p (k + 1)) }
    ensures all { (p : PlacedView) (reach : ℕ) → IsPlaced p
        → ((k : ℕ) → k + 1 < length p.net.rows → IsShort reach (row_of p k) (row_of p (k + 1)))
        → AreShort reach (placed_rows p) }
{}
