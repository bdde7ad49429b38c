// The laws of packed rows.
ghost use Rattle.std.specs.Prelude.{◌≡◌, ℕ, suc, ◌+◌, ◌<◌, ◌≤◌, [], ◌∷◌, length, take, slice_index_or, Some};
ghost use Rattle.circuit.specs.CellKinds.{slots_of};
ghost use Rattle.rowed.specs.declared.row_cell.RowCell.{RowCell};
ghost use Rattle.rowed.specs.RowNets.{RowView, row_at, cell_at, IsRowNet};
ghost use Rattle.rowed.specs.PlacedNets.{IsPlaced};
ghost use Rattle.rowed.specs.Limits.{slot_limit};
ghost use Rattle.rowed.specs.Extent.{packed_span, widest_packed};
ghost use Rattle.row_place.specs.Examples as examples;
ghost use Rattle.row_place.specs.Passes.{IsTooWide};
ghost use Rattle.row_place.specs.Spans.{span_at, IsGreatestSpan};
ghost use Rattle.row_place.specs.declared.pass.PlaceRefusal.{PlaceRefusal};
ghost use Rattle.plan_draw.specs.Packs.{pack, slot_in, IsPacked};

/// A net in rows with its rows packed is a placed net, unless a row takes slots past the limit of slots.
pub fn packs_keep()
    ensures { (net : RowView) → IsRowNet net → widest_packed net.rows ≤ slot_limit → IsPlaced (pack net) }
{}

/// The packed net may be given wherever nothing but want of memory may be refused.
pub fn packs_given()
    ensures { (net : RowView) (width : ℕ) → IsRowNet net → 1 ≤ width
        → ((refusal : PlaceRefusal) → IsTooWide net width refusal → ⊥) → IsPacked net width (pack net) }
{}

/// Each cell has a slot, which is the sum of the slots that the cells before it in its row take. So the next cell
/// begins where it ends, without a gap, and each later one there or past it: cells stand in their order, and no two
/// share a slot.
pub fn packs_in_order()
    ensures count { (net : RowView) (r : ℕ)
        → length (slice_index_or (pack net).slots r []) ≡ length (row_at net.rows r) }
    ensures sum { (net : RowView) (r c : ℕ) → c < length (row_at net.rows r)
        → slot_in (pack net) r c ≡ packed_span (take c (row_at net.rows r)) }
    ensures behind { (net : RowView) (r c : ℕ) (cell : RowCell) → cell_at net.rows r c ≡ Some cell
        → suc c < length (row_at net.rows r)
        → slot_in (pack net) r (suc c) ≡ slot_in (pack net) r c + slots_of cell.kind }
    ensures apart { (net : RowView) (r c d : ℕ) (cell : RowCell) → cell_at net.rows r c ≡ Some cell
        → c < d → d < length (row_at net.rows r)
        → slot_in (pack net) r c + slots_of cell.kind ≤ slot_in (pack net) r d }
{}

/// Each packed row spans the slots that its cells take, and the greatest span is that of the widest row.
pub fn packs_span()
    ensures span { (net : RowView) (r : ℕ) → span_at (pack net) r ≡ packed_span (row_at net.rows r) }
    ensures greatest { (net : RowView) → IsGreatestSpan (pack net) (widest_packed net.rows) }
{}

/// The slots of small nets: `a and b`; a buffer behind a majority, which takes three slots; a buffer behind a splitter
/// of two.
pub fn worked_packs()
    ensures and_slots { (pack examples.and_net).slots ≡ (0 ∷ 1 ∷ 2 ∷ []) ∷ (0 ∷ []) ∷ (0 ∷ []) ∷ [] }
    ensures tied_slots { (pack examples.tied_net).slots ≡ (0 ∷ 1 ∷ 2 ∷ 3 ∷ []) ∷ (0 ∷ 3 ∷ []) ∷ (0 ∷ 1 ∷ []) ∷ [] }
    ensures split_slots { (pack examples.split_net).slots ≡ (0 ∷ 1 ∷ []) ∷ (0 ∷ 2 ∷ []) ∷ (0 ∷ 1 ∷ 2 ∷ []) ∷ [] }
{}
