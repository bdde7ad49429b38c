// The laws of the plan of repeaters.
ghost use Rattle.std.specs.Prelude.{◌≡◌, ℕ, ◌+◌, ◌*◌, ◌≤◌, ◌<◌, ◌⊎◌, [], ◌∷◌, Bool, true, not, List, length, take};
ghost use Rattle.std.specs.Prelude.{drop, replicate, map, Some, None};
ghost use Rattle.std.specs.List.{AllByRecursion, sum};
ghost use Rattle.circuit.specs.SameAnswers.{SameAnswers};
ghost use Rattle.rowed.specs.RowNets.{IsAnswer};
ghost use Rattle.rowed.specs.MadeCells.{input_cell};
ghost use Rattle.rowed.specs.PlacedNets.{PlacedRow, PlacedView, IsPlaced, placed_rows, row_of};
ghost use Rattle.rowed.specs.Channels.{Link, IsChannel, channel_links, channel_slots};
ghost use Rattle.sorting.specs.Numbers.{IsOrder};
ghost use Rattle.repeater_rows.specs.Destinations.{destinations, is_end};
ghost use Rattle.sorting.specs.Sorting.{in_order};
ghost use Rattle.repeater_rows.specs.Rounds.{AreRounds, AreOrders, all_rounds, round, window_size};
ghost use Rattle.repeater_rows.specs.Repeaters.{channel_rounds, repeated_rows, repeated, buffer_from, carrier_slots};
ghost use Rattle.rowed.specs.Limits.{cell_limit};
ghost use Rattle.repeater_rows.specs.Passes.{AreRepeated, IsTooLarge, cells_past, IsFirstPast};
ghost use Rattle.sorting.specs.Inversions.{inversions};
ghost use Rattle.repeater_rows.specs.Local.{UnwiredRise};
ghost use Rattle.rowed.specs.Short.{AreShort};
ghost use Rattle.rowed.specs.Counts.{cells_in};
ghost use Rattle.repeater_rows.specs.Inserted.{AreInserted, AreNarrow};
ghost use Rattle.repeater_rows.specs.Examples as examples;
ghost use Rattle.repeater_rows.specs.declared.pass.RepeatRefusal.{RepeatRefusal};
ghost use Rattle.repeater_rows.specs.declared.pass.RepeatRefusal.TheVariants.{TooManyCells};

/// The destinations of a channel are an order of its slots.
pub fn destinations_order()
    ensures order { (ws : List Link) (slots : ℕ) → IsChannel ws slots → IsOrder (destinations ws slots) }
    ensures long { (ws : List Link) (slots : ℕ) → length (destinations ws slots) ≡ slots }
{}

/// The rounds of a channel end by themselves, after at most as many as the square of its slots: two rounds on end bring
/// some pair of destinations into order, unless all are in order. After each round the destinations are an order of the
/// slots.
pub fn rounds_end()
    ensures end { (reach : ℕ) (wired : ℕ → Bool) (to : List ℕ) → 2 ≤ reach → IsOrder to
        → AreRounds reach wired true to (all_rounds reach wired to) }
    ensures few { (reach : ℕ) (wired : ℕ → Bool) (to : List ℕ)
        → length (all_rounds reach wired to) ≤ length to * length to }
    ensures only { (reach : ℕ) (wired : ℕ → Bool) (to : List ℕ) (tos : List (List ℕ)) → 2 ≤ reach → IsOrder to
        → AreRounds reach wired true to tos → tos ≡ all_rounds reach wired to }
    ensures two { (reach : ℕ) (first : Bool) (to : List ℕ) → 2 ≤ reach
        → (in_order to ≡ to)
        ⊎ (inversions (round (window_size reach) (not first) (round (window_size reach) first to)) < inversions to) }
    ensures orders { (reach : ℕ) (wired : ℕ → Bool) (to : List ℕ) → IsOrder to
        → AreOrders (length to) (all_rounds reach wired to) }
{}

/// In a placed net the rounds of each channel end by themselves, after at most as many as the square of its slots.
pub fn channels_end()
    ensures end { (p : PlacedView) (reach k : ℕ) → IsPlaced p → 2 ≤ reach → k + 1 < length p.net.rows
        → AreRounds reach (is_end (channel_links (row_of p k) (row_of p (k + 1)))) true
        (destinations (channel_links (row_of p k) (row_of p (k + 1))) (channel_slots (row_of p k) (row_of p (k + 1))))
        (channel_rounds reach (row_of p k) (row_of p (k + 1))) }
    ensures few { (p : PlacedView) (reach k : ℕ) → length (channel_rounds reach (row_of p k) (row_of p (k + 1)))
        ≤ channel_slots (row_of p k) (row_of p (k + 1)) * channel_slots (row_of p k) (row_of p (k + 1)) }
{}

/// The destinations without a wire rise from slot to slot, in the destinations of a channel and after each round. So a
/// window in which no destination has a wire is in order already.
pub fn unwired_rise()
    ensures start { (ws : List Link) (slots : ℕ) → IsChannel ws slots
        → UnwiredRise (is_end ws) (destinations ws slots) }
    ensures kept { (size : ℕ) (first : Bool) (wired : ℕ → Bool) (to : List ℕ) → UnwiredRise wired to
        → UnwiredRise wired (round size first to) }
    ensures still { (wired : ℕ → Bool) (to : List ℕ) (from count : ℕ) → UnwiredRise wired to
        → AllByRecursion (λ (d : ℕ). not (wired d) ≡ true) (take count (drop from to))
        → in_order (take count (drop from to)) ≡ take count (drop from to) }
{}

/// The plan of a placed net is a placed net, unless it has more cells than the limit.
pub fn repeaters_keep()
    ensures { (p : PlacedView) (reach : ℕ) → IsPlaced p → 2 ≤ reach
        → cells_past 0 (repeated_rows reach (placed_rows p)) ≡ None → IsPlaced (repeated p reach) }
{}

/// The plan of a placed net has its counts, and its answer to every word.
pub fn repeaters_answer()
    ensures { (p : PlacedView) (reach : ℕ) → IsPlaced p → IsPlaced (repeated p reach)
        → SameAnswers p.net.inputs (repeated p reach).net.inputs p.net.outputs (repeated p reach).net.outputs
        (IsAnswer p.net) (IsAnswer (repeated p reach).net) }
{}

/// Rows pass the limit exactly where their cells together are more than 2,000,000, and the number that is then told is
/// that of the cells up to the end of the first row that passes it. So what the pass gives has at most 2,000,000 cells,
/// and what it refuses for its cells has more up to the end of such a row.
pub fn repeaters_count()
    ensures within { (rows : List PlacedRow) → cells_in (map (λ (row : PlacedRow). row.cells) rows) ≤ cell_limit
        → cells_past 0 rows ≡ None }
    ensures few { (rows : List PlacedRow) → cells_past 0 rows ≡ None
        → cells_in (map (λ (row : PlacedRow). row.cells) rows) ≤ cell_limit }
    ensures first { (rows : List PlacedRow) (cells : ℕ) → IsFirstPast (map (λ (row : PlacedRow). row.cells) rows) cells
        → cells_past 0 rows ≡ Some cells }
    ensures past { (rows : List PlacedRow) (cells : ℕ) → cells_past 0 rows ≡ Some cells
        → IsFirstPast (map (λ (row : PlacedRow). row.cells) rows) cells }
    ensures given { (p out : PlacedView) (reach height channel : ℕ) → AreRepeated p reach height channel out
        → cells_in out.net.rows ≤ cell_limit }
    ensures refused { (p : PlacedView) (reach height channel cells : ℕ)
        → IsTooLarge p reach height channel (TooManyCells cells) → IsFirstPast (repeated p reach).net.rows cells }
{}

/// The pass may give the plan of a placed net wherever it may refuse nothing but want of memory.
pub fn repeaters_given()
    ensures { (p : PlacedView) (reach height channel : ℕ) → IsPlaced p → 2 ≤ reach
        → ((refusal : RepeatRefusal) → IsTooLarge p reach height channel refusal → ⊥)
        → AreRepeated p reach height channel (repeated p reach) }
{}

/// Every wire of the plan moves fewer slots than the reach.
pub fn repeaters_short()
    ensures { (p : PlacedView) (reach : ℕ) → IsPlaced p → 2 ≤ reach → AreShort reach (placed_rows (repeated p reach)) }
{}

/// The rows of the plan are those of the net, each with its cells and their slots, and between them rows of buffers.
pub fn repeaters_add()
    ensures { (p : PlacedView) (reach : ℕ) → AreInserted (placed_rows p) (placed_rows (repeated p reach)) }
{}

/// No row of the plan spans more slots than the widest row of the net.
pub fn repeaters_narrow()
    ensures { (p : PlacedView) (reach width : ℕ) → IsPlaced p → AreNarrow width (placed_rows p)
        → AreNarrow width (placed_rows (repeated p reach)) }
{}

/// Forty wires that turn round, at a reach of 14: five rows of forty buffers are added, and then no wire moves more
/// than 13 slots. A wire that moves 13 slots has no repeater, and one that moves 14 slots has one, in slot 13. The
/// three wires of `b and a`, which turn round, at the least reach: two rows are added. Four wires in eight slots, at a
/// reach of 4: two rows, the slots without a wire among the others.
pub fn worked_rows()
    ensures turned { examples.sizes (repeated examples.turned 14) ≡ replicate 7 40 }
    ensures turned_cells { sum (examples.sizes (repeated examples.turned 14)) ≡ 280 }
    ensures turned_before { examples.farthest_in (placed_rows examples.turned) ≡ 39 }
    ensures turned_after { examples.farthest_in (placed_rows (repeated examples.turned 14)) ≡ 13 }
    ensures within { repeated (examples.one_wire 13) 14 ≡ examples.one_wire 13 }
    ensures past_rows { (repeated (examples.one_wire 14) 14).net.rows ≡ (input_cell 0 ∷ [])
        ∷ (buffer_from (examples.from_cell 0) ∷ []) ∷ (examples.output 0 0 ∷ []) ∷ [] }
    ensures past_slots { (repeated (examples.one_wire 14) 14).slots ≡ (0 ∷ []) ∷ (13 ∷ []) ∷ (14 ∷ []) ∷ [] }
    ensures and_start { destinations (channel_links examples.and_inputs examples.and_gate)
        (channel_slots examples.and_inputs examples.and_gate) ≡ 2 ∷ 1 ∷ 0 ∷ [] }
    ensures and_rounds { channel_rounds 2 examples.and_inputs examples.and_gate
        ≡ (1 ∷ 2 ∷ 0 ∷ []) ∷ (1 ∷ 0 ∷ 2 ∷ []) ∷ [] }
    ensures and_sizes { examples.sizes (repeated examples.and_net 2) ≡ 3 ∷ 3 ∷ 3 ∷ 1 ∷ 1 ∷ [] }
    ensures four_start { destinations examples.four_wires 8 ≡ 7 ∷ 5 ∷ 1 ∷ 3 ∷ 4 ∷ 6 ∷ 0 ∷ 2 ∷ [] }
    ensures four_rounds { all_rounds 4 (is_end examples.four_wires) (destinations examples.four_wires 8)
        ≡ (1 ∷ 3 ∷ 5 ∷ 7 ∷ 0 ∷ 2 ∷ 4 ∷ 6 ∷ []) ∷ (1 ∷ 3 ∷ 0 ∷ 2 ∷ 5 ∷ 7 ∷ 4 ∷ 6 ∷ []) ∷ [] }
    ensures four_carried { map (carrier_slots (is_end examples.four_wires) 0)
        (all_rounds 4 (is_end examples.four_wires) (destinations examples.four_wires 8))
        ≡ (2 ∷ 3 ∷ 4 ∷ 5 ∷ []) ∷ (2 ∷ 3 ∷ 4 ∷ 5 ∷ []) ∷ [] }
    ensures and_within { repeated examples.and_net 14 ≡ examples.and_net }
{}
