// Laws: what the rules report of chips that are the first chip, changed. The functions do nothing.
ghost use Rattle.std.specs.Prelude.{◌∷◌, []};
ghost use Rattle.geom.specs.FirstChip.{first_flat};
ghost use Rattle.layout_rules.specs.declared.rule.Rule.{Rule};
ghost use Rattle.layout_rules.specs.FirstLimits.{first_limits};
ghost use Rattle.layout_rules.specs.Rules.{KeepsRules, FirstBroken};
ghost use Rattle.example_faulty_chips.specs.CircuitChips.{empty_chip, with_unknown_kind, without_input, with_stray_pin};
ghost use Rattle.example_faulty_chips.specs.CircuitChips.{with_joined_outputs, with_joined_inputs, with_cut_wire};
ghost use Rattle.example_faulty_chips.specs.CircuitChips.{with_labelled_wire, with_wire_within_a_row};
ghost use Rattle.example_faulty_chips.specs.CircuitChips.{with_text, without_output_label, with_repeated_label};
ghost use Rattle.example_faulty_chips.specs.LineChips.{with_unknown_part, with_bars_on_one_layer, with_second_start};
ghost use Rattle.example_faulty_chips.specs.LineChips.{with_short_start, with_cut_off_line, with_start_below};
ghost use Rattle.example_faulty_chips.specs.LineChips.{with_short_bar, with_start_at_right};
ghost use Rattle.example_faulty_chips.specs.GeometryChips.{with_wire_to, with_neighbour_at};
ghost use Rattle.example_faulty_chips.specs.GeometryChips.{with_via_at, with_metal_from};
ghost use Rattle.example_faulty_chips.specs.GeometryChips.{with_pin_from, with_buffer_at, with_low_buffer, with_limit};

/// A chip without frames breaks E1, and so do a frame of no kind, a cell without a pin and a pin in no frame.
pub fn frames_are_cells()
    ensures none { FirstBroken empty_chip first_limits Rule.E1 0 0 }
    ensures kind { FirstBroken with_unknown_kind first_limits Rule.E1 0 0 }
    ensures input { FirstBroken without_input first_limits Rule.E1 0 0 }
    ensures stray { FirstBroken with_stray_pin first_limits Rule.E1 15 15 }
{}

/// Each part of E2 is broken: by a part of no kind, a line without a start or with two, a start that ends a nanometre
/// before its bar, a line that no start leads to, one that comes to its bar from below, a bar that ends a nanometre
/// before its cell, and a line that comes to its bar from the right.
pub fn lines_excite_rows()
    ensures part { FirstBroken with_unknown_part first_limits Rule.E2 4 4 }
    ensures none { FirstBroken with_bars_on_one_layer first_limits Rule.E2 3 3 }
    ensures two { FirstBroken with_second_start first_limits Rule.E2 3 3 }
    ensures apart { FirstBroken with_short_start first_limits Rule.E2 3 3 }
    ensures cut { FirstBroken with_cut_off_line first_limits Rule.E2 15 15 }
    ensures below { FirstBroken with_start_below first_limits Rule.E2 4 4 }
    ensures over { FirstBroken with_short_bar first_limits Rule.E2 10 10 }
    ensures phase { FirstBroken with_start_at_right first_limits Rule.E2 0 0 }
{}

/// Each part of E3 is broken: by two outputs and by two inputs in one net, an input whose wire is cut, and an input
/// that is labelled and has a wire.
pub fn nets_lead_to_inputs()
    ensures outputs { FirstBroken with_joined_outputs first_limits Rule.E3 2 12 }
    ensures inputs { FirstBroken with_joined_inputs first_limits Rule.E3 1 11 }
    ensures cut { FirstBroken with_cut_wire first_limits Rule.E3 10 10 }
    ensures labelled { FirstBroken with_labelled_wire first_limits Rule.E3 11 2 }
{}

/// A wire within a row breaks E4.
pub fn wires_lead_up()
    ensures { FirstBroken with_wire_within_a_row first_limits Rule.E4 16 17 }
{}

/// Each part of E6 is broken: by the label `I00`, an output without a label, `I1` at the only input, and `I0` at two.
pub fn labels_mark_ports()
    ensures text { FirstBroken (with_text (73 ∷ 48 ∷ 48 ∷ [])) first_limits Rule.E6 15 15 }
    ensures bare { FirstBroken without_output_label first_limits Rule.E6 12 12 }
    ensures past { FirstBroken (with_text (73 ∷ 49 ∷ [])) first_limits Rule.E6 15 15 }
    ensures repeated { FirstBroken with_repeated_label first_limits Rule.E6 20 20 }
{}

/// Metal that is 999 nm wide breaks G1, and so do a via of 599 nm and a pin that is 999 nm high.
pub fn shapes_are_large_enough()
    ensures narrow { FirstBroken (with_wire_to 5499) first_limits Rule.G1 5 5 }
    ensures via { FirstBroken (with_via_at 4700 5299) first_limits Rule.G1 8 8 }
    ensures pin { FirstBroken (with_pin_from 23001) first_limits Rule.G1 12 12 }
    ensures wide { KeepsRules (with_wire_to 5500) first_limits }
{}

/// Metal that is 900 or 999 nm from other metal of its layer breaks G2; at 1000 nm it is far enough.
pub fn metal_keeps_its_distance()
    ensures close { FirstBroken (with_neighbour_at 6400) first_limits Rule.G2 7 15 }
    ensures nearly { FirstBroken (with_neighbour_at 6499) first_limits Rule.G2 7 15 }
    ensures apart { KeepsRules (with_neighbour_at 6500) first_limits }
{}

/// A via that is moved by a nanometre, so that the metal encloses it by 199 at one side, breaks G3.
pub fn metal_encloses_vias()
    ensures moved { FirstBroken (with_via_at 4701 5301) first_limits Rule.G3 8 8 }
    ensures enclosed { KeepsRules (with_via_at 4700 5300) first_limits }
{}

/// Lower metal that leaves its pin within a frame breaks G4, be it by a nanometre, and so does upper metal over a
/// frame; it may end at the frame's edge.
pub fn frames_are_bare()
    ensures wire { FirstBroken (with_wire_to 5600) first_limits Rule.G4 5 0 }
    ensures wider { FirstBroken (with_wire_to 5501) first_limits Rule.G4 5 0 }
    ensures over { FirstBroken (with_metal_from 9500) first_limits Rule.G4 15 0 }
    ensures nearly { FirstBroken (with_metal_from 9999) first_limits Rule.G4 15 0 }
    ensures beside { KeepsRules (with_metal_from 10000) first_limits }
{}

/// Two buffers of a row that overlap break G5, be it by a nanometre, and so do two of which one is lower; buffers of
/// one height may stand side by side.
pub fn frames_stand_apart()
    ensures overlapping { FirstBroken (with_buffer_at 7000) first_limits Rule.G5 0 15 }
    ensures nearly { FirstBroken (with_buffer_at 7999) first_limits Rule.G5 0 15 }
    ensures uneven { FirstBroken with_low_buffer first_limits Rule.G5 0 15 }
    ensures touching { KeepsRules (with_buffer_at 8000) first_limits }
{}

/// The metal of the wire is 10,000 nm long: that is the least limit that it keeps.
pub fn wires_are_short()
    ensures long { FirstBroken first_flat (with_limit 9999) Rule.E5 5 5 }
    ensures short { KeepsRules first_flat (with_limit 10000) }
{}
