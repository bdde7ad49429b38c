// The names of the rules.
ghost use Rattle.std.specs.Prelude.{◌≡◌, codes};
ghost use Rattle.layout_rules.specs.RuleTable.{name_of};

/// The rules: `E` for excitation, wires and labels, `G` for geometry. The order in which they are tried, and which of
/// them make a circuit of the shapes, stand in the table `specs/RuleTable`.
#[derive(Clone, Copy, Debug, PartialEq, Eq)]
pub enum Rule {
    /// Each frame is that of a cell, and each pin lies in one.
    E1,
    /// The excitation lines wind from row to row and excite each in its phase.
    E2,
    /// Each net leads from one output pin to one input pin.
    E3,
    /// Each wire leads up by one row.
    E4,
    /// The metal of each net is short enough.
    E5,
    /// The labels mark the chip's inputs and outputs, and number them.
    E6,
    /// Metal, vias and pins are large enough.
    G1,
    /// Shapes that don't touch keep their distance.
    G2,
    /// Metal encloses each via.
    G3,
    /// Over cells lies no metal but at pins.
    G4,
    /// Cells stand beside each other in rows.
    G5,
}

impl Rule {
    /// The name of the rule in two letters, as `E1`.
    pub fn name(self) -> &'static [u8]
        ensures { result.now ≡ name_of self }
    {
        match self {
            Rule::E1 => b"E1",
            Rule::E2 => b"E2",
            Rule::E3 => b"E3",
            Rule::E4 => b"E4",
            Rule::E5 => b"E5",
            Rule::E6 => b"E6",
            Rule::G1 => b"G1",
            Rule::G2 => b"G2",
            Rule::G3 => b"G3",
            Rule::G4 => b"G4",
            Rule::G5 => b"G5",
        }
    }
}

#[cfg(test)]
mod tests {
    use super::*;
    use crate::laws::*;

    #[test]
    fn names(rt: HostRuntime) {
        assert_eq!(rt; Rule::E1.name(), b"E1".as_slice());
        assert_eq!(rt; Rule::E5.name(), b"E5".as_slice());
        assert_eq!(rt; Rule::G3.name(), b"G3".as_slice());
        first_chip_keeps_rules();
        moved_via_breaks_enclosure();
        no_start_breaks_excitation();
        every_layout_has_a_verdict();
        first_chip_has_lines();
        one_line();
        first_broken_once();
        certificate_gives_nets();
        rising_edges_are_rows();
    }
}
