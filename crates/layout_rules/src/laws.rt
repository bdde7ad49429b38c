// Laws of the rules, which crates above cite by a call. The functions do nothing.
ghost use Rattle.std.specs.Prelude.{◌≡◌, ◌⊎◌, ℕ, ◌+◌, ℤ, true, List, [], ◌∷◌, Some, length, slice_get};
ghost use Rattle.geom.specs.declared.shapes.Shape.{Shape};
ghost use Rattle.geom.specs.declared.shapes.Flat.{Flat};
ghost use Rattle.geom.specs.FirstChip.{first_flat};
ghost use Rattle.geom.specs.Rectangle.{overlap};
ghost use Rattle.layout_rules.specs.declared.rule.Rule.{Rule};
ghost use Rattle.layout_rules.specs.Nets.{AreNets, Certifies, HaveNets};
ghost use Rattle.layout_rules.specs.Rows.{AreRows, row_of, row_count};
ghost use Rattle.layout_rules.specs.Limits.{Limits};
ghost use Rattle.layout_rules.specs.FirstLimits.{first_limits};
ghost use Rattle.layout_rules.specs.FaultyChips.{with_moved_via, without_starts};
ghost use Rattle.layout_rules.specs.declared.layers.TheConstants.{EVEN_LINE, ODD_LINE, START};
ghost use Rattle.layout_rules.specs.ExcitationLines.{IsPart, Before, IsLine, HasOneLine, BarHasPhase};
ghost use Rattle.layout_rules.specs.ExcitationRule.{IsCutOff, AreLaidOut, IsExcited};
ghost use Rattle.layout_rules.specs.LinePlaces.{way_at, ComesTo, IsPlaced};
ghost use Rattle.layout_rules.specs.Reports.{ReportsNone, Alone, IsFirstReport};
ghost use Rattle.layout_rules.specs.Rules.{Broken, KeepsRules, FirstBroken, HasFirstBroken, IsOneReport};

/// The first chip keeps all rules.
pub fn first_chip_keeps_rules()
    ensures { KeepsRules first_flat first_limits }
{}

/// With its first via moved by a nanometre it breaks G3 at that via.
pub fn moved_via_breaks_enclosure()
    ensures { IsFirstReport (Broken Rule.G3 with_moved_via first_limits) 8 8 }
{}

/// Without the starts of its lines it breaks E2 at the least shape of the line over the even rows.
pub fn no_start_breaks_excitation()
    ensures { IsFirstReport (Broken Rule.E2 without_starts first_limits) 3 3 }
{}

/// Each list of shapes has its nets.
pub fn every_layout_has_nets()
    ensures { (shapes : List Shape) → HaveNets shapes }
{}

/// Each layout keeps all rules, or one of them is the first that it breaks.
pub fn every_layout_has_a_verdict()
    ensures { (flat : Flat) (limits : Limits) → KeepsRules flat limits ⊎ HasFirstBroken flat limits }
{}

/// The first chip's two lines are a start and a bar each, by these numbers.
pub fn first_chip_has_lines()
    ensures even { IsLine first_flat.shapes EVEN_LINE (3 ∷ 4 ∷ []) }
    ensures odd { IsLine first_flat.shapes ODD_LINE (13 ∷ 14 ∷ []) }
{}

/// Where each part of a line has its contacts, each layer with shapes has one start, and chains lead to all of them,
/// each layer of a line is one path.
pub fn one_line()
    ensures { (shapes : List Shape) (layer : ℕ) → AreLaidOut shapes → ReportsNone (Alone (IsCutOff shapes))
        → (layer ≡ EVEN_LINE) ⊎ (layer ≡ ODD_LINE) → HasOneLine shapes layer }
{}

/// The excitation has run nothing where it comes to the first part after a start, and to each next part it comes when it
/// has run through the one before too. There is one way to a part.
pub fn ways_add_up()
    ensures first { (shapes : List Shape) → AreLaidOut shapes → (a b : ℕ) → IsPart shapes START a
        → Before shapes a b → ComesTo shapes a b 0 }
    ensures next { (shapes : List Shape) (a b c distance : ℕ) → AreLaidOut shapes
        → ReportsNone (Alone (IsCutOff shapes)) → ComesTo shapes a b distance → Before shapes b c
        → ComesTo shapes b c (distance + way_at shapes b) }
    ensures once { (shapes : List Shape) (a b c distance other : ℕ) → AreLaidOut shapes
        → ReportsNone (Alone (IsCutOff shapes)) → ComesTo shapes a b distance → ComesTo shapes c b other
        → (a ≡ c) × (distance ≡ other) }
{}

/// A frame under a bar has a place along the line of that bar, and by the rule of the excitation lines this one alone.
pub fn one_place()
    ensures placed { (shapes : List Shape) (frame : Shape) (bar phase : ℕ) (has : BarHasPhase shapes bar phase)
        → overlap has.is_bar.shape.rect frame.rect ≡ true
        → (near : ℕ) × (far : ℕ) × IsPlaced shapes frame near far }
    ensures once { (shapes : List Shape) (frame : Shape) (near far other_near other_far : ℕ) → AreLaidOut shapes
        → ReportsNone (Alone (IsCutOff shapes)) → IsExcited shapes frame → IsPlaced shapes frame near far
        → IsPlaced shapes frame other_near other_far → (near ≡ other_near) × (far ≡ other_far) }
{}

/// A layout has one first broken rule at most, and it reports one pair of numbers.
pub fn first_broken_once()
    ensures { (flat : Flat) (limits : Limits) (rule other : Rule) (a b c d : ℕ) → FirstBroken flat limits rule a b
        → FirstBroken flat limits other c d → IsOneReport rule other a b c d }
{}

/// Numbers that touching shapes share, each a shape of the net and none above its own, are the least of the nets.
pub fn certificate_gives_nets()
    ensures { (shapes : List Shape) (nets : List ℕ) → Certifies shapes nets → AreNets shapes nets }
{}

/// The place of a frame's lower edge among the rising lower edges is its row, and there are as many rows as edges.
pub fn rising_edges_are_rows()
    ensures row { (shapes : List Shape) (edges : List ℤ) (r : ℕ) (y : ℤ) → AreRows shapes edges
        → slice_get edges r ≡ Some y → row_of shapes y ≡ r }
    ensures count { (shapes : List Shape) (edges : List ℤ) → AreRows shapes edges → row_count shapes ≡ length edges }
{}
