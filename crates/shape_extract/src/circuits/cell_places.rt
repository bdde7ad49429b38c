// Laws of where the cells of a layout lie along the excitation lines.
ghost use Rattle.std.specs.Prelude.{◌≡◌, ℕ, ◌≤◌, length};
ghost use Rattle.geom.specs.declared.shapes.Flat.{Flat};
ghost use Rattle.layout_rules.specs.declared.rule.Rule.TheVariants.{E2};
ghost use Rattle.layout_rules.specs.Limits.{Limits};
ghost use Rattle.layout_rules.specs.Rules.{Keeps};
ghost use Rattle.circuit_extracted.specs.Circuits.{CircuitView};
ghost use Rattle.shape_extract.specs.Extraction.{IsCircuitOf};
ghost use Rattle.shape_extract.specs.CellPlaces.{AreCellPlaces};

use layout_rules::laws::one_place;

/// The cells of a layout that has a circuit have places along the excitation lines, and by the rule of these lines they
/// have no others.
pub fn cells_have_places()
    ensures some { (flat : Flat) (circuit : CircuitView) → IsCircuitOf flat circuit
        → (near : ℕ → ℕ) × (far : ℕ → ℕ) × AreCellPlaces flat.shapes near far }
    ensures once { (flat : Flat) (limits : Limits) (near far other_near other_far : ℕ → ℕ) → Keeps E2 flat limits
        → AreCellPlaces flat.shapes near far → AreCellPlaces flat.shapes other_near other_far
        → (c : ℕ) → (near c ≡ other_near c) × (far c ≡ other_far c) }

    // The excitation comes to a cell before it has passed it.
    ensures spans { (flat : Flat) (near far : ℕ → ℕ) → AreCellPlaces flat.shapes near far → (c : ℕ) → near c ≤ far c }

    // Past the cells of the circuit there are no places.
    ensures no_more { (flat : Flat) (circuit : CircuitView) (near far : ℕ → ℕ) → IsCircuitOf flat circuit
        → AreCellPlaces flat.shapes near far → (c : ℕ) → length circuit.cells ≤ c
        → (near c ≡ 0) × (far c ≡ 0) }
{
    one_place();
}
