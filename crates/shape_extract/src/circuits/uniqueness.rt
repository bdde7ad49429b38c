// A flat form has at most one circuit.
ghost use Rattle.std.specs.Prelude.{◌≡◌};
ghost use Rattle.geom.specs.declared.shapes.Flat.{Flat};
ghost use Rattle.layout_rules.specs.declared.rule.Rule.TheVariants.{E1, E2, E6};
ghost use Rattle.layout_rules.specs.Limits.{Limits};
ghost use Rattle.layout_rules.specs.Rules.{Keeps};
ghost use Rattle.circuit_extracted.specs.Circuits.{CircuitView};
ghost use Rattle.shape_extract.specs.Extraction.{IsCircuitOf};

/// A flat form that keeps the rules of cells, of excitation lines and of labels is that of at most one circuit.
pub fn one_circuit()
    ensures { (flat : Flat) (limits : Limits) (first second : CircuitView)
        → Keeps E1 flat limits → Keeps E2 flat limits → Keeps E6 flat limits
        → IsCircuitOf flat first → IsCircuitOf flat second → first ≡ second }
{}
