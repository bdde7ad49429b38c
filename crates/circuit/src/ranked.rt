// Equations for truth values.
ghost use Rattle.std.specs.Prelude.{◌≡◌, ℕ, Bool};
ghost use Rattle.circuit.specs.Ranked.{IsRanked, Solves};

/// Equations that each give a truth value from values of lower rank have exactly one solution.
pub fn ranked_equations()
    ensures some { (rank : ℕ → ℕ) (equation : ℕ → (ℕ → Bool) → Bool)
        → IsRanked rank equation → (v : ℕ → Bool) × Solves equation v }
    ensures only { (rank : ℕ → ℕ) (equation : ℕ → (ℕ → Bool) → Bool)
        → IsRanked rank equation → (v w : ℕ → Bool) → Solves equation v → Solves equation w
        → (c : ℕ) → v c ≡ w c }
{}
