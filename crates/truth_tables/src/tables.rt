// Operations on tables.
ghost use Rattle.std.specs.Prelude.{ℕ, ◌≡◌, ◌<◌, ◌%◌, ◌==◌, cond, not};
ghost use Rattle.circuit.specs.Function.{majority};
ghost use Rattle.truth_tables.specs.Tables.{holds};

/// The table of a literal, by that of its node.
pub fn signed(literal: u32, table: u64) -> u64
    ensures { (i : ℕ) → i < 64 → holds result i ≡ cond (literal % 2 == 1) (not (holds table i)) (holds table i) }
{
    if literal % 2 == 1 { !table } else { table }
}

/// The table of a majority.
#[tactic(auto, using(crate::proofs::Bits::majority_holds))]
pub fn majority_table(x: u64, y: u64, z: u64) -> u64
    ensures { (i : ℕ) → holds result i ≡ majority (holds x i) (holds y i) (holds z i) }
{
    (x & y) | (x & z) | (y & z)
}
