// Laws of the sample, and the sample for one bit, written out.
ghost use Rattle.std.specs.Prelude.{◌≡◌, ◌≤◌, ◌<◌, ◌*◌, ◌^◌, ◌++◌, [], ◌∷◌, ℕ, true, false, codes, length};
ghost use Rattle.std.specs.Fmt.{decimal};
ghost use Rattle.std.specs.List.{All};
ghost use Rattle.blif_read.specs.Parts.{NetView};
ghost use Rattle.blif_read.specs.Says.{SaysNet};
ghost use Rattle.sample_adder.specs.Adder.{adder};
ghost use Rattle.sample_adder.specs.EightWords.{eight};

/// The netlist and the words for one bit.
#[tactic(auto, unfolding(crate::specs::EightWords::eight))]
pub fn worked_sample()
    ensures text { adder 1 ≡ codes ".model adder\n.inputs a0 b0\n.outputs s0 s1\n.names a0 b0 s0\n10 1\n01 1\n"
        ++ codes ".names a0 b0 c1\n11 1\n.names c1 s1\n1 1\n.end\n" }
    ensures words { eight 1 ≡ (true ∷ true ∷ []) ∷ (false ∷ false ∷ []) ∷ (false ∷ true ∷ []) ∷ (true ∷ false ∷ [])
        ∷ (true ∷ false ∷ []) ∷ (false ∷ true ∷ []) ∷ (false ∷ false ∷ []) ∷ (true ∷ false ∷ []) ∷ [] }
{}

/// For 1 to 64 bits: the netlist has two inputs for each bit, its text is far below the 16 MiB that a netlist may have,
/// and each of the eight words has a value for each input. No two numbers of 64 bits are written alike.
pub fn sample_laws()
    ensures inputs { (bits : ℕ) (net : NetView) → 1 ≤ bits → bits ≤ 64 → SaysNet (adder bits) net →
        net.inputs ≡ 2 * bits }
    ensures size { (bits : ℕ) → bits ≤ 64 → length (adder bits) ≤ 16777216 }
    ensures words { (bits : ℕ) → All (λ word. length word ≡ 2 * bits) (eight bits) }
    ensures count { (bits : ℕ) → length (eight bits) ≡ 8 }
    ensures one_size { (x y : ℕ) → x < 2 ^ 64 → y < 2 ^ 64 → decimal x ≡ decimal y → x ≡ y }
{}
