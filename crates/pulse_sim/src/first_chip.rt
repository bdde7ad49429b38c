// What the first chip shows.
ghost use Rattle.std.specs.Prelude.{◌≡◌, List, Bool, length, All};
ghost use Rattle.circuit_extracted.specs.FirstCircuit.{first_circuit};
ghost use Rattle.pulse_sim.specs.Shows.{Shows};

/// Whatever the order of switching, the first chip, a buffer in each of two rows, shows every word one tick after the
/// word entered.
pub fn first_chip_shows()
    ensures { (words : List (List Bool)) → All (λ word. length word ≡ 1) words
        → Shows first_circuit 1 words words }
{
    circuit_extracted::first_circuit_keeps();
}
