// Laws of clocks whose excitation takes time to run along the lines.
ghost use Rattle.std.specs.Prelude.{◌≡◌, ℕ, length, ◌+◌, ◌-◌, ◌*◌, ◌<◌, ◌≤◌, max, List, Bool};
ghost use Rattle.std.specs.List.{AllZip};
ghost use Rattle.circuit_extracted.specs.Circuits.{CircuitView, KeepsFacts};
ghost use Rattle.circuit_extracted.specs.Answers.{IsAnswer};
ghost use Rattle.pulse_sim.specs.Clocked.{IsWellTimed, IsWithinQuarter, ShowsByClocks};
ghost use Rattle.pulse_sim.specs.Travelling.{AreSpans, IsSkewAtMost, IsSkew, arrives, is_past, every_quarter};
ghost use Rattle.pulse_sim.specs.Travelling.{ShowsAtRates, skew_of, AreAheadAtMost, led};
ghost use Rattle.pulse_sim.specs.Travelling.{even_of, odd_of};
ghost use Rattle.pulse_sim.specs.AndChip.{and_circuit, and_near, and_far};

/// Where the excitation runs the skew, and all that the moments of one beat vary, in less than each quarter of the
/// period, the windows keep clear at each cell and its feeds. So at every such rate the circuit shows its answers.
pub fn every_rate()
    ensures well { (circuit : CircuitView) (near far beat : ℕ → ℕ) (slow late skew : ℕ)
        → AreSpans near far → IsSkewAtMost circuit near far skew → IsWithinQuarter beat (slow * skew + late)
        → IsWellTimed circuit (arrives beat slow near) (is_past beat slow late far) }
    ensures uniform { (circuit : CircuitView) (near far : ℕ → ℕ) (slow skew quarter : ℕ)
        → AreSpans near far → IsSkewAtMost circuit near far skew → slow * skew < quarter
        → IsWellTimed circuit (arrives (every_quarter quarter) slow near)
        (is_past (every_quarter quarter) slow 0 far) }
    ensures shows { (circuit : CircuitView) (near far : ℕ → ℕ) (skew : ℕ) (words answers : List (List Bool))
        → KeepsFacts circuit → AreSpans near far → IsSkewAtMost circuit near far skew
        → AllZip (IsAnswer circuit) words answers
        → ShowsAtRates circuit near far skew (circuit.rows - 1) words answers }

    // So what is shown by every clock whose windows keep clear is shown at every such rate.
    ensures by_clocks { (circuit : CircuitView) (near far : ℕ → ℕ) (skew d : ℕ) (words answers : List (List Bool))
        → AreSpans near far → IsSkewAtMost circuit near far skew → ShowsByClocks circuit d words answers
        → ShowsAtRates circuit near far skew d words answers }
{}

/// No less will do: where beats are a quarter of the period apart and nothing varies, windows keep clear only where the
/// excitation runs the skew in less than this quarter.
pub fn rate_is_exact()
    ensures exact { (circuit : CircuitView) (near far : ℕ → ℕ) (slow skew quarter : ℕ)
        → AreSpans near far → IsSkew circuit near far skew → 1 ≤ slow
        → IsWellTimed circuit (arrives (every_quarter quarter) slow near)
        (is_past (every_quarter quarter) slow 0 far)
        → slow * skew < quarter }
{}

/// The skew of a circuit is what is computed of its cells and feeds, one after the other.
pub fn skew_is_computed()
    ensures is { (circuit : CircuitView) (near far : ℕ → ℕ)
        → ((c : ℕ) → length circuit.cells ≤ c → far c ≤ near c)
        → IsSkew circuit near far (skew_of circuit near far) }
    ensures ahead { (circuit : CircuitView) (near far : ℕ → ℕ)
        → ((c : ℕ) → length circuit.cells ≤ c → far c ≤ near c)
        → AreAheadAtMost circuit near far (even_of circuit near far) (odd_of circuit near far) }

    // The skew is the greater of what the even rows are ahead and what the odd ones are.
    ensures greater { (circuit : CircuitView) (near far : ℕ → ℕ)
        → skew_of circuit near far ≡ max (even_of circuit near far) (odd_of circuit near far) }
{}

/// Lines that are longer before their first bars, or are fed so much later, change the skew by their difference: what
/// the even rows are ahead grows by what the even line is longer and shrinks by what the odd one is.
pub fn leads_shift_the_skew()
    ensures shifted { (circuit : CircuitView) (near far : ℕ → ℕ) (even odd even_lead odd_lead skew : ℕ)
        → KeepsFacts circuit → AreAheadAtMost circuit near far even odd
        → even + even_lead ≤ skew + odd_lead → odd + odd_lead ≤ skew + even_lead
        → IsSkewAtMost circuit (led circuit even_lead odd_lead near) (led circuit even_lead odd_lead far) skew }
{}

/// The chip of an and: from the begin of its majority to the end of the cell that shows it, which is fed from there,
/// the excitation runs 86,000 nanometres further. Its even rows are ahead by this, its odd ones by the majority's width.
pub fn and_has_skew()
    ensures skew { IsSkew and_circuit and_near and_far 86000 }
    ensures even { even_of and_circuit and_near and_far ≡ 86000 }
    ensures odd { odd_of and_circuit and_near and_far ≡ 24000 }
{
    skew_is_computed();
}
