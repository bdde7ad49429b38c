// Laws of the pulse machine.
ghost use Rattle.std.specs.Prelude.{◌≡◌, ℕ, suc, ◌+◌, ◌-◌, ◌*◌, ◌%◌, ◌<◌, ◌≤◌, List, Bool, Option, Some, All, Contains};
ghost use Rattle.std.specs.Prelude.{length, slice_get, slice_index_or};
ghost use Rattle.std.specs.List.{AllZip};
ghost use Rattle.circuit_extracted.specs.declared.cells.ExCell.{ExCell};
ghost use Rattle.circuit_extracted.specs.declared.cells.Feed.TheVariants.{Pin};
ghost use Rattle.circuit_extracted.specs.Circuits.{CircuitView, KeepsFacts, IsCellAt, feed_at};
ghost use Rattle.circuit_extracted.specs.Answers.{IsValuation, IsAnswer};
ghost use Rattle.pulse_sim.specs.declared.flux.Flux.{Flux};
ghost use Rattle.pulse_sim.specs.declared.flux.Flux.TheVariants.{Off};
ghost use Rattle.pulse_sim.specs.Fluxes.{sign, EitherSign, MinusAlone};
ghost use Rattle.pulse_sim.specs.Events.{Event, Happens};
ghost use Rattle.pulse_sim.specs.Ticks.{due_from, Ticks};
ghost use Rattle.pulse_sim.specs.Runs.{IsLegalRun, IsSettledRun};
ghost use Rattle.pulse_sim.specs.Settled.{settled_tick, settled_run};
ghost use Rattle.pulse_sim.specs.Shows.{Shows};
ghost use Rattle.pulse_sim.specs.Stepping.{AreGiven, state_after};

/// Whatever the order of the events within each tick, an extracted circuit shows the answer to each word of its
/// input count one tick later for each row but the lowest. Behind it stands that each row has the values of a word
/// when its time has come, and that within a tick no cell changes that a switching cell reads.
pub fn every_order()
    ensures shows { (circuit : CircuitView) (words answers : List (List Bool)) → KeepsFacts circuit
        → All (λ word. length word ≡ circuit.inputs) words → AllZip (IsAnswer circuit) words answers
        → Shows circuit (circuit.rows - 1) words answers }

    // Row r has the values of word k after the tick of time r + 4k.
    ensures rows { (circuit : CircuitView) (words : List (List Bool)) (n : ℕ) (run : ℕ → List Flux)
        (k : ℕ) (word : List Bool) (value : ℕ → Bool) (c : ℕ) (cell : ExCell)
        → KeepsFacts circuit → IsLegalRun circuit words n run
        → slice_get words k ≡ Some word → IsValuation circuit word value → IsCellAt circuit c cell
        → cell.row + 4 * k < n
        → slice_index_or (run (suc (cell.row + 4 * k))) c Off ≡ sign (value c) }

    // An event of a tick leaves the feeds of each cell that switches in the tick as they are.
    ensures still { (circuit : CircuitView) (word : Option (List Bool)) (time : ℕ) (event : Event)
        (old new : List Flux) (c i d output : ℕ) (cell : ExCell)
        → KeepsFacts circuit → Contains (due_from time 0 circuit.cells) event
        → Happens EitherSign circuit word old event new
        → IsCellAt circuit c cell → cell.phase ≡ time % 4 → feed_at cell i ≡ Pin d output
        → slice_index_or new d Off ≡ slice_index_or old d Off }
{}

/// The settled run, in which every sign that nothing decides is minus, is a legal run of each length, so legal runs
/// exist; and it is the same whatever the order of the events within each tick.
pub fn settled_is_lawful()
    ensures lawful { (circuit : CircuitView) (word : Option (List Bool)) (time : ℕ) (old new : List Flux)
        → Ticks MinusAlone circuit word time old new → Ticks EitherSign circuit word time old new }
    ensures exists { (circuit : CircuitView) (word : Option (List Bool)) (time : ℕ) (old : List Flux)
        → KeepsFacts circuit → length old ≡ length circuit.cells
        → Ticks MinusAlone circuit word time old (settled_tick circuit word time old) }
    ensures any_order { (circuit : CircuitView) (word : Option (List Bool)) (time : ℕ) (old new : List Flux)
        → KeepsFacts circuit → length old ≡ length circuit.cells
        → Ticks MinusAlone circuit word time old new → new ≡ settled_tick circuit word time old }
    ensures settled { (circuit : CircuitView) (words : List (List Bool)) (n : ℕ)
        → KeepsFacts circuit → IsSettledRun circuit words n (settled_run circuit words) }
    ensures legal { (circuit : CircuitView) (words : List (List Bool)) (n : ℕ)
        → KeepsFacts circuit → IsLegalRun circuit words n (settled_run circuit words) }
    ensures only { (circuit : CircuitView) (words : List (List Bool)) (n : ℕ) (run : ℕ → List Flux)
        → KeepsFacts circuit → IsSettledRun circuit words n run
        → (t : ℕ) → t ≤ n → run t ≡ settled_run circuit words t }
{}

/// A circuit shows one list of answers at most to a list of words, since it has a run of every length.
pub fn shown_once()
    ensures { (circuit : CircuitView) (d : ℕ) (words answers others : List (List Bool)) → KeepsFacts circuit
        → Shows circuit d words answers → Shows circuit d words others → answers ≡ others }
{}

/// The states of a simulation after any steps are those of the machine: each step is a tick with the word that it was
/// given, and where each was given the word that is present at its time, the states make a legal run under the words.
pub fn stepping_is_legal()
    ensures ticks { (circuit : CircuitView) (steps : List (Option (List Bool))) (t : ℕ) (word : Option (List Bool))
        → KeepsFacts circuit → slice_get steps t ≡ Some word
        → Ticks EitherSign circuit word t (state_after circuit steps t) (state_after circuit steps (suc t)) }
    ensures legal { (circuit : CircuitView) (words : List (List Bool)) (steps : List (Option (List Bool)))
        → KeepsFacts circuit → AreGiven words steps
        → IsLegalRun circuit words (length steps) (state_after circuit steps) }
{}
