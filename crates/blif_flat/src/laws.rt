// The laws of written netlists and of designs. The functions do nothing.
ghost use Rattle.std.specs.Prelude.{◌≡◌, ◌≢◌, ◌≤◌, ◌^◌, ℕ, true, List, [], ◌∷◌, map, length, codes, Some, None};
ghost use Rattle.blif_read.specs.Equations.{IsAnswer};
ghost use Rattle.blif_read.specs.Lines.{logical_lines};
ghost use Rattle.blif_read.specs.Netlist.{IsNetlist};
ghost use Rattle.blif_read.specs.Parts.{NetView};
ghost use Rattle.blif_read.specs.declared.models.BlifModel.{BlifModel};
ghost use Rattle.blif_flat.specs.DesignExamples as examples;
ghost use Rattle.blif_flat.specs.DesignFaults.{loop_of, loop_line};
ghost use Rattle.blif_flat.specs.DesignSize.{design_size};
ghost use Rattle.blif_flat.specs.DesignText.{is_design, IsBuildable, IsNetlistRefusal, OfModels, SaysNetlist};
ghost use Rattle.blif_flat.specs.Expansion.{expansion, wires, told_name};
ghost use Rattle.blif_flat.specs.declared.design.FlatRefusal.{FlatRefusal};
ghost use Rattle.blif_flat.specs.declared.design.FlatRefusal.TheVariants.{Memory};
ghost use Rattle.blif_flat.specs.Meaning.{models_in, inputs_of, outputs_of, TextAnswers};
ghost use Rattle.blif_flat.specs.NetMeaning.{NetMeans};
ghost use Rattle.circuit.specs.SameAnswers.{SameAnswers};
ghost use Rattle.circuit_extracted.specs.Circuits.{CircuitView, KeepsFacts};
ghost use Rattle.blif_flat.specs.Written.{AnswersAsWritten};

/// The text of a circuit that keeps what every extracted circuit keeps has no fault, and the netlist that it says
/// answers every word as the circuit does.
pub fn written_answers()
    ensures { (circuit : CircuitView) → KeepsFacts circuit → AnswersAsWritten circuit }
{}

/// A text says at most one netlist. One that says a netlist is refused for want of memory alone, and where it has at
/// most 2^27 bytes the netlist keeps the facts of netlists.
pub fn each_design()
    ensures one_netlist { (text : List ℕ) (net other : NetView) → SaysNetlist text net → SaysNetlist text other
        → net ≡ other }
    ensures not_both { (text : List ℕ) (net : NetView) (refusal : FlatRefusal) → SaysNetlist text net
        → IsNetlistRefusal text refusal → refusal ≡ Memory }
    ensures keeps { (text : List ℕ) (net : NetView) → length text ≤ 2 ^ 27 → SaysNetlist text net → IsNetlist net }
{}

/// Of two refusals of a text that are no want of memory each is the other.
pub fn one_refusal()
    ensures { (text : List ℕ) (refusal other : FlatRefusal) → refusal ≢ Memory → other ≢ Memory
        → IsNetlistRefusal text refusal → IsNetlistRefusal text other → refusal ≡ other }
{}

/// The netlist that a design without faults is expanded to answers each word as the design's first model does.
pub fn design_answers()
    ensures expansion { (models : List BlifModel) → IsBuildable models → NetMeans models (expansion models) }
    ensures text { (text : List ℕ) (net : NetView) → is_design (logical_lines text) ≡ true → SaysNetlist text net
        → OfModels text (λ models. NetMeans models net) }
{}

/// The netlist that a text says answers each word as the first of the text's models does, of which it has the numbers of
/// inputs and outputs. A text without calls and with one `.model` at most is one model.
pub fn netlist_answers()
    ensures { (text : List ℕ) (net : NetView) → SaysNetlist text net
        → SameAnswers (inputs_of text) net.inputs (outputs_of text) (length net.outputs) (TextAnswers text)
        (IsAnswer net) }
{}

/// A half adder in a call: buffers into the call, its two definitions, and buffers out of it. A call inside the first
/// of two calls has number 2, and the second has number 3. A model that calls itself does so in line 4.
pub fn worked_designs()
    ensures names { (expansion (models_in examples.half_adder)).names ≡ codes "a" ∷ codes "b" ∷ codes "#2"
        ∷ codes "#3" ∷ codes "#4" ∷ codes "#5" ∷ codes "s" ∷ codes "c" ∷ [] }
    ensures told { map told_name (wires (models_in examples.half_adder)) ≡ codes "a" ∷ codes "b"
        ∷ codes "#1.x" ∷ codes "#1.y" ∷ codes "#1.p" ∷ codes "#1.q" ∷ codes "s" ∷ codes "c" ∷ [] }
    ensures defs { (expansion (models_in examples.half_adder)).defs
        ≡ examples.def_at 4 (0 ∷ []) (codes "1" ∷ []) ∷ examples.def_at 4 (1 ∷ []) (codes "1" ∷ [])
        ∷ examples.def_at 9 (2 ∷ 3 ∷ []) (codes "10" ∷ codes "01" ∷ [])
        ∷ examples.def_at 12 (2 ∷ 3 ∷ []) (codes "11" ∷ [])
        ∷ examples.def_at 4 (4 ∷ []) (codes "1" ∷ []) ∷ examples.def_at 4 (5 ∷ []) (codes "1" ∷ []) ∷ [] }
    ensures outputs { (expansion (models_in examples.half_adder)).outputs ≡ 6 ∷ 7 ∷ [] }
    ensures size { design_size (models_in examples.half_adder) ≡ 32 }
    ensures nested { map told_name (wires (models_in examples.nested)) ≡ codes "a" ∷ codes "#1.i"
        ∷ codes "#2.i" ∷ codes "#2.o" ∷ codes "#1.o" ∷ codes "t" ∷ codes "#3.i" ∷ codes "#3.o" ∷ codes "y" ∷ [] }
    ensures straight { loop_of (models_in examples.nested) ≡ None }
    ensures itself { loop_of (models_in examples.calls_itself) ≡ Some (0 ∷ []) }
    ensures in_line { loop_line (models_in examples.calls_itself) (0 ∷ []) ≡ 4 }
{}
