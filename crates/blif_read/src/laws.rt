// Laws of what texts and netlists mean.
ghost use Rattle.std.specs.Prelude.{◌≡◌, ◌<◌, ◌≤◌, ◌^◌, ◌⊎◌, ℕ, Bool, List, Some, length};
ghost use Rattle.blif_read.specs.declared.netlist.BlifFault.{BlifFault};
ghost use Rattle.blif_read.specs.declared.netlist.Def.{Def};
ghost use Rattle.blif_read.specs.Parts.{NetView, operands};
ghost use Rattle.blif_read.specs.declared.models.BlifModel.{BlifModel};
ghost use Rattle.blif_read.specs.Says.{SaysNet, Fault};
ghost use Rattle.blif_read.specs.Models.{SaysModels, ModelsFault};
ghost use Rattle.blif_read.specs.Equations.{Fits};
ghost use Rattle.blif_read.specs.Netlist.{IsNetlist};
ghost use Rattle.blif_read.specs.Walk.{first_cycle, IsCycle};

/// Each text says a netlist or has a first fault: exactly one of the two, and exactly one netlist or fault.
pub fn each_text()
    ensures some { (text : List ℕ) →
        ((net : NetView) × SaysNet text net) ⊎ ((fault : BlifFault) × Fault text fault) }
    ensures one_netlist { (text : List ℕ) (a b : NetView) → SaysNet text a → SaysNet text b → a ≡ b }
    ensures one_fault { (text : List ℕ) (a b : BlifFault) → Fault text a → Fault text b → a ≡ b }
    ensures not_both { (text : List ℕ) (net : NetView) (fault : BlifFault) →
        SaysNet text net → Fault text fault → ⊥ }
{}

/// Each text says models or has a first fault of its models: exactly one of the two, and exactly one list or fault.
pub fn each_design()
    ensures some { (text : List ℕ) →
        ((models : List BlifModel) × SaysModels text models) ⊎ ((fault : BlifFault) × ModelsFault text fault) }
    ensures one_list { (text : List ℕ) (a b : List BlifModel) → SaysModels text a → SaysModels text b → a ≡ b }
    ensures one_fault { (text : List ℕ) (a b : BlifFault) → ModelsFault text a → ModelsFault text b → a ≡ b }
    ensures not_both { (text : List ℕ) (models : List BlifModel) (fault : BlifFault) →
        SaysModels text models → ModelsFault text fault → ⊥ }
{}

/// A text of at most 2^28 bytes that says a netlist says one that keeps the facts of netlists.
pub fn each_netlist()
    ensures { (text : List ℕ) (net : NetView) → length text ≤ 2 ^ 28 → SaysNet text net → IsNetlist net }
{}

/// A netlist has exactly one valuation of its signals that fits a word.
pub fn each_word()
    ensures some { (net : NetView) (word : List Bool) → IsNetlist net →
        (v : ℕ → Bool) × Fits net.inputs net.defs word v }
    ensures only { (net : NetView) (word : List Bool) (v w : ℕ → Bool) → IsNetlist net →
        Fits net.inputs net.defs word v → Fits net.inputs net.defs word w →
        (s : ℕ) → s < length net.names → v s ≡ w s }
{}

/// The first cycle is one: each signal is followed by an operand of its definition, and the last leads to the first.
pub fn each_cycle()
    ensures { (inputs : ℕ) (defs : List Def) (cycle : List ℕ) →
        first_cycle inputs defs ≡ Some cycle → IsCycle (operands inputs defs) cycle }
{}
