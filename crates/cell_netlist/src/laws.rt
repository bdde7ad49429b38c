// The law of first faults: what is told of a netlist is one thing.
ghost use Rattle.std.specs.Prelude.{◌≡◌, ℕ, Bool, List};
ghost use Rattle.blif_read.specs.Parts.{NetView};
ghost use Rattle.cell_netlist.specs.Told.{IsNetOfCells, HasFirstFault};
ghost use Rattle.cell_netlist.specs.declared.fault.CellFault.{CellFault as Fault};

/// Two first faults of a netlist are the same, and a netlist of cells has none; two last levels of one are the same. So
/// what `cell_levels` answers is determined, but for want of memory and levels that are told of names.
pub fn one_first_fault()
    ensures fault { (net : NetView) (three : Bool) (m n : ℕ) (j k : Fault) → HasFirstFault net three m j
        → HasFirstFault net three n k → (m ≡ n) × (j ≡ k) }
    ensures none { (net : NetView) (three : Bool) (levels : List ℕ) (last line : ℕ) (kind : Fault)
        → IsNetOfCells net three levels last → HasFirstFault net three line kind → ⊥ }
    ensures last { (net : NetView) (three : Bool) (levels others : List ℕ) (m n : ℕ)
        → IsNetOfCells net three levels m → IsNetOfCells net three others n → m ≡ n }
{}
