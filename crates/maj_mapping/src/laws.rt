// Laws of the mapping.
ghost use Rattle.std.specs.Prelude.{ℕ, List, length, ◌+◌, ◌*◌, ◌≤◌, ◌<◌, ◌^◌};
ghost use Rattle.circuit.specs.declared.gate.Gate.{Gate};
ghost use Rattle.circuit.specs.PlainNets.{AreGates};
ghost use Rattle.blif_read.specs.declared.netlist.Def.{Def};
ghost use Rattle.blif_read.specs.Netlist.{IsNetlist};
ghost use Rattle.blif_read.specs.Parts.{NetView};
ghost use Rattle.maj_mapping.specs.Counts.{AllBelow};
ghost use Rattle.maj_mapping.specs.Values.{HasPlanes};
ghost use Rattle.maj_mapping.specs.Covers.{define};
ghost use Rattle.maj_mapping.specs.Counts.{cube_literals, most_of_all};
ghost use Rattle.maj_mapping.specs.Passes.{IsMappedNet};
ghost use Rattle.maj_mapping.specs.Plan.{map_net};

/// A definition adds at most twice as many gates as its cubes have bytes `0` and `1`, one for each row, and ten.
pub fn few_gates_each()
    ensures { (inputs : ℕ) (gates : List Gate) (operands : List ℕ) (def : Def)
        → AreGates inputs gates → AllBelow (length gates) operands → HasPlanes def.cubes
        → length (define inputs gates operands def).gates
        ≤ length gates + (2 * cube_literals def.cubes + length def.cubes + 10) }
{}

/// The net of a netlist has at most a gate for each input, the two constants, and what each definition adds at most.
pub fn few_gates_in_all()
    ensures { (net : NetView) → IsNetlist net
        → length (map_net net).gates ≤ net.inputs + 2 + most_of_all net.defs }
{}

/// The pass may give the plan of a netlist, since it may refuse nothing but want of memory.
pub fn mapping_given()
    ensures { (net : NetView) → IsNetlist net → IsMappedNet net (map_net net) }
{}

/// The net of a netlist has fewer than 2^32 gates.
pub fn few_gates()
    ensures { (net : NetView) → IsNetlist net → length (map_net net).gates < 2 ^ 32 }
{}
