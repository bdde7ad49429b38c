// The literal of one definition.
ghost use Rattle.std.specs.Prelude.{◌≤◌, length, map, IfOk, IfSome};
ghost use Rattle.mig.specs.Graphs.{literal_value};
ghost use Rattle.mig.specs.Building.{Grown, Gives, AllThere};
ghost use Rattle.mig_from_netlist.specs.Code.Covers.{cover, HavePlanes};

use crate::cover::cover_table;
use crate::cubes::by_cubes;
use crate::decompose::decompose;
use blif_read::Def;
use mig::{Builder, GraphRefusal};
use std::alloc::Global;

/// A definition with up to six inputs by its table.
fn by_table(
    alloc: Global,
    builder: &mut Builder,
    def: &Def,
    inputs: &[u32],
) -> Result<Option<u32>, GraphRefusal>
    requires few { length inputs.now ≤ 6 }
    requires there { AllThere builder.old inputs.now }
    requires planes { HavePlanes (length inputs.now) def.now.cubes }
    ensures grown { Grown builder.old builder.new }
    ensures given { IfOk result (λ o. IfSome o (λ l. Gives builder.new l
        (λ v. cover def.now (map (literal_value v) inputs.now)))) }
{
    let mut memo = Vec::new(alloc);
    let table = cover_table(def);
    decompose(builder, &mut memo, inputs, table, 6)
}

/// The literal of a definition whose inputs have these literals.
pub(crate) fn define(
    alloc: Global,
    builder: &mut Builder,
    def: &Def,
    inputs: &[u32],
) -> Result<u32, GraphRefusal>
    requires there { AllThere builder.old inputs.now }
    requires planes { HavePlanes (length inputs.now) def.now.cubes }
    ensures grown { Grown builder.old builder.new }
    ensures given { IfOk result (λ l. Gives builder.new l
        (λ v. cover def.now (map (literal_value v) inputs.now))) }
{
    if inputs.len() > 6 {
        return by_cubes(alloc, builder, def, inputs);
    }
    match by_table(alloc, builder, def, inputs)? {
        Some(literal) => Ok(literal),
        None => by_cubes(alloc, builder, def, inputs),
    }
}
