// The literals of the signals of a netlist.
ghost use Rattle.std.specs.Prelude.{OnOk};
ghost use Rattle.blif_read.specs.Netlist.{IsNetlist};
ghost use Rattle.mig.specs.Carried.{AreLiterals};
ghost use Rattle.mig_from_netlist.specs.Code.Mapped.{IsMapped};

use crate::define::define;
use aq_base::List;
use blif_read::Netlist;
use circuit::Answers;
use mig::{Builder, GraphRefusal, literals_of};
use std::alloc::Global;

/// Gives a signal the literal of its definition, where its inputs have theirs.
fn leave(
    alloc: Global,
    net: &Netlist,
    builder: &mut Builder,
    literal_of: &mut List<Option<u32>>,
    signal: u32,
) -> Result<(), GraphRefusal>
    requires net { IsNetlist net.now }
    requires mapped { IsMapped net.now builder.old literal_of.old }
    ensures mapped { OnOk result (IsMapped net.now builder.new literal_of.new) }
{
    let inputs = net.input_count();
    if signal < inputs {
        return Ok(());
    }
    let place = (signal - inputs) as usize;
    if place >= net.defs().len() {
        return Ok(());
    }
    let def = net.defs().get(place);
    let Some(literals) = literals_of(alloc, literal_of.as_slice(), def.inputs.as_slice())? else {
        return Ok(());
    };
    let literal = define(alloc, builder, def, &literals)?;
    literal_of.set(signal as usize, Some(literal));
    Ok(())
}

/// Gives signals their literals, in order.
pub(crate) fn walk(
    alloc: Global,
    net: &Netlist,
    builder: &mut Builder,
    literal_of: &mut List<Option<u32>>,
    order: &[u32],
) -> Result<(), GraphRefusal>
    requires net { IsNetlist net.now }
    requires mapped { IsMapped net.now builder.old literal_of.old }
    ensures mapped { OnOk result (IsMapped net.now builder.new literal_of.new) }
{
    for signal in order {
        leave(alloc, net, builder, literal_of, *signal)?;
    }
    Ok(())
}
