// The first pass: from a netlist to a net of majorities and inverters.
ghost use Rattle.std.specs.Prelude.{◌≡◌, map, IfOk};
ghost use Rattle.blif_read.specs.Netlist.{IsNetlist};
ghost use Rattle.maj_mapping.specs.Plan.{first_map};
ghost use Rattle.maj_mapping.specs.Passes.{IsMappedNet};

use crate::maker::Maker;
use crate::tables::Tables;
use crate::walk::{gates_of, walk};
use aq_base::{List, Memory};
use blif_read::Netlist;
use circuit::{Answers, Pass, PlainNet};
use std::alloc::Global;

/// The map in which each input has its gate, and no defined signal has one.
fn first_map(alloc: Global, inputs: u32, defs: usize) -> Result<List<Option<u32>>, Memory>
    ensures { IfOk result (λ gate_of. gate_of ≡ first_map inputs defs) }
{
    let mut gate_of = List::new(alloc);
    for input in 0..inputs {
        gate_of.push(Some(input))?;
    }
    for _def in 0..defs {
        gate_of.push(None)?;
    }
    Ok(gate_of)
}

/// The net of majorities and inverters that a netlist is mapped to.
fn map_net(alloc: Global, tables: &Tables, net: &Netlist) -> Result<PlainNet, Memory>
    requires { IsNetlist net.now }
    ensures { IfOk result (λ out. IsMappedNet net.now out) }
{
    let inputs = net.input_count();
    let mut maker = Maker::new(alloc, inputs)?;
    let mut gate_of = first_map(alloc, inputs, net.defs().len())?;
    for output in net.outputs().as_slice() {
        walk(alloc, tables, net, &mut maker, &mut gate_of, *output)?;
    }
    let outputs = gates_of(alloc, gate_of.as_slice(), net.outputs().as_slice())?;
    Ok(PlainNet {
        inputs,
        gates: maker.into_gates(),
        outputs: List::from_vec(outputs),
    })
}

/// Maps netlists to nets of majorities and inverters. A netlist gives one net; it is refused for want of memory alone.
#[derive(Drop)]
pub struct MapPass {
    tables: Tables,
}

impl MapPass {
    /// Makes the tables of recipes.
    pub fn new(alloc: Global) -> Result<Self, Memory> {
        Ok(MapPass {
            tables: Tables::new(alloc)?,
        })
    }
}

impl Pass<Netlist> for MapPass {
    ghost use Rattle.maj_mapping.specs.Passes.{IsMappedNet};

    type Out = PlainNet;

    type Refusal = Memory;

    ghost may_give = { λ s net out. IsMappedNet net out };

    ghost may_meet = { λ s net refusal. ⊥ };

    ghost is_memory = { λ refusal. Unit {0} };

    ghost keeps = { λ s net out given. given.same };

    fn run(&self, alloc: Global, from: &Netlist) -> Result<PlainNet, Memory> {
        from.known();
        map_net(alloc, &self.tables, from)
    }
}
