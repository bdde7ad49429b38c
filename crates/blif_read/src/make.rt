// A netlist from its parts.
ghost use Rattle.std.specs.Prelude.{◌≡◌, [], IfOk, IfErr, OnOk, Some, None};
ghost use Rattle.std.specs.Str.{bytes_eq};
ghost use Rattle.indexmap.specs.IndexSet.{insert_all};
ghost use Rattle.blif_read.specs.Netlist.{AreParts};
ghost use Rattle.blif_read.specs.Walk.{first_cycle};
ghost use Rattle.blif_read.specs.Made.{IfCycle};

use crate::build::Parts;
use crate::names::Names;
use crate::netlist::{Def, Netlist};
use crate::walk::{Walked, walk};
use aq_base::{List, Memory};
use indexmap::IndexSet;
use name_hash::NameHash;
use sha2::{Digest, Sha256};
use short_bytes::ShortBytes;
use std::alloc::Global;

/// Why parts give no netlist.
#[derive(Debug, Drop, PartialEq)]
pub enum MakeRefusal {
    /// The first cycle: signals that are each computed from the next, and the last from the first.
    Cycle { signals: List<u32> },
    /// Want of memory.
    Memory,
}

impl From<Memory> for MakeRefusal {
    ghost use Rattle.std.specs.Prelude.{◌≡◌};
    ghost use Rattle.blif_read.specs.declared.make.MakeRefusal.TheVariants.{Memory as NoMemory};

    ghost from_gives = { λ _ refusal. refusal ≡ NoMemory };

    fn from(_: Memory) -> Self {
        MakeRefusal::Memory
    }
}

/// The hash of names, whose key is a digest of all of them. Only the time that an index takes depends on it.
fn hash_of(names: &[ShortBytes]) -> NameHash {
    let mut digest = Sha256::new();
    for name in names {
        digest.update(name.as_slice());
        digest.update(b" ");
    }
    NameHash::by_key(digest.finalize())
}

/// Copies of names, each once.
fn index_of(alloc: Global, names: &[ShortBytes]) -> Result<Names, Memory>
    ensures { IfOk result (λ index. index.keys ≡ insert_all bytes_eq [] names.now) }
{
    let mut index = IndexSet::with_hasher(alloc, hash_of(names));
    for name in names {
        let copy = name.clone()?;
        index.insert(copy)?;
    }
    Ok(index)
}

/// Copies of definitions and outputs.
fn copy_of(defs: &List<Def>, outputs: &List<u32>) -> Result<Parts, Memory>
    ensures { IfOk result (λ parts. parts ≡ record { defs = defs.now; outputs = outputs.now }) }
{
    Ok(Parts {
        defs: defs.clone()?,
        outputs: outputs.clone()?,
    })
}

/// The netlist of these parts: the names of all signals, of which the first `inputs` are inputs, the definitions of the
/// others, in order, and the signals of the outputs. `Cycle` is answered exactly where the definitions have a cycle,
/// and has the first that a walk closes, which takes definitions in order and the inputs of each in order. It is
/// refused otherwise for want of memory alone.
pub fn make_netlist(
    alloc: Global,
    inputs: u32,
    names: &List<ShortBytes>,
    defs: &List<Def>,
    outputs: &List<u32>,
) -> Result<Netlist, MakeRefusal>
    requires { AreParts (record { inputs = inputs; names = names.now; defs = defs.now; outputs = outputs.now }) }
    ensures ok { IfOk result (λ net. net
        ≡ record { inputs = inputs; names = names.now; defs = defs.now; outputs = outputs.now }) }
    ensures sound { OnOk result (first_cycle inputs defs.now ≡ None) }
    ensures cycle { IfErr result (λ refusal. IfCycle refusal (λ signals. first_cycle inputs defs.now
        ≡ Some signals)) }
{
    match walk(alloc, inputs, defs.as_slice())? {
        Walked::Order(order) => {
            let names = index_of(alloc, names.as_slice())?;
            let parts = copy_of(defs, outputs)?;
            Ok(Netlist::new(inputs, names, parts, order))
        }
        Walked::Cycle(signals) => Err(MakeRefusal::Cycle {
            signals: List::from_vec(signals),
        }),
    }
}
