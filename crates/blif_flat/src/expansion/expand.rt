// The netlist that models are expanded to.
ghost use Rattle.std.specs.Prelude.{◌≡◌, ◌<◌, length, IfOk, IfErr};
ghost use Rattle.blif_read.specs.Netlist.{AreParts};
ghost use Rattle.blif_flat.specs.DesignText.{IsBuildable, SaysExpansion};
ghost use Rattle.blif_flat.specs.Expansion.{expansion};
ghost use Rattle.blif_flat.specs.Code.Calls.{IsCallOrder};
ghost use Rattle.blif_flat.specs.Code.Building.{IsModelsRefusal};

use crate::design::FlatRefusal;
use crate::expansion::ends::output_numbers;
use crate::expansion::finish::finish;
use crate::expansion::tables::definitions_of;
use crate::expansion::wires::wires;
use crate::models::indexed::Design;
use crate::models::numbers::narrow;
use blif_read::{BlifModel, Netlist};
use name_hash::NameHash;
use std::alloc::Global;

/// The netlist that models without faults are expanded to, whose models stand in this order.
pub fn expand(
    alloc: Global,
    hash: NameHash,
    design: &Design<'_>,
    models: &[BlifModel],
    order: &[u32],
) -> Result<Netlist, FlatRefusal>
    requires same { design.now ≡ models.now }
    requires some { 0 < length models.now }
    requires buildable { IsBuildable models.now }
    requires parts { AreParts (expansion models.now) }
    requires order { IsCallOrder models.now order.now }
    ensures ok { IfOk result (λ net. SaysExpansion net models.now) }
    ensures err { IfErr result (IsModelsRefusal models.now) }
{
    let first = &models[0];
    let places = wires(alloc, design, models, order)?;
    let defs = definitions_of(alloc, hash, design, models, order)?;
    let outputs = output_numbers(alloc, hash, places.as_slice(), first.outputs.as_slice())?;
    let inputs = narrow(first.inputs.len());
    finish(alloc, inputs, places.as_slice(), &defs, &outputs)
}
