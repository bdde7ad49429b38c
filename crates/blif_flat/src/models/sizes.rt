// The size of a design.
ghost use Rattle.std.specs.Prelude.{◌≡◌, ℕ, ◌+◌, ◌-◌, ◌*◌, ◌^◌, ◌<◌, ◌++◌, List as Items, [], length, reverse, min};
ghost use Rattle.std.specs.Prelude.{IfOk, OnOk, slice_index_or};
ghost use Rattle.std.specs.List.{sum_by};
ghost use Rattle.blif_read.specs.declared.models.BlifModel.{BlifModel as Model};
ghost use Rattle.blif_flat.specs.Designs.{model_number};
ghost use Rattle.blif_flat.specs.DesignSize.{definition_size, design_size};
ghost use Rattle.blif_flat.specs.Code.Numbering.{IsNumbering};
ghost use Rattle.blif_flat.specs.Code.Calls.{has_name, IsCallOrder};
ghost use Rattle.blif_flat.specs.Code.Sizes.{told, called_size, told_at, size_by, TellsCalls};

use crate::models::calls::called;
use crate::models::indexed::{Design, IndexedModel};
use crate::models::numbers::Numbers;
use aq_base::Memory;
use blif_read::{BlifModel, Call, NamedDef};
use std::alloc::Global;

/// The size of a definition, or `u64::MAX` where that is larger, as for all sizes here.
fn definition_size(def: &NamedDef) -> u64
    ensures { result ≡ told (definition_size def.now) }
{
    let mut size = 1_u64.saturating_add(def.inputs.len() as u64);
    size = size.saturating_add(def.cubes.len() as u64);
    for cube in def.cubes.as_slice() {
        size = size.saturating_add(cube.plane.len() as u64);
    }
    size
}

/// What the table has for a model; 0 past its end.
fn entry(table: &[u64], number: u32) -> u64
    ensures { result ≡ slice_index_or table.now number 0 }
{
    if (number as usize) < table.len() {
        table[number as usize]
    } else {
        0
    }
}

/// What the table has for a call.
fn call_size(numbers: &Numbers<'_>, table: &[u64], call: &Call) -> u64
    ensures { (models : Items Model) → IsNumbering has_name numbers.now.entries models → result
        ≡ told_at table.now (model_number models call.now.model) }
{
    match called(numbers, call) {
        Some(number) => entry(table, number),
        None => 1,
    }
}

fn definitions_size(defs: &[NamedDef]) -> u64
    ensures { result ≡ told (sum_by definition_size defs.now) }
{
    let mut size = 0_u64;
    for def in defs {
        size = size.saturating_add(definition_size(def));
    }
    size
}

/// The size of a model, where the table has those of the calls of models that it calls.
fn model_size(numbers: &Numbers<'_>, table: &[u64], model: &BlifModel) -> u64
    ensures { (models : Items Model) → IsNumbering has_name numbers.now.entries models → result
        ≡ told (size_by models table.now model.now) }
{
    let mut size = definitions_size(model.defs.as_slice());
    for call in model.calls.as_slice() {
        size = size.saturating_add(call_size(numbers, table, call));
    }
    size
}

/// What a call of a model takes, which has this size.
fn called_size(model: &IndexedModel<'_>, size: u64) -> u64
    ensures { result ≡ told (called_size model.now size) }
{
    let inputs = 4_u64.saturating_mul(model.inputs().len() as u64);
    let outputs = 4_u64.saturating_mul(model.outputs().len() as u64);
    1_u64
        .saturating_add(inputs)
        .saturating_add(outputs)
        .saturating_add(size)
}

/// What calls of the models in an order take, by the numbers of models.
fn call_sizes(
    alloc: Global,
    numbers: &Numbers<'_>,
    design: &Design<'_>,
    models: &[BlifModel],
    order: &[u32],
) -> Result<Vec<u64>, Memory>
    requires same { design.now ≡ models.now }
    requires numbers { IsNumbering has_name numbers.now.entries models.now }
    requires order { IsCallOrder models.now order.now }
    ensures { IfOk result (λ table. TellsCalls models.now (reverse order.now) table.items) }
{
    let mut table = vec![in alloc; 0_u64; models.len()]?;
    for number in order {
        let at = *number as usize;
        let size = model_size(numbers, &table, &models[at]);
        table[at] = called_size(design.at(at), size);
    }
    Ok(table)
}

/// The size of a design whose models stand in this order, each after those that it calls.
pub fn design_size(
    alloc: Global,
    numbers: &Numbers<'_>,
    design: &Design<'_>,
    models: &[BlifModel],
    order: &[u32],
) -> Result<u64, Memory>
    requires same { design.now ≡ models.now }
    requires some { 0 < length models.now }
    requires numbers { IsNumbering has_name numbers.now.entries models.now }
    requires order { IsCallOrder models.now order.now }
    ensures { IfOk result (λ size. size ≡ min (design_size models.now) (2 ^ 64 - 1)) }
{
    let table = call_sizes(alloc, numbers, design, models, order)?;
    Ok(model_size(numbers, &table, &models[0]))
}
