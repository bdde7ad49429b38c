// The models that models call, and the walk through their calls.
ghost use Rattle.std.specs.Prelude.{◌≡◌, ℕ, ◌<◌, ◌^◌, List as Items, [], length, IfOk, IfErr, None, slice_index_or};
ghost use Rattle.std.specs.Prelude.{OnOk};
ghost use Rattle.blif_read.specs.declared.models.BlifModel.{BlifModel as Model};
ghost use Rattle.blif_flat.specs.Designs.{model_number};
ghost use Rattle.blif_flat.specs.DesignFaults.{loop_of, line_to, last_of_loop, loop_line, IsRecursive};
ghost use Rattle.blif_flat.specs.Code.Numbering.{IsNumbering};
ghost use Rattle.blif_flat.specs.Code.Calls.{has_name, call_def, call_defs, IsCallOrder};

use crate::models::numbers::{Numbers, add, narrow, number_of};
use aq_base::{List, Memory};
use blif_read::{BlifModel, Call, Def, Walked, walk_from};
use indexmap::IndexMap;
use name_hash::NameHash;
use std::alloc::Global;

/// The numbers of models by their names: of models of one name, that of the first.
pub fn model_numbers<'a>(
    alloc: Global,
    hash: NameHash,
    models: &'a [BlifModel],
) -> Result<Numbers<'a>, Memory>
    requires { length models.now < 2 ^ 32 }
    ensures { IfOk result (λ numbers. IsNumbering has_name numbers.entries models.now) }
{
    let mut numbers = IndexMap::with_hasher(alloc, hash);
    numbers.reserve_exact(models.len())?;
    for (number, model) in models.iter().enumerate() {
        add(&mut numbers, model.name.as_slice(), narrow(number))?;
    }
    Ok(numbers)
}

/// The number of the model that a call names, if it names one.
pub fn called(numbers: &Numbers<'_>, call: &Call) -> Option<u32>
    ensures { (models : Items Model) → IsNumbering has_name numbers.now.entries models → result
        ≡ model_number models call.now.model }
{
    if call.model.len() == 0 {
        return None;
    }
    number_of(numbers, call.model.as_slice())
}

/// The definition that reads the models that a model calls.
fn call_def(alloc: Global, numbers: &Numbers<'_>, model: &BlifModel) -> Result<Def, Memory>
    ensures { (models : Items Model) → IsNumbering has_name numbers.now.entries models → IfOk result (λ def. def
        ≡ call_def models model.now) }
{
    let mut inputs = List::new(alloc);
    for call in model.calls.as_slice() {
        if let Some(number) = called(numbers, call) {
            inputs.push(number)?;
        }
    }
    Ok(Def {
        line: model.line,
        inputs,
        on: true,
        cubes: List::new(alloc),
    })
}

fn call_defs(
    alloc: Global,
    numbers: &Numbers<'_>,
    models: &[BlifModel],
) -> Result<List<Def>, Memory>
    requires { IsNumbering has_name numbers.now.entries models.now }
    ensures { IfOk result (λ defs. defs ≡ call_defs models.now) }
{
    let mut defs = List::from_vec(Vec::with_capacity(alloc, models.len())?);
    for model in models {
        let def = call_def(alloc, numbers, model)?;
        defs.push(def)?;
    }
    Ok(defs)
}

/// The line of the first of these calls that names the model of this number; 0 where none does.
fn line_to(numbers: &Numbers<'_>, number: u32, calls: &[Call]) -> u64
    ensures { (models : Items Model) → IsNumbering has_name numbers.now.entries models → result
        ≡ line_to models number calls.now }
{
    for call in calls {
        if let Some(found) = called(numbers, call) {
            if found == number {
                return call.line;
            }
        }
    }
    0
}

fn first_of(signals: &[u32]) -> u32
    ensures { result ≡ slice_index_or signals.now 0 0 }
{
    if signals.len() == 0 {
        return 0;
    }
    signals[0]
}

fn last_of(signals: &[u32]) -> u32
    ensures { result ≡ last_of_loop signals.now }
{
    if signals.len() == 0 {
        return 0;
    }
    signals[signals.len() - 1]
}

/// The line of the call that closes a loop of models.
fn loop_line(numbers: &Numbers<'_>, models: &[BlifModel], signals: &[u32]) -> u64
    requires { IsNumbering has_name numbers.now.entries models.now }
    ensures { result ≡ loop_line models.now signals.now }
{
    match models.get(last_of(signals) as usize) {
        Some(model) => line_to(numbers, first_of(signals), model.calls.as_slice()),
        None => 0,
    }
}

/// The first model and those that its calls lead to, each after those that it calls; or the line of the call by which a
/// walk through calls, in order, first comes back to a model that it is in.
pub fn call_order(
    alloc: Global,
    numbers: &Numbers<'_>,
    models: &[BlifModel],
) -> Result<Result<Vec<u32>, u64>, Memory>
    requires some { 0 < length models.now }
    requires few { length models.now < 2 ^ 32 }
    requires numbers { IsNumbering has_name numbers.now.entries models.now }
    ensures straight { IfOk result (λ r. OnOk r (loop_of models.now ≡ None)) }
    ensures order { IfOk result (λ r. IfOk r (λ order. IsCallOrder models.now order.items)) }
    ensures recursive { IfOk result (λ r. IfErr r (IsRecursive models.now)) }
{
    let defs = call_defs(alloc, numbers, models)?;
    match walk_from(alloc, defs.as_slice(), 0)? {
        Walked::Order(order) => Ok(Ok(order)),
        Walked::Cycle(cycle) => Ok(Err(loop_line(numbers, models, cycle.as_slice()))),
    }
}
