// The first fault that belongs to a line of a design.
ghost use Rattle.std.specs.Prelude.{◌≡◌, IfOk, None};
ghost use Rattle.std.specs.List.{flat_map};
ghost use Rattle.blif_flat.specs.Code.Joining.{least_of, call_faults, twice_named, model_told, IsTold};

use crate::design::FlatKind;
use crate::faults::drivers::Drivers;
use crate::faults::order::{Told, least, least_where};
use crate::faults::ports::fits;
use crate::faults::uses::uses_told;
use crate::models::indexed::Design;
use aq_base::Memory;
use blif_read::{BlifModel, Call};
use name_hash::NameHash;
use std::alloc::Global;

/// The best fault, where a call may name no model or ports that don't fit.
fn call_told(
    alloc: Global,
    hash: NameHash,
    design: &Design<'_>,
    best: Option<Told>,
    call: &Call,
) -> Result<Option<Told>, Memory>
    ensures { IfOk result (λ told. told ≡ least_of best (call_faults design.now call.now)) }
{
    match design.called(call) {
        Some(model) => {
            let fits = fits(alloc, hash, model, call)?;
            Ok(least_where(!fits, best, call.line, FlatKind::Ports))
        }
        None => Ok(least(best, call.line, FlatKind::UnknownModel)),
    }
}

fn calls_told(
    alloc: Global,
    hash: NameHash,
    design: &Design<'_>,
    best: Option<Told>,
    calls: &[Call],
) -> Result<Option<Told>, Memory>
    ensures { IfOk result (λ told. told ≡ least_of best (flat_map (call_faults design.now) calls.now)) }
{
    let mut best = best;
    for call in calls {
        best = call_told(alloc, hash, design, best, call)?;
    }
    Ok(best)
}

/// The best fault, where a model may have some.
fn model_told(
    alloc: Global,
    hash: NameHash,
    design: &Design<'_>,
    best: Option<Told>,
    model: &BlifModel,
) -> Result<Option<Told>, Memory>
    ensures { IfOk result (λ told. told ≡ model_told design.now best model.now) }
{
    let best = calls_told(alloc, hash, design, best, model.calls.as_slice())?;
    let mut drivers = Drivers::new(alloc, hash, best);
    drivers.drive_model(design, model)?;
    Ok(uses_told(design, &drivers, drivers.told(), model))
}

/// The first of the models that have the name of an earlier one.
fn named_told(design: &Design<'_>, models: &[BlifModel]) -> Option<Told>
    ensures { result ≡ least_of None (twice_named design.now 0 models.now) }
{
    let mut best = None;
    for (number, model) in models.iter().enumerate() {
        let twice = design.is_twice(number, model);
        best = least_where(twice, best, model.line, FlatKind::ModelTwice);
    }
    best
}

/// The first fault that belongs to a line of the models of a design, if there is one. The hash is keyed by their text.
/// The time that it takes grows with the text, however often a model is called. It is refused for want of memory alone.
pub fn first_fault(
    alloc: Global,
    hash: NameHash,
    design: &Design<'_>,
    models: &[BlifModel],
) -> Result<Option<Told>, Memory>
    requires { design.now ≡ models.now }
    ensures { IfOk result (λ told. IsTold models.now told) }
{
    let mut best = named_told(design, models);
    for model in models {
        best = model_told(alloc, hash, design, best, model)?;
    }
    Ok(best)
}
