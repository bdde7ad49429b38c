// All wires of a design's netlist, in the order of their numbers.
ghost use Rattle.std.specs.Prelude.{◌≡◌, ◌+◌, ◌++◌, ◌<◌, ◌≤◌, ◌^◌, length, reverse, IfOk, OnOk, MatchOption};
ghost use Rattle.blif_flat.specs.Designs.{model_at, no_model};
ghost use Rattle.blif_flat.specs.DesignSize.{design_size, size_limit};
ghost use Rattle.blif_flat.specs.DesignText.{IsLaidOut};
ghost use Rattle.blif_flat.specs.Expansion.{wires};
ghost use Rattle.blif_flat.specs.Code.Calls.{IsCallOrder};
ghost use Rattle.blif_flat.specs.Code.Linked.{HasLinks};
ghost use Rattle.blif_flat.specs.Code.Wired.{wires_of, begun, put_in, links_at};

use crate::models::indexed::Design;
use crate::models::links::{Link, Links, link_table};
use aq_base::Memory;
use blif_read::BlifModel;
use std::alloc::Global;

/// A wire: the call that it stands in, 0 for the first model itself, and its name in the model.
#[derive(Clone, Copy)]
pub struct Place<'a> {
    pub call: u32,
    pub name: &'a [u8],
}

/// A model whose wires are listed: the call that it stands for, its call that is left next, and its calls that follow.
#[derive(Clone, Copy)]
pub struct Frame<'a, 'b> {
    pub call: u32,
    pub left: Option<&'b Link<'a>>,
    pub rest: &'b [Link<'a>],
}

/// Adds the wires that a call begins with: those of its model's inputs, and of what the model itself defines.
fn begin<'a>(places: &mut Vec<Place<'a>>, call: u32, model: &'a BlifModel) -> Result<(), Memory>
    ensures { OnOk result (wires_of places.new.items ≡ wires_of places.old.items ++ begun call model.now) }
{
    for input in model.inputs.as_slice() {
        let name = input.name.as_slice();
        places.push(Place { call, name })?;
    }
    for def in model.defs.as_slice() {
        let name = def.output.as_slice();
        places.push(Place { call, name })?;
    }
    Ok(())
}

/// Adds the wires of the caller that a call ends with, where one is left.
fn leave<'a>(places: &mut Vec<Place<'a>>, call: u32, left: Option<&Link<'a>>) -> Result<(), Memory>
    ensures { OnOk result (wires_of places.new.items ≡ wires_of places.old.items ++ put_in call left.entry) }
{
    if let Some(link) = left {
        for name in link.actuals.as_slice() {
            places.push(Place { call, name })?;
        }
    }
    Ok(())
}

/// The model of a number, if there is one.
fn model_at(models: &[BlifModel], number: Option<u32>) -> Option<&BlifModel>
    ensures { MatchOption result (model_at models.now number ≡ no_model) (λ m. m.now ≡ model_at models.now number) }
{
    match number {
        Some(number) => models.get(number as usize),
        None => None,
    }
}

/// Adds the wires that a call begins with, where there is a model of this number.
fn begin_called<'a>(
    models: &'a [BlifModel],
    places: &mut Vec<Place<'a>>,
    call: u32,
    model: Option<u32>,
) -> Result<(), Memory>
    ensures { OnOk result
        (wires_of places.new.items ≡ wires_of places.old.items ++ begun call (model_at models.now model)) }
{
    match model_at(models, model) {
        Some(model) => begin(places, call, model),
        None => Ok(()),
    }
}

/// The links of the model of a number.
fn links_at<'a, 'b>(table: &'b [Links<'a>], model: Option<u32>) -> &'b [Link<'a>]
    ensures { result.now ≡ links_at table.now model }
{
    match model {
        Some(model) if (model as usize) < table.len() => table[model as usize].as_slice(),
        _ => &[],
    }
}

/// The number of the next call.
fn next_call(calls: u32) -> u32
    requires { calls + 1 < 2 ^ 32 }
    ensures { result ≡ calls + 1 }
{
    calls + 1
}

/// All wires, by the links of the models that the first one leads to.
fn linked_wires<'a>(
    alloc: Global,
    models: &'a [BlifModel],
    table: &[Links<'a>],
    order: &[u32],
) -> Result<Vec<Place<'a>>, Memory>
    requires laid_out { IsLaidOut models.now }
    requires small { design_size models.now ≤ size_limit }
    requires some { 0 < length models.now }
    requires order { IsCallOrder models.now order.now }
    requires links { HasLinks models.now (reverse order.now) table.now }
    ensures { IfOk result (λ places. wires_of places.items ≡ wires models.now) }
{
    let mut places = Vec::new(alloc);
    let mut frames = Vec::new(alloc);
    let mut calls = 0_u32;
    begin(&mut places, 0, &models[0])?;
    frames.push(Frame {
        call: 0,
        left: None,
        rest: links_at(table, Some(0)),
    })?;
    while let Some(frame) = frames.pop() {
        leave(&mut places, frame.call, frame.left)?;
        if let Some((link, rest)) = frame.rest.split_first() {
            frames.push(Frame {
                call: frame.call,
                left: Some(link),
                rest,
            })?;
            calls = next_call(calls);
            begin_called(models, &mut places, calls, link.model)?;
            frames.push(Frame {
                call: calls,
                left: None,
                rest: links_at(table, link.model),
            })?;
        }
    }
    Ok(places)
}

/// All wires of the netlist of a design without faults, in the order of their numbers, where its models stand in an
/// order of calls. It is refused for want of memory alone.
pub fn wires<'a>(
    alloc: Global,
    design: &Design<'_>,
    models: &'a [BlifModel],
    order: &[u32],
) -> Result<Vec<Place<'a>>, Memory>
    requires same { design.now ≡ models.now }
    requires laid_out { IsLaidOut models.now }
    requires small { design_size models.now ≤ size_limit }
    requires some { 0 < length models.now }
    requires order { IsCallOrder models.now order.now }
    ensures { IfOk result (λ places. wires_of places.items ≡ wires models.now) }
{
    let table = link_table(alloc, design, models, order)?;
    linked_wires(alloc, models, table.as_slice(), order)
}
