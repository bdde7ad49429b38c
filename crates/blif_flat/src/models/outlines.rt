// The places of a model's signals in its block.
ghost use Rattle.std.specs.Prelude.{◌≡◌, ℕ, ◌+◌, ◌<◌, ◌^◌, ◌∷◌, ◌++◌, [], List as Items, map, length, Option as Maybe};
ghost use Rattle.std.specs.Prelude.{Some, None, slice_get, slice_index_or, is_some, IfOk, IfSome};
ghost use Rattle.std.specs.Option.{option_copied};
ghost use Rattle.blif_flat.specs.Designs.{model_number, no_model};
ghost use Rattle.blif_flat.specs.Code.Blocks.{call_names, block_names, wide, names_of, place_in};
ghost use Rattle.blif_flat.specs.Code.Joins.{ArePlaces};
ghost use Rattle.blif_flat.specs.Code.Outlines.{IsOutlined, AreOutlined};
ghost use Rattle.std.specs.List.{flat_map};

use crate::models::indexed::{Design, IndexedModel};
use crate::models::joins::{add_actuals, add_name, pass, place_of, ports_for};
use crate::models::numbers::Numbers;
use aq_base::Memory;
use blif_read::{BlifModel, Call, Named, NamedDef};
use indexmap::IndexMap;
use name_hash::NameHash;
use std::alloc::Global;
use std::marker::Model;

/// What callers of a model need to know of its block.
#[derive(Drop)]
pub struct Outline {
    /// The places of the outputs.
    pub exits: Vec<u32>,
    pub width: u32,
}

/// The outline of a number.
pub fn outline_at(outlines: &[Outline], number: u32) -> Option<&Outline>
    ensures { option_copied result ≡ slice_get outlines.now number }
{
    outlines.get(number as usize)
}

/// Gives the next places to what a call adds to its block.
fn add_call<'a>(
    alloc: Global,
    design: &Design<'_>,
    outlines: &[Outline],
    call: &'a Call,
    places: &mut Numbers<'a>,
    count: u32,
) -> Result<u32, Memory>
    requires outlined { IsOutlined design.now outlines.now (model_number design.now call.now.model) }
    requires room { count + length (call_names (wide design.now) design.now call.now) < 2 ^ 32 }
    ensures next { IfOk result (λ next. next ≡ count + length (call_names (wide design.now) design.now call.now)) }
    ensures places { IfOk result (λ next. (names : Items (Maybe (Items ℕ))) → ArePlaces places.old.entries count names
        → ArePlaces places.new.entries next (names ++ call_names (wide design.now) design.now call.now)) }
{
    let Some((number, model)) = design.found(call) else {
        return Ok(count);
    };
    let Some(outline) = outline_at(outlines, number) else {
        return Ok(count);
    };
    let ports = ports_for(alloc, model.outputs(), call)?;
    let inner = pass(places, count, outline.width);
    let next = add_actuals(places, inner, call, &ports)?;
    Ok(next)
}

/// Gives the next places to names.
fn add_inputs<'a>(inputs: &'a [Named], places: &mut Numbers<'a>, count: u32) -> Result<u32, Memory>
    requires { count + length inputs.now < 2 ^ 32 }
    ensures next { IfOk result (λ next. next ≡ count + length inputs.now) }
    ensures places { IfOk result (λ next. (names : Items (Maybe (Items ℕ))) → ArePlaces places.old.entries count names
        → ArePlaces places.new.entries next (names ++ flat_map (λ n. Some n.name ∷ []) inputs.now)) }
{
    let mut next = count;
    for input in inputs {
        next = add_name(places, next, input.name.as_slice())?;
    }
    Ok(next)
}

/// Gives the next places to what definitions define.
fn add_defs<'a>(defs: &'a [NamedDef], places: &mut Numbers<'a>, count: u32) -> Result<u32, Memory>
    requires { count + length defs.now < 2 ^ 32 }
    ensures next { IfOk result (λ next. next ≡ count + length defs.now) }
    ensures places { IfOk result (λ next. (names : Items (Maybe (Items ℕ))) → ArePlaces places.old.entries count names
        → ArePlaces places.new.entries next (names ++ flat_map (λ d. Some d.output ∷ []) defs.now)) }
{
    let mut next = count;
    for def in defs {
        next = add_name(places, next, def.output.as_slice())?;
    }
    Ok(next)
}

/// Gives the next places to what calls add.
fn add_calls<'a>(
    alloc: Global,
    design: &Design<'_>,
    outlines: &[Outline],
    calls: &'a [Call],
    places: &mut Numbers<'a>,
    count: u32,
) -> Result<u32, Memory>
    requires outlined { AreOutlined design.now outlines.now calls.now }
    requires room { count + length (flat_map (call_names (wide design.now) design.now) calls.now) < 2 ^ 32 }
    ensures { IfOk result (λ next. (names : Items (Maybe (Items ℕ))) → ArePlaces places.old.entries count names
        → ArePlaces places.new.entries next (names ++ flat_map (call_names (wide design.now) design.now) calls.now)) }
{
    let mut next = count;
    for call in calls {
        next = add_call(alloc, design, outlines, call, places, next)?;
    }
    Ok(next)
}

/// The places of a model's signals in its block, in a design.
#[derive(Drop)]
pub struct ModelPlaces<'a, 'b> {
    design: &'b Design<'a>,
    model: &'b BlifModel,
    numbers: Numbers<'b>,

    /// How many wires the block has.
    width: u32,
}

impl<'a, 'b> Model for ModelPlaces<'a, 'b> {
    ghost use Rattle.blif_flat.specs.Code.Blocks.{ModelIn, block_names, wide};
    ghost use Rattle.blif_flat.specs.Code.Joins.{ArePlaces};

    ghost Value = { ModelIn };

    ghost view = { λ p. record { models = p.design.now; model = p.model.now } };

    ghost invariant = { λ p. ArePlaces p.numbers.entries p.width
        (block_names (wide p.design.now) p.design.now p.model.now) };
}

impl<'a, 'b> ModelPlaces<'a, 'b> {
    /// The places of this model's signals.
    pub fn new(
        alloc: Global,
        hash: NameHash,
        design: &'b Design<'a>,
        outlines: &[Outline],
        model: &'b BlifModel,
    ) -> Result<Self, Memory>
        requires outlined { AreOutlined design.now outlines.now model.now.calls }
        requires room { length (block_names (wide design.now) design.now model.now) < 2 ^ 32 }
        ensures { IfOk result (λ places. places ≡ record { models = design.now; model = model.now }) }
    {
        let mut numbers = IndexMap::with_hasher(alloc, hash);
        let inputs = add_inputs(model.inputs.as_slice(), &mut numbers, 0)?;
        let own = add_defs(model.defs.as_slice(), &mut numbers, inputs)?;
        let width = add_calls(
            alloc,
            design,
            outlines,
            model.calls.as_slice(),
            &mut numbers,
            own,
        )?;
        Ok(ModelPlaces {
            design,
            model,
            numbers,
            width,
        })
    }

    /// The model, whose block has fewer wires than 32 bits count.
    pub fn model(&self) -> &'b BlifModel
        ensures model { result.now ≡ self.now.model }
        ensures few { length (names_of self.now) < 2 ^ 32 }
    {
        let _width = self.width;
        self.model
    }

    /// How many wires the model's block has.
    pub fn width(&self) -> u32
        ensures { result ≡ length (names_of self.now) }
    {
        self.width
    }

    /// The model that a call names, with its number, if it names one.
    pub fn called(&self, call: &Call) -> Option<(u32, &IndexedModel<'a>)>
        ensures found { is_some result ≡ is_some (model_number self.now.models call.now.model) }
        ensures number { IfSome result (λ r. model_number self.now.models call.now.model ≡ Some r.0) }
        ensures model { IfSome result (λ r. r.1.now ≡ slice_index_or self.now.models r.0 no_model) }
    {
        self.design.found(call)
    }

    /// The place of a name; behind the last where it has none.
    pub fn place(&self, name: &[u8]) -> u32
        ensures { result ≡ place_in self.now name.now }
    {
        place_of(&self.numbers, self.width, name)
    }
}
