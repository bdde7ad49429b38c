// The blocks of the models of a design, model by model in the order of calls.
ghost use Rattle.std.specs.Prelude.{◌≡◌, ◌<◌, [], map, length, reverse, replicate, IfOk};
ghost use Rattle.std.specs.List.{IsDistinct};
ghost use Rattle.std.specs.Str.{bytes_eq};
ghost use Rattle.blif_read.specs.Netlist.{AreParts};
ghost use Rattle.blif_flat.specs.Designs.{names_in};
ghost use Rattle.blif_flat.specs.DesignFaults.{AreJoined};
ghost use Rattle.blif_flat.specs.DesignText.{IsLaidOut};
ghost use Rattle.blif_flat.specs.Expansion.{expansion};
ghost use Rattle.blif_flat.specs.Code.Calls.{IsCallOrder};
ghost use Rattle.blif_flat.specs.Code.Blocks.{wide, names_of, place_in, AreNarrow, HasBlocks};
ghost use Rattle.blif_flat.specs.Code.Outlines.{IsOutline};

use crate::expansion::assembly::block_of;
use crate::expansion::layout::lay_out;
use crate::expansion::pieces::Block;
use crate::models::indexed::{Design, IndexedModel};
use crate::models::names::Names;
use crate::models::outlines::{ModelPlaces, Outline};
use aq_base::{List, Memory};
use blif_read::{BlifModel, Def};
use name_hash::NameHash;
use std::alloc::Global;

/// The places of names.
fn exits_of(
    alloc: Global,
    places: &ModelPlaces<'_, '_>,
    names: &Names<'_>,
) -> Result<Vec<u32>, Memory>
    ensures { IfOk result (λ exits. exits.items ≡ map (place_in places.now) names.now) }
{
    let mut exits = Vec::new(alloc);
    for number in 0..names.len() {
        let place = places.place(names.at(number));
        exits.push(place)?;
    }
    Ok(exits)
}

/// The outline of a model, whose inputs differ.
fn outline_of(
    alloc: Global,
    places: &ModelPlaces<'_, '_>,
    model: &IndexedModel<'_>,
) -> Result<Outline, Memory>
    requires same { model.now ≡ places.now.model }
    requires distinct { IsDistinct bytes_eq (names_in places.now.model.inputs) }
    requires full { length (names_of places.now) ≡ wide places.now.models places.now.model }
    ensures { IfOk result (IsOutline places.now.models places.now.model) }
{
    let exits = exits_of(alloc, places, model.outputs())?;
    Ok(Outline {
        exits,
        width: places.width(),
    })
}

fn empty_outlines(alloc: Global, count: usize) -> Result<List<Outline>, Memory>
    ensures { IfOk result (λ outlines. length outlines ≡ count) }
{
    let mut outlines = List::from_vec(Vec::with_capacity(alloc, count)?);
    for _number in 0..count {
        outlines.push(Outline {
            exits: Vec::new(alloc),
            width: 0,
        })?;
    }
    Ok(outlines)
}

fn empty_blocks(alloc: Global, count: usize) -> Result<List<Block>, Memory>
    ensures { IfOk result (λ blocks. blocks ≡ replicate count []) }
{
    let mut blocks = List::from_vec(Vec::with_capacity(alloc, count)?);
    for _number in 0..count {
        blocks.push(List::new(alloc))?;
    }
    Ok(blocks)
}

/// The blocks of the models that stand in an order, each after those that it calls, by the numbers of models.
pub fn blocks_of(
    alloc: Global,
    hash: NameHash,
    design: &Design<'_>,
    models: &[BlifModel],
    order: &[u32],
) -> Result<List<Block>, Memory>
    requires same { design.now ≡ models.now }
    requires order { IsCallOrder models.now order.now }
    requires joined { AreJoined models.now }
    requires narrow { AreNarrow models.now (reverse order.now) }
    ensures { IfOk result (λ blocks. HasBlocks models.now (reverse order.now) blocks) }
{
    let mut outlines = empty_outlines(alloc, models.len())?;
    let mut blocks = empty_blocks(alloc, models.len())?;
    for number in order {
        let at = *number as usize;
        let model = design.at(at);
        let own = model.model();
        let places = ModelPlaces::new(alloc, hash, design, outlines.as_slice(), own)?;
        let block = block_of(alloc, outlines.as_slice(), &places)?;
        let outline = outline_of(alloc, &places, model)?;
        blocks.set(at, block);
        outlines.set(at, outline);
    }
    Ok(blocks)
}

/// The definitions of a design: those of its first model, in which each call is the model that it names, in time and
/// memory linear in the models and in what it answers.
pub fn definitions_of(
    alloc: Global,
    hash: NameHash,
    design: &Design<'_>,
    models: &[BlifModel],
    order: &[u32],
) -> Result<List<Def>, Memory>
    requires same { design.now ≡ models.now }
    requires some { 0 < length models.now }
    requires order { IsCallOrder models.now order.now }
    requires laid_out { IsLaidOut models.now }
    requires parts { AreParts (expansion models.now) }
    ensures { IfOk result (λ defs. defs ≡ (expansion models.now).defs) }
{
    let blocks = blocks_of(alloc, hash, design, models, order)?;
    let defs = lay_out(alloc, blocks.as_slice())?;
    Ok(defs)
}
