// The blocks of models.
ghost use Rattle.std.specs.Prelude.{◌≡◌, ◌+◌, ◌<◌, ◌^◌, ◌∷◌, ◌++◌, [], map, length, IfOk, OnOk, slice_index_or};
ghost use Rattle.std.specs.List.{AllByRecursion};
ghost use Rattle.blif_flat.specs.Designs.{model_number};
ghost use Rattle.blif_flat.specs.declared.expansion.pieces.Piece.TheVariants.{Own};
ghost use Rattle.blif_flat.specs.Code.Blocks.{wide, call_names, place_in, placed, buffer_of, call_pieces, pieces};
ghost use Rattle.blif_flat.specs.Code.Joins.{first_actual, exits_in};
ghost use Rattle.blif_flat.specs.Code.Outlines.{IsOutlined, AreOutlined};

use crate::expansion::pieces::{Block, Piece};
use crate::models::joins::{actual_in, ports_for};
use crate::models::numbers::narrow;
use crate::models::outlines::{ModelPlaces, Outline, outline_at};
use aq_base::{List, Memory};
use blif_read::{Call, Cube, Def, NamedDef};
use short_bytes::ShortBytes;
use std::alloc::Global;

/// The definition of a signal that has the value of the signal at a place.
fn buffer(alloc: Global, line: u64, from: u32) -> Result<Def, Memory>
    ensures { IfOk result (λ def. def ≡ buffer_of line from) }
{
    let mut inputs = List::new(alloc);
    inputs.push(from)?;
    let plane = ShortBytes::copy(alloc, &[b'1'])?;
    let mut cubes = List::new(alloc);
    cubes.push(Cube { plane })?;
    Ok(Def {
        line,
        inputs,
        on: true,
        cubes,
    })
}

fn copy_of(cubes: &List<Cube>) -> Result<List<Cube>, Memory>
    ensures { IfOk result (λ copy. copy ≡ cubes.now) }
{
    let copy = cubes.clone()?;
    Ok(copy)
}

/// The places of names.
fn places_in(
    alloc: Global,
    places: &ModelPlaces<'_, '_>,
    names: &[ShortBytes],
) -> Result<List<u32>, Memory>
    ensures { IfOk result (λ found. found ≡ map (place_in places.now) names.now) }
{
    let mut found = List::new(alloc);
    for name in names {
        let place = places.place(name.as_slice());
        found.push(place)?;
    }
    Ok(found)
}

/// A definition of the model, with places in place of names.
fn placed(alloc: Global, places: &ModelPlaces<'_, '_>, def: &NamedDef) -> Result<Def, Memory>
    ensures { IfOk result (λ d. d ≡ placed (place_in places.now) def.now) }
{
    let inputs = places_in(alloc, places, def.inputs.as_slice())?;
    let cubes = copy_of(&def.cubes)?;
    Ok(Def {
        line: def.line,
        inputs,
        on: def.on,
        cubes,
    })
}

fn push_defs(
    alloc: Global,
    places: &ModelPlaces<'_, '_>,
    defs: &[NamedDef],
    pieces: &mut Block,
) -> Result<(), Memory>
    ensures { OnOk result (pieces.new ≡ pieces.old ++ map (λ d. Own (placed (place_in places.now) d)) defs.now) }
{
    for def in defs {
        let def = placed(alloc, places, def)?;
        pieces.push(Piece::Own(def))?;
    }
    Ok(())
}

/// The actual of a port; empty where none is there.
fn first_actual(call: &Call, port: Option<usize>) -> &[u8]
    ensures { result.now ≡ first_actual call.now port }
{
    match actual_in(call, port) {
        Some(actual) => actual,
        None => &[],
    }
}

/// Adds the buffers from the actuals of a call's inputs.
fn push_entries(
    alloc: Global,
    places: &ModelPlaces<'_, '_>,
    call: &Call,
    ports: &[Option<usize>],
    pieces: &mut Block,
) -> Result<(), Memory>
    ensures { OnOk result (pieces.new ≡ pieces.old
        ++ map (λ p. Own (buffer_of call.now.line (place_in places.now (first_actual call.now p)))) ports.now) }
{
    for port in ports {
        let actual = first_actual(call, *port);
        let def = buffer(alloc, call.line, places.place(actual))?;
        pieces.push(Piece::Own(def))?;
    }
    Ok(())
}

fn exit_at(exits: &[u32], at: usize) -> u32
    ensures { result ≡ slice_index_or exits.now at 0 }
{
    if at < exits.len() { exits[at] } else { 0 }
}

/// The block of a called model: the line of the call, where the block starts, and the places of its outputs in it.
#[derive(Clone, Copy)]
struct CalledBlock<'a> {
    line: u64,
    start: u32,
    exits: &'a [u32],
}

/// Adds the buffer from an output, if that is joined, and answers how many it adds.
fn push_exit(
    alloc: Global,
    block: &CalledBlock<'_>,
    at: usize,
    port: Option<usize>,
    pieces: &mut Block,
) -> Result<u32, Memory>
    requires { block.now.start + slice_index_or block.now.exits.now at 0 < 2 ^ 32 }
    ensures count { IfOk result (λ count. count
        ≡ length (exits_in (port ∷ []) (slice_index_or block.now.exits.now at 0 ∷ []))) }
    ensures pieces { OnOk result (pieces.new ≡ pieces.old
        ++ map (λ e. Own (buffer_of block.now.line (block.now.start + e)))
        (exits_in (port ∷ []) (slice_index_or block.now.exits.now at 0 ∷ []))) }
{
    if port.is_none() {
        return Ok(0);
    }
    let from = block.start + exit_at(block.exits, at);
    let def = buffer(alloc, block.line, from)?;
    pieces.push(Piece::Own(def))?;
    Ok(1)
}

/// Adds the buffers from a call's outputs that are joined, and answers how many there are.
fn push_exits(
    alloc: Global,
    block: &CalledBlock<'_>,
    ports: &[Option<usize>],
    pieces: &mut Block,
) -> Result<u32, Memory>
    requires few { length (exits_in ports.now block.now.exits.now) < 2 ^ 32 }
    requires reach { AllByRecursion (λ e. block.now.start + e < 2 ^ 32) block.now.exits.now }
    ensures count { IfOk result (λ count. count ≡ length (exits_in ports.now block.now.exits.now)) }
    ensures pieces { OnOk result (pieces.new ≡ pieces.old
        ++ map (λ e. Own (buffer_of block.now.line (block.now.start + e)))
        (exits_in ports.now block.now.exits.now)) }
{
    let mut count = 0;
    for (at, port) in ports.iter().enumerate() {
        count += push_exit(alloc, block, at, *port, pieces)?;
    }
    Ok(count)
}

/// Adds the pieces of a call whose model has a block that starts at a place. Answers the place behind what the call
/// adds.
fn push_call(
    alloc: Global,
    outlines: &[Outline],
    places: &ModelPlaces<'_, '_>,
    call: &Call,
    start: u32,
    pieces: &mut Block,
) -> Result<u32, Memory>
    requires outlined { IsOutlined places.now.models outlines.now (model_number places.now.models call.now.model) }
    requires room { start + length (call_names (wide places.now.models) places.now.models call.now) < 2 ^ 32 }
    ensures pieces { OnOk result (pieces.new ≡ pieces.old
        ++ call_pieces (wide places.now.models) places.now.models places.now.model start call.now) }
    ensures next { IfOk result (λ next. next
        ≡ start + length (call_names (wide places.now.models) places.now.models call.now)) }
{
    let Some((number, model)) = places.called(call) else {
        return Ok(start);
    };
    let Some(outline) = outline_at(outlines, number) else {
        return Ok(start);
    };
    let entries = ports_for(alloc, model.input_names(), call)?;
    push_entries(alloc, places, call, &entries, pieces)?;
    pieces.push(Piece::Inner {
        model: number,
        start,
    })?;
    let joined = ports_for(alloc, model.outputs(), call)?;
    let block = CalledBlock {
        line: call.line,
        start,
        exits: outline.exits.as_slice(),
    };
    let count = push_exits(alloc, &block, &joined, pieces)?;
    let inner = start + outline.width;
    let next = inner + count;
    Ok(next)
}

/// The block of a model.
pub fn block_of(
    alloc: Global,
    outlines: &[Outline],
    places: &ModelPlaces<'_, '_>,
) -> Result<Block, Memory>
    requires { AreOutlined places.now.models outlines.now places.now.model.calls }
    ensures { IfOk result (λ block. block ≡ pieces (wide places.now.models) places.now.models places.now.model) }
{
    let model = places.model();
    let mut block = List::new(alloc);
    push_defs(alloc, places, model.defs.as_slice(), &mut block)?;
    let inputs = narrow(model.inputs.len());
    let defs = narrow(model.defs.len());
    let mut start = inputs + defs;
    for call in model.calls.as_slice() {
        start = push_call(alloc, outlines, places, call, start, &mut block)?;
    }
    Ok(block)
}
