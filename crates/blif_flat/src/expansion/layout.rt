// Blocks of models laid out as definitions, with a stack of calls of its own.
ghost use Rattle.std.specs.Prelude.{◌≡◌, ◌+◌, ◌<◌, ◌^◌, [], length, IfOk, slice_index_or};
ghost use Rattle.std.specs.List.{AllByRecursion};
ghost use Rattle.blif_flat.specs.Code.Blocks.{moved, laid_out, AreStraight, HaveRoom};

use crate::expansion::pieces::{Block, Piece};
use aq_base::{List, Memory};
use blif_read::Def;
use std::alloc::Global;

/// A block that is laid out: its model, the wire that it starts at, and how many of its pieces were taken.
#[derive(Clone, Copy)]
pub struct Frame {
    pub model: u32,
    pub base: u32,
    pub next: usize,
}

/// The pieces of a model's block.
fn pieces_of(blocks: &[Block], model: u32) -> &[Piece]
    ensures { result.now ≡ slice_index_or blocks.now model [] }
{
    if (model as usize) < blocks.len() {
        blocks[model as usize].as_slice()
    } else {
        &[]
    }
}

/// The number of the wire at a place.
fn wire_at(base: u32, place: u32) -> u32
    requires { base + place < 2 ^ 32 }
    ensures { result ≡ base + place }
{
    base + place
}

/// A definition of a block, with numbers of wires in place of places.
fn moved(alloc: Global, base: u32, def: &Def) -> Result<Def, Memory>
    requires { AllByRecursion (λ p. base + p < 2 ^ 32) def.now.inputs }
    ensures { IfOk result (λ d. d ≡ moved base def.now) }
{
    let mut inputs = List::new(alloc);
    for place in def.inputs.as_slice() {
        inputs.push(wire_at(base, *place))?;
    }
    Ok(Def {
        line: def.line,
        inputs,
        on: def.on,
        cubes: def.cubes.clone()?,
    })
}

/// The definitions of the first model's block, where each call is the block of the model that it names.
pub fn lay_out(alloc: Global, blocks: &[Block]) -> Result<List<Def>, Memory>
    requires straight { AreStraight blocks.now }
    requires room { HaveRoom blocks.now }
    ensures { IfOk result (λ defs. defs ≡ laid_out blocks.now (length blocks.now) 0 0) }
{
    let mut defs = List::new(alloc);
    let mut frames = Vec::new(alloc);
    frames.push(Frame {
        model: 0,
        base: 0,
        next: 0,
    })?;
    while let Some(frame) = frames.pop() {
        let pieces = pieces_of(blocks, frame.model);
        if frame.next >= pieces.len() {
            continue;
        }
        frames.push(Frame {
            model: frame.model,
            base: frame.base,
            next: frame.next + 1,
        })?;
        match &pieces[frame.next] {
            Piece::Own(def) => {
                let def = moved(alloc, frame.base, def)?;
                defs.push(def)?;
            }
            Piece::Inner { model, start } => {
                let base = wire_at(frame.base, *start);
                frames.push(Frame {
                    model: *model,
                    base,
                    next: 0,
                })?;
            }
        }
    }
    Ok(defs)
}
