// Blocks: where many rectangles stand in one cell, those that lie together are passed over at once.
ghost use Rattle.std.specs.Prelude.{◌≡◌, ◌+◌, ◌*◌, ◌<◌, ◌≤◌, ◌<ℤ◌, ◌≤ℤ◌, ◌^◌, length, IfOk};
ghost use Rattle.geom.specs.Code.Bounds.{Holds, HoldsSpots, AreBlocks};

use crate::index::spots::Spots;
use crate::rectangle::Rect;
use aq_base::Memory;
use std::alloc::Global;

/// A block begins at each place that is a multiple of this.
pub const BLOCK_SIZE: usize = 8;

/// What stands from a place on, by the place past the last, and a rectangle that holds it.
#[derive(Clone, Copy)]
pub struct Block {
    pub past: usize,
    pub bounds: Rect,
}

/// A length of an axis.
struct Span {
    low: i64,
    high: i64,
}

/// The least length that holds both.
fn span_around(low: i64, high: i64, other_low: i64, other_high: i64) -> Span
    requires { low <ℤ high }
    ensures low { result.low ≤ℤ low }
    ensures high { high ≤ℤ result.high }
    ensures other_low { result.low ≤ℤ other_low }
    ensures other_high { other_high ≤ℤ result.high }
    ensures proper { result.low <ℤ result.high }
{
    Span {
        low: if low < other_low { low } else { other_low },
        high: if high < other_high { other_high } else { high },
    }
}

/// The least rectangle that holds both.
fn around(a: &Rect, b: &Rect) -> Rect
    ensures first { Holds result a.now }
    ensures second { Holds result b.now }
{
    a.known();
    let Span { low: x0, high: x1 } = span_around(a.x0, a.x1, b.x0, b.x1);
    let Span { low: y0, high: y1 } = span_around(a.y0, a.y1, b.y0, b.y1);
    Rect { x0, y0, x1, y1 }
}

/// The least rectangle that holds those between two places.
fn bounds(spots: &Spots, from: usize, past: usize) -> Rect
    requires some { from < past }
    requires within { past ≤ length spots.now }
    ensures { HoldsSpots spots.now from past result }
{
    let mut bounds = spots.at(from).rect;
    for place in from + 1..past {
        bounds = around(&bounds, &spots.at(place).rect);
    }
    bounds
}

/// The place past a block that begins here: it has as many places as the greatest power of 2 that divides the place.
fn past_block(from: usize, count: usize) -> usize
    requires { from < count }
    ensures some { from < result }
    ensures within { result ≤ count }
{
    let size = 1usize << from.trailing_zeros().min(62);
    from.saturating_add(size).max(from + 1).min(count)
}

/// The block of this number. The blocks after it are read one after another: each begins where the one before it ends.
fn block_at(spots: &Spots, blocks: &[Block], number: usize) -> Block
    requires some { number * 8 < length spots.now }
    requires long { length spots.now ≤ length blocks.now * 8 }
    requires blocks { AreBlocks spots.now blocks.now }
    ensures { HoldsSpots spots.now (number * 8) result.past result.bounds }
{
    let from = number * BLOCK_SIZE;
    let most = past_block(from, spots.len());
    let mut past = from.saturating_add(BLOCK_SIZE).min(spots.len());
    let mut bounds = bounds(spots, from, past);
    while past < most {
        let next = &blocks[past / BLOCK_SIZE];
        if next.past <= past {
            break;
        }
        bounds = around(&bounds, &next.bounds);
        past = next.past;
    }
    Block { past, bounds }
}

/// As many blocks as the places have, of which each holds nothing.
fn no_blocks(alloc: Global, spots: &Spots) -> Result<Vec<Block>, Memory>
    ensures long { IfOk result (λ blocks. length spots.now ≤ length blocks.items * 8) }
    ensures few { IfOk result (λ blocks. length blocks.items * 8 < length spots.now + 8) }
    ensures blocks { IfOk result (λ blocks. AreBlocks spots.now blocks.items) }
{
    let bounds = Rect {
        x0: 0,
        y0: 0,
        x1: 1,
        y1: 1,
    };
    let blocks = vec![in alloc; Block { past: 0, bounds }; spots.len().div_ceil(BLOCK_SIZE)]?;
    Ok(blocks)
}

/// The blocks, in their order. Each ends where another ends or begins, so those in a block lie in larger and larger
/// ones, and a walk passes over what is far away in a number of steps that grows as the logarithm. The last one is made
/// first, so that each rectangle is looked at once.
pub fn blocks(alloc: Global, spots: &Spots) -> Result<Vec<Block>, Memory>
    ensures { IfOk result (λ blocks. AreBlocks spots.now blocks.items) }
{
    let mut blocks = no_blocks(alloc, spots)?;
    let mut number = blocks.len();
    while number > 0 {
        number -= 1;
        let block = block_at(spots, blocks.as_slice(), number);
        blocks[number] = block;
    }
    Ok(blocks)
}
