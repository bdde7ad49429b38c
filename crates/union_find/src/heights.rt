// Heights of nodes, of which some are known to differ by none or one.
ghost use Rattle.std.specs.Prelude.{◌≡◌, ◌≤◌, ◌<◌, ℕ, length, true, false, slice_index, slice_set, replicate, IfOk};
ghost use Rattle.union_find.specs.Forests.{trees, Obeys, HasHeights, IsJoined, IsRefused, AreLeast};
ghost use Rattle.union_find.specs.Code.Shapes.{IsForest, IsFound, MayBeHung, Unites};

use crate::tables::{Found, Lifted, find, hang, rises};
use aq_base::Memory;
use std::alloc::Global;
use std::marker::Model;

/// Nodes, and which of them are known to be higher than another one, and by how much. Node 0 is the ground, at height
/// 0, and all others are higher. There are heights that are as is known. Nodes whose heights hang together are a tree,
/// in which each tells how much higher it is than its parent; the smaller of two trees is hung on the root of the
/// larger one, so each root is few steps away.
#[derive(Drop)]
pub struct Heights {
    parent: Vec<u32>,
    above: Vec<u64>,
    height: Vec<u64>,
    size: Vec<u64>,
}

impl Model for Heights {
    ghost use Rattle.union_find.specs.Forests.{Tables};
    ghost use Rattle.union_find.specs.Code.Shapes.{tables_of, AreTables};

    ghost Value = { Tables };

    ghost view = { λ t. tables_of t.parent.items t.above.items t.height.items t.size.items };

    ghost invariant = { λ t. AreTables (tables_of t.parent.items t.above.items t.height.items t.size.items) };
}

/// The numbers below a count.
fn numbers(alloc: Global, count: u32) -> Result<Vec<u32>, Memory>
    ensures long { IfOk result (λ numbers. length numbers.items ≡ count) }
    ensures each { IfOk result (λ numbers. (k : ℕ) → k < count → slice_index numbers.items k ≡ k) }
{
    let mut numbers = Vec::with_capacity(alloc, count as usize)?;
    for number in 0..count {
        numbers.push(number)?;
    }
    Ok(numbers)
}

/// A list of one number, so often.
fn filled(alloc: Global, count: u32, number: u64) -> Result<Vec<u64>, Memory>
    ensures { IfOk result (λ numbers. numbers.items ≡ replicate count number) }
{
    Ok(vec![in alloc; number; count as usize]?)
}

/// The heights of single nodes: that of the ground, and those of the others.
fn single_heights(alloc: Global, count: u32) -> Result<Vec<u64>, Memory>
    requires { 0 < count }
    ensures { IfOk result (λ heights. heights.items ≡ slice_set (replicate count 1) 0 0) }
{
    let mut heights = filled(alloc, count, 1)?;
    heights[0] = 0;
    Ok(heights)
}

impl Heights {
    /// So many nodes, of which nothing is known.
    pub fn new(alloc: Global, count: u32) -> Result<Self, Memory>
        requires { 0 < count }
        ensures count { IfOk result (λ t. (trees t).count ≡ count) }
        ensures free { IfOk result (λ t. (h : ℕ → ℕ) → h 0 ≡ 0
            → ((s : ℕ) → 0 < s → s < count → 0 < h s) → Obeys (trees t) h) }
    {
        let parent = numbers(alloc, count)?;
        let above = filled(alloc, count, count as u64)?;
        let height = single_heights(alloc, count)?;
        let size = filled(alloc, count, 1)?;
        Ok(Heights {
            parent,
            above,
            height,
            size,
        })
    }

    /// Some heights are as is known.
    #[tactic(auto, using(crate::proofs::Bounds::some_heights))]
    pub fn known(&self)
        ensures { HasHeights (trees self.now) }
    {
        let _parent = &self.parent;
    }

    /// How many nodes there are.
    fn count(&self) -> u32
        ensures count { result ≡ (trees self.now).count }
        ensures known { IsForest (trees self.now) }
    {
        self.parent.len() as u32
    }

    /// The root of a node, and the node's height.
    fn find(&self, node: u32) -> Found
        requires { node < (trees self.now).count }
        ensures { IsFound (trees self.now) node result.root result.height }
    {
        find(&self.parent, &self.above, &self.height, &self.size, node)
    }

    /// Hangs the tree of a root on another root.
    fn hang(&mut self, low: Lifted, high: Lifted)
        requires { MayBeHung (trees self.old) low.root high.root low.rise high.rise }
        ensures { Unites (trees self.old) (trees self.new) low.root high.root low.rise high.rise }
    {
        hang(
            &mut self.parent,
            &mut self.above,
            &mut self.height,
            &mut self.size,
            low,
            high,
        )
    }

    /// Hangs the smaller of two trees on the root of the other.
    fn hang_smaller(&mut self, one: Lifted, other: Lifted)
        requires { MayBeHung (trees self.old) one.root other.root one.rise other.rise }
        ensures { Unites (trees self.old) (trees self.new) one.root other.root one.rise other.rise }
    {
        if self.size[other.root as usize] <= self.size[one.root as usize] {
            self.hang(one, other);
        } else {
            self.hang(other, one);
        }
    }

    /// Adds that a node is so much higher than another one, by none or one. Where no heights are so, it answers false.
    pub fn join(&mut self, upper: u32, lower: u32, rise: u64) -> bool
        requires upper { upper < (trees self.old).count }
        requires lower { lower < (trees self.old).count }
        requires rise { rise ≤ 1 }
        ensures joined { result ≡ true → IsJoined (trees self.old) (trees self.new) upper lower rise }
        ensures refused { result ≡ false → IsRefused (trees self.old) upper lower rise }
        ensures count { (trees self.new).count ≡ (trees self.old).count }
    {
        let high = self.find(upper);
        let low = self.find(lower);
        let base = self.find(0);
        let wanted = low.height + rise;
        if high.root == low.root {
            return high.height == wanted;
        }
        match rises(high, low, wanted, base.root) {
            Some((one, other)) => {
                self.hang_smaller(one, other);
                true
            }
            None => false,
        }
    }

    /// The least heights that are as is known.
    pub fn least(&self, alloc: Global) -> Result<Vec<u64>, Memory>
        ensures { IfOk result (λ heights. AreLeast (trees self.now) heights.items) }
    {
        let count = self.count();
        let mut heights = Vec::with_capacity(alloc, count as usize)?;
        for node in 0..count {
            heights.push(self.find(node).height)?;
        }
        Ok(heights)
    }
}
