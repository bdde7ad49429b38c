// The shapes of each net, or of each kind, one after the other.
ghost use Rattle.std.specs.Prelude.{◌≡◌, ◌^◌, ◌<◌, ℕ, IfOk, length, slice_index};
ghost use Rattle.layout_rules.specs.Nets.{AreNets};
ghost use Rattle.shape_extract.specs.Searches.{AreThose};
ghost use Rattle.shape_extract.specs.Code.NetPins.{IsPinIn};
ghost use Rattle.shape_extract.specs.Chains.{AreChains};

use aq_base::Memory;
use geom::Shape;
use std::alloc::Global;

/// Links each number to the next of its net, from the last on. All of the first list are the length.
fn link(nets: &[u32], heads: &mut [u32], next: &mut [u32])
    requires few { length nets.now < 2 ^ 32 }
    requires nets { (x : ℕ) → x < length nets.now → slice_index nets.now x < length nets.now }
    requires heads { length heads.old ≡ length nets.now }
    requires next { length next.old ≡ length nets.now }
    requires none { (r : ℕ) → r < length nets.now → slice_index heads.old r ≡ length nets.now }
    ensures { AreChains nets.now next.new }
{
    for x in (0..nets.len()).rev() {
        let net = nets[x] as usize;
        next[x] = heads[net];
        heads[net] = x as u32;
    }
}

/// For each shape the next one of its net, or the number of shapes where it is the last; places of kinds are linked as
/// numbers of nets are. It is refused for want of memory alone.
pub fn chains(alloc: Global, nets: &[u32]) -> Result<Vec<u32>, Memory>
    requires few { length nets.now < 2 ^ 32 }
    requires nets { (x : ℕ) → x < length nets.now → slice_index nets.now x < length nets.now }
    ensures { IfOk result (λ next. AreChains nets.now next.items) }
{
    let none = nets.len() as u32;
    let mut heads = vec![in alloc; none; nets.len()]?;
    let mut next = vec![in alloc; none; nets.len()]?;
    link(nets, &mut heads, &mut next);
    Ok(next)
}

/// Lists the shapes of a layer in the net of a shape, along the chain of the net.
pub fn list_in_net(
    shapes: &[Shape],
    nets: &[u32],
    next: &[u32],
    layer: u16,
    a: u32,
    found: &mut Vec<u32>,
) -> Result<(), Memory>
    requires nets { AreNets shapes.now nets.now }
    requires chains { AreChains nets.now next.now }
    requires few { length shapes.now < 2 ^ 32 }
    requires within { a < length shapes.now }
    ensures { IfOk result (λ _. AreThose (IsPinIn shapes.now layer a) found.new.items) }
{
    found.clear();
    let mut b = nets[a as usize];
    while (b as usize) < shapes.len() {
        let shape = &shapes[b as usize];
        if shape.layer == layer {
            found.push(b)?;
        }
        b = next[b as usize];
    }
    Ok(())
}
