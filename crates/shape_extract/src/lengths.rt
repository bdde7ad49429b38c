// The lengths of all nets, added up shape by shape.
ghost use Rattle.std.specs.Prelude.{◌≡◌, ℕ, ◌<◌, IfOk, length, slice_index};
ghost use Rattle.layout_rules.specs.LengthRule.{longer_side};
ghost use Rattle.layout_rules.specs.Nets.{AreNets};
ghost use Rattle.shape_extract.specs.Lengths.{AreLengths};

use crate::layers::is_metal;
use aq_base::Memory;
use geom::{Rect, Shape, height, width};
use std::alloc::Global;

/// The longer side of the rectangle.
pub fn longer_side(rect: &Rect) -> u64
    ensures { result ≡ longer_side rect.now }
{
    width(rect).max(height(rect))
}

/// Adds the longer side of each metal shape to the length of its net. All lengths are 0 before.
fn add_lengths(shapes: &[Shape], nets: &[u32], lengths: &mut [u64])
    requires long { length nets.now ≡ length shapes.now }
    requires nets { (i : ℕ) → i < length nets.now → slice_index nets.now i < length lengths.old }
    requires none { (i : ℕ) → slice_index lengths.old i ≡ 0 }
    ensures { AreLengths shapes.now nets.now lengths.new }
{
    for (n, shape) in shapes.iter().enumerate() {
        if is_metal(shape) {
            let net = nets[n] as usize;
            lengths[net] = lengths[net].saturating_add(longer_side(&shape.rect));
        }
    }
}

/// For each net the length of its metal, in nanometres, or the greatest number of 64 bits where it is longer. It is
/// refused for want of memory alone.
pub fn net_lengths(alloc: Global, shapes: &[Shape], nets: &[u32]) -> Result<Vec<u64>, Memory>
    requires { AreNets shapes.now nets.now }
    ensures lengths { IfOk result (λ lengths. AreLengths shapes.now nets.now lengths.items) }
    ensures long { IfOk result (λ lengths. length lengths.items ≡ length shapes.now) }
{
    let mut lengths = vec![in alloc; 0; shapes.len()]?;
    add_lengths(shapes, nets, &mut lengths);
    Ok(lengths)
}
