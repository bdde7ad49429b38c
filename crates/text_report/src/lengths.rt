// The lengths of all nets, where the rule of lengths is kept.
ghost use Rattle.std.specs.Prelude.{ℕ, ◌<◌, ◌^◌, IfOk};
ghost use Rattle.layout_rules.specs.LengthRule.{net_length};
ghost use Rattle.layout_rules.specs.Nets.{AreNets};
ghost use Rattle.text_report.specs.Code.Tables.{AreNetLengths};

use aq_base::Memory;
use geom::Shape;
use std::alloc::Global;

/// For each net the length of its metal, in nanometres: where the rule of lengths is kept, none passes 64 bits. It is
/// refused for want of memory alone.
pub fn net_lengths(alloc: Global, shapes: &[Shape], nets: &[u32]) -> Result<Vec<u64>, Memory>
    requires nets { AreNets shapes.now nets.now }
    requires kept { (net : ℕ) → net_length shapes.now nets.now net < 2 ^ 64 }
    ensures { IfOk result (λ lengths. AreNetLengths shapes.now nets.now lengths.items) }
{
    let lengths = shape_extract::net_lengths(alloc, shapes, nets)?;
    Ok(lengths)
}
