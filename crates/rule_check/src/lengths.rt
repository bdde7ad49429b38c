// Design rule check (DRC), the rule of lengths: the metal of a net is short enough.
ghost use Rattle.std.specs.Prelude.{◌≡◌, ◌-◌, ◌<◌, ◌^◌, length, IfOk};
ghost use Rattle.layout_rules.specs.LengthRule.{LengthsBroken};
ghost use Rattle.layout_rules.specs.Nets.{AreNets};
ghost use Rattle.shape_extract.specs.Searches.{Finds};
ghost use Rattle.shape_extract.specs.Lengths.{AreLengths};
ghost use Rattle.rule_check.specs.Code.Seen.{limits_seen};

use crate::limits::Limits;
use aq_base::Memory;
use geom::Shape;
use shape_extract::{Report, is_metal, net_lengths};
use std::alloc::Global;

/// The first metal shape of a net that is too long, by the lengths of the nets.
fn first_long(shapes: &[Shape], nets: &[u32], lengths: &[u64], limits: &Limits) -> Option<Report>
    requires few { length shapes.now < 2 ^ 32 }
    requires nets { AreNets shapes.now nets.now }
    requires lengths { AreLengths shapes.now nets.now lengths.now }
    requires each { length lengths.now ≡ length shapes.now }
    requires limit { limits.now.limit < 2 ^ 64 - 1 }
    ensures { Finds (LengthsBroken (limits_seen limits.now) shapes.now) result }
{
    for (n, shape) in shapes.iter().enumerate() {
        if is_metal(shape) && lengths[nets[n] as usize] > limits.limit {
            let number = n as u32;
            return Some(Report {
                first: number,
                second: number,
            });
        }
    }
    None
}

/// The first metal shape of a net that is too long.
pub fn find_long(
    alloc: Global,
    shapes: &[Shape],
    nets: &[u32],
    limits: &Limits,
) -> Result<Option<Report>, Memory>
    requires few { length shapes.now < 2 ^ 32 }
    requires nets { AreNets shapes.now nets.now }
    requires limit { limits.now.limit < 2 ^ 64 - 1 }
    ensures { IfOk result (Finds (LengthsBroken (limits_seen limits.now) shapes.now)) }
{
    let lengths = net_lengths(alloc, shapes, nets)?;
    let found = first_long(shapes, nets, lengths.as_slice(), limits);
    Ok(found)
}
