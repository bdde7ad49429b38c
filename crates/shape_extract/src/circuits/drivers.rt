// The drivers of nets, where the rule of nets is kept.
ghost use Rattle.std.specs.Prelude.{◌≡◌, ◌^◌, ◌<◌, false, IfOk, length};
ghost use Rattle.layout_rules.specs.Nets.{AreNets};
ghost use Rattle.layout_rules.specs.Reports.{ReportsNone};
ghost use Rattle.layout_rules.specs.CircuitRules.{IsInput, NetsBroken};
ghost use Rattle.shape_extract.specs.Code.Drivers.{AreDrivers, IsOnlySource};

use aq_base::Memory;
use geom::Flat;
use layout_rules::layers::OUTPUT_PIN;
use std::alloc::Global;

/// For each net, by its number, the output pin in it.
pub fn drivers(alloc: Global, flat: &Flat, nets: &[u32]) -> Result<Vec<u32>, Memory>
    requires few { length flat.now.shapes < 2 ^ 32 }
    requires nets { AreNets flat.now.shapes nets.now }
    requires kept { ReportsNone (NetsBroken flat.now) }
    ensures { IfOk result (λ drivers. AreDrivers flat.now.shapes nets.now drivers.items) }
{
    let shapes = flat.shapes.as_slice();
    let mut drivers = vec![in alloc; 0; shapes.len()]?;
    for q in 0..shapes.len() as u32 {
        if shapes[q as usize].layer == OUTPUT_PIN {
            drivers[nets[q as usize] as usize] = q;
        }
    }
    Ok(drivers)
}

/// The output pin that drives an input pin without a label.
pub fn driver_of(flat: &Flat, nets: &[u32], drivers: &[u32], p: u32) -> u32
    requires nets { AreNets flat.now.shapes nets.now }
    requires kept { ReportsNone (NetsBroken flat.now) }
    requires drivers { AreDrivers flat.now.shapes nets.now drivers.now }
    requires input { IsInput flat.now false p }
    ensures { IsOnlySource flat.now.shapes p result }
{
    let _shapes = &flat.shapes;
    drivers[nets[p as usize] as usize]
}
