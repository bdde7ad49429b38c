// The plan of a chip: four passes, with the numbers that they take from a library.
ghost use Rattle.std.specs.Prelude.{◌≡◌, IfOk, IfErr};
ghost use Rattle.cell_library.specs.Reach.{reach_of, slot_width_of};
ghost use Rattle.layout_make.specs.MayDraw.{MayDraw};
ghost use Rattle.plan_build.specs.Laws.{AnswersAs};
ghost use Rattle.plan_build.specs.Plans.{IsMadeFor, IsWithin, channel_of, chip_of};
ghost use Rattle.plan_build.specs.Refusals.{Refuses};

use crate::refusal::PlanRefusal;
use aq_base::Memory;
use blif_read::Netlist;
use cell_library::Library;
use circuit::{Pass, Then};
use level_balance::LevelPass;
use maj_mapping::MapPass;
use repeater_rows::RepeatPass;
use row_place::PlacePass;
use rowed::Placed;
use std::alloc::Global;

/// The four passes from a netlist to rows of cells with places: gates of majorities, levels, places, and repeaters.
pub type ChipPlan = Then<Then<Then<MapPass, LevelPass>, PlacePass>, RepeatPass>;

/// The pass of places for these cells: a slot is as wide as its columns, in nanometres.
#[tactic(auto, using(crate::proofs::CellSizes::widths))]
fn placing(library: &Library) -> PlacePass
    ensures { result.slot_width ≡ slot_width_of library.now }
{
    library.known();
    let slot_width = library.columns() * library.pitch();
    PlacePass { slot_width }
}

/// The pass of repeaters for these cells: the reach in slots, and heights in nanometres. A channel is highest with
/// wires on all tracks.
#[tactic(auto, using(crate::proofs::CellSizes::channels))]
pub fn repeating(library: &Library) -> RepeatPass
    ensures reach { result.reach ≡ reach_of library.now }
    ensures height { result.height ≡ library.now.height }
    ensures channel { result.channel ≡ channel_of library.now }
{
    library.known();
    RepeatPass {
        reach: library.reach(),
        height: library.height(),
        channel: (library.capacity() + 1) * library.pitch(),
    }
}

/// The four passes, with a library's numbers. They are refused for want of memory alone.
pub fn chip_plan(alloc: Global, library: &Library) -> Result<ChipPlan, Memory>
    ensures { IfOk result (IsMadeFor library.now) }
{
    let three = library.has_three();
    Ok(Then {
        first: Then {
            first: Then {
                first: MapPass::new(alloc)?,
                second: LevelPass { three },
            },
            second: placing(library),
        },
        second: repeating(library),
    })
}

/// The chip of a netlist with a library: rows of cells with places, in which every wire is short enough. It can be
/// drawn, and answers every word as the netlist does. It has at most 2,000,000 cells, no row wider than 2,000,000,000
/// nanometres, and at most 2,147,483,647 nanometres of height, each channel with wires on all tracks. A refusal says
/// which limit the netlist passes, and with which number.
pub fn plan_chip(alloc: Global, library: &Library, net: &Netlist) -> Result<Placed, PlanRefusal>
    ensures chip { IfOk result (λ chip. chip ≡ chip_of library.now net.now) }
    ensures within { IfOk result (λ chip. IsWithin library.now net.now) }
    ensures draws { IfOk result (λ chip. MayDraw chip library.now) }
    ensures answers { IfOk result (λ chip. AnswersAs net.now chip) }
    ensures refused { IfErr result (Refuses library.now net.now) }
{
    library.known();
    net.known();
    Ok(chip_plan(alloc, library)?.run(alloc, net)?)
}
