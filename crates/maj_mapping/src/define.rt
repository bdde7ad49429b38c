// The gates of one definition.
ghost use Rattle.std.specs.Prelude.{◌≡◌, ◌<◌, ◌+◌, ◌^◌, IfOk, OnOk, length, cond};
ghost use Rattle.circuit.specs.PlainNets.{AreGates};
ghost use Rattle.maj_mapping.specs.Code.MakerView.{with_gates};
ghost use Rattle.maj_mapping.specs.Covers.{define};
ghost use Rattle.maj_mapping.specs.Values.{HasPlanes};
ghost use Rattle.maj_mapping.specs.Counts.{AllBelow};

use crate::cover::{cover, number_of_one, number_of_three, number_of_two};
use crate::cubes::by_cubes;
use crate::maker::Maker;
use crate::recipe::{Inputs, run};
use crate::tables::Tables;
use aq_base::Memory;
use blif_read::Def;
use std::alloc::Global;

/// Makes the gates of a definition over the gates of its inputs, and answers the gate of its signal.
pub fn define(
    alloc: Global,
    tables: &Tables,
    maker: &mut Maker,
    inputs: &[u32],
    def: &Def,
) -> Result<u32, Memory>
    requires good { AreGates maker.old.inputs maker.old.gates }
    requires below { AllBelow (length maker.old.gates) inputs.now }
    requires planes { HasPlanes def.now.cubes }
    requires room { length (define maker.old.inputs maker.old.gates inputs.now def.now).gates < 2 ^ 32 }
    ensures gates { OnOk result (maker.new
        ≡ with_gates maker.old (define maker.old.inputs maker.old.gates inputs.now def.now).gates) }
    ensures at { IfOk result (λ r. r ≡ (define maker.old.inputs maker.old.gates inputs.now def.now).at) }
{
    let zero = maker.zero();
    match inputs.len() {
        0 => Ok(constant(maker, cover(def, &[]))),
        1 => {
            let recipe = tables.of_two(number_of_one(def));
            run(
                alloc,
                maker,
                Inputs {
                    a: inputs[0],
                    b: zero,
                    c: zero,
                },
                recipe,
            )
        }
        2 => {
            let recipe = tables.of_two(number_of_two(def));
            run(
                alloc,
                maker,
                Inputs {
                    a: inputs[0],
                    b: inputs[1],
                    c: zero,
                },
                recipe,
            )
        }
        3 => {
            let recipe = tables.of_three(number_of_three(def));
            run(
                alloc,
                maker,
                Inputs {
                    a: inputs[0],
                    b: inputs[1],
                    c: inputs[2],
                },
                recipe,
            )
        }
        _ => by_cubes(alloc, maker, def, inputs),
    }
}

/// The gate of a constant.
fn constant(maker: &Maker, value: bool) -> u32
    ensures { result ≡ cond value (maker.now.inputs + 1) maker.now.inputs }
{
    if value { maker.one() } else { maker.zero() }
}
