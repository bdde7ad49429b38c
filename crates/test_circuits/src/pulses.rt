// The first chip's run, tick by tick.
ghost use Rattle.std.specs.Prelude.{◌≡◌, ◌+◌, ◌<◌, ◌≤◌};
ghost use Rattle.circuit_extracted.specs.FirstCircuit.{first_circuit};

use crate::fixtures::word;
use aq_base::Memory;
use circuit_extracted::two_buffers;
use pulse_sim::{
    Flux, Pulses, clocks_are_more, every_clock, every_order, every_skew, first_chip_shows,
    settled_is_lawful, skews_are_more, ticks_are_beats,
};
use std::alloc::Global;
use std::test::Fail;

#[tactic(auto, unfolding(circuit_extracted::specs::FirstCircuit::first_circuit))]
fn tick(alloc: Global, pulses: &mut Pulses, bit: Option<bool>) -> Result<(), Memory>
    requires circuit { pulses.old.circuit ≡ first_circuit }
    requires time { pulses.old.time < 100 }
    ensures circuit { pulses.new.circuit ≡ first_circuit }
    ensures time { pulses.new.time ≤ pulses.old.time + 1 }
{
    match bit {
        Some(bit) => {
            let word = word(alloc, [bit])?;
            pulses.step(Some(&word));
        }
        None => pulses.step(None),
    }
    Ok(())
}

/// The fluxes of the two buffers.
#[tactic(auto, unfolding(circuit_extracted::specs::FirstCircuit::first_circuit))]
fn fluxes(pulses: &Pulses) -> (Flux, Flux)
    requires { pulses.now.circuit ≡ first_circuit }
{
    (pulses.flux(0), pulses.flux(1))
}

/// The value at the output.
#[tactic(auto, unfolding(circuit_extracted::specs::FirstCircuit::first_circuit))]
fn output(alloc: Global, pulses: &Pulses) -> Result<bool, Memory>
    requires { pulses.now.circuit ≡ first_circuit }
{
    let mut shown = word(alloc, [false])?;
    pulses.read_out(&mut shown);
    Ok(*shown.get(0))
}

/// Ticks of the chip with a bit of a word, or without, beside the fluxes of the two buffers and the value at the
/// output.
#[test]
fn first_chip_runs(rt: HostRuntime) -> Result<(), Fail> {
    let circuit = two_buffers(rt.alloc())?;
    let mut pulses = Pulses::new(rt.alloc(), &circuit)?;
    let ticks = [
        (Some(true), (Flux::Plus, Flux::Off), false),
        (Some(true), (Flux::Plus, Flux::Plus), true),
        (None, (Flux::Off, Flux::Plus), true),
        (None, (Flux::Off, Flux::Off), false),
        (Some(false), (Flux::Minus, Flux::Off), false),
        (Some(false), (Flux::Minus, Flux::Minus), false),
        (None, (Flux::Off, Flux::Minus), false),
        (None, (Flux::Off, Flux::Off), false),
        (None, (Flux::Minus, Flux::Off), false),
    ];
    for (bit, held, value) in ticks {
        tick(rt.alloc(), &mut pulses, bit)?;
        assert!(rt; fluxes(&pulses) == held);
        assert_eq!(rt; output(rt.alloc(), &pulses)?, value);
    }
    assert_eq!(rt; pulses.time(), 9);
    Ok(())
}

#[test]
fn laws_are_called() {
    every_order();
    settled_is_lawful();
    first_chip_shows();
    every_skew();
    every_clock();
    ticks_are_beats();
    skews_are_more();
    clocks_are_more();
}
