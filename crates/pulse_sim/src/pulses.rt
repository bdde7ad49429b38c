// A simulation of the pulse machine: settled ticks in place.
ghost use Rattle.std.specs.Prelude.{◌≡◌, ℕ, ◌+◌, ◌%◌, ◌^◌, ◌<◌, length, map, IfOk, IfSome, List, Some, slice_get};
ghost use Rattle.std.specs.Prelude.{replicate};
ghost use Rattle.std.specs.Option.{option_copied};
ghost use Rattle.circuit_extracted.specs.declared.cells.ExCell.{ExCell};
ghost use Rattle.pulse_sim.specs.declared.flux.Flux.TheVariants.{Off};
ghost use Rattle.pulse_sim.specs.Pulsing.{IsPulsing, AreInPhase, AreByPhase, is_plus, values_shown};
ghost use Rattle.pulse_sim.specs.Shows.{fluxes_at};
ghost use Rattle.pulse_sim.specs.Settled.{settled_tick};

use crate::flux::Flux;
use crate::ticks::{flux_at, settle};
use aq_base::{List, Memory};
use circuit::Word;
use circuit_extracted::{ExCell, Extracted, Source};
use std::alloc::Global;
use std::marker::Model;

/// A simulation of the settled run of a circuit.
#[derive(Drop)]
pub struct Pulses {
    circuit: Extracted,
    time: u64,
    fluxes: Vec<Flux>,
    phases: Vec<List<u32>>,
}

impl Model for Pulses {
    ghost use Rattle.std.specs.Prelude.{◌≡◌, length};
    ghost use Rattle.pulse_sim.specs.Pulsing.{Pulsing, IsPulsing, AreByPhase};

    ghost Value = { Pulsing };

    ghost view = { λ s. record { circuit = s.circuit; time = s.time; fluxes = s.fluxes.items } };

    ghost invariant = { λ s. record {
      pulsing : IsPulsing (record { circuit = s.circuit; time = s.time; fluxes = s.fluxes.items });
      by_phase : AreByPhase s.circuit.cells s.phases.items;
    } };
}

fn cells_in_phase(alloc: Global, cells: &[ExCell], phase: u16) -> Result<List<u32>, Memory>
    requires { length cells.now < 2 ^ 32 }
    ensures { IfOk result (λ numbers. AreInPhase cells.now phase numbers) }
{
    let mut numbers = Vec::new(alloc);
    for (number, cell) in cells.iter().enumerate() {
        if cell.phase == phase {
            numbers.push(number as u32)?;
        }
    }
    Ok(List::from_vec(numbers))
}

fn cells_by_phase(alloc: Global, cells: &[ExCell]) -> Result<Vec<List<u32>>, Memory>
    requires { length cells.now < 2 ^ 32 }
    ensures { IfOk result (λ phases. AreByPhase cells.now phases.items) }
{
    let mut phases = Vec::new(alloc);
    for phase in 0..4 {
        phases.push(cells_in_phase(alloc, cells, phase)?)?;
    }
    Ok(phases)
}

fn shows_true(flux: Flux) -> bool
    ensures { result ≡ is_plus flux }
{
    matches!(flux, Flux::Plus)
}

/// Puts the values at these outputs in place of those of a word.
fn show_values(outputs: &[Source], fluxes: &[Flux], into: &mut Word)
    requires { length into.old ≡ length outputs.now }
    ensures { into.new ≡ map is_plus (fluxes_at outputs.now fluxes.now) }
{
    for (place, output) in outputs.iter().enumerate() {
        let value = shows_true(flux_at(fluxes, output.cell));
        into.set(place, value);
    }
}

fn copy_of(circuit: &Extracted) -> Result<Extracted, Memory>
    ensures { IfOk result (λ copy. copy ≡ circuit.now) }
{
    Ok(circuit.clone()?)
}

impl Pulses {
    /// A simulation of the circuit at time 0, before anything has happened: no cell has a flux. It makes all the room
    /// that it needs, and is refused for want of memory alone.
    pub fn new(alloc: Global, circuit: &Extracted) -> Result<Pulses, Memory>
        ensures { IfOk result (λ pulses. pulses
            ≡ record { circuit = circuit.now; time = 0; fluxes = replicate (length circuit.now.cells) Off }) }
    {
        circuit.known();
        let circuit = copy_of(circuit)?;
        let fluxes = vec![in alloc; Flux::Off; circuit.cells.len()]?;
        let phases = cells_by_phase(alloc, circuit.cells.as_slice())?;
        Ok(Pulses {
            circuit,
            time: 0,
            fluxes,
            phases,
        })
    }

    /// What every simulation keeps. It does nothing else.
    pub fn known(&self)
        ensures { IsPulsing self.now }
    {
        let _time = &self.time;
    }

    /// All events of the present time, which is below 2^60; then the time is one more. The word is that of this time,
    /// with a value for each input of the circuit; without one each input is taken as false. A cell whose feeds' sum is
    /// 0 takes minus, an inverter too. It takes no memory.
    pub fn step(&mut self, word: Option<&Word>)
        requires wide { IfSome word (λ w. length w.now ≡ self.old.circuit.inputs) }
        requires time { self.old.time < 2 ^ 60 }
        ensures { self.new
            ≡ record {
              circuit = self.old.circuit;
              time = self.old.time + 1;
              fluxes = settled_tick self.old.circuit (option_copied word.entry) self.old.time self.old.fluxes;
            } }
    {
        settle(
            &self.circuit,
            word,
            self.time,
            self.phases.as_slice(),
            &mut self.fluxes,
        );
        self.time += 1;
    }

    /// The present time, in ticks.
    pub fn time(&self) -> u64
        ensures { result ≡ self.now.time }
    {
        self.time
    }

    /// Sets each value of the word: true where the flux at the output of that number is plus, else false. The word has
    /// a value for each output of the circuit already, and no memory is taken.
    pub fn read_out(&self, into: &mut Word)
        requires { length into.old ≡ length self.now.circuit.outputs }
        ensures { into.new ≡ values_shown self.now }
    {
        let circuit = &self.circuit;
        show_values(circuit.outputs.as_slice(), self.fluxes.as_slice(), into);
    }

    /// The flux of a cell, by its number in the circuit.
    pub fn flux(&self, cell: u32) -> Flux
        requires { cell < length self.now.circuit.cells }
        ensures { slice_get self.now.fluxes cell ≡ Some result }
    {
        self.fluxes[cell as usize]
    }
}
