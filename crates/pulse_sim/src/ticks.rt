// The events of a settled tick, in place.
ghost use Rattle.std.specs.Prelude.{◌≡◌, ◌≤ℤ◌, ◌<◌, ◌^◌, ℕ, negsuc, pos, length, slice_index, slice_index_or};
ghost use Rattle.std.specs.Option.{option_copied};
ghost use Rattle.circuit.specs.declared.cell_kind.CellKind.{CellKind};
ghost use Rattle.pulse_sim.specs.declared.flux.Flux.TheVariants.{Off};
ghost use Rattle.pulse_sim.specs.Fluxes.{sign, amount};
ghost use Rattle.pulse_sim.specs.Settled.{settled_sign, settled_take, input_flux, feed_flux, feed_sum, settled_tick};
ghost use Rattle.pulse_sim.specs.Pulsing.{AreByPhase};
ghost use Rattle.pulse_sim.specs.Code.Steps.{IsQuiet, AreSwitched, AreRelaxed};

use crate::flux::Flux;
use aq_base::List;
use circuit::{CellKind, Word};
use circuit_extracted::{ExCell, Extracted, Feed};

fn sign_of(value: bool) -> Flux
    ensures { result ≡ sign value }
{
    if value { Flux::Plus } else { Flux::Minus }
}

fn amount_of(flux: Flux) -> i32
    ensures value { result ≡ amount flux }
    ensures low { negsuc 0 ≤ℤ result }
    ensures high { result ≤ℤ pos 1 }
{
    match flux {
        Flux::Minus => -1,
        Flux::Off => 0,
        Flux::Plus => 1,
    }
}

fn sign_of_sum(sum: i32) -> Flux
    ensures { result ≡ settled_sign sum }
{
    if sum > 0 { Flux::Plus } else { Flux::Minus }
}

/// What a cell takes that switches on this sum of its feeds.
fn taken(kind: CellKind, sum: i32) -> Flux
    requires { negsuc 2 ≤ℤ sum }
    ensures { result ≡ settled_take kind sum }
{
    match kind {
        CellKind::Zero => Flux::Minus,
        CellKind::One => Flux::Plus,
        CellKind::Inverter => sign_of_sum(-sum),
        CellKind::Buffer | CellKind::Split2 | CellKind::Split3 | CellKind::Majority => {
            sign_of_sum(sum)
        }
    }
}

fn flux_of_input(word: Option<&Word>, input: u32) -> Flux
    ensures { result ≡ input_flux (option_copied word.entry) input }
{
    match word {
        Some(word) => sign_of(
            word.as_slice()
                .get(input as usize)
                .copied()
                .unwrap_or(false),
        ),
        None => Flux::Minus,
    }
}

/// The flux of a cell, and none where there is no such cell.
pub fn flux_at(fluxes: &[Flux], cell: u32) -> Flux
    ensures { result ≡ slice_index_or fluxes.now cell Off }
{
    fluxes.get(cell as usize).copied().unwrap_or(Flux::Off)
}

fn flux_of_feed(word: Option<&Word>, fluxes: &[Flux], feed: Feed) -> Flux
    ensures { result ≡ feed_flux (option_copied word.entry) fluxes.now feed }
{
    match feed {
        Feed::Nothing => Flux::Off,
        Feed::Pin { cell, .. } => flux_at(fluxes, cell),
        Feed::Label(input) => flux_of_input(word, input),
    }
}

fn sum_of_feeds(word: Option<&Word>, fluxes: &[Flux], cell: &ExCell) -> i32
    ensures value { result ≡ feed_sum (option_copied word.entry) fluxes.now cell.now }
    ensures low { negsuc 2 ≤ℤ result }
{
    amount_of(flux_of_feed(word, fluxes, cell.feed0))
        + amount_of(flux_of_feed(word, fluxes, cell.feed1))
        + amount_of(flux_of_feed(word, fluxes, cell.feed2))
}

fn taken_by(word: Option<&Word>, fluxes: &[Flux], cell: &ExCell) -> Flux
    ensures { result ≡ settled_take cell.now.kind (feed_sum (option_copied word.entry) fluxes.now cell.now) }
{
    taken(cell.kind, sum_of_feeds(word, fluxes, cell))
}

/// Each of these cells takes the sign of its feeds' sum. None of them reads another, so each reads what stood there
/// before.
fn switch_all(cells: &[ExCell], word: Option<&Word>, numbers: &[u32], fluxes: &mut [Flux])
    requires within { (p : ℕ) → p < length numbers.now → slice_index numbers.now p < length cells.now }
    requires long { length fluxes.old ≡ length cells.now }
    requires quiet { IsQuiet cells.now numbers.now }
    ensures { AreSwitched cells.now (option_copied word.entry) numbers.now (length numbers.now) fluxes.old fluxes.new }
{
    for number in numbers {
        let flux = taken_by(word, fluxes, &cells[*number as usize]);
        fluxes[*number as usize] = flux;
    }
}

/// Each of these cells loses its flux.
fn relax_all(numbers: &[u32], fluxes: &mut [Flux])
    requires { (p : ℕ) → p < length numbers.now → slice_index numbers.now p < length fluxes.old }
    ensures { AreRelaxed numbers.now (length numbers.now) fluxes.old fluxes.new }
{
    for number in numbers {
        fluxes[*number as usize] = Flux::Off;
    }
}

/// All events of a time: the cells of one phase switch and those of another relax. The work is in proportion to their
/// number.
pub fn settle(
    circuit: &Extracted,
    word: Option<&Word>,
    time: u64,
    phases: &[List<u32>],
    fluxes: &mut [Flux],
)
    requires by_phase { AreByPhase circuit.now.cells phases.now }
    requires each_flux { length fluxes.old ≡ length circuit.now.cells }
    requires time { time < 2 ^ 60 }
    ensures { fluxes.new ≡ settled_tick circuit.now (option_copied word.entry) time fluxes.old }
{
    circuit.known();
    let switching = &phases[(time % 4) as usize];
    switch_all(circuit.cells.as_slice(), word, switching.as_slice(), fluxes);
    let relaxing = &phases[((time + 2) % 4) as usize];
    relax_all(relaxing.as_slice(), fluxes);
}
