// Signals that a model uses and nothing drives.
ghost use Rattle.std.specs.Prelude.{◌≡◌, map};
ghost use Rattle.std.specs.List.{flat_map};
ghost use Rattle.blif_read.specs.Models.{named};
ghost use Rattle.blif_flat.specs.Designs.{actuals, input_ports, used};
ghost use Rattle.blif_flat.specs.Code.Joining.{least_of, undefined_at, undefined_in, driving};

use crate::design::FlatKind;
use crate::faults::drivers::Drivers;
use crate::faults::order::{Told, least_where};
use crate::models::indexed::Design;
use blif_read::{BlifModel, Call, Named, NamedDef};

/// The best fault, where a signal is used in a line.
fn use_told(drivers: &Drivers<'_>, best: Option<Told>, line: u64, name: &[u8]) -> Option<Told>
    ensures { result ≡ least_of best (undefined_at (driving drivers.now).lines (named line name.now)) }
{
    least_where(!drivers.drives(name), best, line, FlatKind::Undefined)
}

fn def_told(drivers: &Drivers<'_>, best: Option<Told>, def: &NamedDef) -> Option<Told>
    ensures { result
        ≡ least_of best (undefined_in (driving drivers.now).lines (map (named def.now.line) def.now.inputs)) }
{
    let mut best = best;
    for input in def.inputs.as_slice() {
        best = use_told(drivers, best, def.line, input.as_slice());
    }
    best
}

fn defs_told(drivers: &Drivers<'_>, best: Option<Told>, defs: &[NamedDef]) -> Option<Told>
    ensures { result ≡ least_of best
        (undefined_in (driving drivers.now).lines (flat_map (λ d. map (named d.line) d.inputs) defs.now)) }
{
    let mut best = best;
    for def in defs {
        best = def_told(drivers, best, def);
    }
    best
}

fn call_told(
    design: &Design<'_>,
    drivers: &Drivers<'_>,
    best: Option<Told>,
    call: &Call,
) -> Option<Told>
    ensures { result ≡ least_of best
        (undefined_in (driving drivers.now).lines (actuals call.now.line (input_ports design.now call.now))) }
{
    let Some(model) = design.called(call) else {
        return best;
    };
    let mut best = best;
    for port in call.ports.as_slice() {
        if model.is_input(port.formal.as_slice()) {
            best = use_told(drivers, best, call.line, port.actual.as_slice());
        }
    }
    best
}

fn calls_told(
    design: &Design<'_>,
    drivers: &Drivers<'_>,
    best: Option<Told>,
    calls: &[Call],
) -> Option<Told>
    ensures { result ≡ least_of best (undefined_in (driving drivers.now).lines
        (flat_map (λ c. actuals c.line (input_ports design.now c)) calls.now)) }
{
    let mut best = best;
    for call in calls {
        best = call_told(design, drivers, best, call);
    }
    best
}

fn outputs_told(drivers: &Drivers<'_>, best: Option<Told>, outputs: &[Named]) -> Option<Told>
    ensures { result ≡ least_of best (undefined_in (driving drivers.now).lines outputs.now) }
{
    let mut best = best;
    for output in outputs {
        best = use_told(drivers, best, output.line, output.name.as_slice());
    }
    best
}

/// The best fault, where a model uses signals that nothing drives.
pub fn uses_told(
    design: &Design<'_>,
    drivers: &Drivers<'_>,
    best: Option<Told>,
    model: &BlifModel,
) -> Option<Told>
    ensures { result ≡ least_of best (undefined_in (driving drivers.now).lines (used design.now model.now)) }
{
    let best = defs_told(drivers, best, model.defs.as_slice());
    let best = calls_told(design, drivers, best, model.calls.as_slice());
    outputs_told(drivers, best, model.outputs.as_slice())
}
