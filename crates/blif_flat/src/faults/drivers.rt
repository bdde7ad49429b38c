// What a model drives: each signal with the least line in which it is driven.
ghost use Rattle.std.specs.Prelude.{◌≡◌, IfOk, OnOk, map, is_some};
ghost use Rattle.std.specs.List.{flat_map};
ghost use Rattle.blif_read.specs.Models.{named};
ghost use Rattle.blif_flat.specs.Designs.{actuals, output_ports, driven};
ghost use Rattle.blif_flat.specs.Code.Numbering.{number_in};
ghost use Rattle.blif_flat.specs.Code.Joining.{again, lower, least_of, drive, drive_all, driving, undriven};

use crate::design::FlatKind;
use crate::faults::order::{Told, least};
use crate::models::indexed::Design;
use aq_base::Memory;
use blif_read::{BlifModel, Call, Named, NamedDef};
use indexmap::IndexMap;
use name_hash::NameHash;
use std::alloc::Global;

/// Lines by name.
type Lines<'a> = IndexMap<&'a [u8], u64, NameHash>;

/// The least line in which each signal is driven, and the best fault so far.
#[derive(Drop)]
pub struct Drivers<'a> {
    lines: Lines<'a>,
    told: Option<Told>,
}

/// The line of a name.
fn line_of(lines: &Lines<'_>, name: &[u8]) -> Option<u64>
    ensures { result ≡ number_in lines.now.entries name.now }
{
    lines.get(&name).copied()
}

/// The fault of a signal that is driven in this line and was driven before, told where it comes before the best so far.
fn again(best: Option<Told>, earlier: Option<u64>, line: u64) -> Option<Told>
    ensures { result ≡ least_of best (again earlier line) }
{
    match earlier {
        Some(earlier) => least(best, earlier.max(line), FlatKind::Duplicate),
        None => best,
    }
}

/// The lower of two lines.
fn lower(earlier: Option<u64>, line: u64) -> u64
    ensures { result ≡ lower earlier line }
{
    match earlier {
        Some(earlier) => earlier.min(line),
        None => line,
    }
}

impl<'a> Drivers<'a> {
    /// Nothing is driven yet.
    pub fn new(alloc: Global, hash: NameHash, told: Option<Told>) -> Self
        ensures { driving result ≡ undriven told }
    {
        Drivers {
            lines: IndexMap::with_hasher(alloc, hash),
            told,
        }
    }

    /// Takes in that a signal is driven in a line.
    fn drive(&mut self, line: u64, name: &'a [u8]) -> Result<(), Memory>
        ensures { OnOk result (driving self.new ≡ drive (driving self.old) (named line name.now)) }
    {
        let earlier = line_of(&self.lines, name);
        self.told = again(self.told, earlier, line);
        self.lines.insert(name, lower(earlier, line))?;
        Ok(())
    }

    fn drive_inputs(&mut self, inputs: &'a [Named]) -> Result<(), Memory>
        ensures { OnOk result (driving self.new ≡ drive_all (driving self.old) inputs.now) }
    {
        for input in inputs {
            self.drive(input.line, input.name.as_slice())?;
        }
        Ok(())
    }

    fn drive_defs(&mut self, defs: &'a [NamedDef]) -> Result<(), Memory>
        ensures { OnOk result (driving self.new
            ≡ drive_all (driving self.old) (map (λ d. named d.line d.output) defs.now)) }
    {
        for def in defs {
            self.drive(def.line, def.output.as_slice())?;
        }
        Ok(())
    }

    /// Takes in what the output ports of a call drive.
    fn drive_call(&mut self, design: &Design<'_>, call: &'a Call) -> Result<(), Memory>
        ensures { OnOk result (driving self.new
            ≡ drive_all (driving self.old) (actuals call.now.line (output_ports design.now call.now))) }
    {
        let Some(model) = design.called(call) else {
            return Ok(());
        };
        for port in call.ports.as_slice() {
            if model.is_output(port.formal.as_slice()) {
                self.drive(call.line, port.actual.as_slice())?;
            }
        }
        Ok(())
    }

    fn drive_calls(&mut self, design: &Design<'_>, calls: &'a [Call]) -> Result<(), Memory>
        ensures { OnOk result (driving self.new ≡ drive_all (driving self.old)
            (flat_map (λ c. actuals c.line (output_ports design.now c)) calls.now)) }
    {
        for call in calls {
            self.drive_call(design, call)?;
        }
        Ok(())
    }

    /// Takes in all that a model drives.
    pub fn drive_model(&mut self, design: &Design<'_>, model: &'a BlifModel) -> Result<(), Memory>
        ensures { OnOk result (driving self.new ≡ drive_all (driving self.old) (driven design.now model.now)) }
    {
        self.drive_inputs(model.inputs.as_slice())?;
        self.drive_defs(model.defs.as_slice())?;
        self.drive_calls(design, model.calls.as_slice())
    }

    /// Whether a signal is driven.
    pub fn drives(&self, name: &[u8]) -> bool
        ensures { result ≡ is_some (number_in self.now.lines.entries name.now) }
    {
        line_of(&self.lines, name).is_some()
    }

    /// The best fault so far.
    pub fn told(&self) -> Option<Told>
        ensures { result ≡ self.now.told }
    {
        self.told
    }
}
