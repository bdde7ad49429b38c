// The rule of labels: each label marks one port, each port has one label, and the labels of a letter are numbered.
ghost use Rattle.std.specs.Prelude.{◌≡◌, ◌≢◌, ◌+◌, ◌^◌, ◌<◌, ℕ, IfOk, length, count_by, slice_get, Some};
ghost use Rattle.geom.specs.declared.shapes.Shape.{Shape};
ghost use Rattle.layout_rules.specs.Labels.{marks};
ghost use Rattle.layout_rules.specs.Reports.{Alone, ReportsNone};
ghost use Rattle.layout_rules.specs.Rows.{AreRows};
ghost use Rattle.layout_rules.specs.CircuitRules.{
  is_port_label,
  IsNoPortLabel,
  IsUnlabelledPort,
  CellsBroken,
  LabelsBroken,
};
ghost use Rattle.shape_extract.specs.Searches.{SaysWhether, Finds};
ghost use Rattle.shape_extract.specs.Code.Marking.{AreMarks};
ghost use Rattle.shape_extract.specs.Code.RowFaults.{ArePinRows};
ghost use Rattle.shape_extract.specs.Code.Ports.{ports_of};
ghost use Rattle.shape_extract.specs.Filed.{IsFiled};

use crate::filed_shapes::FiledShapes;
use crate::rules::label_numbers::find_misnumbered;
use crate::search::{Part, Report, first_of};
use crate::tables::label_texts::is_numbered;
use crate::tables::mark_table::Mark;
use crate::tables::marking::list_marked;
use crate::tables::ports::{Port, ports};
use aq_base::Memory;
use geom::{Flat, Label, Shape};
use layout_rules::layers::LABELS;
use std::alloc::Global;

/// Whether the label has a letter and a number, and marks one pin, which is a port.
fn is_port_label(
    shapes: &[Shape],
    filed: &FiledShapes,
    ports: &[Port],
    label: &Label,
    found: &mut Vec<u32>,
) -> Result<bool, Memory>
    requires few { length shapes.now < 2 ^ 32 }
    requires filed { IsFiled shapes.now filed.now }
    requires ports { ports.now ≡ ports_of shapes.now }
    ensures { IfOk result (λ yes. yes ≡ is_port_label shapes.now label.now) }
{
    if !is_numbered(label) {
        return Ok(false);
    }
    list_marked(shapes, filed, label, found)?;
    match found.as_slice() {
        [pin] => Ok(ports[*pin as usize].crosses()),
        _ => Ok(false),
    }
}

/// Labels that mark no port alone.
#[derive(Drop)]
struct PortLabels<'a> {
    flat: &'a Flat,
    filed: &'a FiledShapes,
    ports: &'a [Port],
}

impl<'a> Part for PortLabels<'a> {
    ghost use Rattle.layout_rules.specs.CircuitRules.{IsNoPortLabel};

    ghost valid = { λ s. (length s.flat.now.shapes + length s.flat.now.labels < 2 ^ 32)
        × (s.ports.now ≡ ports_of s.flat.now.shapes) × IsFiled s.flat.now.shapes s.filed.now };

    ghost count = { λ s. length s.flat.now.shapes + length s.flat.now.labels };

    ghost reported = { λ s. Alone (IsNoPortLabel s.flat.now) };

    fn count(&self) -> u32 {
        self.flat.shapes.len() as u32 + self.flat.labels.len() as u32
    }

    fn second(&self, a: u32, found: &mut Vec<u32>) -> Result<Option<u32>, Memory> {
        let shapes = self.flat.shapes.as_slice();
        if (a as usize) < shapes.len() {
            return Ok(None);
        }
        let label = &self.flat.labels.as_slice()[a as usize - shapes.len()];
        if label.layer != LABELS || is_port_label(shapes, self.filed, self.ports, label, found)? {
            return Ok(None);
        }
        Ok(Some(a))
    }
}

/// Ports with no label or several.
#[derive(Drop)]
struct LabelledPorts<'a> {
    flat: &'a Flat,
    marking: &'a [Mark],
    ports: &'a [Port],
}

impl<'a> Part for LabelledPorts<'a> {
    ghost use Rattle.layout_rules.specs.CircuitRules.{IsUnlabelledPort};

    ghost valid = { λ s. (length s.flat.now.shapes + length s.flat.now.labels < 2 ^ 32)
        × (s.ports.now ≡ ports_of s.flat.now.shapes)
        × AreMarks s.flat.now.shapes s.flat.now.labels s.marking.now };

    ghost count = { λ s. length s.flat.now.shapes };

    ghost reported = { λ s. Alone (IsUnlabelledPort s.flat.now) };

    fn count(&self) -> u32 {
        self.flat.shapes.len() as u32
    }

    fn second(&self, a: u32, _found: &mut Vec<u32>) -> Result<Option<u32>, Memory> {
        if !self.ports[a as usize].crosses() {
            return Ok(None);
        }
        if self.marking[a as usize].has_one() {
            return Ok(None);
        }
        Ok(Some(a))
    }
}

/// The first report of the rule of labels, where the rule of cells is kept.
pub fn find_labels(
    alloc: Global,
    flat: &Flat,
    marking: &[Mark],
    filed: &FiledShapes,
    edges: &[i64],
    rows: &[usize],
) -> Result<Option<Report>, Memory>
    requires few { length flat.now.shapes + length flat.now.labels < 2 ^ 32 }
    requires marking { AreMarks flat.now.shapes flat.now.labels marking.now }
    requires filed { IsFiled flat.now.shapes filed.now }
    requires edges { AreRows flat.now.shapes edges.now }
    requires rows { ArePinRows flat.now.shapes rows.now }
    requires kept { ReportsNone (CellsBroken flat.now.shapes) }
    ensures { IfOk result (Finds (LabelsBroken flat.now)) }
{
    let last = edges.len().saturating_sub(1);
    let ports = ports(alloc, flat.shapes.as_slice(), rows, last)?;
    let ports = ports.as_slice();
    if let Some(label) = first_of(alloc, &PortLabels { flat, filed, ports })? {
        return Ok(Some(label));
    }
    if let Some(port) = first_of(
        alloc,
        &LabelledPorts {
            flat,
            marking,
            ports,
        },
    )? {
        return Ok(Some(port));
    }
    find_misnumbered(alloc, flat, ports)
}
