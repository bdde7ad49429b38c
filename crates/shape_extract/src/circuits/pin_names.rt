// The numbers by which labels name pins.
ghost use Rattle.std.specs.Prelude.{◌≡◌, ◌^◌, ◌<◌, true};
ghost use Rattle.geom.specs.FlatForm.{flat_count};
ghost use Rattle.layout_rules.specs.Labels.{is_decimal, tail, number_of_label};
ghost use Rattle.layout_rules.specs.Layers.{is_pin};
ghost use Rattle.layout_rules.specs.CircuitRules.{LabelsBroken};
ghost use Rattle.layout_rules.specs.Reports.{Passes, ReportsNone};
ghost use Rattle.shape_extract.specs.Code.Marking.{AreMarks};
ghost use Rattle.shape_extract.specs.Code.PinNames.{Names};

use crate::tables::label_texts::number_of;
use crate::tables::mark_table::Mark;
use geom::{Flat, Label};

/// The number of a label that has one below 2^32.
fn number_below(label: &Label) -> u32
    requires decimal { is_decimal (tail label.now.text) ≡ true }
    requires below { number_of_label label.now < 2 ^ 32 }
    ensures { result ≡ number_of_label label.now }
{
    match number_of(label) {
        Some(number) => number as u32,
        None => 0,
    }
}

/// The number by which a label names the pin, where the rule of labels is kept; nothing where no label marks it.
pub fn name_of(flat: &Flat, marking: &[Mark], p: u32) -> Option<u32>
    requires marking { AreMarks flat.now.shapes flat.now.labels marking.now }
    requires few { flat_count flat.now < 2 ^ 32 }
    requires kept { ReportsNone (LabelsBroken flat.now) }
    requires pin { Passes is_pin flat.now.shapes p }
    ensures { Names flat.now p result }
{
    match marking[p as usize].label() {
        Some(label) => Some(number_below(&flat.labels.as_slice()[label as usize])),
        None => None,
    }
}
