// The rule of rows: each wire leads up to the next row.
ghost use Rattle.std.specs.Prelude.{◌≡◌, ◌^◌, ◌<◌, suc, IfOk, length};
ghost use Rattle.layout_rules.specs.Nets.{AreNets};
ghost use Rattle.layout_rules.specs.Reports.{ReportsNone};
ghost use Rattle.layout_rules.specs.CircuitRules.{CellsBroken, RowsBroken};
ghost use Rattle.shape_extract.specs.Searches.{SaysWhether, Finds};
ghost use Rattle.shape_extract.specs.Code.Marking.{AreMarks};
ghost use Rattle.shape_extract.specs.Chains.{AreChains};
ghost use Rattle.shape_extract.specs.Code.RowFaults.{ArePinRows, AreRowed, FindsAstray};

use crate::connectivity::net_chains::{chains, list_in_net};
use crate::search::{Part, Report, first_of};
use crate::tables::mark_table::Mark;
use aq_base::Memory;
use geom::Flat;
use layout_rules::layers::{INPUT_PIN, OUTPUT_PIN};
use std::alloc::Global;

/// Whether the one row is just below the other.
fn is_just_below(lower: usize, upper: usize) -> bool
    ensures { SaysWhether result (upper ≡ suc lower) }
{
    upper > 0 && upper - 1 == lower
}

/// The first of these numbers whose row is not just below this one.
fn first_astray(rows: &[usize], numbers: &[u32], row: usize) -> Option<u32>
    requires { AreRowed rows.now numbers.now }
    ensures { FindsAstray rows.now numbers.now row result }
{
    for number in numbers {
        if !is_just_below(rows[*number as usize], row) {
            return Some(*number);
        }
    }
    None
}

/// What the rule of rows reports of each input pin.
#[derive(Drop)]
struct Wires<'a> {
    flat: &'a Flat,
    marking: &'a [Mark],
    nets: &'a [u32],
    next: &'a [u32],
    rows: &'a [usize],
}

impl<'a> Part for Wires<'a> {
    ghost use Rattle.layout_rules.specs.Reports.{ReportsNone};
    ghost use Rattle.layout_rules.specs.CircuitRules.{CellsBroken, RowsBroken};

    ghost valid = { λ s. (length s.flat.now.shapes < 2 ^ 32) × AreNets s.flat.now.shapes s.nets.now
        × ArePinRows s.flat.now.shapes s.rows.now × ReportsNone (CellsBroken s.flat.now.shapes)
        × AreChains s.nets.now s.next.now × AreMarks s.flat.now.shapes s.flat.now.labels s.marking.now };

    ghost count = { λ s. length s.flat.now.shapes };

    ghost reported = { λ s. RowsBroken s.flat.now };

    fn count(&self) -> u32 {
        self.flat.shapes.len() as u32
    }

    fn second(&self, a: u32, found: &mut Vec<u32>) -> Result<Option<u32>, Memory> {
        let shapes = self.flat.shapes.as_slice();
        let shape = &shapes[a as usize];
        if shape.layer != INPUT_PIN || self.marking[a as usize].has_label() {
            return Ok(None);
        }
        list_in_net(shapes, self.nets, self.next, OUTPUT_PIN, a, found)?;
        let astray = first_astray(self.rows, found.as_slice(), self.rows[a as usize]);
        Ok(astray)
    }
}

/// The first report of the rule of rows, where the rule of cells is kept.
pub fn find_rows(
    alloc: Global,
    flat: &Flat,
    marking: &[Mark],
    nets: &[u32],
    rows: &[usize],
) -> Result<Option<Report>, Memory>
    requires few { length flat.now.shapes < 2 ^ 32 }
    requires marking { AreMarks flat.now.shapes flat.now.labels marking.now }
    requires nets { AreNets flat.now.shapes nets.now }
    requires rows { ArePinRows flat.now.shapes rows.now }
    requires kept { ReportsNone (CellsBroken flat.now.shapes) }
    ensures { IfOk result (Finds (RowsBroken flat.now)) }
{
    let next = chains(alloc, nets)?;
    first_of(
        alloc,
        &Wires {
            flat,
            marking,
            nets,
            next: &next,
            rows,
        },
    )
}
