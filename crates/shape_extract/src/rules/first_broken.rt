// The rules of circuits in turn.
ghost use Rattle.std.specs.Prelude.{◌≡◌, ◌^◌, ◌<◌, IfOk};
ghost use Rattle.geom.specs.FlatForm.{flat_count};
ghost use Rattle.layout_rules.specs.CircuitRules.{CellsBroken};
ghost use Rattle.layout_rules.specs.Reports.{ReportsNone};
ghost use Rattle.shape_extract.specs.Code.FirstRule.{FindsRule};
ghost use Rattle.shape_extract.specs.Code.LayoutTables.{AreTablesOf};
ghost use Rattle.shape_extract.specs.Filed.{IsFiled};

use crate::filed_shapes::FiledShapes;
use crate::lines::excitation_rule::find_excitation;
use crate::rules::label_rule::find_labels;
use crate::rules::net_rule::find_nets;
use crate::rules::row_rule::find_rows;
use crate::search::Report;
use crate::tables::layout_tables::LayoutTables;
use aq_base::Memory;
use geom::Flat;
use layout_rules::Rule;
use std::alloc::Global;

/// A rule that is broken, and what it reports.
#[derive(Clone, Copy, PartialEq, Eq)]
pub struct BrokenRule {
    pub rule: Rule,
    pub first: u32,
    pub second: u32,
}

/// The report of this rule.
pub fn broken(rule: Rule, report: Report) -> BrokenRule
    ensures { result ≡ record { rule = rule; first = report.first; second = report.second } }
{
    BrokenRule {
        rule,
        first: report.first,
        second: report.second,
    }
}

/// The first rule of circuits that is broken, where the rule of cells is kept.
pub fn first_broken(
    alloc: Global,
    flat: &Flat,
    filed: &FiledShapes,
    found: &LayoutTables,
) -> Result<Option<BrokenRule>, Memory>
    requires few { flat_count flat.now < 2 ^ 32 }
    requires filed { IsFiled flat.now.shapes filed.now }
    requires found { AreTablesOf flat.now found.now }
    requires kept { ReportsNone (CellsBroken flat.now.shapes) }
    ensures { IfOk result (FindsRule flat.now) }
{
    let marking = found.marking.as_slice();
    let nets = found.nets.as_slice();
    let edges = found.edges.as_slice();
    let rows = found.pin_rows.as_slice();
    if let Some(report) = find_excitation(alloc, flat.shapes.as_slice(), filed)? {
        return Ok(Some(broken(Rule::E2, report)));
    }
    if let Some(report) = find_nets(alloc, flat, marking, nets)? {
        return Ok(Some(broken(Rule::E3, report)));
    }
    if let Some(report) = find_rows(alloc, flat, marking, nets, rows)? {
        return Ok(Some(broken(Rule::E4, report)));
    }
    if let Some(report) = find_labels(alloc, flat, marking, filed, edges, rows)? {
        return Ok(Some(broken(Rule::E6, report)));
    }
    Ok(None)
}
