// The design rule check (DRC): the rules of geometry, and that of lengths, in their order.
ghost use Rattle.std.specs.Prelude.{◌≡◌, ◌-◌, ◌<◌, ◌≤◌, ◌^◌, Some, IfErr, IfOk, OnOk};
ghost use Rattle.geom.specs.FlatForm.{flat_count};
ghost use Rattle.cell_library.specs.Library.{limits_of};
ghost use Rattle.layout_rules.specs.Rules.{KeepsRules, FirstBroken};
ghost use Rattle.shape_extract.specs.Extracts.{Extracts};
ghost use Rattle.shape_extract.specs.Filed.{IsFiled};
ghost use Rattle.rule_check.specs.Checks.{FindsGeometry, IfBroken};
ghost use Rattle.layout_rules.specs.Nets.{AreNets};
ghost use Rattle.rule_check.specs.Code.Seen.{limits_seen};
ghost use Rattle.rule_check.specs.Code.Sheets.{IsSheet};

use crate::cover::find_cover;
use crate::enclosure::find_bare;
use crate::frames::find_colliding;
use crate::lengths::find_long;
use crate::limits::{Limits, read_limits};
use crate::sizes::find_small;
use crate::spacing::find_close;
use aq_base::Memory;
use cell_library::Library;
use geom::Flat;
use layout_rules::Rule;
use shape_extract::{Extracted, FiledShapes, Report, file_kinds};
use std::alloc::Global;

/// Why a layout doesn't pass.
#[derive(Clone, Copy, Debug, PartialEq, Eq)]
pub enum CheckRefusal {
    /// The first rule that is broken, with the first two numbers that it reports: those of shapes, counted from 0.
    Broken { rule: Rule, first: u32, second: u32 },
    /// Want of memory.
    Memory,
}

impl From<Memory> for CheckRefusal {
    ghost use Rattle.std.specs.Prelude.{◌≡◌};
    ghost use Rattle.rule_check.specs.declared.checking.CheckRefusal.TheVariants.{Memory as NoMemory};

    ghost from_gives = { λ _ refusal. refusal ≡ NoMemory };

    fn from(_: Memory) -> Self {
        CheckRefusal::Memory
    }
}

/// A rule that is broken, and what it reports.
#[derive(Clone, Copy, PartialEq, Eq)]
pub struct BrokenRule {
    pub rule: Rule,
    pub first: u32,
    pub second: u32,
}

/// What the rule reports.
fn broken(rule: Rule, report: Report) -> Option<BrokenRule>
    ensures { result ≡ Some (record { rule = rule; first = report.first; second = report.second }) }
{
    Some(BrokenRule {
        rule,
        first: report.first,
        second: report.second,
    })
}

/// The first rule of geometry that is broken, with the numbers that it reports.
fn first_broken(
    alloc: Global,
    flat: &Flat,
    sheet: &FiledShapes,
    nets: &[u32],
    limits: &Limits,
) -> Result<Option<BrokenRule>, Memory>
    requires few { flat_count flat.now < 2 ^ 32 }
    requires sheet { IsSheet flat.now.shapes sheet.now }
    requires nets { AreNets flat.now.shapes nets.now }
    requires space_some { 1 ≤ limits.now.space }
    requires space_most { limits.now.space ≤ 1000000 }
    requires limit { limits.now.limit < 2 ^ 64 - 1 }
    ensures { IfOk result (FindsGeometry flat.now (limits_seen limits.now)) }
{
    let shapes = flat.shapes.as_slice();
    if let Some(report) = find_small(alloc, shapes, limits)? {
        return Ok(broken(Rule::G1, report));
    }
    if let Some(report) = find_close(alloc, shapes, sheet, limits)? {
        return Ok(broken(Rule::G2, report));
    }
    if let Some(report) = find_bare(alloc, shapes, sheet, limits)? {
        return Ok(broken(Rule::G3, report));
    }
    if let Some(report) = find_cover(alloc, shapes, sheet)? {
        return Ok(broken(Rule::G4, report));
    }
    if let Some(report) = find_colliding(alloc, shapes)? {
        return Ok(broken(Rule::G5, report));
    }
    if let Some(report) = find_long(alloc, shapes, nets, limits)? {
        return Ok(broken(Rule::E5, report));
    }
    Ok(None)
}

/// The same as `check`, of a layout whose shapes are filed.
pub fn check_filed(
    alloc: Global,
    flat: &Flat,
    filed: &FiledShapes,
    circuit: &Extracted,
    library: &Library,
) -> Result<(), CheckRefusal>
    requires few { flat_count flat.now < 2 ^ 32 }
    requires filed { IsFiled flat.now.shapes filed.now }
    requires circuit { Extracts flat.now circuit.now }
    ensures kept { OnOk result (KeepsRules flat.now (limits_of library.now)) }
    ensures broken { IfErr result (λ refusal. IfBroken refusal (FirstBroken flat.now (limits_of library.now))) }
{
    let limits = read_limits(library);
    match first_broken(alloc, flat, filed, circuit.nets.as_slice(), &limits)? {
        Some(found) => Err(CheckRefusal::Broken {
            rule: found.rule,
            first: found.first,
            second: found.second,
        }),
        None => Ok(()),
    }
}

/// Answers where the layout, whose circuit this is, keeps all rules with the numbers of the library. It is refused with
/// the first rule that is broken, in the order in which they are tried, and the first two numbers that this rule
/// reports; otherwise for want of memory alone.
pub fn check(
    alloc: Global,
    flat: &Flat,
    circuit: &Extracted,
    library: &Library,
) -> Result<(), CheckRefusal>
    requires few { flat_count flat.now < 2 ^ 32 }
    requires circuit { Extracts flat.now circuit.now }
    ensures kept { OnOk result (KeepsRules flat.now (limits_of library.now)) }
    ensures broken { IfErr result (λ refusal. IfBroken refusal (FirstBroken flat.now (limits_of library.now))) }
{
    let filed = file_kinds(alloc, flat.shapes.as_slice())?;
    check_filed(alloc, flat, &filed, circuit, library)
}
