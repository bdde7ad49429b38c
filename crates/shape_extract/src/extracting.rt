// Extraction: the circuit of a layout, or the first rule of circuits that is broken.
ghost use Rattle.std.specs.Prelude.{◌≡◌, ◌^◌, ◌<◌, IfOk, IfErr};
ghost use Rattle.geom.specs.FlatForm.{flat_count};
ghost use Rattle.shape_extract.specs.declared.extraction.ExtractRefusal.TheVariants.{Broken};
ghost use Rattle.shape_extract.specs.Extracts.{Extracts, BreaksCircuit, IfBroken};
ghost use Rattle.layout_rules.specs.CircuitRules.{CellsBroken};
ghost use Rattle.layout_rules.specs.Reports.{ReportsNone};
ghost use Rattle.shape_extract.specs.Filed.{IsFiled};

use crate::circuits::assembly::circuit_of;
use crate::extraction::ExtractRefusal;
use crate::filed_shapes::{FiledShapes, file_kinds};
use crate::rules::cell_rule::find_cells;
use crate::rules::first_broken::{BrokenRule, broken, first_broken};
use crate::tables::layout_tables::tables_of;
use circuit_extracted::Extracted;
use geom::Flat;
use layout_rules::Rule;
use std::alloc::Global;

fn refusal(found: BrokenRule) -> ExtractRefusal
    ensures { result ≡ Broken found.rule found.first found.second }
{
    ExtractRefusal::Broken {
        rule: found.rule,
        first: found.first,
        second: found.second,
    }
}

/// The circuit or the first broken rule of a layout whose cells keep their rule.
fn extract_cells(
    alloc: Global,
    flat: &Flat,
    filed: &FiledShapes,
) -> Result<Extracted, ExtractRefusal>
    requires few { flat_count flat.now < 2 ^ 32 }
    requires filed { IsFiled flat.now.shapes filed.now }
    requires kept { ReportsNone (CellsBroken flat.now.shapes) }
    ensures circuit { IfOk result (Extracts flat.now) }
    ensures broken { IfErr result (λ refusal. IfBroken refusal (BreaksCircuit flat.now)) }
{
    let tables = tables_of(alloc, flat, filed)?;
    if let Some(found) = first_broken(alloc, flat, filed, &tables)? {
        return Err(refusal(found));
    }
    let circuit = circuit_of(alloc, flat, filed, tables)?;
    Ok(circuit)
}

/// The same as `extract`, of a layout whose shapes are filed.
pub fn extract_filed(
    alloc: Global,
    flat: &Flat,
    filed: &FiledShapes,
) -> Result<Extracted, ExtractRefusal>
    requires few { flat_count flat.now < 2 ^ 32 }
    requires filed { IsFiled flat.now.shapes filed.now }
    ensures circuit { IfOk result (Extracts flat.now) }
    ensures broken { IfErr result (λ refusal. IfBroken refusal (BreaksCircuit flat.now)) }
{
    let shapes = flat.shapes.as_slice();
    if let Some(report) = find_cells(alloc, shapes, filed)? {
        return Err(refusal(broken(Rule::E1, report)));
    }
    extract_cells(alloc, flat, filed)
}

/// The circuit that the shapes and labels of a layout make, where nothing breaks the rules of circuits; else the first
/// of these rules that is broken, with the numbers that it reports. It is refused otherwise for want of memory alone.
pub fn extract(alloc: Global, flat: &Flat) -> Result<Extracted, ExtractRefusal>
    requires { flat_count flat.now < 2 ^ 32 }
    ensures circuit { IfOk result (Extracts flat.now) }
    ensures broken { IfErr result (λ refusal. IfBroken refusal (BreaksCircuit flat.now)) }
{
    let filed = file_kinds(alloc, flat.shapes.as_slice())?;
    extract_filed(alloc, flat, &filed)
}
