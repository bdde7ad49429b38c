// The rules of layouts: those that make a circuit, and then those of geometry.
ghost use Rattle.std.specs.Prelude.{◌<◌, ◌^◌, IfOk, IfErr, OnOk};
ghost use Rattle.geom.specs.FlatForm.{flat_count};
ghost use Rattle.cell_library.specs.Library.{limits_of};
ghost use Rattle.layout_rules.specs.Limits.{Limits};
ghost use Rattle.layout_rules.specs.Rules.{KeepsRules};
ghost use Rattle.shape_extract.specs.Extracts.{Extracts};
ghost use Rattle.shape_extract.specs.Filed.{IsFiled};
ghost use Rattle.poly_cut.specs.Conditions.{IsFlattenable};
ghost use Rattle.poly_cut.specs.FlatForm.{wide_flat};
ghost use Rattle.aqfp_top.specs.Code.Checking.{IsBroken, IsJudged};

use crate::fault::Fault;
use cell_library::Library;
use geom::Flat;
use poly_cut::{WideLayout, count_is_exact, flatten_wide};
use rule_check::{CheckRefusal, check_filed};
use shape_extract::{ExtractRefusal, Extracted, FiledShapes, extract_filed, file_kinds};
use std::alloc::Global;

/// The circuit of the shapes, where they keep the rules that make one; else the first of these that is broken.
fn extracted(alloc: Global, flat: &Flat, filed: &FiledShapes) -> Result<Extracted, Fault>
    requires few { flat_count flat.now < 2 ^ 32 }
    requires filed { IsFiled flat.now.shapes filed.now }
    ensures ok { IfOk result (Extracts flat.now) }
    ensures bad { IfErr result (λ fault. (limits : Limits) → IsBroken flat.now limits fault) }
{
    match extract_filed(alloc, flat, filed) {
        Ok(circuit) => Ok(circuit),
        Err(
            ExtractRefusal::Broken {
                rule,
                first,
                second,
            },
        ) => Err(Fault::RuleBroken {
            rule,
            first,
            second,
        }),
        Err(ExtractRefusal::Memory) => Err(Fault::Memory),
    }
}

/// Whether the shapes, whose circuit this is, keep all rules with the numbers of the library; else the first that is
/// broken.
fn check_geometry(
    alloc: Global,
    flat: &Flat,
    filed: &FiledShapes,
    circuit: &Extracted,
    cells: &Library,
) -> Result<(), Fault>
    requires few { flat_count flat.now < 2 ^ 32 }
    requires filed { IsFiled flat.now.shapes filed.now }
    requires circuit { Extracts flat.now circuit.now }
    ensures ok { OnOk result (KeepsRules flat.now (limits_of cells.now)) }
    ensures bad { IfErr result (IsBroken flat.now (limits_of cells.now)) }
{
    match check_filed(alloc, flat, filed, circuit, cells) {
        Ok(()) => Ok(()),
        Err(
            CheckRefusal::Broken {
                rule,
                first,
                second,
            },
        ) => Err(Fault::RuleBroken {
            rule,
            first,
            second,
        }),
        Err(CheckRefusal::Memory) => Err(Fault::Memory),
    }
}

/// The circuit of shapes that are filed, where they keep all rules with the numbers of the library; else the first that
/// is broken.
fn judge_filed(
    alloc: Global,
    flat: &Flat,
    filed: &FiledShapes,
    cells: &Library,
) -> Result<Extracted, Fault>
    requires few { flat_count flat.now < 2 ^ 32 }
    requires filed { IsFiled flat.now.shapes filed.now }
    ensures rules { OnOk result (KeepsRules flat.now (limits_of cells.now)) }
    ensures circuit { IfOk result (Extracts flat.now) }
    ensures bad { IfErr result (IsBroken flat.now (limits_of cells.now)) }
{
    let circuit = extracted(alloc, flat, filed)?;
    check_geometry(alloc, flat, filed, &circuit, cells)?;
    Ok(circuit)
}

/// The circuit of the shapes, where they keep all rules with the numbers of the library; else the first that is broken.
/// The shapes are filed once for all rules.
pub fn judge_shapes(alloc: Global, flat: &Flat, cells: &Library) -> Result<Extracted, Fault>
    requires { flat_count flat.now < 2 ^ 32 }
    ensures rules { OnOk result (KeepsRules flat.now (limits_of cells.now)) }
    ensures circuit { IfOk result (Extracts flat.now) }
    ensures bad { IfErr result (IsBroken flat.now (limits_of cells.now)) }
{
    let Ok(filed) = file_kinds(alloc, flat.shapes.as_slice()) else {
        return Err(Fault::Memory);
    };
    judge_filed(alloc, flat, &filed, cells)
}

/// The shapes of a layout and the circuit that they make.
#[derive(Drop)]
pub struct JudgedChip {
    pub flat: Flat,
    pub circuit: Extracted,
}

/// The layout's shapes and their circuit, where they keep all rules with the numbers of the library; else the first
/// that is broken. The layout is let go as soon as it is flat.
pub fn judged(alloc: Global, layout: WideLayout, cells: &Library) -> Result<JudgedChip, Fault>
    requires { IsFlattenable layout }
    ensures ok { IfOk result (IsJudged (wide_flat layout) (limits_of cells.now)) }
    ensures bad { IfErr result (IsBroken (wide_flat layout) (limits_of cells.now)) }
{
    count_is_exact();
    let Ok(flat) = flatten_wide(alloc, &layout) else {
        return Err(Fault::Memory);
    };
    drop(layout);
    let circuit = judge_shapes(alloc, &flat, cells)?;
    Ok(JudgedChip { flat, circuit })
}
