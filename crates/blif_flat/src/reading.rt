// From a text to its netlist, or to what is wrong with it first.
ghost use Rattle.std.specs.Prelude.{◌≡◌, ℕ, ◌<◌, ◌≤◌, ◌^◌, List, length, IfOk, IfErr};
ghost use Rattle.blif_read.specs.Says.{IfBad};
ghost use Rattle.blif_read.specs.Reads.{SaysText, TextFault};
ghost use Rattle.blif_read.specs.Netlist.{AreParts};
ghost use Rattle.blif_flat.specs.DesignFaults.{AreJoined};
ghost use Rattle.blif_flat.specs.DesignText.{SaysNetlist, IsNetlistRefusal, IsLaidOut, IsBuildable, SaysExpansion};
ghost use Rattle.blif_flat.specs.Expansion.{expansion};
ghost use Rattle.blif_flat.specs.Code.Numbering.{IsNumbering};
ghost use Rattle.blif_flat.specs.Code.Calls.{has_name, IsCallOrder};
ghost use Rattle.blif_flat.specs.Code.Building.{IsModelsRefusal};

use crate::design::{FlatKind, FlatRefusal};
use crate::expansion::expand::expand;
use crate::faults::told::first_fault;
use crate::models::calls::{call_order, model_numbers};
use crate::models::indexed::Design;
use crate::models::numbers::Numbers;
use crate::models::sizes::design_size;
use blif_read::{BlifModel, BlifRefusal, Netlist, ReadText, read_text};
use name_hash::NameHash;
use std::alloc::Global;

/// No design is larger.
const SIZE_LIMIT: u64 = 16_777_216;

/// The netlist of models without faults of lines and loops, which stand in this order.
fn net_of_straight(
    alloc: Global,
    hash: NameHash,
    numbers: &Numbers<'_>,
    design: &Design<'_>,
    models: &[BlifModel],
    order: &[u32],
) -> Result<Netlist, FlatRefusal>
    requires same { design.now ≡ models.now }
    requires some { 0 < length models.now }
    requires parts { IsBuildable models.now → AreParts (expansion models.now) }
    requires numbers { IsNumbering has_name numbers.now.entries models.now }
    requires laid_out { IsLaidOut models.now }
    requires order { IsCallOrder models.now order.now }
    ensures ok { IfOk result (λ net. SaysExpansion net models.now) }
    ensures err { IfErr result (IsModelsRefusal models.now) }
{
    if models[0].outputs.len() == 0 {
        return Err(FlatRefusal::Design {
            line: 0,
            kind: FlatKind::NoOutputs,
        });
    }
    let size = design_size(alloc, numbers, design, models, order)?;
    if size > SIZE_LIMIT {
        return Err(FlatRefusal::TooMany { size });
    }
    expand(alloc, hash, design, models, order)
}

/// The netlist of models without faults of lines.
fn net_of_joined(
    alloc: Global,
    hash: NameHash,
    numbers: &Numbers<'_>,
    design: &Design<'_>,
    models: &[BlifModel],
) -> Result<Netlist, FlatRefusal>
    requires same { design.now ≡ models.now }
    requires some { 0 < length models.now }
    requires few { length models.now < 2 ^ 32 }
    requires parts { IsBuildable models.now → AreParts (expansion models.now) }
    requires numbers { IsNumbering has_name numbers.now.entries models.now }
    requires joined { AreJoined models.now }
    ensures ok { IfOk result (λ net. SaysExpansion net models.now) }
    ensures err { IfErr result (IsModelsRefusal models.now) }
{
    match call_order(alloc, numbers, models)? {
        Ok(order) => net_of_straight(alloc, hash, numbers, design, models, &order),
        Err(line) => Err(FlatRefusal::Design {
            line,
            kind: FlatKind::Recursive,
        }),
    }
}

/// The netlist of models of these numbers.
fn net_of_numbered(
    alloc: Global,
    hash: NameHash,
    numbers: &Numbers<'_>,
    models: &[BlifModel],
) -> Result<Netlist, FlatRefusal>
    requires some { 0 < length models.now }
    requires few { length models.now < 2 ^ 32 }
    requires parts { IsBuildable models.now → AreParts (expansion models.now) }
    requires numbers { IsNumbering has_name numbers.now.entries models.now }
    ensures ok { IfOk result (λ net. SaysExpansion net models.now) }
    ensures err { IfErr result (IsModelsRefusal models.now) }
{
    let design = Design::new(alloc, hash, numbers, models)?;
    match first_fault(alloc, hash, &design, models)? {
        Some(told) => Err(FlatRefusal::Design {
            line: told.line,
            kind: told.kind,
        }),
        None => net_of_joined(alloc, hash, numbers, &design, models),
    }
}

/// The netlist of models.
fn net_of(alloc: Global, hash: NameHash, models: &[BlifModel]) -> Result<Netlist, FlatRefusal>
    requires some { 0 < length models.now }
    requires few { length models.now < 2 ^ 32 }
    requires parts { IsBuildable models.now → AreParts (expansion models.now) }
    ensures ok { IfOk result (λ net. SaysExpansion net models.now) }
    ensures err { IfErr result (IsModelsRefusal models.now) }
{
    let numbers = model_numbers(alloc, hash, models)?;
    net_of_numbered(alloc, hash, &numbers, models)
}

/// The netlist that is read, or that the models are expanded to.
fn net_said(alloc: Global, text: &[u8], read: ReadText) -> Result<Netlist, FlatRefusal>
    requires few { length text.now ≤ 2 ^ 27 }
    requires said { SaysText text.now read }
    ensures ok { IfOk result (λ net. SaysNetlist text.now net) }
    ensures err { IfErr result (λ refusal. IsNetlistRefusal text.now refusal) }
{
    match read {
        ReadText::Plain(net) => Ok(net),
        ReadText::Design(models) => net_of(alloc, NameHash::of(text), models.as_slice()),
    }
}

/// Why a text gives no netlist, where it can't be read.
fn refused(refusal: BlifRefusal) -> FlatRefusal
    ensures { (text : List ℕ) → IfBad refusal (TextFault text) → IsNetlistRefusal text result }
{
    match refusal {
        BlifRefusal::Bad(fault) => FlatRefusal::Text(fault),
        BlifRefusal::Memory => FlatRefusal::Memory,
    }
}

/// The netlist that a text in the Berkeley Logic Interchange Format says, be it of one model or of several that call
/// one another; or what is wrong with it first. It is refused otherwise for want of memory alone.
pub fn read_design(alloc: Global, text: &[u8]) -> Result<Netlist, FlatRefusal>
    requires { length text.now ≤ 2 ^ 27 }
    ensures ok { IfOk result (λ net. SaysNetlist text.now net) }
    ensures err { IfErr result (λ refusal. IsNetlistRefusal text.now refusal) }
{
    match read_text(alloc, text) {
        Ok(read) => net_said(alloc, text, read),
        Err(refusal) => Err(refused(refusal)),
    }
}
