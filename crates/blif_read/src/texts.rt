// From a text to its netlist, or to the models of a design.
ghost use Rattle.std.specs.Prelude.{◌≡◌, ◌≤◌, ◌^◌, length, IfOk, IfErr};
ghost use Rattle.std.specs.List.{list_any, count_by};
ghost use Rattle.blif_read.specs.Statements.{word, is_model};
ghost use Rattle.blif_read.specs.Models.{is_call, is_design};
ghost use Rattle.blif_read.specs.Says.{IfBad};
ghost use Rattle.blif_read.specs.Reads.{SaysText, TextFault};

use crate::lines::{Lines, LogicalLine};
use crate::models::BlifModel;
use crate::netlist::{BlifRefusal, Netlist};
use crate::read::netlist;
use crate::sections::{is_model, models_in};
use crate::words::Statement;
use aq_base::{List, Memory};
use name_hash::NameHash;
use std::alloc::Global;

/// What a text says.
#[derive(Drop)]
pub enum ReadText {
    /// A netlist, where no line calls a model and at most one begins one.
    Plain(Netlist),
    /// The models of a design.
    Design(List<BlifModel>),
}

/// Whether a line calls a model.
fn is_call(line: &LogicalLine<'_>) -> bool
    ensures { result ≡ is_call (word line.now) }
{
    match line.statement() {
        Statement::Subckt => true,
        _ => false,
    }
}

/// Whether lines are those of a design: one calls a model, or a second one begins.
fn is_design(lines: &Lines<'_>) -> bool
    ensures { result ≡ is_design lines.now }
{
    let mut one = false;
    let mut two = false;
    let mut rest = lines.copy();
    'lines: while let Some(line) = rest.take_first() {
        if is_call(&line) {
            return true;
        }
        let begins = is_model(&line);
        two = two || (one && begins);
        one = one || begins;
    }
    two
}

/// The netlist that a text in the Berkeley Logic Interchange Format says, or its models where it calls models or has
/// several. `Bad` has its first fault, of which no cycle and no output is one of a design here. It is refused otherwise
/// for want of memory alone.
pub fn read_text(alloc: Global, text: &[u8]) -> Result<ReadText, BlifRefusal>
    requires { length text.now ≤ 2 ^ 28 }
    ensures ok { IfOk result (λ read. SaysText text.now read) }
    ensures bad { IfErr result (λ refusal. IfBad refusal (TextFault text.now)) }
{
    let lines = Lines::of(text);
    let hash = NameHash::of(text);
    if is_design(&lines) {
        let models = models_in(alloc, hash, &lines)?;
        return Ok(ReadText::Design(models));
    }
    match netlist(alloc, hash, &lines) {
        Ok(net) => Ok(ReadText::Plain(net)),
        Err(refusal) => Err(refusal),
    }
}
