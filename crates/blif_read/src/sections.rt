// A text of several models, read model by model.
ghost use Rattle.std.specs.Prelude.{◌≡◌, ◌≤◌, ◌<◌, ◌^◌, ◌∷◌, [], map, length, drop, IfOk, OnOk, IfErr, IfSome, Some};
ghost use Rattle.std.specs.Prelude.{None};
ghost use Rattle.std.specs.List.{position};
ghost use Rattle.std.specs.Option.{option_map};
ghost use Rattle.blif_read.specs.Statements.{word, is_model};
ghost use Rattle.blif_read.specs.Models.{parts_of, model_of, models_fault, SaysModels, ModelsFault};
ghost use Rattle.blif_read.specs.Code.Sections.{parts_left};
ghost use Rattle.blif_read.specs.Says.{IfBad};

use crate::faults::line_fault;
use crate::lines::{Lines, LogicalLine};
use crate::models::{BlifModel, model_of};
use crate::netlist::BlifRefusal;
use crate::rooms::model_room;
use crate::words::Statement;
use aq_base::{List, Memory};
use name_hash::NameHash;
use std::alloc::Global;

/// Whether a line begins a model.
pub fn is_model(line: &LogicalLine<'_>) -> bool
    ensures { result ≡ is_model (word line.now) }
{
    match line.statement() {
        Statement::Model => true,
        _ => false,
    }
}

/// The first line that begins a model: its place, and the lines from it on.
fn next_model<'a>(lines: &Lines<'a>) -> Option<(usize, Lines<'a>)>
    ensures place { option_map (λ f. f.0) result
        ≡ position (λ line. is_model (word line)) lines.now }
    ensures rest { IfSome result (λ f. f.1 ≡ drop f.0 lines.now) }
    ensures few { IfSome result (λ f. f.0 < 2 ^ 63) }
{
    let mut at = 0;
    let mut rest = lines.copy();
    'lines: loop {
        let here = rest.copy();
        let Some(line) = rest.take_first() else {
            return None;
        };
        if is_model(&line) {
            return Some((at, here));
        }
        at += 1;
    }
}

/// The lines of the first model, and those of the models that follow.
fn first_part<'a>(lines: &Lines<'a>) -> (Lines<'a>, Option<Lines<'a>>)
    ensures cut { parts_of lines.now ≡ result.0 ∷ parts_left result.1 }
    ensures shorter { IfSome result.1 (λ more. length more < length lines.now) }
{
    let mut tail = lines.copy();
    let Some(_first) = tail.take_first() else {
        return (lines.copy(), None);
    };
    match next_model(&tail) {
        Some((at, more)) => (lines.front(at + 1), Some(more)),
        None => (lines.copy(), None),
    }
}

/// No model yet, and room for so many.
fn no_models(alloc: Global, room: usize) -> Result<List<BlifModel>, Memory>
    ensures { IfOk result (λ models. models ≡ []) }
{
    Ok(List::from_vec(Vec::with_capacity(alloc, room)?))
}

/// The models that lines say, each taken by itself, or the first fault of one of them.
pub fn models_in(
    alloc: Global,
    hash: NameHash,
    lines: &Lines<'_>,
) -> Result<List<BlifModel>, BlifRefusal>
    ensures sound { OnOk result (models_fault (parts_of lines.now) ≡ None) }
    ensures models { IfOk result (λ models. models ≡ map model_of (parts_of lines.now)) }
    ensures bad { IfErr result (λ refusal. IfBad refusal (λ fault. models_fault (parts_of lines.now)
        ≡ Some fault)) }
{
    let mut models = no_models(alloc, model_room(lines))?;
    let mut rest = Some(lines.copy());
    while let Some(left) = rest {
        let (part, more) = first_part(&left);
        if let Some(fault) = line_fault(alloc, hash, true, &part)? {
            return Err(BlifRefusal::Bad(fault));
        }
        let model = model_of(alloc, &part)?;
        models.push(model)?;
        rest = more;
    }
    Ok(models)
}

/// The models that a text in the Berkeley Logic Interchange Format says, each taken by itself, in the text's order. The
/// text is cut before each `.model` that is not its first logical line. `Bad` has the first fault of the text's models:
/// a control byte, `.names` without a signal, a statement that is not read, a line behind `.end`, a row that follows no
/// definition or does not fit it, or a name that is given a value twice, by the lines of one model. It is refused
/// otherwise for want of memory alone.
pub fn read_models(alloc: Global, text: &[u8]) -> Result<List<BlifModel>, BlifRefusal>
    requires { length text.now ≤ 2 ^ 28 }
    ensures ok { IfOk result (λ models. SaysModels text.now models) }
    ensures bad { IfErr result (λ refusal. IfBad refusal (ModelsFault text.now)) }
{
    let lines = Lines::of(text);
    models_in(alloc, NameHash::of(text), &lines)
}
