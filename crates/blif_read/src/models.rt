// Models with the names that their text gives, and calls of models among them.
ghost use Rattle.std.specs.Prelude.{◌≡◌, ◌&&◌, not, ◌++◌, [], map, IfOk, OnOk, length, drop, slice_index_or};
ghost use Rattle.std.specs.List.{position, list_all, flat_map};
ghost use Rattle.blif_read.specs.Lines.{is_empty};
ghost use Rattle.blif_read.specs.Statements.{word, arguments, is_model, inputs_in, outputs_in, front_of, last_of};
ghost use Rattle.blif_read.specs.Parts.{rows_before_others};
ghost use Rattle.blif_read.specs.Models.{model_of, model_line, model_name, named, named_inputs, named_outputs};
ghost use Rattle.blif_read.specs.Models.{named_definition, named_definition_at, is_equals_sign, formal_in, actual_in};
ghost use Rattle.blif_read.specs.Models.{is_port, port_of, ports_in, call_of, calls_in, first_name};
ghost use Rattle.blif_read.specs.Code.Sections.{with_line};

use crate::cover::rows;
use crate::lines::{Lines, LogicalLine};
use crate::netlist::Cube;
use crate::rooms::rooms_of;
use crate::statements::{arguments, front_of, last_of};
use crate::token_list::Tokens;
use crate::words::Statement;
use aq_base::{List, Memory};
use short_bytes::ShortBytes;
use std::alloc::Global;

/// A name, and the line that it stands in.
#[derive(Clone, Drop, PartialEq)]
pub struct Named {
    pub line: u64,
    pub name: ShortBytes,
}

/// A port of a call: a signal of the called model, and the signal of the caller that it is joined to. Neither is empty.
#[derive(Clone, Drop, PartialEq)]
pub struct Port {
    pub formal: ShortBytes,
    pub actual: ShortBytes,
}

/// A call of a model. It is well formed where it names a model and each of its ports has both names; `ports` are those
/// that have both. Without a name `model` is empty.
#[derive(Clone, Drop, PartialEq)]
pub struct Call {
    pub line: u64,
    pub model: ShortBytes,
    pub ports: List<Port>,
    pub well_formed: bool,
}

/// The definition of the signal `output` by names. Where `on` is set, it is true where a plane matches; else false
/// there.
#[derive(Clone, Drop, PartialEq)]
pub struct NamedDef {
    pub line: u64,
    pub inputs: List<ShortBytes>,
    pub output: ShortBytes,
    pub on: bool,
    pub cubes: List<Cube>,
}

/// A model as its text says it, each list in the text's order. Without a `.model` its line is 0, and without a name
/// behind that its name is empty.
#[derive(Clone, Drop, PartialEq)]
pub struct BlifModel {
    pub line: u64,
    pub name: ShortBytes,
    pub inputs: List<Named>,
    pub outputs: List<Named>,
    pub defs: List<NamedDef>,
    pub calls: List<Call>,
}

/// A copy of the first name; empty where there is none.
fn first_name(alloc: Global, names: Tokens<'_>) -> Result<ShortBytes, Memory>
    ensures { IfOk result (λ name. name ≡ first_name names.entry) }
{
    let mut rest = names;
    match rest.take_first() {
        Some(name) => ShortBytes::copy(alloc, name),
        None => Ok(ShortBytes::new()),
    }
}

/// Copies of names, in order.
fn copies(alloc: Global, names: Tokens<'_>) -> Result<List<ShortBytes>, Memory>
    ensures { IfOk result (λ copies. copies ≡ names.entry) }
{
    let mut copies = List::from_vec(Vec::with_capacity(alloc, names.len())?);
    let mut rest = names;
    'names: while let Some(name) = rest.take_first() {
        let copy = ShortBytes::copy(alloc, name)?;
        copies.push(copy)?;
    }
    Ok(copies)
}

/// Adds copies of names that stand in a line.
fn push_named(
    alloc: Global,
    line: u64,
    names: Tokens<'_>,
    list: &mut List<Named>,
) -> Result<(), Memory>
    ensures { OnOk result (list.new ≡ list.old ++ map (named line) names.entry) }
{
    let mut rest = names;
    'names: while let Some(name) = rest.take_first() {
        let name = ShortBytes::copy(alloc, name)?;
        list.push(Named { line, name })?;
    }
    Ok(())
}

fn first_equals_sign(token: &[u8]) -> Option<usize>
    ensures { result ≡ position is_equals_sign token.now }
{
    token.iter().position(|b| *b == b'=')
}

/// The two sides of the first `=`. Without one, all stands before it.
fn sides(token: &[u8]) -> (&[u8], &[u8])
    ensures formal { result.0.now ≡ formal_in token.now }
    ensures actual { result.1.now ≡ actual_in token.now }
{
    match first_equals_sign(token) {
        Some(at) => {
            let (formal, rest) = token.split_at(at);
            (formal, rest.split_at(1).1)
        }
        None => (token, &[]),
    }
}

/// Adds the port that a token is, and answers whether it is one.
fn push_port(alloc: Global, token: &[u8], ports: &mut List<Port>) -> Result<bool, Memory>
    ensures is { IfOk result (λ is. is ≡ is_port token.now) }
    ensures ports { OnOk result (ports.new ≡ ports.old ++ ports_in token.now) }
{
    let (formal, actual) = sides(token);
    if formal.len() == 0 || actual.len() == 0 {
        return Ok(false);
    }
    let formal = ShortBytes::copy(alloc, formal)?;
    let actual = ShortBytes::copy(alloc, actual)?;
    ports.push(Port { formal, actual })?;
    Ok(true)
}

/// The ports among tokens, and whether each token is one.
fn ports(alloc: Global, tokens: Tokens<'_>) -> Result<(List<Port>, bool), Memory>
    ensures ports { IfOk result (λ r. r.0 ≡ flat_map ports_in tokens.entry) }
    ensures all { IfOk result (λ r. r.1 ≡ list_all is_port tokens.entry) }
{
    let mut ports = List::from_vec(Vec::with_capacity(alloc, tokens.len())?);
    let mut all = true;
    let mut rest = tokens;
    'tokens: while let Some(token) = rest.take_first() {
        let is_port = push_port(alloc, token, &mut ports)?;
        all = all && is_port;
    }
    Ok((ports, all))
}

/// The call with these tokens behind its first.
fn call_of(alloc: Global, line: u64, names: Tokens<'_>) -> Result<Call, Memory>
    ensures { IfOk result (λ c. c ≡ call_of line names.entry) }
{
    let named = !names.is_empty();
    let model = first_name(alloc, names.copy())?;
    let (ports, all) = ports(alloc, arguments(names))?;
    Ok(Call {
        line,
        model,
        ports,
        well_formed: named && all,
    })
}

/// The definition of a line, whose cover is in the lines that follow.
fn named_definition(
    alloc: Global,
    line: &LogicalLine<'_>,
    rest: &Lines<'_>,
) -> Result<NamedDef, Memory>
    ensures { IfOk result (λ def. def
        ≡ named_definition line.now.number (arguments line.now) (rows_before_others rest.now)) }
{
    let inputs = copies(alloc, front_of(arguments(line.tokens())))?;
    let output = first_name(alloc, last_of(arguments(line.tokens())))?;
    let (cubes, zero) = rows(alloc, rest)?;
    Ok(NamedDef {
        line: line.number(),
        inputs,
        output,
        on: !zero,
        cubes,
    })
}

/// Adds what a line says to its model.
fn push_line(
    alloc: Global,
    line: &LogicalLine<'_>,
    rest: &Lines<'_>,
    model: &mut BlifModel,
) -> Result<(), Memory>
    ensures { OnOk result (model.new ≡ with_line model.old line.now rest.now) }
{
    match line.statement() {
        Statement::Inputs => push_named(
            alloc,
            line.number(),
            arguments(line.tokens()),
            &mut model.inputs,
        ),
        Statement::Outputs => push_named(
            alloc,
            line.number(),
            arguments(line.tokens()),
            &mut model.outputs,
        ),
        Statement::Names => {
            let def = named_definition(alloc, line, rest)?;
            model.defs.push(def)
        }
        Statement::Subckt => {
            let call = call_of(alloc, line.number(), arguments(line.tokens()))?;
            model.calls.push(call)
        }
        _ => Ok(()),
    }
}

/// The line and the name of the model that lines begin.
fn head(alloc: Global, lines: &Lines<'_>) -> Result<(u64, ShortBytes), Memory>
    ensures line { IfOk result (λ head. head.0 ≡ model_line lines.now) }
    ensures name { IfOk result (λ head. head.1 ≡ model_name lines.now) }
{
    let mut rest = lines.copy();
    let Some(line) = rest.take_first() else {
        return Ok((0, ShortBytes::new()));
    };
    match line.statement() {
        Statement::Model => {
            let name = first_name(alloc, arguments(line.tokens()))?;
            Ok((line.number(), name))
        }
        _ => Ok((0, ShortBytes::new())),
    }
}

/// The model that its lines say. Room for its lists is taken ahead.
pub fn model_of(alloc: Global, lines: &Lines<'_>) -> Result<BlifModel, Memory>
    ensures { IfOk result (λ model. model ≡ model_of lines.now) }
{
    let (number, name) = head(alloc, lines)?;
    let rooms = rooms_of(lines);
    let mut model = BlifModel {
        line: number,
        name,
        inputs: List::from_vec(Vec::with_capacity(alloc, rooms.inputs)?),
        outputs: List::from_vec(Vec::with_capacity(alloc, rooms.outputs)?),
        defs: List::from_vec(Vec::with_capacity(alloc, rooms.defs)?),
        calls: List::from_vec(Vec::with_capacity(alloc, rooms.calls)?),
    };
    let mut rest = lines.copy();
    'lines: while let Some(line) = rest.take_first() {
        push_line(alloc, &line, &rest, &mut model)?;
    }
    Ok(model)
}
