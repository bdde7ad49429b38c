// The models of a design, found by their names, with the names of their inputs and outputs found fast.
ghost use Rattle.std.specs.Prelude.{◌≡◌, ◌++◌, ◌<◌, [], List, length, not, IfOk, IfSome, MatchOption, Some, is_some};
ghost use Rattle.std.specs.Prelude.{slice_index_or};
ghost use Rattle.std.specs.List.{list_all};
ghost use Rattle.std.specs.Str.{bytes_eq};
ghost use Rattle.indexmap.specs.IndexSet.{insert_all};
ghost use Rattle.blif_read.specs.Parts.{is_defined};
ghost use Rattle.blif_read.specs.declared.models.BlifModel.{BlifModel};
ghost use Rattle.blif_flat.specs.Designs.{names_in, distinct_outputs, model_number, model_at, no_model, called};
ghost use Rattle.blif_flat.specs.Code.Numbering.{IsNumbering};
ghost use Rattle.blif_flat.specs.Code.Calls.{has_name};
ghost use Rattle.blif_flat.specs.Code.Joining.{is_twice};

use crate::models::calls::called;
use crate::models::names::Names;
use crate::models::numbers::{Numbers, number_of};
use aq_base::Memory;
use blif_read::{BlifModel, Call, Named};
use name_hash::NameHash;
use std::alloc::Global;
use std::marker::Model;

/// None of the inputs is among the outputs.
fn are_apart(inputs: &[Named], outputs: &Names<'_>) -> bool
    ensures { result ≡ list_all (λ n. not (is_defined outputs.now n.name)) inputs.now }
{
    for input in inputs {
        if outputs.has(input.name.as_slice()) {
            return false;
        }
    }
    true
}

/// A model, whose inputs and outputs are found by their names.
#[derive(Drop)]
pub struct IndexedModel<'a> {
    model: &'a BlifModel,
    inputs: Names<'a>,
    outputs: Names<'a>,

    /// No input is an output too.
    apart: bool,
}

impl<'a> Model for IndexedModel<'a> {
    ghost use Rattle.std.specs.Prelude.{◌≡◌};
    ghost use Rattle.blif_read.specs.declared.models.BlifModel.{BlifModel};
    ghost use Rattle.blif_flat.specs.Code.Indexing.{AreIndexes};

    ghost Value = { BlifModel };

    ghost view = { λ m. m.model.now };

    ghost invariant = { λ m. AreIndexes m.model.now m.inputs m.outputs m.apart };
}

impl<'a> IndexedModel<'a> {
    fn new(alloc: Global, hash: NameHash, model: &'a BlifModel) -> Result<Self, Memory>
        ensures { IfOk result (λ indexed. indexed ≡ model.now) }
    {
        let inputs = Names::of(alloc, hash, model.inputs.as_slice())?;
        let outputs = Names::of(alloc, hash, model.outputs.as_slice())?;
        let apart = are_apart(model.inputs.as_slice(), &outputs);
        Ok(IndexedModel {
            model,
            inputs,
            outputs,
            apart,
        })
    }

    /// The model itself.
    pub fn model(&self) -> &'a BlifModel
        ensures { result.now ≡ self.now }
    {
        self.model
    }

    /// Its outputs, each once.
    pub fn outputs(&self) -> &Names<'a>
        ensures { result.now ≡ distinct_outputs self.now }
    {
        &self.outputs
    }

    /// The names of its inputs, each once.
    pub fn input_names(&self) -> &Names<'a>
        ensures { result.now ≡ insert_all bytes_eq [] (names_in self.now.inputs) }
    {
        &self.inputs
    }

    /// Its inputs.
    pub fn inputs(&self) -> &[Named]
        ensures { result.now ≡ self.now.inputs }
    {
        self.model.inputs.as_slice()
    }

    /// Whether a name is that of an input.
    pub fn is_input(&self, name: &[u8]) -> bool
        ensures { result ≡ is_defined (names_in self.now.inputs) name.now }
    {
        self.inputs.has(name)
    }

    /// Whether a name is that of an output.
    pub fn is_output(&self, name: &[u8]) -> bool
        ensures { result ≡ is_defined (names_in self.now.outputs) name.now }
    {
        self.outputs.has(name)
    }

    /// Whether a name is that of an input or an output.
    pub fn has(&self, name: &[u8]) -> bool
        ensures { result ≡ is_defined (names_in self.now.inputs ++ names_in self.now.outputs) name.now }
    {
        self.is_input(name) || self.is_output(name)
    }

    /// Whether no input is an output too.
    pub fn is_apart(&self) -> bool
        ensures { result ≡ list_all (λ n. not (is_defined (names_in self.now.outputs) n.name)) self.now.inputs }
    {
        self.apart
    }
}

/// The number of the model that a name stands for, if it stands for one.
fn number_named(numbers: &Numbers<'_>, name: &[u8]) -> Option<u32>
    ensures { (models : List BlifModel) → IsNumbering has_name numbers.now.entries models → result
        ≡ model_number models name.now }
{
    if name.len() == 0 {
        return None;
    }
    number_of(numbers, name)
}

/// The models with their indexes.
fn indexed<'a>(
    alloc: Global,
    hash: NameHash,
    models: &'a [BlifModel],
) -> Result<Vec<IndexedModel<'a>>, Memory>
    ensures { IfOk result (λ indexed. indexed.items ≡ models.now) }
{
    let mut indexed = Vec::with_capacity(alloc, models.len())?;
    for model in models {
        let model = IndexedModel::new(alloc, hash, model)?;
        indexed.push(model)?;
    }
    Ok(indexed)
}

/// The models of a design, of which the first that has a name is found by it.
#[derive(Drop)]
pub struct Design<'a> {
    numbers: &'a Numbers<'a>,
    models: Vec<IndexedModel<'a>>,
}

impl<'a> Model for Design<'a> {
    ghost use Rattle.std.specs.Prelude.{List};
    ghost use Rattle.blif_read.specs.declared.models.BlifModel.{BlifModel};
    ghost use Rattle.blif_flat.specs.Code.Numbering.{IsNumbering};
    ghost use Rattle.blif_flat.specs.Code.Calls.{has_name};

    ghost Value = { List BlifModel };

    ghost view = { λ d. d.models.items };

    ghost invariant = { λ d. IsNumbering has_name d.numbers.now.entries d.models.items };
}

impl<'a> Design<'a> {
    /// The design of these models, whose numbers these are.
    pub fn new(
        alloc: Global,
        hash: NameHash,
        numbers: &'a Numbers<'a>,
        models: &'a [BlifModel],
    ) -> Result<Self, Memory>
        requires { IsNumbering has_name numbers.now.entries models.now }
        ensures { IfOk result (λ design. design ≡ models.now) }
    {
        let models = indexed(alloc, hash, models)?;
        Ok(Design { numbers, models })
    }

    /// Whether a model has the name of one of a lower number.
    pub fn is_twice(&self, number: usize, model: &BlifModel) -> bool
        ensures { result ≡ is_twice self.now number model.now }
    {
        match number_named(self.numbers, model.name.as_slice()) {
            Some(first) => (first as usize) < number,
            None => false,
        }
    }

    /// The model of a number, if there is one.
    pub fn model(&self, number: Option<u32>) -> Option<&IndexedModel<'a>>
        ensures { MatchOption result (model_at self.now number ≡ no_model) (λ m. m.now ≡ model_at self.now number) }
    {
        match number {
            Some(number) => self.models.get(number as usize),
            None => None,
        }
    }

    /// The model at a place.
    pub fn at(&self, place: usize) -> &IndexedModel<'a>
        requires { place < length self.now }
        ensures { result.now ≡ slice_index_or self.now place no_model }
    {
        &self.models[place]
    }

    /// The number of the model that a call names, if it names one.
    pub fn number(&self, call: &Call) -> Option<u32>
        ensures { result ≡ model_number self.now call.now.model }
    {
        called(self.numbers, call)
    }

    /// The model that a call names, with its number, if it names one.
    pub fn found(&self, call: &Call) -> Option<(u32, &IndexedModel<'a>)>
        ensures found { is_some result ≡ is_some (model_number self.now call.now.model) }
        ensures number { IfSome result (λ r. model_number self.now call.now.model ≡ Some r.0) }
        ensures model { IfSome result (λ r. r.1.now ≡ slice_index_or self.now r.0 no_model) }
    {
        let number = called(self.numbers, call)?;
        let model = self.models.get(number as usize)?;
        Some((number, model))
    }

    /// The model that a call names, if it names one.
    pub fn called(&self, call: &Call) -> Option<&IndexedModel<'a>>
        ensures found { is_some result ≡ is_some (model_number self.now call.now.model) }
        ensures model { IfSome result (λ m. m.now ≡ called self.now call.now) }
    {
        match called(self.numbers, call) {
            Some(number) => self.models.get(number as usize),
            None => None,
        }
    }
}
