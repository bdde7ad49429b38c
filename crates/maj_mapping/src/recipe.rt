// Runs recipes over gates.
ghost use Rattle.std.specs.Prelude.{◌≡◌, ◌<◌, ◌^◌, length, IfOk, OnOk};
ghost use Rattle.circuit.specs.PlainNets.{AreGates};
ghost use Rattle.case_tables.specs.Recipes.{operand_is};
ghost use Rattle.maj_mapping.specs.Code.MakerView.{with_gates};
ghost use Rattle.maj_mapping.specs.Operations.{step_made, run};
ghost use Rattle.maj_mapping.specs.Covers.{names};
ghost use Rattle.maj_mapping.specs.Counts.{AllBelow};

use crate::maker::Maker;
use aq_base::Memory;
use case_tables::{Operand, Recipe, Step};
use std::alloc::Global;

/// The gates of the inputs of a recipe.
#[derive(Clone, Copy)]
pub struct Inputs {
    pub a: u32,
    pub b: u32,
    pub c: u32,
}

/// The gate of an operand, where these gates are the steps that are done.
fn gate_of(maker: &Maker, inputs: Inputs, done: &[u32], operand: Operand) -> u32
    ensures { result ≡ operand_is (names maker.now.inputs inputs.a inputs.b inputs.c) done.now operand }
{
    match operand {
        Operand::A => inputs.a,
        Operand::B => inputs.b,
        Operand::C => inputs.c,
        Operand::Zero => maker.zero(),
        Operand::One => maker.one(),
        Operand::Step(step) => done.get(step as usize).copied().unwrap_or(maker.zero()),
    }
}

/// Makes one step.
fn make_step(maker: &mut Maker, inputs: Inputs, done: &[u32], step: Step) -> Result<u32, Memory>
    requires good { AreGates maker.old.inputs maker.old.gates }
    requires a { inputs.a < length maker.old.gates }
    requires b { inputs.b < length maker.old.gates }
    requires c { inputs.c < length maker.old.gates }
    requires done { AllBelow (length maker.old.gates) done.now }
    requires room { length (step_made maker.old.inputs maker.old.gates
        (names maker.old.inputs inputs.a inputs.b inputs.c) done.now step).gates < 2 ^ 32 }
    ensures gates { OnOk result (maker.new
        ≡ with_gates maker.old (step_made maker.old.inputs maker.old.gates
        (names maker.old.inputs inputs.a inputs.b inputs.c) done.now step).gates) }
    ensures at { IfOk result (λ r.
        r ≡ (step_made maker.old.inputs maker.old.gates
        (names maker.old.inputs inputs.a inputs.b inputs.c) done.now step).at) }
{
    match step {
        Step::And(x, y) => {
            let x = gate_of(maker, inputs, done, x);
            let y = gate_of(maker, inputs, done, y);
            maker.and(x, y)
        }
        Step::Or(x, y) => {
            let x = gate_of(maker, inputs, done, x);
            let y = gate_of(maker, inputs, done, y);
            maker.or(x, y)
        }
        Step::Inv(x) => {
            let x = gate_of(maker, inputs, done, x);
            maker.inv(x)
        }
        Step::Maj(x, y, z) => {
            let x = gate_of(maker, inputs, done, x);
            let y = gate_of(maker, inputs, done, y);
            let z = gate_of(maker, inputs, done, z);
            maker.maj(x, y, z)
        }
    }
}

/// Makes the steps of a recipe, and answers the gate of its result.
pub fn run(alloc: Global, maker: &mut Maker, inputs: Inputs, recipe: &Recipe) -> Result<u32, Memory>
    requires good { AreGates maker.old.inputs maker.old.gates }
    requires a { inputs.a < length maker.old.gates }
    requires b { inputs.b < length maker.old.gates }
    requires c { inputs.c < length maker.old.gates }
    requires room { length (run maker.old.inputs maker.old.gates
        (names maker.old.inputs inputs.a inputs.b inputs.c) recipe.now).gates < 2 ^ 32 }
    ensures gates { OnOk result (maker.new
        ≡ with_gates maker.old (run maker.old.inputs maker.old.gates
        (names maker.old.inputs inputs.a inputs.b inputs.c) recipe.now).gates) }
    ensures at { IfOk result (λ r.
        r ≡ (run maker.old.inputs maker.old.gates
        (names maker.old.inputs inputs.a inputs.b inputs.c) recipe.now).at) }
{
    let mut done = Vec::new(alloc);
    for step in recipe.steps.as_slice() {
        let gate = make_step(maker, inputs, &done, *step)?;
        done.push(gate)?;
    }
    Ok(gate_of(maker, inputs, &done, recipe.out))
}
