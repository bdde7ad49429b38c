// Recipes.
ghost use Rattle.case_tables.specs.Recipes.{is_recipe};

use aq_base::List;
use std::marker::Model;

/// What a step takes: an input, a constant, or what an earlier step gave, counted from 0.
#[derive(Clone, Copy, PartialEq, Eq)]
pub enum Operand {
    A,
    B,
    C,
    Zero,
    One,
    Step(u8),
}

/// An operation on operands.
#[derive(Clone, Copy, PartialEq, Eq)]
pub enum Step {
    And(Operand, Operand),
    Or(Operand, Operand),
    Inv(Operand),
    Maj(Operand, Operand, Operand),
}

/// Steps, and which operand is the result. A step names only steps before it, and a step that `out` names is there.
#[derive(Drop)]
pub struct Recipe {
    pub steps: List<Step>,
    pub out: Operand,
}

impl Model for Recipe {
    ghost use Rattle.std.specs.Prelude.{◌≡◌, true};
    ghost use Rattle.case_tables.specs.RecipeView.{RecipeView};

    ghost Value = { RecipeView };

    ghost view = { λ r. record { steps = r.steps; out = r.out } };

    ghost use Rattle.case_tables.specs.Recipes.{is_recipe};

    ghost invariant = { λ r. is_recipe (record { steps = r.steps; out = r.out }) ≡ true };
}

impl Recipe {
    ghost use Rattle.std.specs.Prelude.{◌≡◌, true};

    /// The recipe keeps its facts.
    pub fn known(&self)
        ensures { is_recipe self.now ≡ true }
    {
        let _out = self.out;
    }
}
