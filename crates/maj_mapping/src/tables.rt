// Both tables of recipes.
ghost use Rattle.std.specs.Prelude.{◌≡◌, ◌<◌};
ghost use Rattle.case_tables.specs.Tables.{two_recipe, three_recipe};

use aq_base::Memory;
use case_tables::{Recipe, Table, three_inputs, two_inputs};
use std::alloc::Global;
use std::marker::Model;

/// The recipes of all functions of two and of three inputs.
#[derive(Drop)]
pub struct Tables {
    two: Table<16>,
    three: Table<256>,
}

impl Model for Tables {
    ghost use Rattle.std.specs.Prelude.{◌≡◌};
    ghost use Rattle.case_tables.specs.Tables.{two_recipe, three_recipe, recipes_below};

    ghost Value = { Unit {0} };

    ghost view = { λ t. tt };

    ghost invariant = { λ t. record {
      two : t.two ≡ recipes_below two_recipe 16;
      three : t.three ≡ recipes_below three_recipe 256;
    } };
}

impl Tables {
    /// The tables of all truth numbers of two and of three inputs; they are refused for want of memory alone.
    pub fn new(alloc: Global) -> Result<Self, Memory> {
        let two = two_inputs(alloc)?;
        let three = three_inputs(alloc)?;
        Ok(Tables { two, three })
    }

    /// The recipe of a truth number of two inputs.
    pub fn of_two(&self, number: u16) -> &Recipe
        requires { number < 16 }
        ensures { result.now ≡ two_recipe number }
    {
        self.two.recipe(number)
    }

    /// The recipe of a truth number of three inputs.
    pub fn of_three(&self, number: u16) -> &Recipe
        requires { number < 256 }
        ensures { result.now ≡ three_recipe number }
    {
        self.three.recipe(number)
    }
}
