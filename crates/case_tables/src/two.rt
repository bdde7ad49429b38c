// The table of the functions of two inputs.
ghost use Rattle.std.specs.Prelude.{◌≡◌, ◌∷◌, ◌++◌, [], true, IfOk, OnOk};
ghost use Rattle.case_tables.specs.Recipes.{is_recipe, truth_number2};
ghost use Rattle.case_tables.specs.Tables.{two_recipe, recipes_below};
ghost use Rattle.case_tables.specs.Entries.{IsTable, KeepsToInputs};

use crate::{Operand, Recipe, Step, Table};
use aq_base::{List, Memory};
use std::alloc::Global;

/// One more recipe.
fn push_recipe(
    recipes: &mut List<Recipe>,
    alloc: Global,
    steps: &[Step],
    out: Operand,
) -> Result<(), Memory>
    requires { is_recipe (record { steps = steps.now; out = out }) ≡ true }
    ensures { OnOk result (recipes.new ≡ recipes.old ++ record { steps = steps.now; out = out } ∷ []) }
{
    let mut copied = List::new(alloc);
    for step in steps {
        copied.push(*step)?;
    }
    recipes.push(Recipe { steps: copied, out })?;
    Ok(())
}

macro_rules! recipes {
    ($recipes:ident, $alloc:ident; $([$($step:expr),*] => $out:expr;)*) => {
        $( push_recipe(&mut $recipes, $alloc, &[$($step),*], $out)?; )*
    };
}

/// For each truth number of two inputs a recipe of that function. No recipe names `C`, and those of the functions that
/// read the first input alone, 0, 5, 10 and 15, don't name `B`.
pub fn two_inputs(alloc: Global) -> Result<Table<16>, Memory>
    ensures recipes { IfOk result (λ table. table ≡ recipes_below two_recipe 16) }
    ensures entries { IfOk result (λ table. IsTable truth_number2 table) }
    ensures inputs { IfOk result (λ table. KeepsToInputs table) }
{
    use Operand::{A, B, One, Step as R, Zero};
    use Step::{And, Inv, Or};
    let mut recipes = List::new(alloc);
    recipes! { recipes, alloc;
        [] => Zero;
        [Or(A, B), Inv(R(0))] => R(1);
        [Inv(B), And(A, R(0))] => R(1);
        [Inv(B)] => R(0);
        [Inv(A), And(R(0), B)] => R(1);
        [Inv(A)] => R(0);
        [Or(A, B), And(A, B), Inv(R(1)), And(R(0), R(2))] => R(3);
        [And(A, B), Inv(R(0))] => R(1);
        [And(A, B)] => R(0);
        [And(A, B), Or(A, B), Inv(R(1)), Or(R(0), R(2))] => R(3);
        [] => A;
        [Inv(B), Or(A, R(0))] => R(1);
        [] => B;
        [Inv(A), Or(R(0), B)] => R(1);
        [Or(A, B)] => R(0);
        [] => One;
    }
    Ok(Table::new(recipes))
}
