// The table of the functions of three inputs: ten cases over the functions of two.
ghost use Rattle.std.specs.Prelude.{◌≡◌, ◌<◌, ◌≤◌, ◌+◌, ◌∷◌, ◌++◌, [], length, IfOk, OnOk};
ghost use Rattle.case_tables.specs.Recipes.{truth_number3};
ghost use Rattle.case_tables.specs.Formulas.{write, leaf, and, inv};
ghost use Rattle.case_tables.specs.Tables.{two_formula, recipe_of_varying, three_recipe_by, three_recipe};
ghost use Rattle.case_tables.specs.Tables.{recipes_below};
ghost use Rattle.case_tables.specs.Entries.{IsTable};
ghost use Rattle.case_tables.specs.declared.recipe.Operand.TheVariants as operands;

use crate::{Operand, Recipe, Step, Table};
use aq_base::{List, Memory};
use std::alloc::Global;

/// One more step, and the operand that names it.
fn push_step(steps: &mut List<Step>, step: Step) -> Result<Operand, Memory>
    requires { length steps.old < 256 }
    ensures more { OnOk result (steps.new ≡ steps.old ++ step ∷ []) }
    ensures named { IfOk result (λ o. o ≡ operands.Step (length steps.old)) }
{
    let at = steps.len() as u8;
    steps.push(step)?;
    Ok(Operand::Step(at))
}

// The operand that a formula's steps give, after they are written; `{..}` is an operand that is there.
macro_rules! formula {
    ($steps:ident; a) => { Operand::A };
    ($steps:ident; b) => { Operand::B };
    ($steps:ident; c) => { Operand::C };
    ($steps:ident; zero) => { Operand::Zero };
    ($steps:ident; one) => { Operand::One };
    ($steps:ident; {$operand:expr}) => { $operand };
    ($steps:ident; (inv $x:tt)) => {{
        let x = formula!($steps; $x);
        push_step($steps, Step::Inv(x))?
    }};
    ($steps:ident; (and $x:tt $y:tt)) => {{
        let x = formula!($steps; $x);
        let y = formula!($steps; $y);
        push_step($steps, Step::And(x, y))?
    }};
    ($steps:ident; (or $x:tt $y:tt)) => {{
        let x = formula!($steps; $x);
        let y = formula!($steps; $y);
        push_step($steps, Step::Or(x, y))?
    }};
}

/// The steps of the recipe of two inputs, after those that are there.
#[tactic(auto, unfolding(crate::specs::Formulas::write, crate::specs::Tables::two_formula, crate::specs::Tables::two_formulas))]
fn write_two(steps: &mut List<Step>, number: u16) -> Result<Operand, Memory>
    requires number { number < 16 }
    requires room { length steps.old < 250 }
    ensures steps { OnOk result (steps.new ≡ (write operands.Zero steps.old (two_formula number)).steps) }
    ensures out { IfOk result (λ o. o ≡ (write operands.Zero steps.old (two_formula number)).out) }
    ensures few { OnOk result (length steps.new ≤ length steps.old + 4) }
{
    let out = match number {
        0 => formula!(steps; zero),
        1 => formula!(steps; (inv (or a b))),
        2 => formula!(steps; (and a (inv b))),
        3 => formula!(steps; (inv b)),
        4 => formula!(steps; (and (inv a) b)),
        5 => formula!(steps; (inv a)),
        6 => formula!(steps; (and (or a b) (inv (and a b)))),
        7 => formula!(steps; (inv (and a b))),
        8 => formula!(steps; (and a b)),
        9 => formula!(steps; (or (and a b) (inv (or a b)))),
        10 => formula!(steps; a),
        11 => formula!(steps; (or a (inv b))),
        12 => formula!(steps; b),
        13 => formula!(steps; (or (inv a) b)),
        14 => formula!(steps; (or a b)),
        _ => formula!(steps; one),
    };
    Ok(out)
}

/// The steps of a function of two inputs where the third input is true.
#[tactic(auto, unfolding(crate::specs::Formulas::write))]
fn write_with_c(steps: &mut List<Step>, number: u16) -> Result<Operand, Memory>
    requires number { number < 16 }
    requires room { length steps.old < 240 }
    ensures steps { OnOk result (steps.new
        ≡ (write operands.Zero steps.old (and (two_formula number) (leaf operands.C))).steps) }
    ensures out { IfOk result (λ o. o
        ≡ (write operands.Zero steps.old (and (two_formula number) (leaf operands.C))).out) }
    ensures few { OnOk result (length steps.new ≤ length steps.old + 5) }
{
    let x = write_two(steps, number)?;
    push_step(steps, Step::And(x, Operand::C))
}

/// The steps of a function of two inputs where the third input is false.
#[tactic(auto, unfolding(crate::specs::Formulas::write))]
fn write_without_c(steps: &mut List<Step>, number: u16) -> Result<Operand, Memory>
    requires number { number < 16 }
    requires room { length steps.old < 240 }
    ensures steps { OnOk result (steps.new
        ≡ (write operands.Zero steps.old (and (two_formula number) (inv (leaf operands.C)))).steps) }
    ensures out { IfOk result (λ o. o
        ≡ (write operands.Zero steps.old (and (two_formula number) (inv (leaf operands.C)))).out) }
    ensures few { OnOk result (length steps.new ≤ length steps.old + 6) }
{
    let x = write_two(steps, number)?;
    let y = push_step(steps, Step::Inv(Operand::C))?;
    push_step(steps, Step::And(x, y))
}

/// The steps of the recipe of three inputs where no half is constant and the halves differ.
#[tactic(auto, unfolding(crate::specs::Formulas::write, crate::specs::Formulas::recipe, crate::specs::Formulas::recipe_with))]
fn write_varying(steps: &mut List<Step>, lo: u16, hi: u16) -> Result<Operand, Memory>
    requires lo { lo < 16 }
    requires hi { hi < 16 }
    requires start { steps.old ≡ [] }
    ensures steps { OnOk result (steps.new ≡ (recipe_of_varying lo hi).steps) }
    ensures out { IfOk result (λ o. o ≡ (recipe_of_varying lo hi).out) }
{
    if lo == 8 && hi == 14 {
        push_step(steps, Step::Maj(Operand::A, Operand::C, Operand::B))
    } else if lo == 15 - hi {
        let low = write_two(steps, lo)?;
        Ok(formula!(steps; (and (or {low} c) (inv (and {low} c)))))
    } else if lo & hi == lo {
        Ok(formula!(steps; (or {write_two(steps, lo)?} {write_with_c(steps, hi)?})))
    } else if lo & hi == hi {
        Ok(formula!(steps; (or {write_two(steps, hi)?} {write_without_c(steps, lo)?})))
    } else {
        Ok(formula!(steps; (or {write_without_c(steps, lo)?} {write_with_c(steps, hi)?})))
    }
}

/// The steps of the recipe of three inputs, by the first case that fits.
#[tactic(auto, unfolding(crate::specs::Formulas::write, crate::specs::Formulas::recipe, crate::specs::Tables::three_recipe_by))]
fn write_three(steps: &mut List<Step>, lo: u16, hi: u16) -> Result<Operand, Memory>
    requires lo { lo < 16 }
    requires hi { hi < 16 }
    requires start { steps.old ≡ [] }
    ensures steps { OnOk result (steps.new ≡ (three_recipe_by lo hi).steps) }
    ensures out { IfOk result (λ o. o ≡ (three_recipe_by lo hi).out) }
{
    if lo == hi {
        write_two(steps, lo)
    } else if lo == 0 {
        write_with_c(steps, hi)
    } else if hi == 0 {
        write_without_c(steps, lo)
    } else if lo == 15 {
        Ok(formula!(steps; (or {write_two(steps, hi)?} (inv c))))
    } else if hi == 15 {
        Ok(formula!(steps; (or {write_two(steps, lo)?} c)))
    } else {
        write_varying(steps, lo, hi)
    }
}

/// For each truth number of three inputs a recipe of that function.
pub fn three_inputs(alloc: Global) -> Result<Table<256>, Memory>
    ensures recipes { IfOk result (λ table. table ≡ recipes_below three_recipe 256) }
    ensures entries { IfOk result (λ table. IsTable truth_number3 table) }
{
    let mut recipes = List::new(alloc);
    for number in 0..256u16 {
        let mut steps = List::new(alloc);
        let out = write_three(&mut steps, number % 16, number / 16)?;
        recipes.push(Recipe { steps, out })?;
    }
    Ok(Table::new(recipes))
}
