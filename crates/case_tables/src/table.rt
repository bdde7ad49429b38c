// Tables.
ghost use Rattle.std.specs.Prelude.{◌≡◌, ◌<◌, length, slice_get, Some};

use crate::Recipe;
use aq_base::List;
use std::marker::Model;

/// Exactly N recipes, by number from 0.
#[derive(Drop)]
pub struct Table<const N: usize> {
    recipes: List<Recipe>,
}

impl<const N: usize> Model for Table<N> {
    ghost use Rattle.std.specs.Prelude.{◌≡◌, List as Items, length};
    ghost use Rattle.case_tables.specs.RecipeView.{RecipeView};

    ghost Value = { Items RecipeView };

    ghost view = { λ t. t.recipes };

    ghost invariant = { λ t. length t.recipes ≡ N };
}

impl<const N: usize> Table<N> {
    /// The table of these recipes, of which there are N.
    pub(crate) fn new(recipes: List<Recipe>) -> Self
        requires { length recipes ≡ N }
        ensures { result ≡ recipes }
    {
        Table { recipes }
    }

    /// The recipe of a number below N.
    pub fn recipe(&self, number: u16) -> &Recipe
        requires { number < N }
        ensures { slice_get self.now number ≡ Some result.now }
    {
        self.recipes.get(number as usize)
    }
}
