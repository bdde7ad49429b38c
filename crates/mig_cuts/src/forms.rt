// Forms of nodes: recipes over the leaves of cuts. Nothing depends on them but which nodes there are.
use crate::cuts::Cut;
use crate::recipes::{Image, Recipe, Recipes};
use aq_base::Memory;
use mig::Node;
use mig_replace::Replacement;
use std::alloc::Global;

/// A literal of a recipe where the leaves are those of a cut.
fn image_literal(literal: u32, image: &Image, cut: &Cut) -> u32 {
    let number = literal / 2;
    let odd = literal % 2;
    if number == 0 {
        return odd;
    }
    let count = u32::try_from(cut.count).unwrap_or(0);
    if number > 4 {
        let step = (number - 5).saturating_add(count).saturating_add(1);
        return step.saturating_mul(2) | odd;
    }
    let place = (number - 1) as usize;
    let leaf = image.places().get(place).copied().unwrap_or(0);
    if leaf >= cut.count {
        return odd;
    }
    let first = u32::try_from(leaf).unwrap_or(0);
    first.saturating_add(1).saturating_mul(2) | (odd ^ image.turn(place))
}

/// The leaves of a cut.
pub(crate) fn leaves_of(alloc: Global, cut: &Cut) -> Result<Vec<u32>, Memory> {
    let mut leaves = Vec::new(alloc);
    for place in 0..4usize {
        if place < cut.count {
            leaves.push(cut.leaf(place))?;
        }
    }
    Ok(leaves)
}

/// The replacement by an image of a recipe over the leaves of a cut.
fn replacement(
    alloc: Global,
    recipe: &Recipe,
    image: &Image,
    cut: &Cut,
) -> Result<Replacement, Memory> {
    let leaves = leaves_of(alloc, cut)?;
    let mut steps = Vec::new(alloc);
    for step in &recipe.steps {
        steps.push(Node {
            x: image_literal(step.x, image, cut),
            y: image_literal(step.y, image, cut),
            z: image_literal(step.z, image, cut),
        })?;
    }
    let out = image_literal(recipe.out, image, cut) ^ image.flip();
    Ok(Replacement {
        leaves,
        others: Vec::new(alloc),
        steps,
        out,
    })
}

/// The replacement by an image, if its recipe is there.
pub(crate) fn image_replacement(
    alloc: Global,
    recipes: &Recipes,
    image: &Image,
    cut: &Cut,
) -> Result<Option<Replacement>, Memory> {
    match recipes.recipe(image) {
        Some(recipe) => Ok(Some(replacement(alloc, recipe, image, cut)?)),
        None => Ok(None),
    }
}
