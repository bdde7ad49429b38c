// Recipes of the functions of three inputs. Nothing depends on them: what a recipe computes is found where it is run.
use aq_base::Memory;
use mig::Node;
use std::alloc::Global;

/// Steps over the constant (0), three leaves (2, 4, 6) and the steps before (8, 10, ..), and the result; odd ones are
/// complements. A delay is one more than the greatest number of steps from a leaf to the result, and 0 where no path
/// leads there.
#[derive(Drop)]
pub(crate) struct Recipe {
    pub steps: Vec<Node>,
    pub out: u32,
    pub delays: [u32; 3],
}

/// The base recipes: how many steps, up to four steps, and the result.
fn base(number: usize) -> [u32; 14] {
    match number {
        0 => [0, 0, 0, 0, 0, 0, 0, 0, 0, 0, 0, 0, 0, 0],
        1 => [0, 0, 0, 0, 0, 0, 0, 0, 0, 0, 0, 0, 0, 2],
        2 => [1, 0, 2, 4, 0, 0, 0, 0, 0, 0, 0, 0, 0, 8],
        3 => [1, 2, 4, 6, 0, 0, 0, 0, 0, 0, 0, 0, 0, 8],
        4 => [2, 0, 2, 4, 0, 8, 6, 0, 0, 0, 0, 0, 0, 10],
        5 => [2, 0, 2, 4, 1, 8, 6, 0, 0, 0, 0, 0, 0, 10],
        6 => [2, 1, 2, 6, 2, 4, 8, 0, 0, 0, 0, 0, 0, 10],
        7 => [3, 0, 2, 4, 1, 2, 4, 0, 9, 10, 0, 0, 0, 12],
        8 => [3, 0, 4, 6, 1, 4, 7, 2, 8, 10, 0, 0, 0, 12],
        9 => [3, 2, 4, 6, 2, 4, 7, 6, 9, 10, 0, 0, 0, 12],
        10 => [3, 0, 4, 7, 0, 5, 6, 2, 8, 10, 0, 0, 0, 12],
        11 => [4, 0, 2, 5, 2, 4, 6, 3, 4, 6, 8, 11, 12, 14],
        12 => [4, 0, 2, 4, 0, 2, 6, 0, 5, 6, 8, 11, 12, 14],
        13 => [4, 0, 2, 4, 0, 2, 6, 1, 2, 4, 9, 10, 12, 15],
        14 => [4, 0, 2, 4, 1, 2, 4, 0, 9, 10, 6, 10, 12, 15],
        _ => [4, 0, 2, 7, 1, 4, 6, 2, 4, 6, 8, 10, 13, 14],
    }
}

/// The orders of three leaves.
fn order(number: usize) -> [u32; 3] {
    match number {
        0 => [1, 2, 3],
        1 => [1, 3, 2],
        2 => [2, 1, 3],
        3 => [2, 3, 1],
        4 => [3, 1, 2],
        _ => [3, 2, 1],
    }
}

/// A literal of a base recipe where the leaves stand in another order, and some are turned.
fn image(literal: u32, order: &[u32; 3], turned: u32) -> u32 {
    let (number, odd) = (literal / 2, literal % 2);
    match number {
        1 => order[0].saturating_mul(2) | (odd ^ (turned & 1)),
        2 => order[1].saturating_mul(2) | (odd ^ ((turned >> 1) & 1)),
        3 => order[2].saturating_mul(2) | (odd ^ ((turned >> 2) & 1)),
        _ => literal,
    }
}

/// The truth number of a literal, by those of the constant, the leaves and the steps.
fn truth_of(truths: &[u8], literal: u32) -> u8 {
    let plain = truths.get((literal / 2) as usize).copied().unwrap_or(0);
    if literal % 2 == 1 { !plain } else { plain }
}

fn majority(x: u8, y: u8, z: u8) -> u8 {
    (x & y) | (x & z) | (y & z)
}

/// The truth number of a recipe.
fn truth(alloc: Global, recipe: &Recipe) -> Result<u8, Memory> {
    let mut truths = Vec::new(alloc);
    truths.push(0u8)?;
    truths.push(0xAA)?;
    truths.push(0xCC)?;
    truths.push(0xF0)?;
    for step in &recipe.steps {
        let value = majority(
            truth_of(&truths, step.x),
            truth_of(&truths, step.y),
            truth_of(&truths, step.z),
        );
        truths.push(value)?;
    }
    Ok(truth_of(&truths, recipe.out))
}

/// The delay of a leaf by those of a step's operands.
fn later(x: u32, y: u32, z: u32) -> u32 {
    let most = x.max(y).max(z);
    if most == 0 { 0 } else { most.saturating_add(1) }
}

/// The delay of one leaf in a recipe.
fn delay(alloc: Global, recipe: &Recipe, leaf: u32) -> Result<u32, Memory> {
    let mut delays = Vec::new(alloc);
    for number in 0..4u32 {
        delays.push(if number == leaf { 1u32 } else { 0 })?;
    }
    for step in &recipe.steps {
        let x = delays.get((step.x / 2) as usize).copied().unwrap_or(0);
        let y = delays.get((step.y / 2) as usize).copied().unwrap_or(0);
        let z = delays.get((step.z / 2) as usize).copied().unwrap_or(0);
        delays.push(later(x, y, z))?;
    }
    Ok(delays.get((recipe.out / 2) as usize).copied().unwrap_or(0))
}

/// The image of a base recipe.
fn image_of(
    alloc: Global,
    number: usize,
    place: usize,
    turned: u32,
    flip: u32,
) -> Result<Recipe, Memory> {
    let base = base(number);
    let order = order(place);
    let mut steps = Vec::new(alloc);
    for step in 0..4usize {
        if step < base[0] as usize {
            steps.push(Node {
                x: image(base[3 * step + 1], &order, turned),
                y: image(base[3 * step + 2], &order, turned),
                z: image(base[3 * step + 3], &order, turned),
            })?;
        }
    }
    let mut made = Recipe {
        steps,
        out: image(base[13], &order, turned) ^ flip,
        delays: [0; 3],
    };
    let a = delay(alloc, &made, 1)?;
    let b = delay(alloc, &made, 2)?;
    let c = delay(alloc, &made, 3)?;
    made.delays = [a, b, c];
    Ok(made)
}

fn same_delays(one: &Recipe, other: &Recipe) -> bool {
    one.delays[0] == other.delays[0]
        && one.delays[1] == other.delays[1]
        && one.delays[2] == other.delays[2]
}

/// All delays of the first are at most those of the second.
fn no_later(one: &Recipe, other: &Recipe) -> bool {
    one.delays[0] <= other.delays[0]
        && one.delays[1] <= other.delays[1]
        && one.delays[2] <= other.delays[2]
}

fn has_delays(recipes: &[Recipe], recipe: &Recipe) -> bool {
    for other in recipes {
        if same_delays(other, recipe) {
            return true;
        }
    }
    false
}

fn is_beaten(recipes: &[Recipe], recipe: &Recipe) -> bool {
    for other in recipes {
        if !same_delays(other, recipe) && no_later(other, recipe) {
            return true;
        }
    }
    false
}

/// For each truth number its recipes, of which none is later than another at every leaf.
#[derive(Drop)]
pub(crate) struct Recipes {
    of: Vec<Vec<Recipe>>,
    kept: Vec<Vec<u32>>,
}

impl Recipes {
    /// The images of the base recipes.
    pub(crate) fn new(alloc: Global) -> Result<Recipes, Memory> {
        let mut of: Vec<Vec<Recipe>> = Vec::new(alloc);
        for _number in 0..256 {
            of.push(Vec::new(alloc))?;
        }
        for number in 0..16usize {
            for place in 0..6usize {
                for turned in 0..8u32 {
                    for flip in 0..2u32 {
                        let made = image_of(alloc, number, place, turned, flip)?;
                        let truth = truth(alloc, &made)?;
                        if (truth as usize) < of.len() && !has_delays(&of[truth as usize], &made) {
                            of[truth as usize].push(made)?;
                        }
                    }
                }
            }
        }
        let mut kept: Vec<Vec<u32>> = Vec::new(alloc);
        for recipes in &of {
            let mut numbers = Vec::new(alloc);
            let mut number = 0u32;
            for one in recipes {
                if !is_beaten(recipes, one) {
                    numbers.push(number)?;
                }
                number = number.saturating_add(1);
            }
            kept.push(numbers)?;
        }
        Ok(Recipes { of, kept })
    }

    /// The numbers of the recipes of a truth number.
    pub(crate) fn of_truth(&self, truth: u8) -> &[u32] {
        match self.kept.get(truth as usize) {
            Some(numbers) => numbers.as_slice(),
            None => &[],
        }
    }

    /// A recipe of a truth number.
    pub(crate) fn find(&self, truth: u8, number: u32) -> Option<&Recipe> {
        match self.of.get(truth as usize) {
            Some(recipes) => recipes.get(number as usize),
            None => None,
        }
    }
}
