// Which recipe is run on some leaves. Nothing depends on it but which nodes there are.
use crate::recipes::{Recipe, Recipes};
use aq_base::Memory;
use mig::{Builder, turned};
use std::alloc::Global;

/// A literal that is there, if it is there, and its level.
#[derive(Clone, Copy)]
struct Value {
    literal: Option<u32>,
    level: u32,
}

fn operand(values: &[Value], literal: u32) -> Value {
    let plain = values
        .get((literal / 2) as usize)
        .copied()
        .unwrap_or(Value {
            literal: None,
            level: 0,
        });
    let found = match plain.literal {
        Some(found) => Some(if literal % 2 == 1 {
            turned(found)
        } else {
            found
        }),
        None => None,
    };
    Value {
        literal: found,
        level: plain.level,
    }
}

fn step(builder: &Builder, x: Value, y: Value, z: Value) -> Value {
    let found = match (x.literal, y.literal, z.literal) {
        (Some(x), Some(y), Some(z)) => builder.find(x, y, z),
        (_, _, _) => None,
    };
    let level = match found {
        Some(literal) => builder.level(literal),
        None => x.level.max(y.level).max(z.level).saturating_add(1),
    };
    Value {
        literal: found,
        level,
    }
}

/// The level of a recipe's result on these leaves, and how many nodes it makes.
fn trial(
    alloc: Global,
    builder: &Builder,
    leaves: &[u32],
    recipe: &Recipe,
) -> Result<(u32, u32), Memory> {
    let mut values = Vec::new(alloc);
    values.push(Value {
        literal: Some(0),
        level: 0,
    })?;
    for leaf in leaves {
        values.push(Value {
            literal: Some(*leaf),
            level: builder.level(*leaf),
        })?;
    }
    let mut new = 0u32;
    for one in &recipe.steps {
        let x = operand(&values, one.x);
        let y = operand(&values, one.y);
        let z = operand(&values, one.z);
        let value = step(builder, x, y, z);
        if value.literal.is_none() {
            new = new.saturating_add(1);
        }
        values.push(value)?;
    }
    let out = operand(&values, recipe.out);
    Ok((out.level, new))
}

/// The number of the recipe that gives the least level, and then the fewest nodes.
pub(crate) fn best_recipe(
    alloc: Global,
    builder: &Builder,
    recipes: &Recipes,
    truth: u8,
    leaves: &[u32],
) -> Result<u32, Memory> {
    let mut best: Option<u32> = None;
    let mut least = (0u32, 0u32);
    for number in recipes.of_truth(truth) {
        if let Some(recipe) = recipes.find(truth, *number) {
            let (level, new) = trial(alloc, builder, leaves, recipe)?;
            let better = match best {
                Some(_) => level < least.0 || (level == least.0 && new < least.1),
                None => true,
            };
            if better {
                best = Some(*number);
                least = (level, new);
            }
        }
    }
    Ok(best.unwrap_or(0))
}
