// Recipes of the functions of four inputs, of majorities or of ands. Nothing depends on them: what a recipe computes is
// found where it is used.
use crate::and_lines::{AND_LINES, and_line};
use crate::recipe_lines::{LINES, line};
use aq_base::Memory;
use mig::Node;
use std::alloc::Global;

/// Steps over the constant (0), four leaves (2, 4, 6, 8) and the steps before (10, 12, ..), and the result; odd ones
/// are complements.
#[derive(Drop)]
pub(crate) struct Recipe {
    pub steps: Vec<Node>,
    pub out: u32,
}

/// A recipe whose leaves stand in another order, some of them complemented, and maybe its result.
#[derive(Clone, Copy)]
pub(crate) struct Image {
    /// The number of the recipe.
    recipe: u16,
    /// The number of the order of the leaves.
    order: u8,
    /// A bit for each leaf that is complemented, and the next one for the result.
    turned: u8,
}

impl Image {
    /// The places of the leaves.
    pub(crate) fn places(&self) -> [usize; 4] {
        order(usize::from(self.order))
    }

    /// 1 where the leaf at a place is complemented.
    pub(crate) fn turn(&self, place: usize) -> u32 {
        u32::from(self.turned >> (place % 4)) & 1
    }

    /// 1 where the result is complemented.
    pub(crate) fn flip(&self) -> u32 {
        u32::from(self.turned >> 4) & 1
    }
}

/// An order of four leaves: a permutation of their places.
fn order(number: usize) -> [usize; 4] {
    let mut left = [0usize, 1, 2, 3];
    let mut order = [0usize; 4];
    let digits = [number / 6 % 4, number / 2 % 3, number % 2, 0];
    for place in 0..4usize {
        let mut skip = digits[place];
        for choice in 0..4usize {
            if left[choice] < 4 {
                if skip == 0 {
                    order[place] = left[choice];
                    left[choice] = 4;
                    break;
                }
                skip = skip.saturating_sub(1);
            }
        }
    }
    order
}

/// The table of a literal, by those of the constant, the leaves and the steps.
fn table_of(tables: &[u16], literal: u32) -> u16 {
    let plain = tables.get((literal / 2) as usize).copied().unwrap_or(0);
    if literal % 2 == 1 { !plain } else { plain }
}

/// The table of the leaf at a place.
fn leaf_table(place: usize) -> u16 {
    match place {
        0 => 0xAAAA,
        1 => 0xCCCC,
        2 => 0xF0F0,
        _ => 0xFF00,
    }
}

/// How many tables a recipe has at most: of the constant, four leaves and ten steps.
const MOST_TABLES: usize = 15;

/// The tables of the constant and of leaves in this order, some of them complemented, with room for the steps.
fn first_tables(order: &[usize; 4], turned: u32) -> [u16; MOST_TABLES] {
    let mut tables = [0u16; MOST_TABLES];
    for place in 0..4usize {
        let leaf = order.get(place).copied().unwrap_or(0);
        let plain = leaf_table(leaf);
        let is_turned = (turned >> place) & 1 == 1;
        tables[place + 1] = if is_turned { !plain } else { plain };
    }
    tables
}

/// The table of a recipe over leaves in this order, some of them complemented.
fn table(recipe: &Recipe, order: &[usize; 4], turned: u32) -> u16 {
    let mut tables = first_tables(order, turned);
    let mut next: usize = 5;
    for step in &recipe.steps {
        let x = table_of(&tables, step.x);
        let y = table_of(&tables, step.y);
        let z = table_of(&tables, step.z);
        if next < MOST_TABLES {
            tables[next] = (x & y) | (x & z) | (y & z);
            next += 1;
        }
    }
    table_of(&tables, recipe.out)
}

/// The tables of a recipe over leaves in this order, for each set of complemented leaves.
fn tables(recipe: &Recipe, order: &[usize; 4]) -> [u16; 16] {
    let mut tables = [0u16; 16];
    for turned in 0..16u32 {
        tables[turned as usize] = table(recipe, order, turned);
    }
    tables
}

/// The recipe of a word of letters.
fn recipe_of(alloc: Global, word: &[u8]) -> Result<Recipe, Memory> {
    let mut steps = Vec::new(alloc);
    let mut step = [0u32; 3];
    let mut place: usize = 0;
    for letter in word {
        if place >= 3 {
            steps.push(Node {
                x: step[0],
                y: step[1],
                z: step[2],
            })?;
            place = 0;
        }
        step[place] = u32::from(letter.saturating_sub(b'a'));
        place = place.saturating_add(1);
    }
    Ok(Recipe {
        steps,
        out: step[0],
    })
}

/// Adds the recipes of a line.
fn push_recipes(alloc: Global, found: &mut Vec<Recipe>, line: &[u8]) -> Result<(), Memory> {
    let mut word: Vec<u8> = Vec::new(alloc);
    for letter in line {
        if *letter == b' ' {
            found.push(recipe_of(alloc, word.as_slice())?)?;
            word.clear();
        } else {
            word.push(*letter)?;
        }
    }
    Ok(())
}

/// Of what the steps of recipes are.
#[derive(Clone, Copy)]
pub(crate) enum Steps {
    /// Majorities, as few as there can be.
    Majorities,
    /// Ands, of which a function has several forms, so that they may share nodes with others.
    Ands,
}

/// The base recipes.
fn base_recipes(alloc: Global, steps: Steps) -> Result<Vec<Recipe>, Memory> {
    let mut found = Vec::new(alloc);
    match steps {
        Steps::Majorities => {
            for number in 0..LINES {
                push_recipes(alloc, &mut found, line(number))?;
            }
        }
        Steps::Ands => {
            for number in 0..AND_LINES {
                push_recipes(alloc, &mut found, and_line(number))?;
            }
        }
    }
    Ok(found)
}

/// How many functions of four inputs there are.
const FUNCTIONS: usize = 65_536;

/// An image, and its table.
#[derive(Clone, Copy)]
struct Filed {
    table: u16,
    image: Image,
}

/// The images of base recipes as they are found, and for each table the last recipe that has one there: of several
/// images of a recipe with one table the first one is enough.
#[derive(Drop)]
struct Files {
    filed: Vec<Filed>,
    lasts: Vec<Option<u16>>,
}

impl Files {
    /// Files an image, if its recipe has none of its table.
    fn take(&mut self, table: u16, image: Image) -> Result<(), Memory> {
        let at = usize::from(table);
        if at < self.lasts.len() && self.lasts[at] != Some(image.recipe) {
            self.lasts[at] = Some(image.recipe);
            self.filed.push(Filed { table, image })?;
        }
        Ok(())
    }

    /// Files the images of a recipe over leaves in this order.
    fn take_order(&mut self, recipe: &Recipe, number: u16, place: u8) -> Result<(), Memory> {
        let tables = tables(recipe, &order(usize::from(place)));
        for turned in 0..32u8 {
            let plain = tables[usize::from(turned % 16)];
            let table = if turned >= 16 { !plain } else { plain };
            let image = Image {
                recipe: number,
                order: place,
                turned,
            };
            self.take(table, image)?;
        }
        Ok(())
    }
}

/// All images of base recipes, one of each recipe for each table that it has.
fn all_images(alloc: Global, base: &[Recipe]) -> Result<Vec<Filed>, Memory> {
    let mut files = Files {
        filed: Vec::new(alloc),
        lasts: vec![in alloc; None; FUNCTIONS]?,
    };
    let mut number: u16 = 0;
    for recipe in base {
        for place in 0..24u8 {
            files.take_order(recipe, number, place)?;
        }
        number = number.saturating_add(1);
    }
    Ok(files.filed)
}

/// How many images each table has.
fn counts(alloc: Global, filed: &[Filed]) -> Result<Vec<usize>, Memory> {
    let mut counts = vec![in alloc; 0usize; FUNCTIONS]?;
    for one in filed {
        let at = usize::from(one.table);
        if at < counts.len() {
            counts[at] = counts[at].saturating_add(1);
        }
    }
    Ok(counts)
}

/// Where each part of a list begins whose parts have these lengths, and where the list ends.
fn starts(alloc: Global, counts: &[usize]) -> Result<Vec<usize>, Memory> {
    let mut starts = Vec::new(alloc);
    let mut sum: usize = 0;
    starts.push(sum)?;
    for count in counts {
        sum = sum.saturating_add(*count);
        starts.push(sum)?;
    }
    Ok(starts)
}

/// The images by their tables, in the order in which they were found.
fn by_tables(alloc: Global, filed: &[Filed], starts: &[usize]) -> Result<Vec<Image>, Memory> {
    let none = Image {
        recipe: 0,
        order: 0,
        turned: 0,
    };
    let mut images = vec![in alloc; none; filed.len()]?;
    let mut free: Vec<usize> = Vec::new(alloc);
    free.extend_from_slice(starts)?;
    for one in filed {
        let table = usize::from(one.table);
        if table < free.len() {
            let place = free[table];
            if place < images.len() {
                images[place] = one.image;
            }
            free[table] = place.saturating_add(1);
        }
    }
    Ok(images)
}

/// For each table the images that have it, in one list.
#[derive(Drop)]
pub(crate) struct Recipes {
    base: Vec<Recipe>,
    images: Vec<Image>,
    starts: Vec<usize>,
}

impl Recipes {
    /// The images of the base recipes.
    pub(crate) fn new(alloc: Global, steps: Steps) -> Result<Recipes, Memory> {
        let base = base_recipes(alloc, steps)?;
        let filed = all_images(alloc, base.as_slice())?;
        let counts = counts(alloc, filed.as_slice())?;
        let starts = starts(alloc, counts.as_slice())?;
        let images = by_tables(alloc, filed.as_slice(), starts.as_slice())?;
        Ok(Recipes {
            base,
            images,
            starts,
        })
    }

    /// The images with this table.
    pub(crate) fn images(&self, table: u16) -> &[Image] {
        let at = usize::from(table);
        let from = self.starts.get(at).copied().unwrap_or(0);
        let to = self.starts.get(at + 1).copied().unwrap_or(0);
        self.images.get(from..to).unwrap_or(&[])
    }

    /// The recipe of an image.
    pub(crate) fn recipe(&self, image: &Image) -> Option<&Recipe> {
        self.base.get(usize::from(image.recipe))
    }
}
