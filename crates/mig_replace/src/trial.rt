// What a replacement would make. Nothing depends on it but which nodes there are.
use crate::growth::Growth;
use crate::readers::Readers;
use crate::replacement::Replacement;
use crate::site::Site;
use aq_base::Memory;
use mig::{Builder, Node, turned};

/// The level of a replacement's result, and how many nodes it makes.
#[derive(Clone, Copy)]
pub struct Trial {
    pub level: u32,
    pub new: u32,
}

/// A literal, if it is there, and its level.
#[derive(Clone, Copy)]
struct Value {
    literal: Option<u32>,
    level: u32,
}

/// The value of a literal of a replacement, by those of the constant, the leaves and the steps.
fn operand(values: &[Value], literal: u32) -> Value {
    let plain = values
        .get((literal / 2) as usize)
        .copied()
        .unwrap_or(Value {
            literal: None,
            level: 0,
        });
    let found = match plain.literal {
        Some(found) => Some(if literal % 2 == 1 {
            turned(found)
        } else {
            found
        }),
        None => None,
    };
    Value {
        literal: found,
        level: plain.level,
    }
}

/// The value of a step.
fn step(builder: &Builder, values: &[Value], step: Node) -> Value {
    let x = operand(values, step.x);
    let y = operand(values, step.y);
    let z = operand(values, step.z);
    let found = match (x.literal, y.literal, z.literal) {
        (Some(x), Some(y), Some(z)) => builder.find(x, y, z),
        (_, _, _) => None,
    };
    let level = match found {
        Some(literal) => builder.level(literal),
        None => x.level.max(y.level).max(z.level).saturating_add(1),
    };
    Value {
        literal: found,
        level,
    }
}

/// The value of a node that has its literal.
fn value_of(site: &Site, node: u32) -> Value {
    let literal = site.found.get(node as usize).copied().unwrap_or(0);
    Value {
        literal: Some(literal),
        level: site.builder.level(literal),
    }
}

/// The values of the constant, the leaves and the other nodes.
fn first_values(site: &Site, by: &Replacement) -> Result<Vec<Value>, Memory> {
    let mut values = Vec::new(site.alloc);
    values.push(Value {
        literal: Some(0),
        level: 0,
    })?;
    for leaf in &by.leaves {
        values.push(value_of(site, *leaf))?;
    }
    for other in &by.others {
        values.push(value_of(site, *other))?;
    }
    Ok(values)
}

/// Whether a literal is that of a node that is given up.
fn is_freed(found: &[u32], freed: &[u32], literal: u32) -> bool {
    for node in freed {
        if let Some(old) = found.get(*node as usize) {
            if *old / 2 == literal / 2 {
                return true;
            }
        }
    }
    false
}

/// What a replacement would make, where nodes are given up.
pub fn tried(site: &Site, by: &Replacement, freed: &[u32]) -> Result<Trial, Memory> {
    let mut values = first_values(site, by)?;
    let mut new = 0u32;
    for one in &by.steps {
        let value = step(site.builder, values.as_slice(), *one);
        let is_new = match value.literal {
            Some(literal) => is_freed(site.found, freed, literal),
            None => true,
        };
        if is_new {
            new = new.saturating_add(1);
        }
        values.push(value)?;
    }
    let out = operand(values.as_slice(), by.out);
    Ok(Trial {
        level: out.level,
        new,
    })
}

/// The values of the constant and the leaves, which are nodes of a graph that grows.
fn leaf_values(at: &Growth, by: &Replacement) -> Result<Vec<Value>, Memory> {
    let mut values = Vec::new(at.alloc);
    values.push(Value {
        literal: Some(0),
        level: 0,
    })?;
    for leaf in &by.leaves {
        let literal = leaf.saturating_mul(2);
        values.push(Value {
            literal: Some(literal),
            level: at.builder.level(literal),
        })?;
    }
    Ok(values)
}

/// Whether a step costs a node: it is not there, or has no readers.
fn costs(at: &Growth, readers: &Readers, value: Value) -> bool {
    match value.literal {
        Some(literal) => {
            let node = literal / 2;
            node > at.builder.inputs() && readers.count(node) == 0
        }
        None => true,
    }
}

/// What a replacement would make in a graph that grows, where nodes without readers are given up.
pub fn tried_in_growth(at: &Growth, by: &Replacement, readers: &Readers) -> Result<Trial, Memory> {
    let mut values = leaf_values(at, by)?;
    let mut new = 0u32;
    for one in &by.steps {
        let value = step(at.builder, values.as_slice(), *one);
        if costs(at, readers, value) {
            new = new.saturating_add(1);
        }
        values.push(value)?;
    }
    let out = operand(values.as_slice(), by.out);
    Ok(Trial {
        level: out.level,
        new,
    })
}
