// Forms of a node by other nodes of its window: one of them, a majority of three, and a majority of two and of another
// majority.
use crate::divisors::{Divisor, can_be_two, is_third};
use aq_base::Memory;
use mig::Node;
use mig_replace::Replacement;
use std::alloc::Global;

/// How many forms of a kind are looked at.
const MOST_FORMS: usize = 24;

/// How many pairs are tried with a further majority.
const MOST_PAIRS: usize = 40;

/// How many pairs for a further majority are tried in all.
const MOST_TRIES: u32 = 20_000;

/// Operands of one majority, or of one and then of another that it is an operand of.
#[derive(Clone, Copy)]
pub(crate) struct Form {
    pub inner: [Divisor; 3],
    pub outer: Option<[Divisor; 2]>,
}

/// The nodes that are tried as operands, and what is sought.
#[derive(Clone, Copy)]
pub(crate) struct Sought<'a> {
    pub alloc: Global,
    pub divisors: &'a [Divisor],
    pub target: u64,
}

/// A majority of three is the target where it is looked at: those that are found are added, at most so many.
fn push_thirds(
    found: &mut Vec<[Divisor; 3]>,
    sought: &Sought,
    care: u64,
    one: Divisor,
    two: Divisor,
    later: &[Divisor],
) -> Result<(), Memory> {
    for three in later {
        if found.len() < MOST_FORMS
            && is_third(one.table, two.table, three.table, sought.target, care)
        {
            found.push([one, two, *three])?;
        }
    }
    Ok(())
}

/// Those after a place.
fn after<'a>(divisors: &'a [Divisor], place: usize) -> &'a [Divisor] {
    divisors.get(place.saturating_add(1)..).unwrap_or(&[])
}

/// Whether two may be operands beside a third one: both constants may, so that the third one alone is a form.
fn is_pair(one: &Divisor, two: &Divisor) -> bool {
    one.node != two.node || one.node == 0
}

/// Majorities of three that are the target where it is looked at.
fn majorities(sought: &Sought, care: u64, tries: &mut u32) -> Result<Vec<[Divisor; 3]>, Memory> {
    let mut found = Vec::new(sought.alloc);
    for (first, one) in sought.divisors.iter().enumerate() {
        let later = after(sought.divisors, first);
        for (second, two) in later.iter().enumerate() {
            if *tries == 0 || found.len() >= MOST_FORMS {
                return Ok(found);
            }
            *tries = tries.saturating_sub(1);
            if is_pair(one, two) && can_be_two(one.table, two.table, sought.target, care) {
                push_thirds(&mut found, sought, care, *one, *two, after(later, second))?;
            }
        }
    }
    Ok(found)
}

/// Pairs that can be two operands of a majority that is the target.
fn pairs(sought: &Sought) -> Result<Vec<[Divisor; 2]>, Memory> {
    let mut found = Vec::new(sought.alloc);
    for (first, one) in sought.divisors.iter().enumerate() {
        for two in after(sought.divisors, first) {
            if found.len() < MOST_PAIRS
                && one.node != two.node
                && can_be_two(one.table, two.table, sought.target, u64::MAX)
            {
                found.push([*one, *two])?;
            }
        }
    }
    Ok(found)
}

/// The forms of the target by one majority. One of the nodes alone is the majority of it and both constants.
pub(crate) fn by_one(sought: &Sought) -> Result<Vec<Form>, Memory> {
    let mut forms = Vec::new(sought.alloc);
    let mut tries = MOST_TRIES;
    let found = majorities(sought, u64::MAX, &mut tries)?;
    for inner in &found {
        forms.push(Form {
            inner: *inner,
            outer: None,
        })?;
    }
    Ok(forms)
}

/// The forms of the target by two majorities.
pub(crate) fn by_two(sought: &Sought) -> Result<Vec<Form>, Memory> {
    let mut forms = Vec::new(sought.alloc);
    let mut tries = MOST_TRIES;
    for pair in &pairs(sought)? {
        let care = pair[0].table ^ pair[1].table;
        let found = majorities(sought, care, &mut tries)?;
        for inner in &found {
            if forms.len() < MOST_FORMS {
                forms.push(Form {
                    inner: *inner,
                    outer: Some(*pair),
                })?;
            }
        }
    }
    Ok(forms)
}

/// The literal of a divisor in a replacement with so many leaves, to whose other nodes it is added.
fn literal(others: &mut Vec<u32>, leaves: usize, divisor: Divisor) -> Result<u32, Memory> {
    if divisor.node == 0 {
        return Ok(divisor.odd % 2);
    }
    let number = leaves.saturating_add(others.len()).saturating_add(1);
    others.push(divisor.node)?;
    let plain = u32::try_from(number).unwrap_or(0).saturating_mul(2);
    Ok(plain | divisor.odd % 2)
}

impl Form {
    /// The replacement by this form.
    pub(crate) fn replacement(&self, alloc: Global, leaves: &[u32]) -> Result<Replacement, Memory> {
        let mut others = Vec::new(alloc);
        let inner = Node {
            x: literal(&mut others, leaves.len(), self.inner[0])?,
            y: literal(&mut others, leaves.len(), self.inner[1])?,
            z: literal(&mut others, leaves.len(), self.inner[2])?,
        };
        let mut steps = Vec::new(alloc);
        steps.push(inner)?;
        if let Some(outer) = self.outer {
            let x = literal(&mut others, leaves.len(), outer[0])?;
            let y = literal(&mut others, leaves.len(), outer[1])?;
            let number = leaves.len().saturating_add(others.len()).saturating_add(1);
            let z = u32::try_from(number).unwrap_or(0).saturating_mul(2);
            steps.push(Node { x, y, z })?;
        }
        let last = leaves
            .len()
            .saturating_add(others.len())
            .saturating_add(steps.len());
        let mut kept = Vec::new(alloc);
        kept.extend_from_slice(leaves)?;
        Ok(Replacement {
            leaves: kept,
            others,
            steps,
            out: u32::try_from(last).unwrap_or(0).saturating_mul(2),
        })
    }
}
