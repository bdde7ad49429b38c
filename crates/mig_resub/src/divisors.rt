// The literals of which a node may be made.
use crate::window::Member;
use aq_base::Memory;
use std::alloc::Global;

/// A node or its complement, and its table; node 0 is the constant.
#[derive(Clone, Copy)]
pub(crate) struct Divisor {
    pub node: u32,
    pub odd: u32,
    pub table: u64,
}

/// The constant, these nodes, and their complements.
pub(crate) fn divisors(alloc: Global, members: &[Member]) -> Result<Vec<Divisor>, Memory> {
    let mut found = Vec::new(alloc);
    push_both(&mut found, 0, 0)?;
    for member in members {
        push_both(&mut found, member.node, member.table)?;
    }
    Ok(found)
}

/// A node and its complement.
fn push_both(found: &mut Vec<Divisor>, node: u32, table: u64) -> Result<(), Memory> {
    for odd in 0..2u32 {
        let table = if odd == 1 { !table } else { table };
        found.push(Divisor { node, odd, table })?;
    }
    Ok(())
}

/// Whether the majority of two and a third one can be the target where it is looked at: where the two are the same, they
/// are the target.
pub(crate) fn can_be_two(one: u64, two: u64, target: u64, care: u64) -> bool {
    care & !(one ^ two) & (one ^ target) == 0
}

/// Whether the majority of two, which can be two of it, and this one is the target where it is looked at.
pub(crate) fn is_third(one: u64, two: u64, three: u64, target: u64, care: u64) -> bool {
    care & (one ^ two) & (three ^ target) == 0
}
