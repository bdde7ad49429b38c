// Propagation: what literals that are set imply, by majorities and by clauses.
use crate::Work;
use crate::cone::Cone;
use crate::step::{Reason, Step};
use crate::trail::Trail;
use crate::watched_clauses::WatchedClauses;
use aq_base::Memory;
use mig::{Builder, Node, turned};

/// A literal or its complement, the one that is true where the literal has this value.
fn valued(literal: u32, value: bool) -> u32 {
    if value { literal } else { turned(literal) }
}

/// The value of a majority by two of its operands, if two agree, with what is true of them.
fn agreed(trail: &Trail, node: Node) -> Option<(bool, u32, u32)> {
    let x = trail.value(node.x);
    let y = trail.value(node.y);
    let z = trail.value(node.z);
    let (value, one, other) = if x.is_some() && (x == y || x == z) {
        (x?, node.x, if x == y { node.y } else { node.z })
    } else if y == z {
        (y?, node.y, node.z)
    } else {
        return None;
    };
    Some((value, valued(one, value), valued(other, value)))
}

/// The operand of a majority that has not its value, if there is one, and the two others.
fn contrary(trail: &Trail, node: Node, value: bool) -> Option<(u32, u32, u32)> {
    let other = Some(!value);
    if trail.value(node.x) == other {
        Some((node.x, node.y, node.z))
    } else if trail.value(node.y) == other {
        Some((node.y, node.x, node.z))
    } else if trail.value(node.z) == other {
        Some((node.z, node.x, node.y))
    } else {
        None
    }
}

/// Propagates a majority that is set to its operands; the conflict, if there is one.
fn propagate_down(
    trail: &mut Trail,
    operands: Node,
    node: u32,
    value: bool,
) -> Result<Option<Step>, Memory> {
    let Some((against, one, other)) = contrary(trail, operands, value) else {
        return Ok(None);
    };
    let top = valued(node.saturating_mul(2), value);
    let reason = Reason::Majority(top, valued(against, !value));
    for operand in [one, other] {
        let literal = valued(operand, value);
        if let Some(conflict) = trail.imply(Step { literal, reason })? {
            return Ok(Some(conflict));
        }
    }
    Ok(None)
}

/// Propagates at one majority, to itself and to its operands; the conflict, if there is one.
fn propagate_at(graph: &Builder, trail: &mut Trail, node: u32) -> Result<Option<Step>, Memory> {
    let Some(operands) = graph.operands(node.saturating_mul(2)) else {
        return Ok(None);
    };
    if let Some((value, one, other)) = agreed(trail, operands) {
        let literal = valued(node.saturating_mul(2), value);
        let reason = Reason::Operands(one, other);
        if let Some(conflict) = trail.imply(Step { literal, reason })? {
            return Ok(Some(conflict));
        }
    }
    match trail.node_value(node) {
        Some(value) => propagate_down(trail, operands, node, value),
        None => Ok(None),
    }
}

/// Propagates at the majority of a literal and at those that use it; the conflict, if there is one.
fn propagate_around(
    graph: &Builder,
    cone: &Cone,
    trail: &mut Trail,
    literal: u32,
    work: &mut Work,
) -> Result<Option<Step>, Memory> {
    let node = literal / 2;
    if cone.has(node) {
        if let Some(conflict) = propagate_at(graph, trail, node)? {
            return Ok(Some(conflict));
        }
    }
    let mut place = cone.first_use(node);
    for _ in 0..work.left {
        let Some(found) = cone.use_at(place) else {
            return Ok(None);
        };
        work.pay(1);
        if let Some(conflict) = propagate_at(graph, trail, found.user)? {
            return Ok(Some(conflict));
        }
        place = found.next;
    }
    Ok(None)
}

/// Sets all that is implied by what is set, or stops at a conflict: the step that would set a literal that is false.
pub(crate) fn propagate(
    graph: &Builder,
    cone: &Cone,
    trail: &mut Trail,
    clauses: &mut WatchedClauses,
    work: &mut Work,
) -> Result<Option<Step>, Memory> {
    for _ in 0..work.left {
        let Some(literal) = trail.take_next() else {
            return Ok(None);
        };
        work.pay(1);
        if let Some(conflict) = propagate_around(graph, cone, trail, literal, work)? {
            return Ok(Some(conflict));
        }
        if let Some(conflict) = clauses.propagate(cone, trail, literal, work)? {
            return Ok(Some(conflict));
        }
    }
    Ok(None)
}
