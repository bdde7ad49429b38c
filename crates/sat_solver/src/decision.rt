// Decisions: what is tried where nothing more is implied. Majorities that are set are justified one after another.
use crate::Work;
use crate::activity::Activity;
use crate::cone::Cone;
use crate::trail::Trail;
use mig::{Builder, Node, turned};

/// An operand that may be decided, and what speaks for it.
#[derive(Clone, Copy)]
struct Candidate {
    literal: u32,
    activity: u64,
    level: u32,
}

/// The better one of two.
fn better(one: Candidate, other: Candidate) -> Candidate {
    if other.activity > one.activity
        || (other.activity == one.activity && other.level > one.level)
    {
        other
    } else {
        one
    }
}

/// Whether two operands of a majority have its value, which justify it.
fn is_justified(trail: &Trail, node: Node, value: bool) -> bool {
    let wanted = Some(value);
    let x = trail.value(node.x) == wanted;
    let y = trail.value(node.y) == wanted;
    let z = trail.value(node.z) == wanted;
    (x && (y || z)) || (y && z)
}

/// The best operand of a majority that has no value.
fn best_operand(graph: &Builder, activity: &Activity, trail: &Trail, node: Node) -> Option<u32> {
    let mut best: Option<Candidate> = None;
    for literal in [node.x, node.y, node.z] {
        if trail.value(literal).is_none() {
            let found = Candidate {
                literal,
                activity: activity.of(literal / 2),
                level: graph.level(literal),
            };
            best = match best {
                Some(one) => Some(better(one, found)),
                None => Some(found),
            };
        }
    }
    match best {
        Some(found) => Some(found.literal),
        None => None,
    }
}

/// The literal to decide for the node of a literal that is set, if that is a majority of the cone that is not justified
/// yet.
fn decision_at(
    graph: &Builder,
    cone: &Cone,
    activity: &Activity,
    trail: &Trail,
    literal: u32,
) -> Option<u32> {
    let node = literal / 2;
    if !cone.has(node) {
        return None;
    }
    let operands = graph.operands(node.saturating_mul(2))?;
    let value = trail.node_value(node)?;
    if is_justified(trail, operands, value) {
        return None;
    }
    let operand = best_operand(graph, activity, trail, operands)?;
    Some(if value { operand } else { turned(operand) })
}

/// The next decision: the operand of most activity of the oldest majority on the trail that is not justified yet. None
/// is left where all are justified.
pub(crate) fn next_decision(
    graph: &Builder,
    cone: &Cone,
    activity: &Activity,
    trail: &mut Trail,
    work: &mut Work,
) -> Option<u32> {
    for place in trail.frontier()..trail.len() {
        work.pay(1);
        let literal = trail.literal_at(place)?;
        let found = decision_at(graph, cone, activity, trail, literal);
        if found.is_some() {
            trail.set_frontier(place);
            return found;
        }
    }
    trail.set_frontier(trail.len());
    None
}
