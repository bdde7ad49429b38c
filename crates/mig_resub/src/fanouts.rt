// The nodes that name each node as an operand.
use aq_base::Memory;
use mig::Graph;
use std::alloc::Global;

/// For each node the numbers of those that name it, by rising number, in one list.
#[derive(Drop)]
pub(crate) struct Fanouts {
    starts: Vec<usize>,
    users: Vec<u32>,
}

/// One more than a count.
fn count_one(counts: &mut Vec<usize>, at: usize) {
    if at < counts.len() {
        counts[at] = counts[at].saturating_add(1);
    }
}

/// Puts a user at the next free place of a node.
fn put(users: &mut Vec<u32>, next: &mut Vec<usize>, at: usize, user: u32) {
    if at < next.len() {
        let place = next[at];
        if place < users.len() {
            users[place] = user;
        }
        next[at] = place.saturating_add(1);
    }
}

/// Where the users of each node begin: sums of the counts of those before.
fn sums(alloc: Global, counts: &[usize]) -> Result<Vec<usize>, Memory> {
    let mut starts = Vec::with_capacity(alloc, counts.len())?;
    let mut sum = 0usize;
    for count in counts {
        starts.push(sum)?;
        sum = sum.saturating_add(*count);
    }
    Ok(starts)
}

impl Fanouts {
    /// Those of the nodes of a graph.
    pub(crate) fn new(alloc: Global, graph: &Graph) -> Result<Fanouts, Memory> {
        let first = (graph.inputs() as usize).saturating_add(1);
        let total = first.saturating_add(graph.node_count());
        let mut counts = vec![in alloc; 0usize; total.saturating_add(1)]?;
        for node in graph.nodes() {
            count_one(&mut counts, (node.x / 2) as usize);
            count_one(&mut counts, (node.y / 2) as usize);
            count_one(&mut counts, (node.z / 2) as usize);
        }
        let starts = sums(alloc, counts.as_slice())?;
        let mut next = starts.clone()?;
        let mut users = vec![in alloc; 0u32; graph.node_count().saturating_mul(3)]?;
        let mut user = graph.inputs();
        for node in graph.nodes() {
            user = user.saturating_add(1);
            put(&mut users, &mut next, (node.x / 2) as usize, user);
            put(&mut users, &mut next, (node.y / 2) as usize, user);
            put(&mut users, &mut next, (node.z / 2) as usize, user);
        }
        Ok(Fanouts { starts, users })
    }

    /// The nodes that name a node.
    pub(crate) fn of(&self, node: u32) -> &[u32] {
        let at = node as usize;
        let start = self.starts.get(at).copied().unwrap_or(0);
        let end = self.starts.get(at.saturating_add(1)).copied().unwrap_or(0);
        self.users.get(start..end).unwrap_or(&[])
    }
}
