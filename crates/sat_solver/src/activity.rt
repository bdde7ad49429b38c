// The activity of nodes: how often they had a part in conflicts, later ones counting more (VSIDS).
use aq_base::Memory;
use std::alloc::Global;

/// The greatest bump. Past it all activities are scaled down.
const MOST_BUMP: u64 = 1 << 40;

/// How far they are shifted then.
const SHIFT: u32 = 30;

/// The activity of a node, as it was scaled in the age of its last bump.
#[derive(Clone, Copy)]
struct Score {
    age: u32,
    amount: u64,
}

/// The activity of each node: it is bumped where the node has a part in a conflict. In place of a decay of all
/// activities with each conflict, the bump grows by a sixteenth. In place of a pass over all nodes when they are scaled
/// down, an age begins, and each activity is scaled when it is read.
#[derive(Drop)]
pub(crate) struct Activity {
    scores: Vec<Score>,
    age: u32,
    bump: u64,
}

impl Activity {
    /// None.
    pub(crate) fn new(alloc: Global) -> Activity {
        Activity {
            scores: Vec::new(alloc),
            age: 0,
            bump: 1 << 10,
        }
    }

    /// Makes room for so many nodes.
    pub(crate) fn grow(&mut self, nodes: usize) -> Result<(), Memory> {
        for _ in self.scores.len()..nodes {
            self.scores.push(Score { age: 0, amount: 0 })?;
        }
        Ok(())
    }

    /// The activity of a node.
    pub(crate) fn of(&self, node: u32) -> u64 {
        match self.scores.get(node as usize) {
            Some(score) if score.age == self.age => score.amount,
            Some(score) if score.age.saturating_add(1) == self.age => score.amount >> SHIFT,
            _ => 0,
        }
    }

    /// Bumps a node, which has a part in a conflict.
    pub(crate) fn bump(&mut self, node: u32) {
        let amount = self.of(node).saturating_add(self.bump);
        let age = self.age;
        if let Some(score) = self.scores.get_mut(node as usize) {
            *score = Score { age, amount };
        }
    }

    /// Decays all activities, once a conflict is analysed, by making the next bumps larger.
    pub(crate) fn decay(&mut self) {
        self.bump = self.bump.saturating_add(self.bump / 16);
        if self.bump > MOST_BUMP {
            self.bump >>= SHIFT;
            self.age = self.age.saturating_add(1);
        }
    }
}
