// The choice among forms that save as many nodes.
use crate::replacement::Replacement;
use crate::trial::Trial;

/// A replacement, how many nodes it saves, and its level.
#[derive(Drop)]
pub struct Best {
    pub by: Replacement,
    pub saved: u32,
    pub level: u32,
}

/// Which of two forms is taken that save as many nodes: the lower one, or now this one and now that one.
#[derive(Clone, Copy)]
pub struct Ties {
    state: Option<u32>,
}

impl Ties {
    /// The lower one is taken, and none that saves nothing and is no lower than the node.
    pub fn lower() -> Ties {
        Ties { state: None }
    }

    /// Forms that save nothing are taken too, in an order of their own for each number.
    pub fn shaken(number: u32) -> Ties {
        Ties {
            state: Some(number),
        }
    }

    /// Whether a form may be taken that saves nothing and is no lower than the node.
    fn takes_any(&self) -> bool {
        self.state.is_some()
    }

    /// Whether the second one of two is taken, by their levels.
    fn takes_second(&mut self, first: u32, second: u32) -> bool {
        match self.state {
            Some(state) => {
                let next = state.wrapping_mul(1_664_525).wrapping_add(1_013_904_223);
                self.state = Some(next);
                next >> 16 & 1 == 1
            }
            None => second < first,
        }
    }

    /// What a form saves that was tried, where so many nodes are given up, if it is worth it: it is no higher than `most`,
    /// if not than the node is, and saves some, or none where ties allow that.
    pub fn worth(
        &self,
        most: u32,
        plain: u32,
        by: Replacement,
        outcome: Trial,
        freed: u32,
    ) -> Option<Best> {
        if outcome.level > most.max(plain) || outcome.new > freed {
            return None;
        }
        let saved = freed - outcome.new;
        if saved == 0 && outcome.level >= plain && !self.takes_any() {
            return None;
        }
        Some(Best {
            by,
            saved,
            level: outcome.level,
        })
    }

    /// The better of two: the one that saves more nodes.
    pub fn better(&mut self, one: Option<Best>, other: Option<Best>) -> Option<Best> {
        match (one, other) {
            (Some(one), Some(other)) => {
                if other.saved > one.saved
                    || (other.saved == one.saved && self.takes_second(one.level, other.level))
                {
                    Some(other)
                } else {
                    Some(one)
                }
            }
            (Some(one), None) => Some(one),
            (None, other) => other,
        }
    }
}
