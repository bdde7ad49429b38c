// Candidate classes: nodes of the same simulation signature, which may be equal, in the order in which they came. They
// are hints.
use aq_base::Memory;
use std::alloc::Global;

/// For each class the first and the last of its nodes, and for each node the next of its class.
#[derive(Drop)]
pub(crate) struct Classes {
    first: Vec<Option<u32>>,
    last: Vec<Option<u32>>,
    next: Vec<Option<u32>>,
    is_in: Vec<bool>,
}

/// What stands at a place, if anything does.
fn at(places: &[Option<u32>], place: usize) -> Option<u32> {
    places.get(place).copied().unwrap_or(None)
}

/// Puts a node at a place, if it is there.
fn put(places: &mut [Option<u32>], place: usize, node: u32) {
    if place < places.len() {
        places[place] = Some(node);
    }
}

impl Classes {
    /// No nodes, in at least one class.
    pub(crate) fn new(alloc: Global, classes: usize) -> Result<Classes, Memory> {
        Ok(Classes {
            first: vec![in alloc; None; classes.max(1)]?,
            last: vec![in alloc; None; classes.max(1)]?,
            next: Vec::new(alloc),
            is_in: Vec::new(alloc),
        })
    }

    /// The place of a class.
    fn place_of(&self, key: u64) -> usize {
        let count = self.first.len().max(1);
        (key % count as u64) as usize
    }

    /// Whether a node is in a class.
    pub(crate) fn has(&self, node: u32) -> bool {
        self.is_in.get(node as usize).copied().unwrap_or(false)
    }

    /// The first node of a class.
    pub(crate) fn first(&self, key: u64) -> Option<u32> {
        at(&self.first, self.place_of(key))
    }

    /// The next node of its class.
    pub(crate) fn after(&self, node: u32) -> Option<u32> {
        at(&self.next, node as usize)
    }

    /// Makes room for a node.
    fn widen(&mut self, node: u32) -> Result<(), Memory> {
        let place = node as usize;
        if self.next.len() <= place {
            self.next.resize(place + 1, None)?;
        }
        if self.is_in.len() <= place {
            self.is_in.resize(place + 1, false)?;
        }
        Ok(())
    }

    /// Puts a node at the end of a class.
    pub(crate) fn add(&mut self, key: u64, node: u32) -> Result<(), Memory> {
        self.widen(node)?;
        let own = node as usize;
        if own < self.is_in.len() {
            self.is_in[own] = true;
        }
        let place = self.place_of(key);
        match at(&self.last, place) {
            None => put(&mut self.first, place, node),
            Some(last) => put(&mut self.next, last as usize, node),
        }
        put(&mut self.last, place, node);
        Ok(())
    }
}
