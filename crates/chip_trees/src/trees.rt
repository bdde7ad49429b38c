// The rows of nodes, and the trees to their users, which may know where these stand.
use crate::graph::TurnedGraph;
use crate::numbers::item;
use crate::signals::{FAR, Signal, Signals};
use aq_base::Memory;
use chip_search::arrays::{at, narrow, put};
use chip_search::walk::{Use as PlainUse, Walked, sort_uses, walk};
use std::alloc::Global;

/// A node stands at most so many rows below the outputs.
pub(crate) const MOST_ROWS: u32 = 100_000;

/// A use of a node: how many rows below the outputs it stands, where, whether it wants the complement, and its pin.
#[derive(Clone, Copy)]
pub(crate) struct Use {
    pub(crate) depth: u32,
    position: i32,
    turned: bool,
    pin: u32,
}

impl Use {
    const NONE: Use = Use {
        depth: 0,
        position: 0,
        turned: false,
        pin: 0,
    };
}

/// How many rows below the outputs each item stands, the inputs `last` rows, and at which position.
#[derive(Drop)]
pub(crate) struct Trees {
    pub(crate) graph: TurnedGraph,
    pub(crate) three: bool,
    pub(crate) depths: Vec<u32>,
    pub(crate) last: u32,
    pub(crate) positions: Vec<i32>,
    /// How far a signal may move in a row; nothing where positions don't count.
    pub(crate) reach: Option<i32>,
    pub(crate) uses: Vec<Use>,
    /// The uses of a node where positions don't count.
    plain_uses: Vec<PlainUse>,
    pub(crate) next: u32,
    pub(crate) signals: Signals,
}

impl Trees {
    /// The trees of a graph whose nodes all stand as the outputs.
    pub(crate) fn new(alloc: Global, graph: TurnedGraph, three: bool) -> Result<Trees, Memory> {
        let items = graph.items() as usize;
        Ok(Trees {
            graph,
            three,
            depths: vec![in alloc; 0; items]?,
            last: 1,
            positions: vec![in alloc; 0; items]?,
            reach: None,
            uses: Vec::new(alloc),
            plain_uses: Vec::new(alloc),
            next: 0,
            signals: Signals::new(alloc, three),
        })
    }

    /// The same trees at other positions.
    pub(crate) fn at_positions(
        &self,
        alloc: Global,
        positions: &[i32],
        reach: i32,
    ) -> Result<Trees, Memory> {
        Ok(Trees {
            graph: self.graph.copy(alloc)?,
            three: self.three,
            depths: Vec::from_slice(alloc, &self.depths)?,
            last: self.last,
            positions: Vec::from_slice(alloc, positions)?,
            reach: Some(reach.max(1)),
            uses: Vec::new(alloc),
            plain_uses: Vec::new(alloc),
            next: 0,
            signals: Signals::new(alloc, self.three),
        })
    }

    /// How many rows below the outputs an item stands.
    pub(crate) fn depth(&self, item: u32) -> u32 {
        at(&self.depths, item)
    }

    /// The position of an item.
    pub(crate) fn position(&self, number: u32) -> i32 {
        item(&self.positions, number, 0)
    }

    /// How far a signal may move in a row.
    pub(crate) fn spread(&self) -> i32 {
        self.reach.unwrap_or(0)
    }

    /// Collects the uses of a node by rising depth.
    pub(crate) fn collect(&mut self, node: u32) -> Result<(), Memory> {
        self.uses.clear();
        self.next = 0;
        self.signals.clear();
        let count = narrow(self.graph.uses(node).len());
        for number in 0..count {
            let pin = self.graph.use_pin(node, number);
            let place = self.graph.place(pin);
            let left = item(&self.positions, place.item, 0);
            self.uses.push(Use {
                depth: at(&self.depths, place.item),
                position: left.saturating_add(place.offset()),
                turned: at(&self.graph.literals, pin) % 2 == 1,
                pin,
            })?;
        }
        if self.uses.len() > 1 {
            self.uses.sort_unstable_by_key(|one| one.depth);
        }
        Ok(())
    }

    /// The depth of the highest use that is not taken in.
    pub(crate) fn next_depth(&self) -> Option<u32> {
        match self.uses.get(self.next as usize) {
            Some(one) => Some(one.depth),
            None => None,
        }
    }

    /// Takes in the uses of a depth.
    pub(crate) fn take_uses(&mut self, depth: u32) -> Result<(), Memory> {
        for number in self.next..narrow(self.uses.len()) {
            let one = item(&self.uses, number, Use::NONE);
            if one.depth != depth {
                break;
            }
            let signal = match self.reach {
                Some(reach) => Signal {
                    low: one.position.saturating_sub(reach),
                    high: one.position.saturating_add(reach),
                    pin: one.pin,
                },
                None => Signal {
                    low: -FAR,
                    high: FAR,
                    pin: one.pin,
                },
            };
            if one.turned {
                self.signals.turned.push(signal)?;
            } else {
                self.signals.plain.push(signal)?;
            }
            self.next = number.saturating_add(1);
        }
        Ok(())
    }

    /// Goes one row down.
    fn step(&mut self) -> Result<(), Memory> {
        let spread = self.spread();
        let turns = self.signals.turns();
        self.signals.group_plain()?;
        self.signals.take_plain(spread);
        if turns {
            self.signals.invert(spread)?;
        } else {
            self.signals.group_turned()?;
            self.signals.take_turned(spread);
        }
        Ok(())
    }

    /// How many rows a signal goes down alone, before another use or the node itself, which stands at a position.
    fn rows_alone(&self, signal: Signal, depth: u32, position: i32) -> u32 {
        if let Some(next) = self.next_depth() {
            return next.saturating_add(1).saturating_sub(depth);
        }
        let left = signal.low.saturating_sub(position);
        let right = position.saturating_sub(signal.high);
        let gap = left.max(right).max(0);
        let reach = self.spread().max(1);
        let rows = gap
            .saturating_add(reach.saturating_sub(1))
            .checked_div(reach);
        u32::try_from(rows.unwrap_or(0)).unwrap_or(0)
    }

    /// Lets the one signal that is asked for go some rows down.
    fn go_down(&mut self, signal: Signal, rows: u32) -> Result<(), Memory> {
        let rows = i32::try_from(rows).unwrap_or(i32::MAX);
        let spread = self.spread().saturating_mul(rows);
        self.signals.plain.clear();
        self.signals.plain.push(signal.widened(spread))?;
        Ok(())
    }

    /// The walk of a node's uses where positions don't count: only how many signals each row is asked for matters then,
    /// so none is kept.
    fn walk_anywhere(&mut self, node: u32, most: u32) -> Result<Option<Walked>, Memory> {
        self.plain_uses.clear();
        let count = narrow(self.graph.uses(node).len());
        for number in 0..count {
            let pin = self.graph.use_pin(node, number);
            let place = self.graph.place(pin);
            self.plain_uses.push(PlainUse {
                depth: at(&self.depths, place.item),
                turned: at(&self.graph.literals, pin) % 2 == 1,
            })?;
        }
        sort_uses(&mut self.plain_uses);
        let walked = walk(&self.plain_uses, self.three);
        Ok(if walked.depth > most {
            None
        } else {
            Some(walked)
        })
    }

    /// The walk of a node's uses down to the first row in which it may stand; nothing where that is more than `most`
    /// rows below the outputs.
    pub(crate) fn walk(&mut self, node: u32, most: u32) -> Result<Option<Walked>, Memory> {
        if self.reach.is_none() {
            return self.walk_anywhere(node, most);
        }
        self.collect(node)?;
        let Some(first) = self.next_depth() else {
            return Ok(Some(Walked { cells: 0, depth: 1 }));
        };
        let position = self.position(node);
        let mut depth = first.saturating_add(1);
        let mut cells: u64 = 0;
        for _ in 0..MOST_ROWS {
            self.take_uses(depth.saturating_sub(1))?;
            if let Some(signal) = self.signals.only() {
                let is_last = self.next_depth().is_none();
                let rows = self.rows_alone(signal, depth, position);
                cells = cells.saturating_add(u64::from(rows));
                depth = depth.saturating_add(rows);
                if depth > most {
                    return Ok(None);
                }
                if is_last {
                    return Ok(Some(Walked { cells, depth }));
                }
                self.go_down(signal, rows)?;
            } else {
                self.step()?;
                cells = cells.saturating_add(self.signals.count());
                depth = depth.saturating_add(1);
                if depth > most {
                    return Ok(None);
                }
            }
        }
        Ok(None)
    }

    /// How many cells stand in the tree of a node where it stands; nothing where it stands too high for it.
    pub(crate) fn cost(&mut self, node: u32) -> Result<Option<u64>, Memory> {
        if self.graph.uses(node).is_empty() {
            return Ok(Some(0));
        }
        let bottom = self.depth(node);
        match self.walk(node, bottom)? {
            Some(walked) => {
                let buffers = bottom.saturating_sub(walked.depth);
                Ok(Some(walked.cells.saturating_add(u64::from(buffers))))
            }
            None => Ok(None),
        }
    }

    /// Puts each majority at least as many rows down as its tree wants, and at least in the row where it stands, and
    /// the inputs all in one row.
    pub(crate) fn repair(&mut self) -> Result<(), Memory> {
        let mut last: u32 = 1;
        let first = self.graph.first();
        for node in (1..self.graph.count()).rev() {
            if !self.graph.uses(node).is_empty() {
                let wanted = match self.walk(node, MOST_ROWS)? {
                    Some(walked) => walked.depth,
                    None => MOST_ROWS,
                };
                if node < first {
                    last = last.max(wanted);
                } else {
                    let depth = wanted.max(self.depth(node));
                    put(&mut self.depths, node, depth);
                    last = last.max(depth.saturating_add(1));
                }
            }
        }
        self.last = last;
        for input in 1..first {
            put(&mut self.depths, input, last);
        }
        Ok(())
    }

    /// How many cells there are; those of a tree whose node stands too high are many.
    pub(crate) fn cells(&mut self) -> Result<u64, Memory> {
        let nodes = self.graph.count().saturating_sub(1);
        let mut cells = u64::from(nodes).saturating_add(u64::from(self.graph.outputs));
        for node in 1..self.graph.count() {
            let cost = self.cost(node)?.unwrap_or(1_000_000);
            cells = cells.saturating_add(cost);
        }
        for literal in &self.graph.literals {
            cells = cells.saturating_add(u64::from(*literal < 2));
        }
        Ok(cells)
    }
}
