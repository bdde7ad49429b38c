// The cells of nodes and of the trees to their users, each with a position.
use crate::numbers::item;
use crate::signals::Signal;
use crate::trees::Trees;
use aq_base::Memory;
use chip_search::arrays::{add, at, narrow, put};
use chip_search::cells::{Feed, Made, NO_CELL};
use chip_search::graph::turn;
use circuit::CellKind;
use std::alloc::Global;

const KEY: u64 = 4_294_967_296;

/// The cells of trees, the position of each, and the cell of each item.
#[derive(Drop)]
pub(crate) struct TreeCells {
    pub(crate) made: Vec<Made>,
    pub(crate) positions: Vec<i32>,
    pub(crate) items: Vec<u32>,
    /// How many signals the cells of each group give so far.
    sizes: Vec<u32>,
    /// The signals of a row from left to right.
    order: Vec<u64>,
}

/// A row in which cells of a node's tree are made.
#[derive(Clone, Copy)]
struct Row {
    depth: u32,
    label: u32,
    position: i32,
}

/// The kind of the cell that gives a signal so many times.
fn splitter(count: u32) -> CellKind {
    match count {
        2 => CellKind::Split2,
        3 => CellKind::Split3,
        _ => CellKind::Buffer,
    }
}

/// The number of an output of a cell.
fn output_number(output: u32) -> u8 {
    match output {
        0 => 0,
        1 => 1,
        _ => 2,
    }
}

/// A key of a signal: where it begins, and its number.
fn key_of(signal: &Signal, number: u32) -> u64 {
    let low = i64::from(signal.low).saturating_add(2_147_483_648);
    let low = u64::try_from(low).unwrap_or(0);
    low.wrapping_mul(KEY).wrapping_add(u64::from(number))
}

impl TreeCells {
    /// Makes a cell; its number.
    fn put(&mut self, kind: CellKind, row: Row) -> Result<u32, Memory> {
        let number = narrow(self.made.len());
        let none = Feed {
            cell: NO_CELL,
            output: 0,
        };
        self.made.push(Made {
            kind,
            depth: row.depth,
            label: row.label,
            feeds: [none, none, none],
        })?;
        self.positions.push(row.position)?;
        Ok(number)
    }

    /// Feeds a pin of a cell.
    fn feed_cell(&mut self, to: u32, pin: u32, fed: Feed) {
        if let Some(made) = self.made.get_mut(to as usize) {
            let [first, second, third] = made.feeds;
            made.feeds = match pin {
                0 => [fed, second, third],
                1 => [first, fed, third],
                _ => [first, second, fed],
            };
        }
    }

    /// Feeds a pin: one of an item, or after those the pin of a cell that was made.
    fn feed(&mut self, trees: &Trees, pin: u32, cell: u32, output: u8) {
        let fed = Feed { cell, output };
        if pin < trees.graph.pin_count() {
            let place = trees.graph.place(pin);
            let to = at(&self.items, place.item);
            self.feed_cell(to, place.pin, fed);
        } else {
            self.feed_cell(pin.saturating_sub(trees.graph.pin_count()), 0, fed);
        }
    }

    /// The pin of a cell that was made.
    fn pin_of(trees: &Trees, cell: u32) -> u32 {
        trees.graph.pin_count().saturating_add(cell)
    }

    /// Makes the cells of inputs, majorities and outputs.
    fn put_items(&mut self, trees: &Trees) -> Result<(), Memory> {
        let graph = &trees.graph;
        for number in 0..graph.items() {
            let kind = if number >= graph.first() && number < graph.count() {
                CellKind::Majority
            } else {
                CellKind::Buffer
            };
            let row = Row {
                depth: trees.depth(number),
                label: item_label(trees, number),
                position: trees.position(number),
            };
            let cell = if number > 0 {
                self.put(kind, row)?
            } else {
                NO_CELL
            };
            self.items.push(cell)?;
        }
        Ok(())
    }

    /// Makes the cells of constants, each one row below its pin.
    fn put_constants(&mut self, trees: &Trees) -> Result<(), Memory> {
        for pin in 0..trees.graph.pin_count() {
            let literal = at(&trees.graph.literals, pin);
            if literal < 2 {
                let place = trees.graph.place(pin);
                let kind = if literal == 0 {
                    CellKind::Zero
                } else {
                    CellKind::One
                };
                let row = Row {
                    depth: trees.depth(place.item).saturating_add(1),
                    label: follower_label(trees, place.item).saturating_add(literal),
                    position: trees.position(place.item).saturating_add(place.offset()),
                };
                let cell = self.put(kind, row)?;
                self.feed(trees, pin, cell, 0);
            }
        }
        Ok(())
    }

    /// Makes the cells of the groups of a row's signals, whose next ones are known, and lets those ask for their pins.
    fn put_groups(
        &mut self,
        trees: &Trees,
        signals: &[Signal],
        next: &mut [Signal],
        row: Row,
    ) -> Result<(), Memory> {
        let first = narrow(self.made.len());
        self.sizes.clear();
        for one in next {
            let mut row = row;
            row.position = one.nearest(row.position);
            let cell = self.put(CellKind::Buffer, row)?;
            one.pin = TreeCells::pin_of(trees, cell);
            self.sizes.push(0)?;
        }
        self.sort_signals(signals)?;
        for place in 0..narrow(self.order.len()) {
            let number = (item(&self.order, place, 0) % KEY) as u32;
            let group = at(&trees.signals.groups, number);
            let output = at(&self.sizes, group);
            let cell = first.saturating_add(group);
            let pin = match signals.get(number as usize) {
                Some(signal) => signal.pin,
                None => u32::MAX,
            };
            self.feed(trees, pin, cell, output_number(output));
            add(&mut self.sizes, group, 1);
        }
        self.name_kinds(first);
        Ok(())
    }

    /// The signals of a row from left to right.
    fn sort_signals(&mut self, signals: &[Signal]) -> Result<(), Memory> {
        self.order.clear();
        let mut number: u32 = 0;
        for signal in signals {
            self.order.push(key_of(signal, number))?;
            number = number.saturating_add(1);
        }
        self.order.sort_unstable();
        Ok(())
    }

    /// Makes splitters of the cells from one on, by how many signals they give.
    fn name_kinds(&mut self, first: u32) {
        let mut cell = first;
        for size in &self.sizes {
            if let Some(made) = self.made.get_mut(cell as usize) {
                made.kind = splitter(*size);
            }
            cell = cell.saturating_add(1);
        }
    }

    /// Makes inverters for signals, and lets those ask for their pins.
    fn put_inverters(
        &mut self,
        trees: &Trees,
        signals: &mut [Signal],
        row: Row,
    ) -> Result<(), Memory> {
        for signal in signals {
            let mut row = row;
            row.position = signal.nearest(row.position);
            let cell = self.put(CellKind::Inverter, row)?;
            self.feed(trees, signal.pin, cell, 0);
            signal.pin = TreeCells::pin_of(trees, cell);
        }
        Ok(())
    }

    /// Makes the cells of a row of a tree, and goes one row down.
    fn put_row(
        &mut self,
        trees: &mut Trees,
        row: Row,
        spare: &mut Vec<Signal>,
    ) -> Result<(), Memory> {
        let spread = trees.spread();
        let turns = trees.signals.turns();
        let mut other = row;
        other.label = turn(row.label, true);
        trees.signals.group_plain()?;
        std::mem::swap(spare, &mut trees.signals.next);
        self.put_groups(trees, &trees.signals.plain, spare, row)?;
        std::mem::swap(spare, &mut trees.signals.next);
        trees.signals.take_plain(spread);
        if turns {
            std::mem::swap(spare, &mut trees.signals.turned);
            self.put_inverters(trees, spare, other)?;
            std::mem::swap(spare, &mut trees.signals.turned);
            trees.signals.invert(spread)
        } else {
            trees.signals.group_turned()?;
            std::mem::swap(spare, &mut trees.signals.next);
            self.put_groups(trees, &trees.signals.turned, spare, other)?;
            std::mem::swap(spare, &mut trees.signals.next);
            trees.signals.take_turned(spread);
            Ok(())
        }
    }

    /// Makes the tree of a node.
    fn put_tree(
        &mut self,
        trees: &mut Trees,
        node: u32,
        spare: &mut Vec<Signal>,
    ) -> Result<(), Memory> {
        trees.collect(node)?;
        let Some(highest) = trees.next_depth() else {
            return Ok(());
        };
        let bottom = trees.depth(node);
        for depth in highest.saturating_add(1)..bottom {
            trees.take_uses(depth.saturating_sub(1))?;
            let row = Row {
                depth,
                label: trees.graph.label(node),
                position: trees.position(node),
            };
            self.put_row(trees, row, spare)?;
        }
        trees.take_uses(bottom.saturating_sub(1))?;
        let own = at(&self.items, node);
        for signal in &trees.signals.plain {
            self.feed(trees, signal.pin, own, 0);
        }
        Ok(())
    }
}

/// What the cell of an item shows.
fn item_label(trees: &Trees, number: u32) -> u32 {
    let graph = &trees.graph;
    if number < graph.count() {
        return graph.label(number);
    }
    let pin = graph.output_pin(number.saturating_sub(graph.count()));
    let literal = at(&graph.literals, pin);
    turn(graph.label(literal / 2), literal % 2 == 1)
}

/// The label of a constant but for its literal, by which it follows the item that uses it.
fn follower_label(trees: &Trees, number: u32) -> u32 {
    let graph = &trees.graph;
    if number < graph.count() {
        (graph.label(number) / 2).saturating_mul(2)
    } else {
        let output = number.saturating_sub(graph.count());
        graph.given.saturating_add(output).saturating_mul(2)
    }
}

/// The cells of trees whose nodes stand where they have room.
pub(crate) fn make_tree_cells(alloc: Global, trees: &mut Trees) -> Result<TreeCells, Memory> {
    let mut cells = TreeCells {
        made: Vec::new(alloc),
        positions: Vec::new(alloc),
        items: Vec::new(alloc),
        sizes: Vec::new(alloc),
        order: Vec::new(alloc),
    };
    let mut spare = Vec::new(alloc);
    for input in 1..trees.graph.first() {
        let last = trees.last;
        put(&mut trees.depths, input, last);
    }
    cells.put_items(trees)?;
    cells.put_constants(trees)?;
    for node in 1..trees.graph.count() {
        cells.put_tree(trees, node, &mut spare)?;
    }
    Ok(cells)
}
