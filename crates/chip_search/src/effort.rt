// How much work a search does.
use crate::arrays::narrow;

/// How much work a search does. All numbers are counts, so that the same graphs give the same draft on each machine.
#[derive(Clone, Copy)]
pub struct Effort {
    /// How many times all rows are settled after a start.
    pub sweeps: u32,
    /// Whether wires of one label are matched anew after each time.
    pub matches: bool,
    /// Whether a constant goes up with its user where its channel gets rows; else it gets buffers.
    pub plants: bool,
    /// How many times rows beside wires that are too long are settled after that, where cells may stay where they are.
    pub lazy_rounds: u32,
    /// How many times nodes in a line are drawn to their neighbors for one more start, and 0 for no such start.
    pub line_rounds: u32,
    /// How many times all rows are settled by means before, and 0 for no such starts.
    pub smooth_sweeps: u32,
    /// How many times splitters are pulled down.
    pub pulls: u32,
    /// How many times all rows are settled after each of these.
    pub pull_sweeps: u32,
    /// How many times rows are added to each channel where wires move too far.
    pub rounds: u32,
    /// How many times all rows are settled after each of these.
    pub round_sweeps: u32,
    /// How many times rows that channels side by side share are added before, and 0 for no such try.
    pub shared_rounds: u32,
    /// How many times all rows are settled after each of these.
    pub shared_sweeps: u32,
    /// Whether rows are woven where wires may move less than four slots, or rows that are wanted are not enough.
    pub weaves: bool,
    /// How many times rows that the orders of cells do not need are left out at the end, by exact slots.
    pub spares: u32,
    /// How many times rows of buffers are left out at the end, and others added where they are wanted then.
    pub trims: u32,
    /// A chip of more cells is of no use: it can't be drawn, or a smaller one is known.
    pub most_cells: u64,
    /// How many times a cell is settled, at most, for each cell of a chip without added rows: once for the starts of
    /// each graph, and twice more for what is done to the best one. `MORE_CELLS` are counted more than there are.
    pub steps: u32,
}

/// So many cells are counted more than there are.
const MORE_CELLS: u64 = 10_000;

/// A chip that can be drawn has at most so many cells, and one more for each output: a drawing has at most 2,000,000
/// elements, one for each cell and five for each wire, and a wire begins at each cell that is no output.
const MOST_DRAWN: u64 = 333_334;

/// Where wires may move fewer slots, much more than usual is left out of a chip after it is placed.
pub(crate) const SHORT_LIMIT: u32 = 4;

impl Effort {
    /// Few starts, and no wire matched anew.
    pub fn plain() -> Effort {
        Effort {
            sweeps: 24,
            matches: false,
            plants: true,
            lazy_rounds: 0,
            line_rounds: 0,
            smooth_sweeps: 0,
            pulls: 0,
            pull_sweeps: 0,
            rounds: 4,
            round_sweeps: 8,
            shared_rounds: 0,
            shared_sweeps: 0,
            weaves: false,
            spares: 0,
            trims: 0,
            most_cells: MOST_DRAWN,
            steps: u32::MAX,
        }
    }

    /// More starts, and more ways to add rows.
    pub fn full() -> Effort {
        Effort {
            sweeps: 24,
            matches: true,
            plants: true,
            lazy_rounds: 40,
            line_rounds: 300,
            smooth_sweeps: 50,
            pulls: 30,
            pull_sweeps: 8,
            rounds: 4,
            round_sweeps: 24,
            shared_rounds: 10,
            shared_sweeps: 24,
            weaves: true,
            spares: 3,
            trims: 12,
            most_cells: MOST_DRAWN,
            steps: 3_000,
        }
    }

    /// So many hundredths of the cells that a chip of use may have; none are too many where wires may move few slots.
    pub fn hundredths(&self, move_limit: u32, hundredths: u64) -> u64 {
        if move_limit < SHORT_LIMIT {
            u64::MAX
        } else {
            self.most_cells.saturating_mul(hundredths) / 100
        }
    }
}

/// How many times a cell may still be settled.
#[derive(Clone, Copy)]
pub struct Steps {
    left: u64,
}

impl Steps {
    /// The steps for a chip of so many cells.
    pub fn new(effort: &Effort, cells: u32) -> Steps {
        let cells = u64::from(cells).saturating_add(MORE_CELLS);
        Steps {
            left: cells.saturating_mul(u64::from(effort.steps)),
        }
    }

    /// Whether some are left for so many cells.
    pub fn are_left(&self, cells: u32) -> bool {
        self.left >= u64::from(cells)
    }

    /// Takes steps for settling so many cells a number of times, or as often as the rest serves; how many times.
    pub fn take(&mut self, cells: u32, sweeps: u32) -> u32 {
        let cells = u64::from(cells.max(1));
        let most = self.left.checked_div(cells).unwrap_or(0);
        let taken = u64::from(sweeps).min(most);
        self.left = self.left.saturating_sub(taken.saturating_mul(cells));
        narrow(taken as usize)
    }
}
