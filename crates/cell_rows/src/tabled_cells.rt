// A netlist of cells beside what is known of it.
ghost use Rattle.std.specs.Prelude.{◌≡◌, ◌+◌, ◌<◌, length, slice_index};
ghost use Rattle.cell_netlist.specs.Uses.{is_name};
ghost use Rattle.cell_rows.specs.Code.Laying.{view_of, IsTabled};

use blif_read::Netlist;
use cell_netlist::{CellLevels, CellTable, is_name};
use circuit::Answers;

/// A netlist of cells with its table, whether its splitters may have three outputs, and the levels of its cells.
#[derive(Clone, Copy)]
pub(crate) struct TabledCells<'a> {
    pub net: &'a Netlist,
    pub table: &'a CellTable,
    pub three: bool,
    pub levels: &'a CellLevels,
}

impl TabledCells<'_> {
    /// Whether definition `j` is a name.
    pub(crate) fn is_name_at(&self, j: u32) -> bool
        requires table { IsTabled self.now }
        requires j { j < length self.now.net.now.defs }
        ensures { result ≡ is_name (view_of self.now) (self.now.net.now.inputs + j) }
    {
        self.net.known();
        is_name(self.net, self.table, self.net.input_count() + j)
    }

    /// The row of the cell of definition `j`.
    pub(crate) fn row_at(&self, j: u32) -> usize
        ensures { result ≡ slice_index self.now.levels.now.levels j }
    {
        level_at(self.levels.levels.as_slice(), j) as usize
    }
}

/// The level of a definition.
fn level_at(levels: &[u64], j: u32) -> u64
    ensures { result ≡ slice_index levels.now j }
{
    levels.get(j as usize).copied().unwrap_or(0)
}
