// A netlist beside its table.
ghost use Rattle.std.specs.Prelude.{◌≡◌, ◌+◌, ◌<◌, length};
ghost use Rattle.cell_netlist.specs.Levels.{shown_by};
ghost use Rattle.cell_netlist.specs.Uses.{uses, is_name};
ghost use Rattle.cell_netlist.specs.Code.Tabled.{view_of, IsTabled};

use crate::counts::CellTable;
use crate::judge::uses_of;
use crate::names::is_name;
use crate::outputs::shown_by;
use blif_read::Netlist;

/// A netlist with its table, and whether splitters may have three outputs.
#[derive(Clone, Copy)]
pub(crate) struct TabledNet<'a> {
    pub net: &'a Netlist,
    pub table: &'a CellTable,
    pub three: bool,
}

impl TabledNet<'_> {
    /// Whether a signal is a name.
    pub(crate) fn is_name(&self, signal: u32) -> bool
        requires table { IsTabled self.now }
        requires signal { signal < self.now.net.now.inputs + length self.now.net.now.defs }
        ensures { result ≡ is_name (view_of self.now) signal }
    {
        is_name(self.net, self.table, signal)
    }

    /// How many uses a signal has.
    pub(crate) fn uses_of(&self, signal: u32) -> u32
        requires table { IsTabled self.now }
        requires signal { signal < self.now.net.now.inputs + length self.now.net.now.defs }
        ensures { result ≡ uses (view_of self.now) signal }
    {
        uses_of(self.net, self.table, self.three, signal)
    }

    /// The buffer that an output is a name of.
    pub(crate) fn shown_by(&self, signal: u32) -> u32
        requires table { IsTabled self.now }
        requires signal { signal < self.now.net.now.inputs + length self.now.net.now.defs }
        ensures is { result ≡ shown_by (view_of self.now) signal }
        ensures within { result < self.now.net.now.inputs + length self.now.net.now.defs }
    {
        shown_by(self.net, self.table, self.three, signal)
    }
}
