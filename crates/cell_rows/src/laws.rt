// The laws of rows of cells.
ghost use Rattle.std.specs.Prelude.{◌≡◌, ◌+◌, ◌<◌, ◌≤◌, ℕ, false, List, length, slice_index};
ghost use Rattle.cell_netlist.specs.Uses.{CellView, is_name};
ghost use Rattle.cell_rows.specs.Laws.{AreCells, KeepsRows};
ghost use Rattle.cell_rows.specs.Members.{members};

/// No cell stands past the last level, each level up to the last has a cell, and there are at least as many definitions
/// as levels.
pub fn levels_are_rows()
    ensures low { (d : CellView) (levels : List ℕ) (last j : ℕ) → AreCells d levels last → j < length d.net.defs
        → is_name d (d.net.inputs + j) ≡ false → slice_index levels j ≤ last }
    ensures some { (d : CellView) (levels : List ℕ) (last r : ℕ) → AreCells d levels last → r ≤ last
        → 0 < length (members d levels r) }
    ensures few { (d : CellView) (levels : List ℕ) (last : ℕ) → AreCells d levels last
        → last < length d.net.defs }
{}

/// The rows of a netlist of cells are a net in rows, which answers every word as the netlist does.
pub fn rows_of_cells()
    ensures { (d : CellView) (levels : List ℕ) (last : ℕ) → AreCells d levels last → KeepsRows d levels last }
{}
