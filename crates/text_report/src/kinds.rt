// Cells by kind, and their junctions.
ghost use Rattle.std.specs.Prelude.{◌≡◌, ◌<◌, ◌^◌, ◌==◌, length};
ghost use Rattle.circuit.specs.CellKinds.{number_of};
ghost use Rattle.text_report.specs.Kinds.{count_of, kinds_of, junctions_of, junction_count};

use circuit::CellKind;
use circuit_extracted::ExCell;

/// How many cells of each kind a circuit has.
#[derive(Clone, Copy, PartialEq, Eq)]
pub struct Kinds {
    pub buffers: u64,
    pub inverters: u64,
    /// Cells that give false.
    pub zeros: u64,
    /// Cells that give true.
    pub ones: u64,
    pub splitters_of_two: u64,
    pub splitters_of_three: u64,
    pub majorities: u64,
}

fn is_of_kind(cell: &ExCell, kind: CellKind) -> bool
    ensures { result ≡ (number_of cell.now.kind == number_of kind) }
{
    cell.kind.number() == kind.number()
}

fn count_of(cells: &[ExCell], kind: CellKind) -> u64
    ensures { result ≡ count_of kind cells.now }
{
    let mut count = 0;
    for cell in cells {
        if is_of_kind(cell, kind) {
            count += 1;
        }
    }
    count
}

/// How many of the cells are of each kind.
#[tactic(auto, unfolding(crate::specs::Kinds::kinds_of))]
pub fn count_kinds(cells: &[ExCell]) -> Kinds
    ensures { result ≡ kinds_of cells.now }
{
    Kinds {
        buffers: count_of(cells, CellKind::Buffer),
        inverters: count_of(cells, CellKind::Inverter),
        zeros: count_of(cells, CellKind::Zero),
        ones: count_of(cells, CellKind::One),
        splitters_of_two: count_of(cells, CellKind::Split2),
        splitters_of_three: count_of(cells, CellKind::Split3),
        majorities: count_of(cells, CellKind::Majority),
    }
}

fn junctions_of(kind: CellKind) -> u64
    ensures value { result ≡ junctions_of kind }
    ensures few { result < 7 }
{
    match kind {
        CellKind::Buffer => 2,
        CellKind::Inverter => 2,
        CellKind::Zero => 2,
        CellKind::One => 2,
        CellKind::Split2 => 2,
        CellKind::Split3 => 2,
        CellKind::Majority => 6,
    }
}

/// The Josephson junctions of the cells together.
pub fn count_junctions(cells: &[ExCell]) -> u64
    requires { length cells.now < 2 ^ 32 }
    ensures { result ≡ junction_count cells.now }
{
    let mut junctions = 0;
    for cell in cells {
        junctions += junctions_of(cell.kind);
    }
    junctions
}
