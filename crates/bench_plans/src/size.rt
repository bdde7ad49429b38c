// How much a pass or a drawing gave.
ghost use Rattle.std.specs.Prelude.{◌≡◌};

use circuit::PlainNet;
use geom::Layout;
use rowed::{Placed, RowNet};
use std::fmt;

/// Gates, rows of cells, or elements of a drawing.
#[derive(Clone, Copy)]
pub enum Size {
    Gates(usize),
    Rows { rows: usize, cells: usize },
    Elements(usize),
}

impl fmt::Display for Size {
    fn fmt<W: fmt::Write>(&self, f: &mut fmt::Formatter<W>) -> fmt::Result {
        match self {
            Size::Gates(gates) => write!(f, "gates {gates}"),
            Size::Rows { rows, cells } => write!(f, "rows {rows} cells {cells}"),
            Size::Elements(elements) => write!(f, "elements {elements}"),
        }
    }
}

/// What has a size.
pub trait Measured {
    ghost use Rattle.bench_plans.specs.declared.size.Size.{Size};

    ghost size: { Self → Size };

    fn size(&self) -> Size
        ensures { result ≡ size self.now };
}

impl Measured for PlainNet {
    ghost use Rattle.bench_plans.specs.Sizes.{gates_size};

    ghost size = { gates_size };

    fn size(&self) -> Size {
        Size::Gates(self.gates.len())
    }
}

impl Measured for RowNet {
    ghost use Rattle.bench_plans.specs.Sizes.{rows_size};

    ghost size = { rows_size };

    #[tactic(auto, using(crate::proofs::FewCells::few_cells))]
    fn size(&self) -> Size {
        self.known();
        Size::Rows {
            rows: self.rows.len(),
            cells: self.rows.as_slice().iter().map(|row| row.len()).sum(),
        }
    }
}

impl Measured for Placed {
    ghost use Rattle.bench_plans.specs.Sizes.{placed_size};

    ghost size = { placed_size };

    fn size(&self) -> Size {
        self.net.size()
    }
}

impl Measured for Layout {
    ghost use Rattle.bench_plans.specs.Sizes.{layout_size};

    ghost size = { layout_size };

    fn size(&self) -> Size {
        match self.structures.as_slice().get(self.top as usize) {
            Some(top) => Size::Elements(top.elements.len()),
            None => Size::Elements(0),
        }
    }
}
