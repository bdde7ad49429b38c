// The seven kinds of cells.
ghost use Rattle.std.specs.Prelude.{◌≡◌};

/// The kinds of cells of an adiabatic quantum-flux-parametron chip.
#[derive(Clone, Copy, Debug, PartialEq, Eq)]
pub enum CellKind {
    /// Keeps its input.
    Buffer,
    /// Negates its input.
    Inverter,
    /// Gives false.
    Zero,
    /// Gives true.
    One,
    /// Gives its input twice.
    Split2,
    /// Gives its input three times.
    Split3,
    /// Gives the value that at least two of its three inputs have.
    Majority,
}

impl CellKind {
    ghost use Rattle.circuit.specs.CellKinds.{number_of, inputs_of, outputs_of, slots_of};
    ghost use Rattle.circuit.specs.Function.{value_of};

    /// The kind's number, from 1 to 7: the datatype of its frame in a layout.
    pub fn number(self) -> u16
        ensures { result ≡ number_of self }
    {
        match self {
            CellKind::Buffer => 1,
            CellKind::Inverter => 2,
            CellKind::Zero => 3,
            CellKind::One => 4,
            CellKind::Split2 => 5,
            CellKind::Split3 => 6,
            CellKind::Majority => 7,
        }
    }

    /// How many inputs a cell of the kind has.
    pub fn inputs(self) -> u32
        ensures { result ≡ inputs_of self }
    {
        match self {
            CellKind::Zero | CellKind::One => 0,
            CellKind::Buffer | CellKind::Inverter | CellKind::Split2 | CellKind::Split3 => 1,
            CellKind::Majority => 3,
        }
    }

    /// How many outputs a cell of the kind has.
    pub fn outputs(self) -> u32
        ensures { result ≡ outputs_of self }
    {
        match self {
            CellKind::Split2 => 2,
            CellKind::Split3 => 3,
            CellKind::Buffer
            | CellKind::Inverter
            | CellKind::Zero
            | CellKind::One
            | CellKind::Majority => 1,
        }
    }

    /// How many slots of a row a cell of the kind takes.
    pub fn slots(self) -> u32
        ensures { result ≡ slots_of self }
    {
        match self {
            CellKind::Buffer | CellKind::Inverter | CellKind::Zero | CellKind::One => 1,
            CellKind::Split2 => 2,
            CellKind::Split3 | CellKind::Majority => 3,
        }
    }

    /// The value of a cell of the kind whose inputs 0, 1 and 2 have these values. An input that the kind lacks is not
    /// read.
    pub fn value(self, a: bool, b: bool, c: bool) -> bool
        ensures { result ≡ value_of self a b c }
    {
        match self {
            CellKind::Buffer | CellKind::Split2 | CellKind::Split3 => a,
            CellKind::Inverter => !a,
            CellKind::Zero => false,
            CellKind::One => true,
            CellKind::Majority => (a && b) || (a && c) || (b && c),
        }
    }
}
