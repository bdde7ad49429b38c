// What a command may answer in place of doing its work.
ghost use Rattle.std.specs.Prelude.{◌≡◌, Some};

use blif_flat::FlatKind;
use blif_read::BlifFault;
use cell_library::LibraryFault;
use cell_netlist::CellFault;
use circuit::CellKind;
use gds_records::StreamKind;
use layout_rules::Rule;

/// The call that a store or a sink refused.
#[derive(Clone, Copy, Debug, PartialEq, Eq)]
pub enum WriteCall {
    /// Making the file.
    Create,
    /// Writing to the file.
    Append,
    /// Closing the file.
    Close,
    /// Printing to `out`.
    Out,
}

/// The thing of which there are too many.
#[derive(Clone, Copy, Debug, PartialEq, Eq)]
pub enum Large {
    /// The slots of the widest row, whose width passes 2,000,000,000 nanometres.
    Slots,
    /// The rows, which with full channels pass a height of 2,147,483,647 nanometres.
    Rows,
    /// The cells, of which there are more than 2,000,000 before repeaters, or with them.
    Cells,
    /// The elements of the top structure of a layout, of which there are more than 2,000,000.
    Elements,
    /// The shapes and labels of a layout's flat form, of which there are more than 8,000,000.
    Shapes,
    /// The subfunctions of two circuits that are compared, of which there are more than 1,000,000.
    Functions,
    /// What an expanded design holds, of which there is more than 16,777,216.
    Design,
}

/// Why a command did not do its work. A `word` is a place among the words, counted from 0.
#[derive(Debug, Drop)]
pub enum Fault {
    /// The words have none of the forms.
    Usage,
    /// No file has the name that stands at this place.
    Absent {
        word: u32,
    },
    /// The file is longer than its limit; so many bytes of it were seen.
    TooLong {
        word: u32,
        taken: u64,
    },
    /// The file could not be read.
    ReadFault {
        word: u32,
    },
    /// The store or `out` refused to write.
    WriteFault {
        call: WriteCall,
    },
    /// The netlist's text says no netlist.
    BadBlif {
        fault: BlifFault,
    },
    /// The models and calls of the netlist's text have a fault in this line, counted from 1.
    BadDesign {
        line: u64,
        kind: FlatKind,
    },
    /// The library's text says no library.
    BadLibrary {
        fault: LibraryFault,
    },
    /// The library lacks a kind of cell that each library has.
    MissingCell {
        kind: CellKind,
    },
    /// There are more than the limit of the thing: so many.
    TooLarge {
        what: Large,
        count: u64,
    },
    /// The layout's bytes are no stream: the first fault, and its place among the bytes, counted from 0.
    BadStream {
        offset: u64,
        kind: StreamKind,
    },
    /// The shapes break a rule: the first that is broken, and the numbers of shapes that it reports.
    RuleBroken {
        rule: Rule,
        first: u32,
        second: u32,
    },
    /// The line of this number, counted from 1, is no word for the circuit.
    BadWords {
        line: u64,
    },
    /// The chip and the netlist have not as many inputs, or not as many outputs: so many each.
    Widths {
        chip_inputs: u32,
        chip_outputs: u32,
        net_inputs: u32,
        net_outputs: u32,
    },
    /// There are so many shapes and labels, and none has this number, counted from 0.
    NoShape {
        number: u64,
        count: u64,
    },
    /// The netlist is none of cells: the first fault, with the line of its definition, counted from 1; 0 where it is
    /// none of a definition.
    NotCells {
        line: u64,
        kind: CellFault,
    },
    /// Want of memory.
    Memory,
}

impl Fault {
    ghost use Rattle.aqfp_top.specs.Statuses.{status_of};

    /// The status that the program ends with.
    pub fn status(&self) -> u8
        ensures { result ≡ status_of (Some self.now) }
    {
        match self {
            Fault::Usage => 1,
            Fault::Absent { .. } => 2,
            Fault::TooLong { .. } => 3,
            Fault::ReadFault { .. } => 4,
            Fault::WriteFault { .. } => 5,
            Fault::BadBlif { .. } => 6,
            Fault::BadLibrary { .. } => 7,
            Fault::MissingCell { .. } => 8,
            Fault::TooLarge { .. } => 10,
            Fault::BadStream { .. } => 11,
            Fault::RuleBroken { .. } => 12,
            Fault::BadWords { .. } => 13,
            Fault::Memory => 14,
            Fault::BadDesign { .. } => 16,
            Fault::Widths { .. } => 17,
            Fault::NoShape { .. } => 18,
            Fault::NotCells { .. } => 19,
        }
    }
}
