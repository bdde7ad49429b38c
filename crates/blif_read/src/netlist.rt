// Netlists and faults.
ghost use Rattle.std.specs.Prelude.{◌≡◌, ◌<◌, ◌^◌, ℕ, List, length, Some, None, slice_get, IfOk};

use crate::build::Parts;
use crate::names::Names;
use crate::values::{shown, values};
use aq_base::{List, Memory};
use circuit::{Answers, Word};
use short_bytes::ShortBytes;
use std::alloc::Global;
use std::marker::Model;

/// What is wrong with a line, or with a text that has no faulty line. Numbers of lines count from 1.
#[derive(Clone, Copy, Debug, PartialEq, Eq)]
pub enum LineKind {
    /// A control byte, or `.names` without a signal.
    Token,
    /// A statement that is not read, or any line but a first `.model` after `.end`.
    Unsupported,
    /// A second `.model`.
    SecondModel,
    /// A row of a cover with a wrong number of tokens, or a plane that does not fit.
    RowShape,
    /// A row of a cover whose value is none, or not that of the first row.
    RowValue,
    /// A row of a cover that follows no definition.
    RowAlone,
    /// A name that becomes an input or is defined, and was one of these before.
    Duplicate,
    /// A name that is used, and is neither an input nor defined.
    Undefined,
    /// No output; the line is 0.
    NoOutputs,
}

/// The first fault of a text.
#[derive(Clone, Debug, Drop, PartialEq)]
pub enum BlifFault {
    /// A fault of a line.
    Line {
        line: u64,
        kind: LineKind,
    },
    /// Signals that are each computed from the next, and the last from the first, with the line that defines the first.
    Cycle {
        line: u64,
        signals: List<ShortBytes>,
    },
}

/// Why a text gives no netlist.
#[derive(Debug, Drop, PartialEq)]
pub enum BlifRefusal {
    /// The text's first fault.
    Bad(BlifFault),
    /// Want of memory.
    Memory,
}

/// A row of a cover: a byte `0`, `1` or `-` for each input of its definition.
#[derive(Clone, Drop, PartialEq)]
pub struct Cube {
    pub plane: ShortBytes,
}

/// The definition of a signal, from its line. Where `on` is set, the signal is true where a plane matches; else false
/// there.
#[derive(Clone, Drop, PartialEq)]
pub struct Def {
    pub line: u64,
    pub inputs: List<u32>,
    pub on: bool,
    pub cubes: List<Cube>,
}

/// A netlist. Signals are numbered: first the inputs, and then the defined ones, by definition. Its names differ,
/// its planes fit their definitions, it has no cycle and some output, and all that it holds is fewer than 2^28.
#[derive(Drop)]
pub struct Netlist {
    inputs: u32,
    names: Names,
    defs: List<Def>,
    outputs: List<u32>,

    /// The defined signals, each after those that it reads.
    order: List<u32>,
}

impl Model for Netlist {
    ghost use Rattle.std.specs.Prelude.{◌<◌, ◌^◌};
    ghost use Rattle.blif_read.specs.Parts.{NetView};

    ghost Value = { NetView };

    ghost use Rattle.blif_read.specs.Netlist.{IsNetlist};
    ghost use Rattle.blif_read.specs.Walked.{IsOrder};

    ghost view = { λ n. record { inputs = n.inputs; names = n.names.keys; defs = n.defs; outputs = n.outputs } };

    ghost invariant = { λ n. IsNetlist
        (record { inputs = n.inputs; names = n.names.keys; defs = n.defs; outputs = n.outputs })
        × IsOrder n.inputs n.defs n.order };
}

ghost use Rattle.blif_read.specs.Netlist.{IsNetlist};

impl From<Memory> for BlifRefusal {
    ghost use Rattle.blif_read.specs.declared.netlist.BlifRefusal.TheVariants.{Memory as NoMemory};

    ghost from_gives = { λ _ refusal. refusal ≡ NoMemory };

    fn from(_: Memory) -> Self {
        BlifRefusal::Memory
    }
}

impl Netlist {
    ghost use Rattle.blif_read.specs.Walked.{IsOrder};

    /// The netlist of these parts, with an order in which each signal stands after those that it is computed from.
    pub(crate) fn new(inputs: u32, names: Names, parts: Parts, order: Vec<u32>) -> Self
        requires facts { IsNetlist
            (record { inputs = inputs; names = names.keys; defs = parts.defs; outputs = parts.outputs }) }
        requires order { IsOrder inputs parts.defs order.items }
        ensures { result
            ≡ record { inputs = inputs; names = names.keys; defs = parts.defs; outputs = parts.outputs } }
    {
        Netlist {
            inputs,
            names,
            defs: parts.defs,
            outputs: parts.outputs,
            order: List::from_vec(order),
        }
    }

    /// The netlist keeps its facts.
    pub fn known(&self)
        ensures { IsNetlist self.now }
    {
        let _inputs = &self.inputs;
    }

    /// How many signals there are.
    pub fn name_count(&self) -> u32
        ensures { result ≡ length self.now.names }
    {
        self.inputs + self.defs.len() as u32
    }

    /// The name of a signal.
    pub fn name(&self, signal: u32) -> &ShortBytes
        requires { signal < length self.now.names }
        ensures { slice_get self.now.names signal ≡ Some result.now }
    {
        self.names.get_index(signal as usize).unwrap()
    }

    /// The definitions of the signals past the inputs.
    pub fn defs(&self) -> &List<Def>
        ensures { result.now ≡ self.now.defs }
    {
        &self.defs
    }

    /// The signals of the outputs.
    pub fn outputs(&self) -> &List<u32>
        ensures { result.now ≡ self.now.outputs }
    {
        &self.outputs
    }
}

impl Answers for Netlist {
    ghost use Rattle.std.specs.Prelude.{length};
    ghost use Rattle.blif_read.specs.Equations.{IsAnswer};

    ghost inputs = { λ n. n.inputs };

    ghost outputs = { λ n. length n.outputs };

    ghost meaning = { IsAnswer };

    #[tactic(auto, using(crate::proofs::OneAnswer::netlist_once))]
    fn input_count(&self) -> u32 {
        self.inputs
    }

    fn output_count(&self) -> u32 {
        self.outputs.len() as u32
    }

    fn answer(&self, alloc: Global, word: &Word) -> Result<Word, Memory> {
        let defs = self.defs.as_slice();
        let values = values(
            alloc,
            self.inputs,
            defs,
            self.order.as_slice(),
            word.as_slice(),
        )?;
        shown(alloc, self.outputs.as_slice(), &values)
    }
}
