// The circuit of a layout: cells with their feeds, and the sources that the outputs show.
use crate::cells::ExCell;
use aq_base::List;
use rowed::Source;
use std::marker::Model;

/// The circuit that the shapes of a layout make: its cells by rising row, and within a row from left to right.
#[derive(Clone, Drop, PartialEq)]
pub struct Extracted {
    /// The cells; feeds and outputs name them by their number here.
    pub cells: List<ExCell>,
    /// How many inputs the circuit has.
    pub inputs: u32,
    /// For each output of the circuit the output of a cell that shows it.
    pub outputs: List<Source>,
    /// How many rows the cells stand in.
    pub rows: u32,
    /// How many input pins of cells another cell feeds.
    pub wires: u64,
    /// For each shape of the layout the least number of a shape in its net.
    pub nets: List<u32>,
}

impl Model for Extracted {
    ghost use Rattle.circuit_extracted.specs.Circuits.{CircuitView, KeepsFacts};

    ghost Value = { CircuitView };

    ghost view = { λ c. record {
      cells = c.cells;
      inputs = c.inputs;
      outputs = c.outputs;
      rows = c.rows;
      wires = c.wires;
      nets = c.nets;
    } };

    ghost invariant = { λ c. KeepsFacts (record {
      cells = c.cells;
      inputs = c.inputs;
      outputs = c.outputs;
      rows = c.rows;
      wires = c.wires;
      nets = c.nets;
    }) };

    ghost inverse = { λ v. record {
      cells = v.cells;
      inputs = v.inputs;
      outputs = v.outputs;
      rows = v.rows;
      wires = v.wires;
      nets = v.nets;
    } };
}

impl Extracted {
    ghost use Rattle.circuit_extracted.specs.Circuits.{KeepsFacts};

    /// What every extracted circuit keeps.
    pub fn known(&self)
        ensures { KeepsFacts self.now }
    {
        let _rows = &self.rows;
    }
}
