// The pins by which words enter a chip and answers leave it.
ghost use Rattle.std.specs.Prelude.{◌≡◌, ◌-◌, ◌^◌, ◌<◌, ℕ, IfOk, length, slice_get, count_by, Some};
ghost use Rattle.geom.specs.declared.shapes.Shape.{Shape};
ghost use Rattle.layout_rules.specs.Reports.{ReportsNone};
ghost use Rattle.layout_rules.specs.Rows.{row_count};
ghost use Rattle.layout_rules.specs.Pins.{is_entry, is_exit};
ghost use Rattle.layout_rules.specs.CircuitRules.{CellsBroken};
ghost use Rattle.shape_extract.specs.Code.RowFaults.{ArePinRows};
ghost use Rattle.shape_extract.specs.Code.Ports.{port_by, enters, leaves, crosses, port_of, ports_of};

use aq_base::Memory;
use geom::Shape;
use layout_rules::layers::{INPUT_PIN, OUTPUT_PIN};
use std::alloc::Global;

/// What a shape is to the outside of a chip.
#[derive(Clone, Copy, PartialEq, Eq)]
pub enum Port {
    /// An input pin of the lowest row.
    Entry,
    /// An output pin of the last row.
    Exit,
    /// Any other shape.
    Inner,
}

impl Port {
    fn enters(self) -> bool
        ensures { result ≡ enters self }
    {
        matches!(self, Port::Entry)
    }

    fn leaves(self) -> bool
        ensures { result ≡ leaves self }
    {
        matches!(self, Port::Exit)
    }

    /// Whether the shape is a port.
    pub fn crosses(self) -> bool
        ensures { result ≡ crosses self }
    {
        self.enters() || self.leaves()
    }
}

fn is_entry(shapes: &[Shape], rows: &[usize], p: u32) -> bool
    requires rows { ArePinRows shapes.now rows.now }
    requires kept { ReportsNone (CellsBroken shapes.now) }
    requires within { p < length shapes.now }
    ensures { (s : Shape) → slice_get shapes.now p ≡ Some s → result ≡ is_entry shapes.now s }
{
    let shape = &shapes[p as usize];
    shape.layer == INPUT_PIN && rows[p as usize] == 0
}

fn is_exit(shapes: &[Shape], rows: &[usize], last: usize, p: u32) -> bool
    requires rows { ArePinRows shapes.now rows.now }
    requires kept { ReportsNone (CellsBroken shapes.now) }
    requires last { last ≡ row_count shapes.now - 1 }
    requires within { p < length shapes.now }
    ensures { (s : Shape) → slice_get shapes.now p ≡ Some s → result ≡ is_exit shapes.now s }
{
    let shape = &shapes[p as usize];
    shape.layer == OUTPUT_PIN && rows[p as usize] == last
}

fn port_by(enters: bool, leaves: bool) -> Port
    ensures { result ≡ port_by enters leaves }
{
    if enters {
        Port::Entry
    } else if leaves {
        Port::Exit
    } else {
        Port::Inner
    }
}

/// What the shape of this number is to the outside.
fn port_at(shapes: &[Shape], rows: &[usize], last: usize, p: u32) -> Port
    requires rows { ArePinRows shapes.now rows.now }
    requires kept { ReportsNone (CellsBroken shapes.now) }
    requires last { last ≡ row_count shapes.now - 1 }
    requires within { p < length shapes.now }
    ensures { (s : Shape) → slice_get shapes.now p ≡ Some s → result ≡ port_of shapes.now s }
{
    port_by(is_entry(shapes, rows, p), is_exit(shapes, rows, last, p))
}

/// What each shape is to the outside, `last` being the number of the last row. It is refused for want of memory alone.
pub fn ports(
    alloc: Global,
    shapes: &[Shape],
    rows: &[usize],
    last: usize,
) -> Result<Vec<Port>, Memory>
    requires few { length shapes.now < 2 ^ 32 }
    requires rows { ArePinRows shapes.now rows.now }
    requires kept { ReportsNone (CellsBroken shapes.now) }
    requires last { last ≡ row_count shapes.now - 1 }
    ensures { IfOk result (λ ports. ports.items ≡ ports_of shapes.now) }
{
    let mut ports = Vec::new(alloc);
    for p in 0..shapes.len() as u32 {
        ports.push(port_at(shapes, rows, last, p))?;
    }
    Ok(ports)
}

/// How many pins a word enters by.
pub fn count_entries(ports: &[Port]) -> usize
    ensures { result ≡ count_by enters ports.now }
{
    ports.iter().filter(|port| port.enters()).count()
}

/// How many pins an answer leaves by.
pub fn count_exits(ports: &[Port]) -> usize
    ensures { result ≡ count_by leaves ports.now }
{
    ports.iter().filter(|port| port.leaves()).count()
}
