// Lines of a netlist, put on a page.
ghost use Rattle.std.specs.Prelude.{◌≡◌, ◌++◌, ◌∷◌, ℕ, List, OnOk};
ghost use Rattle.std.specs.Fmt.{decimal};
ghost use Rattle.std.specs.List.{flat_map};
ghost use Rattle.blif_flat.specs.BlifText.{feed_names, rows_of, cell_lines, output_lines, spaced, line_text};

use aq_base::Memory;
use circuit::CellKind;
use circuit_extracted::{ExCell, Feed};
use rowed::Source;
use std::alloc::Global;

/// The letters that names begin with: of inputs, of cells and of outputs.
pub const INPUT: u8 = b'I';

pub const CELL: u8 = b'n';

pub const OUTPUT: u8 = b'O';

/// Adds bytes to a page.
pub fn add_text(text: &[u8], page: &mut Vec<u8>) -> Result<(), Memory>
    ensures { OnOk result (page.new.items ≡ page.old.items ++ text.now) }
{
    page.extend_from_slice(text)?;
    Ok(())
}

/// Adds a blank and a name, which is a letter and a number.
#[tactic(auto, using(std::proofs::Common::append_assoc))]
pub fn add_name(alloc: Global, letter: u8, number: u32, page: &mut Vec<u8>) -> Result<(), Memory>
    ensures { OnOk result (page.new.items ≡ page.old.items ++ 32 ∷ letter ∷ decimal number) }
{
    page.push(b' ')?;
    page.push(letter)?;
    page.extend_from_slice(format!(in alloc; "{number}")?.as_bytes())?;
    Ok(())
}

fn add_feed(alloc: Global, feed: Feed, page: &mut Vec<u8>) -> Result<(), Memory>
    ensures { OnOk result (page.new.items ≡ page.old.items ++ spaced (feed_names feed)) }
{
    match feed {
        Feed::Nothing => Ok(()),
        Feed::Pin { cell, output: _ } => add_name(alloc, CELL, cell, page),
        Feed::Label(number) => add_name(alloc, INPUT, number, page),
    }
}

/// The rows of a cell.
fn rows_of(kind: CellKind) -> &'static [u8]
    ensures { result.now ≡ flat_map line_text (rows_of kind) }
{
    match kind {
        CellKind::Buffer | CellKind::Split2 | CellKind::Split3 => b"1 1\n",
        CellKind::Inverter => b"0 1\n",
        CellKind::Zero => b"",
        CellKind::One => b"1\n",
        CellKind::Majority => b"11- 1\n1-1 1\n-11 1\n",
    }
}

/// What is written as lines of its own, by its number.
pub trait Written {
    /// The lines.
    ghost lines: { ℕ → Self → List (List (List ℕ)) };

    /// Adds them to a page.
    fn add(&self, alloc: Global, number: u32, page: &mut Vec<u8>) -> Result<(), Memory>
        ensures { OnOk result (page.new.items ≡ page.old.items ++ flat_map line_text (lines number self.now)) };
}

impl Written for ExCell {
    ghost lines = { cell_lines };

    #[tactic(auto, using(std::proofs::Common::append_assoc, crate::proofs::LineTexts::cell_text))]
    fn add(&self, alloc: Global, number: u32, page: &mut Vec<u8>) -> Result<(), Memory> {
        page.extend_from_slice(b".names")?;
        add_feed(alloc, self.feed0, page)?;
        add_feed(alloc, self.feed1, page)?;
        add_feed(alloc, self.feed2, page)?;
        add_name(alloc, CELL, number, page)?;
        page.push(b'\n')?;
        page.extend_from_slice(rows_of(self.kind))?;
        Ok(())
    }
}

/// An output shows a cell.
impl Written for Source {
    ghost lines = { output_lines };

    #[tactic(auto, using(std::proofs::Common::append_assoc))]
    fn add(&self, alloc: Global, number: u32, page: &mut Vec<u8>) -> Result<(), Memory> {
        page.extend_from_slice(b".names")?;
        add_name(alloc, CELL, self.cell, page)?;
        add_name(alloc, OUTPUT, number, page)?;
        page.extend_from_slice(b"\n1 1\n")?;
        Ok(())
    }
}
