// Small netlists of cells with their levels, worked by hand, and such as are none with their first fault.
ghost use Rattle.std.specs.Prelude.{◌≤◌, ◌^◌, length};

use blif_read::{Netlist, blif_read};
use cell_netlist::{CellFault, CellsRefusal, cell_levels};
use std::alloc::{AllocError, Global};
use std::test::Fail;

/// The word for a fault.
fn word_of(kind: CellFault) -> &'static str {
    match kind {
        CellFault::Cover => "cover",
        CellFault::Uses => "uses",
        CellFault::Level => "level",
        CellFault::Outputs => "outputs",
    }
}

/// The levels of a netlist's definitions and its last one, or the first fault with its line.
fn told(alloc: Global, net: &Netlist, three: bool) -> Result<String, AllocError> {
    let mut told = String::new(alloc);
    match cell_levels(alloc, net, three) {
        Ok(cells) => {
            for level in cells.levels.as_slice() {
                let level = format!(in alloc; "{level} ")?;
                told.push_str(level.as_str())?;
            }
            let last = format!(in alloc; "to {}", cells.last)?;
            told.push_str(last.as_str())?;
        }
        Err(CellsRefusal::NotCells { line, kind }) => {
            let fault = format!(in alloc; "line {line}: {}", word_of(kind))?;
            told.push_str(fault.as_str())?;
        }
        Err(CellsRefusal::Memory) => {}
    }
    Ok(told)
}

/// What is told of the netlist that a text says; nothing where it says none.
fn told_of(alloc: Global, text: &[u8], three: bool) -> Result<Option<String>, AllocError>
    requires { length text.now ≤ 2 ^ 28 }
{
    match blif_read(alloc, text) {
        Ok(net) => Ok(Some(told(alloc, &net, three)?)),
        Err(_) => Ok(None),
    }
}

#[test]
fn levels_of_cells(rt: HostRuntime) -> Result<(), Fail> {
    let texts = [
        // a splitter for two outputs, and an input whose buffer feeds nothing
        (
            ".inputs a b\n.outputs y z\n.names a m\n1 1\n.names b n\n1 1\n.names m s\n1 1\n.names s p\n1 1\n.names s q\n1 1\n.names p y\n1 1\n.names q z\n1 1\n",
            "0 0 1 2 2 0 0 to 2",
        ),
        // a constant alone, and beside an input
        (
            ".outputs y\n.names k\n1\n.names k b\n1 1\n.names b y\n1 1\n",
            "0 1 0 to 1",
        ),
        (
            ".inputs a\n.outputs x y\n.names a m\n1 1\n.names k\n.names m p\n1 1\n.names k q\n1 1\n.names p x\n1 1\n.names q y\n1 1\n",
            "0 0 1 1 0 0 to 1",
        ),
        // a majority of an inverted input, another one and a constant, whose gates are told by other rows than usual
        (
            ".inputs a b\n.outputs y\n.names a m\n0 0\n.names b n\n1 1\n.names m i\n1 0\n.names n j\n1 1\n.names k\n.names i j k t\n00- 0\n0-0 0\n-00 0\n.names t u\n1 1\n.names u y\n1 1\n",
            "0 0 1 1 1 2 3 0 to 3",
        ),
        // definitions before those that they name
        (
            ".inputs a\n.outputs y\n.names b y\n1 1\n.names m b\n1 1\n.names a m\n1 1\n",
            "0 1 0 to 1",
        ),
        // two parts without inputs, the shallower of which rises
        (
            ".outputs x y\n.names j\n.names j p\n1 1\n.names p x\n1 1\n.names k\n.names k i\n0 1\n.names i q\n1 1\n.names q y\n1 1\n",
            "1 2 0 0 1 2 0 to 2",
        ),
    ];
    for (text, want) in texts {
        let text = text.as_bytes();
        assert!(rt; text.len() < 300);
        match told_of(rt.alloc(), text, true)? {
            Some(told) => assert_eq!(rt; told.as_str(), want),
            None => assert!(rt; false),
        }
    }
    Ok(())
}

#[test]
fn first_faults(rt: HostRuntime) -> Result<(), Fail> {
    let texts = [
        (".inputs a\n.outputs a\n", "line 0: uses"),
        (
            ".inputs a b\n.outputs y\n.names a b y\n11 1\n",
            "line 3: cover",
        ),
        (".inputs a\n.outputs y\n.names a y\n", "line 3: cover"),
        // an inverter that an input feeds, and an input that feeds two buffers
        (
            ".inputs a\n.outputs y\n.names a n\n0 1\n.names n b\n1 1\n.names b y\n1 1\n",
            "line 3: level",
        ),
        (
            ".inputs a\n.outputs y\n.names a m\n1 1\n.names a n\n1 1\n.names m b\n1 1\n.names b y\n1 1\n",
            "line 5: uses",
        ),
        // a splitter that an input feeds
        (
            ".inputs a\n.outputs x y\n.names a s\n1 1\n.names s p\n1 1\n.names s q\n1 1\n.names p x\n1 1\n.names q y\n1 1\n",
            "line 3: level",
        ),
        // an inverter with two uses
        (
            ".outputs x y\n.names k\n.names k n\n0 1\n.names n p\n1 1\n.names n q\n1 1\n.names p x\n1 1\n.names q y\n1 1\n",
            "line 3: uses",
        ),
        // operands on two levels
        (
            ".inputs a b c\n.outputs y\n.names a m\n1 1\n.names b n\n1 1\n.names c o\n1 1\n.names o p\n1 1\n.names m n p t\n11- 1\n1-1 1\n-11 1\n.names t u\n1 1\n.names u y\n1 1\n",
            "line 11: level",
        ),
        // a constant that would stand below the inputs' buffers
        (
            ".inputs a b\n.outputs y\n.names a m\n1 1\n.names b n\n1 1\n.names k\n.names k i\n0 1\n.names m n i t\n11- 1\n1-1 1\n-11 1\n.names t y\n1 1\n",
            "line 10: level",
        ),
        // an output that is the input's buffer by another name, one that is no name, and two names of one buffer
        (
            ".inputs a\n.outputs y\n.names a m\n1 1\n.names m y\n1 1\n",
            "line 0: outputs",
        ),
        (
            ".inputs a\n.outputs y\n.names a y\n1 1\n",
            "line 0: outputs",
        ),
        (
            ".inputs a\n.outputs x y\n.names a m\n1 1\n.names m p\n1 1\n.names p x\n1 1\n.names p y\n1 1\n",
            "line 0: outputs",
        ),
        // outputs on two levels
        (
            ".inputs a b\n.outputs x y\n.names a m\n1 1\n.names b n\n1 1\n.names m p\n1 1\n.names n o\n1 1\n.names o q\n1 1\n.names p x\n1 1\n.names q y\n1 1\n",
            "line 0: outputs",
        ),
    ];
    for (text, want) in texts {
        let text = text.as_bytes();
        assert!(rt; text.len() < 300);
        match told_of(rt.alloc(), text, true)? {
            Some(told) => assert_eq!(rt; told.as_str(), want),
            None => assert!(rt; false),
        }
    }
    Ok(())
}

#[test]
fn splitters_of_three(rt: HostRuntime) -> Result<(), Fail> {
    let text =
        b".inputs a\n.outputs x y z\n.names a m\n1 1\n.names m s\n1 1\n.names s p\n1 1\n.names s q\n1 1\n.names s r\n1 1\n.names p x\n1 1\n.names q y\n1 1\n.names r z\n1 1\n";
    for (three, want) in [(true, "0 1 2 2 2 0 0 0 to 2"), (false, "line 5: uses")] {
        match told_of(rt.alloc(), text, three)? {
            Some(told) => assert_eq!(rt; told.as_str(), want),
            None => assert!(rt; false),
        }
    }
    Ok(())
}
