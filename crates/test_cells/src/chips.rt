// Chips of netlists of cells, with the library that is bundled; cells are counted by hand.
ghost use Rattle.std.specs.Prelude.{◌≤◌, ◌^◌, length};

use blif_read::{Netlist, blif_read};
use cell_library::{Library, library_a};
use plan_draw::{CellPlanRefusal, draw_cells, plan_cells};
use rowed::Placed;
use std::alloc::{AllocError, Global};
use std::test::Fail;

/// Adds the number of cells in each row.
fn add_rows(alloc: Global, told: &mut String, chip: &Placed) -> Result<(), AllocError> {
    for row in chip.net.rows.as_slice() {
        let cells = row.as_slice().len();
        let cells = format!(in alloc; "{cells} ")?;
        told.push_str(cells.as_str())?;
    }
    Ok(())
}

/// Adds the same of a netlist's chip, the packed one or the one that is drawn, or the line of its first fault; nothing
/// where it is refused otherwise.
fn add_chip(
    alloc: Global,
    told: &mut String,
    library: &Library,
    net: &Netlist,
    is_drawn: bool,
) -> Result<(), AllocError> {
    let answer = if is_drawn {
        draw_cells(alloc, library, net)
    } else {
        plan_cells(alloc, library, net)
    };
    match answer {
        Ok(chip) => add_rows(alloc, told, &chip),
        Err(CellPlanRefusal::NotCells { line, .. }) => {
            let line = format!(in alloc; "line {line}")?;
            told.push_str(line.as_str())
        }
        Err(_) => Ok(()),
    }
}

/// What becomes of the netlist that a text says.
fn chip_of(
    alloc: Global,
    library: &Library,
    text: &[u8],
    is_drawn: bool,
) -> Result<String, AllocError>
    requires { length text.now ≤ 2 ^ 28 }
{
    let mut told = String::new(alloc);
    if let Ok(net) = blif_read(alloc, text) {
        add_chip(alloc, &mut told, library, &net, is_drawn)?;
    }
    Ok(told)
}

#[test]
fn chips_of_cells(rt: HostRuntime) -> Result<(), Fail> {
    let Ok(library) = library_a(rt.alloc()) else {
        return Err("no library".into());
    };
    let texts = [
        // an input, inverted, and shown twice
        (
            ".inputs a\n.outputs x y\n.names a m\n1 1\n.names m i\n0 1\n.names i s\n1 1\n.names s p\n1 1\n.names s q\n1 1\n.names p x\n1 1\n.names q y\n1 1\n",
            "1 1 1 2 ",
            "1 1 1 2 ",
        ),
        // an and is none of cells
        (
            ".inputs a b\n.outputs y\n.names a b y\n11 1\n",
            "line 3",
            "line 3",
        ),
        // fifteen wires that turn round, of which the outer two are a slot too long: two rows of repeaters, and none
        // where the cells of a row stand the other way round
        (
            ".inputs a b c d e f g h i j k l m n o\n.outputs A B C D E F G H I J K L M N O\n.names a a0\n1 1\n.names b b0\n1 1\n.names c c0\n1 1\n.names d d0\n1 1\n.names e e0\n1 1\n.names f f0\n1 1\n.names g g0\n1 1\n.names h h0\n1 1\n.names i i0\n1 1\n.names j j0\n1 1\n.names k k0\n1 1\n.names l l0\n1 1\n.names m m0\n1 1\n.names n n0\n1 1\n.names o o0\n1 1\n.names o0 o1\n1 1\n.names n0 n1\n1 1\n.names m0 m1\n1 1\n.names l0 l1\n1 1\n.names k0 k1\n1 1\n.names j0 j1\n1 1\n.names i0 i1\n1 1\n.names h0 h1\n1 1\n.names g0 g1\n1 1\n.names f0 f1\n1 1\n.names e0 e1\n1 1\n.names d0 d1\n1 1\n.names c0 c1\n1 1\n.names b0 b1\n1 1\n.names a0 a1\n1 1\n.names a1 A\n1 1\n.names b1 B\n1 1\n.names c1 C\n1 1\n.names d1 D\n1 1\n.names e1 E\n1 1\n.names f1 F\n1 1\n.names g1 G\n1 1\n.names h1 H\n1 1\n.names i1 I\n1 1\n.names j1 J\n1 1\n.names k1 K\n1 1\n.names l1 L\n1 1\n.names m1 M\n1 1\n.names n1 N\n1 1\n.names o1 O\n1 1\n",
            "15 15 15 15 ",
            "15 15 ",
        ),
    ];
    for (text, packed, drawn) in texts {
        let text = text.as_bytes();
        assert!(rt; text.len() < 1000);
        let told = chip_of(rt.alloc(), &library, text, false)?;
        assert_eq!(rt; told.as_str(), packed);
        let told = chip_of(rt.alloc(), &library, text, true)?;
        assert_eq!(rt; told.as_str(), drawn);
    }
    Ok(())
}
