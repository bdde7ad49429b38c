// Rows of a netlist of cells, packed by hand.
ghost use Rattle.std.specs.Prelude.{◌≤◌, ◌^◌, length};

use blif_read::{Netlist, blif_read};
use cell_netlist::cell_levels;
use cell_rows::cell_rows;
use plan_draw::pack_net;
use row_place::PlaceRefusal;
use rowed::{Placed, RowNet};
use std::alloc::{AllocError, Global};
use std::test::Fail;

/// Adds the slots of each row.
fn add_slots(alloc: Global, told: &mut String, placed: &Placed) -> Result<(), AllocError> {
    for row in placed.slots.as_slice() {
        for slot in row.as_slice() {
            let slot = format!(in alloc; "{slot} ")?;
            told.push_str(slot.as_str())?;
        }
        told.push_str("/ ")?;
    }
    Ok(())
}

/// Adds the slots of a net's cells, or the greatest span where that is too wide; nothing where memory is short.
fn add_packed(
    alloc: Global,
    told: &mut String,
    net: RowNet,
    slot_width: u64,
) -> Result<(), AllocError>
    requires { 1 ≤ slot_width }
{
    match pack_net(alloc, net, slot_width) {
        Ok(placed) => add_slots(alloc, told, &placed),
        Err(PlaceRefusal::TooWide { span }) => {
            let span = format!(in alloc; "span {span}")?;
            told.push_str(span.as_str())
        }
        Err(PlaceRefusal::Memory) => Ok(()),
    }
}

/// Adds the same of a netlist of cells; nothing where it is none.
fn add_netlist(
    alloc: Global,
    told: &mut String,
    net: &Netlist,
    slot_width: u64,
) -> Result<(), AllocError>
    requires { 1 ≤ slot_width }
{
    let Ok(cells) = cell_levels(alloc, net, true) else {
        return Ok(());
    };
    let Ok(rows) = cell_rows(alloc, net, true, &cells) else {
        return Ok(());
    };
    add_packed(alloc, told, rows, slot_width)
}

/// What becomes of the netlist that a text says, with slots of this width in nanometres.
fn packs_of(alloc: Global, text: &[u8], slot_width: u64) -> Result<String, AllocError>
    requires few { length text.now ≤ 2 ^ 28 }
    requires width { 1 ≤ slot_width }
{
    let mut told = String::new(alloc);
    if let Ok(net) = blif_read(alloc, text) {
        add_netlist(alloc, &mut told, &net, slot_width)?;
    }
    Ok(told)
}

#[test]
fn behind_a_splitter(rt: HostRuntime) -> Result<(), Fail> {
    // the first row has two cells, the next a splitter of two and a buffer behind it, the last three buffers
    let text =
        b".inputs a b\n.outputs x y z\n.names a m\n1 1\n.names b n\n1 1\n.names m s\n1 1\n.names n t\n1 1\n.names s p\n1 1\n.names s q\n1 1\n.names t u\n1 1\n.names p x\n1 1\n.names q y\n1 1\n.names u z\n1 1\n";
    assert!(rt; text.len() < 300);
    let narrow = packs_of(rt.alloc(), text, 666_666_666)?;
    assert_eq!(rt; narrow.as_str(), "0 1 / 0 2 / 0 1 2 / ");
    // three slots of this width pass the limit of 2,000,000,000 nanometres
    let wide = packs_of(rt.alloc(), text, 666_666_667)?;
    assert_eq!(rt; wide.as_str(), "span 3");
    Ok(())
}
