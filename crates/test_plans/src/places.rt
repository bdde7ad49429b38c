// Nets whose places are worked by hand, and rows that are as wide as may be.
ghost use Rattle.std.specs.Prelude.{◌≡◌, ◌≤◌, ◌∷◌, [], IfOk};
ghost use Rattle.circuit.specs.declared.cell_kind.CellKind.TheVariants as kinds;
ghost use Rattle.rowed.specs.MadeCells.{bare_cell, fed_cell, input_cell, output_cell};
ghost use Rattle.row_place.specs.Examples as examples;

use crate::fixtures::{first, has_row, list, majority, second};
use aq_base::{List, Memory};
use circuit::{CellKind, Pass};
use row_place::{PlacePass, PlaceRefusal, arrange};
use rowed::{Placed, RowCell, RowNet};
use std::alloc::Global;
use std::test::Fail;

// The rows of `a and b`.
fn and_rows(alloc: Global) -> Result<Vec<List<RowCell>>, Memory>
    ensures { IfOk result (λ rows. rows.items ≡ (input_cell 0 ∷ input_cell 1 ∷ bare_cell kinds.Zero ∷ [])
        ∷ (examples.majority 0 2 1 ∷ []) ∷ (output_cell (examples.first 0) 0 ∷ []) ∷ []) }
{
    let inputs = list(
        alloc,
        [
            RowCell::input(0),
            RowCell::input(1),
            RowCell::bare(CellKind::Zero),
        ],
    )?;
    let middle = list(alloc, [majority(0, 2, 1)])?;
    let outputs = list(alloc, [RowCell::output(first(0), 0)])?;
    Ok(Vec::from_array(alloc, [inputs, middle, outputs])?)
}

fn and_net(alloc: Global) -> Result<RowNet, Memory>
    ensures { IfOk result (λ net. net ≡ examples.and_net) }
{
    let rows = and_rows(alloc)?;
    Ok(RowNet {
        inputs: 2,
        outputs: 1,
        rows: List::from_vec(rows),
    })
}

// Two constants of the key of input 0, which input 1 goes past.
fn tied_rows(alloc: Global) -> Result<Vec<List<RowCell>>, Memory>
    ensures { IfOk result (λ rows. rows.items ≡
        (input_cell 0 ∷ input_cell 1 ∷ bare_cell kinds.Zero ∷ bare_cell kinds.One ∷ [])
        ∷ (examples.majority 1 2 3 ∷ fed_cell kinds.Buffer (examples.first 0) ∷ [])
        ∷ (output_cell (examples.first 0) 0 ∷ output_cell (examples.first 1) 1 ∷ []) ∷ []) }
{
    let zero = RowCell::bare(CellKind::Zero);
    let one = RowCell::bare(CellKind::One);
    let inputs = list(alloc, [RowCell::input(0), RowCell::input(1), zero, one])?;
    let buffer = RowCell::fed(CellKind::Buffer, first(0));
    let middle = list(alloc, [majority(1, 2, 3), buffer])?;
    let outputs = list(
        alloc,
        [RowCell::output(first(0), 0), RowCell::output(first(1), 1)],
    )?;
    Ok(Vec::from_array(alloc, [inputs, middle, outputs])?)
}

fn tied_net(alloc: Global) -> Result<RowNet, Memory>
    ensures { IfOk result (λ net. net ≡ examples.tied_net) }
{
    let rows = tied_rows(alloc)?;
    Ok(RowNet {
        inputs: 2,
        outputs: 2,
        rows: List::from_vec(rows),
    })
}

// A splitter and a buffer whose wires cross, and users of the splitter's outputs that cross too.
fn split_rows(alloc: Global) -> Result<Vec<List<RowCell>>, Memory>
    ensures { IfOk result (λ rows. rows.items ≡ (input_cell 0 ∷ input_cell 1 ∷ [])
        ∷ (fed_cell kinds.Split2 (examples.first 1) ∷ fed_cell kinds.Buffer (examples.first 0) ∷ [])
        ∷ (output_cell (examples.second 0) 0 ∷ output_cell (examples.first 0) 1
        ∷ output_cell (examples.first 1) 2 ∷ []) ∷ []) }
{
    let inputs = list(alloc, [RowCell::input(0), RowCell::input(1)])?;
    let splitter = RowCell::fed(CellKind::Split2, first(1));
    let buffer = RowCell::fed(CellKind::Buffer, first(0));
    let middle = list(alloc, [splitter, buffer])?;
    let outputs = list(
        alloc,
        [
            RowCell::output(second(0), 0),
            RowCell::output(first(0), 1),
            RowCell::output(first(1), 2),
        ],
    )?;
    Ok(Vec::from_array(alloc, [inputs, middle, outputs])?)
}

fn split_net(alloc: Global) -> Result<RowNet, Memory>
    ensures { IfOk result (λ net. net ≡ examples.split_net) }
{
    let rows = split_rows(alloc)?;
    Ok(RowNet {
        inputs: 2,
        outputs: 3,
        rows: List::from_vec(rows),
    })
}

// The places for slots of one nanometre.
fn placed(alloc: Global, net: &RowNet) -> Result<Placed, Memory> {
    match (PlacePass { slot_width: 1 }).run(alloc, net) {
        Ok(placed) => Ok(placed),
        Err(_) => Err(Memory),
    }
}

fn and_placed(alloc: Global) -> Result<Placed, Memory> {
    let net = and_net(alloc)?;
    placed(alloc, &net)
}

#[test]
fn constant_goes_between_its_partners(rt: HostRuntime) -> Result<(), Fail> {
    let placed = and_placed(rt.alloc())?;
    let inputs = [
        RowCell::input(0),
        RowCell::bare(CellKind::Zero),
        RowCell::input(1),
    ];
    assert!(rt; has_row(&placed, 0, &inputs, &[0, 1, 2]));
    assert!(rt; has_row(&placed, 1, &[majority(0, 1, 2)], &[0]));
    assert!(rt; has_row(&placed, 2, &[RowCell::output(first(0), 0)], &[0]));
    Ok(())
}

fn tied_placed(alloc: Global) -> Result<Placed, Memory> {
    let net = tied_net(alloc)?;
    placed(alloc, &net)
}

#[test]
fn cells_of_one_key_keep_their_order(rt: HostRuntime) -> Result<(), Fail> {
    let placed = tied_placed(rt.alloc())?;
    let zero = RowCell::bare(CellKind::Zero);
    let one = RowCell::bare(CellKind::One);
    assert!(rt;
        has_row(
            &placed,
            0,
            &[RowCell::input(0), zero, one, RowCell::input(1)],
            &[0, 1, 2, 3]
        )
    );
    let middle = [RowCell::fed(CellKind::Buffer, first(0)), majority(3, 1, 2)];
    assert!(rt; has_row(&placed, 1, &middle, &[0, 1]));
    let outputs = [RowCell::output(first(0), 1), RowCell::output(first(1), 0)];
    assert!(rt; has_row(&placed, 2, &outputs, &[0, 1]));
    Ok(())
}

fn split_placed(alloc: Global) -> Result<Placed, Memory> {
    let net = split_net(alloc)?;
    placed(alloc, &net)
}

#[test]
fn wires_of_splitters_do_not_cross(rt: HostRuntime) -> Result<(), Fail> {
    let placed = split_placed(rt.alloc())?;
    assert!(rt; has_row(&placed, 0, &[RowCell::input(0), RowCell::input(1)], &[0, 1]));
    let middle = [
        RowCell::fed(CellKind::Buffer, first(0)),
        RowCell::fed(CellKind::Split2, first(1)),
    ];
    assert!(rt; has_row(&placed, 1, &middle, &[0, 1]));
    let outputs = [
        RowCell::output(first(0), 2),
        RowCell::output(first(1), 1),
        RowCell::output(second(1), 0),
    ];
    assert!(rt; has_row(&placed, 2, &outputs, &[0, 1, 2]));
    Ok(())
}

// Why a net is refused, where its slots have this width; want of memory where it isn't.
fn refused(alloc: Global, net: &RowNet, slot_width: u64) -> Result<(), PlaceRefusal>
    requires { 1 ≤ slot_width }
{
    let _placed = (PlacePass { slot_width }).run(alloc, net)?;
    Ok(())
}

#[test]
fn rows_are_as_wide_as_may_be(rt: HostRuntime) -> Result<(), Fail> {
    let net = tied_net(rt.alloc())?;
    assert!(rt; refused(rt.alloc(), &net, 500_000_000).is_ok());
    assert!(rt; refused(rt.alloc(), &net, 500_000_001) == Err(PlaceRefusal::TooWide { span: 4 }));
    assert!(rt; refused(rt.alloc(), &net, u64::MAX) == Err(PlaceRefusal::TooWide { span: 4 }));
    Ok(())
}

// Slots for the rows of `a and b`: these for the first row, and 4 and 7.
fn and_slots(alloc: Global, first: [u32; 3]) -> Result<Vec<List<u32>>, Memory> {
    let first = list(alloc, first)?;
    let middle = list(alloc, [4])?;
    let last = list(alloc, [7])?;
    Ok(Vec::from_array(alloc, [first, middle, last])?)
}

// Slots for two rows, where `a and b` has three.
fn short_slots(alloc: Global) -> Result<Vec<List<u32>>, Memory> {
    let first = list(alloc, [0, 1, 2])?;
    let middle = list(alloc, [4])?;
    Ok(Vec::from_array(alloc, [first, middle])?)
}

// The net `a and b` with its cells at these slots.
fn arranged(alloc: Global, slots: &[List<u32>]) -> Result<Option<Placed>, Memory> {
    let net = and_net(alloc)?;
    arrange(alloc, &net, slots)
}

fn and_arranged(alloc: Global, first: [u32; 3]) -> Result<Option<Placed>, Memory> {
    let slots = and_slots(alloc, first)?;
    arranged(alloc, &slots)
}

fn short_arranged(alloc: Global) -> Result<Option<Placed>, Memory> {
    let slots = short_slots(alloc)?;
    arranged(alloc, &slots)
}

// Whether the first row may stand at these slots.
fn is_taken(alloc: Global, first: [u32; 3]) -> Result<bool, Memory> {
    Ok(and_arranged(alloc, first)?.is_some())
}

#[test]
fn cells_stand_where_they_are_told_to(rt: HostRuntime) -> Result<(), Fail> {
    let placed = and_arranged(rt.alloc(), [9, 0, 5])?.ok_or("slots of the cells' own")?;
    let inputs = [
        RowCell::input(1),
        RowCell::bare(CellKind::Zero),
        RowCell::input(0),
    ];
    assert!(rt; has_row(&placed, 0, &inputs, &[0, 5, 9]));
    assert!(rt; has_row(&placed, 1, &[majority(2, 1, 0)], &[4]));
    assert!(rt; has_row(&placed, 2, &[RowCell::output(first(0), 0)], &[7]));
    Ok(())
}

#[test]
fn slots_that_two_cells_share_are_refused(rt: HostRuntime) -> Result<(), Fail> {
    let shared = is_taken(rt.alloc(), [0, 5, 5])?;
    let far = is_taken(rt.alloc(), [0, 1, 2_147_483_647])?;
    let last = is_taken(rt.alloc(), [0, 1, 2_147_483_646])?;
    let short = short_arranged(rt.alloc())?.is_some();
    assert!(rt; !shared && !far && last && !short);
    Ok(())
}
