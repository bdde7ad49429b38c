// Nets whose repeaters are worked by hand, and nets that are as tall as may be.
ghost use Rattle.std.specs.Prelude.{◌≡◌, ◌-◌, ◌∷◌, [], ℕ, IfOk, map};
ghost use Rattle.circuit.specs.declared.cell_kind.CellKind.TheVariants as kinds;
ghost use Rattle.sorting.specs.Numbers.{numbers};
ghost use Rattle.rowed.specs.MadeCells.{source, cell, fed_cell, input_cell, output_cell};
ghost use Rattle.rowed.specs.PlacedNets.{IsPlaced};
ghost use Rattle.repeater_rows.specs.Examples as examples;

use crate::fixtures::{first, has_row, list, majority, placed, second};
use aq_base::{List, Memory};
use circuit::{CellKind, Pass};
use repeater_rows::{RepeatPass, RepeatRefusal};
use rowed::{Placed, RowCell};
use std::alloc::Global;
use std::test::Fail;

fn wire_rows(alloc: Global) -> Result<Vec<List<RowCell>>, Memory>
    ensures { IfOk result (λ rows. rows.items ≡ (input_cell 0 ∷ []) ∷ (examples.output 0 0 ∷ []) ∷ []) }
{
    let below = list(alloc, [RowCell::input(0)])?;
    let above = list(alloc, [RowCell::output(first(0), 0)])?;
    Ok(Vec::from_array(alloc, [below, above])?)
}

fn wire_slots(alloc: Global, from: u16, to: u16) -> Result<Vec<List<u32>>, Memory>
    ensures { IfOk result (λ slots. slots.items ≡ (from ∷ []) ∷ (to ∷ []) ∷ []) }
{
    let below = list(alloc, [u32::from(from)])?;
    let above = list(alloc, [u32::from(to)])?;
    Ok(Vec::from_array(alloc, [below, above])?)
}

// One wire.
fn wire(alloc: Global, from: u16, to: u16) -> Result<Placed, Memory> {
    let rows = wire_rows(alloc)?;
    let slots = wire_slots(alloc, from, to)?;
    Ok(placed(1, 1, rows, slots))
}

// The numbers below forty.
fn forty(alloc: Global) -> Result<Vec<u32>, Memory>
    ensures { IfOk result (λ slots. slots.items ≡ numbers 0 40) }
{
    let mut slots = Vec::new(alloc);
    for slot in 0..40 {
        slots.push(slot)?;
    }
    Ok(slots)
}

fn inputs(alloc: Global, numbers: &[u32]) -> Result<List<RowCell>, Memory>
    ensures { IfOk result (λ row. row ≡ map (λ (i : ℕ). input_cell i) numbers.now) }
{
    let mut row = Vec::new(alloc);
    for i in numbers {
        row.push(RowCell::input(*i))?;
    }
    Ok(List::from_vec(row))
}

// An output that shows cell 39 - i for each number i.
fn outputs(alloc: Global, numbers: &[u32]) -> Result<List<RowCell>, Memory>
    ensures { IfOk result (λ row. row ≡ map (λ (i : ℕ). examples.output (39 - i) i) numbers.now) }
{
    let mut row = Vec::new(alloc);
    for i in numbers {
        row.push(RowCell::output(first(39u32.saturating_sub(*i)), *i))?;
    }
    Ok(List::from_vec(row))
}

fn turned_rows(alloc: Global) -> Result<Vec<List<RowCell>>, Memory>
    ensures { IfOk result (λ rows. rows.items ≡ map (λ (i : ℕ). input_cell i) (numbers 0 40)
        ∷ map (λ (i : ℕ). examples.output (39 - i) i) (numbers 0 40) ∷ []) }
{
    let numbers = forty(alloc)?;
    let below = inputs(alloc, &numbers)?;
    let above = outputs(alloc, &numbers)?;
    Ok(Vec::from_array(alloc, [below, above])?)
}

fn turned_slots(alloc: Global) -> Result<Vec<List<u32>>, Memory>
    ensures { IfOk result (λ slots. slots.items ≡ numbers 0 40 ∷ numbers 0 40 ∷ []) }
{
    let below = List::from_vec(forty(alloc)?);
    let above = List::from_vec(forty(alloc)?);
    Ok(Vec::from_array(alloc, [below, above])?)
}

// Forty wires that turn round.
fn turned(alloc: Global) -> Result<Placed, Memory> {
    let rows = turned_rows(alloc)?;
    let slots = turned_slots(alloc)?;
    Ok(placed(40, 40, rows, slots))
}

fn and_rows(alloc: Global) -> Result<Vec<List<RowCell>>, Memory>
    ensures { IfOk result (λ rows. rows.items ≡ examples.and_inputs.cells ∷ examples.and_gate.cells
        ∷ (examples.output 0 0 ∷ []) ∷ []) }
{
    let below = list(
        alloc,
        [
            RowCell::input(0),
            RowCell::bare(CellKind::Zero),
            RowCell::input(1),
        ],
    )?;
    let middle = list(alloc, [majority(2, 1, 0)])?;
    let above = list(alloc, [RowCell::output(first(0), 0)])?;
    Ok(Vec::from_array(alloc, [below, middle, above])?)
}

fn and_slots(alloc: Global) -> Result<Vec<List<u32>>, Memory>
    ensures { IfOk result (λ slots. slots.items ≡ (0 ∷ 1 ∷ 2 ∷ []) ∷ (0 ∷ []) ∷ (0 ∷ []) ∷ []) }
{
    let below = list(alloc, [0, 1, 2])?;
    let middle = list(alloc, [0])?;
    let above = list(alloc, [0])?;
    Ok(Vec::from_array(alloc, [below, middle, above])?)
}

// The net of `b and a`.
fn and_net(alloc: Global) -> Result<Placed, Memory> {
    let rows = and_rows(alloc)?;
    let slots = and_slots(alloc)?;
    Ok(placed(2, 1, rows, slots))
}

fn four_rows(alloc: Global) -> Result<Vec<List<RowCell>>, Memory>
    ensures { IfOk result (λ rows. rows.items ≡
        (input_cell 0 ∷ input_cell 1 ∷ input_cell 2 ∷ input_cell 3 ∷ [])
        ∷ (examples.output 2 0 ∷ examples.output 3 1 ∷ examples.output 1 2 ∷ examples.output 0 3 ∷ []) ∷ []) }
{
    let below = list(
        alloc,
        [
            RowCell::input(0),
            RowCell::input(1),
            RowCell::input(2),
            RowCell::input(3),
        ],
    )?;
    let above = list(
        alloc,
        [
            RowCell::output(first(2), 0),
            RowCell::output(first(3), 1),
            RowCell::output(first(1), 2),
            RowCell::output(first(0), 3),
        ],
    )?;
    Ok(Vec::from_array(alloc, [below, above])?)
}

fn four_slots(alloc: Global) -> Result<Vec<List<u32>>, Memory>
    ensures { IfOk result (λ slots. slots.items ≡ (0 ∷ 1 ∷ 6 ∷ 7 ∷ []) ∷ (0 ∷ 2 ∷ 5 ∷ 7 ∷ []) ∷ []) }
{
    let below = list(alloc, [0, 1, 6, 7])?;
    let above = list(alloc, [0, 2, 5, 7])?;
    Ok(Vec::from_array(alloc, [below, above])?)
}

// Four wires with slots between them: from slot 0 to 7, 1 to 5, 6 to 0 and 7 to 2.
fn four_wires(alloc: Global) -> Result<Placed, Memory> {
    let rows = four_rows(alloc)?;
    let slots = four_slots(alloc)?;
    Ok(placed(4, 4, rows, slots))
}

fn split_rows(alloc: Global) -> Result<Vec<List<RowCell>>, Memory>
    ensures { IfOk result (λ rows. rows.items ≡ (input_cell 0 ∷ [])
        ∷ (fed_cell kinds.Split2 (examples.from_cell 0) ∷ [])
        ∷ (output_cell (source 0 1) 0 ∷ examples.output 0 1 ∷ []) ∷ []) }
{
    let below = list(alloc, [RowCell::input(0)])?;
    let middle = list(alloc, [splitter()])?;
    let above = list(
        alloc,
        [RowCell::output(second(0), 0), RowCell::output(first(0), 1)],
    )?;
    Ok(Vec::from_array(alloc, [below, middle, above])?)
}

fn splitter() -> RowCell
    ensures { result ≡ fed_cell kinds.Split2 (examples.from_cell 0) }
{
    RowCell::fed(CellKind::Split2, first(0))
}

fn split_slots(alloc: Global) -> Result<Vec<List<u32>>, Memory>
    ensures { IfOk result (λ slots. slots.items ≡ (0 ∷ []) ∷ (0 ∷ []) ∷ (0 ∷ 2 ∷ []) ∷ []) }
{
    let below = list(alloc, [0])?;
    let middle = list(alloc, [0])?;
    let above = list(alloc, [0, 2])?;
    Ok(Vec::from_array(alloc, [below, middle, above])?)
}

// A splitter whose two wires cross.
fn split_net(alloc: Global) -> Result<Placed, Memory> {
    let rows = split_rows(alloc)?;
    let slots = split_slots(alloc)?;
    Ok(placed(1, 2, rows, slots))
}

// The net with its repeaters, at a reach of at least 2.
fn repeated(alloc: Global, net: &Placed, reach: u64) -> Result<Placed, Memory> {
    let pass = RepeatPass {
        reach: reach.max(2),
        height: 10_000,
        channel: 58_000,
    };
    match pass.run(alloc, net) {
        Ok(out) => Ok(out),
        Err(_) => Err(Memory),
    }
}

// Whether the repeaters of one wire, from one slot to another, stand in these slots.
fn has_repeaters(net: &Placed, from: u16, between: &[u32], to: u16) -> bool {
    let mut right = has_row(net, 0, &[RowCell::input(0)], &[u32::from(from)]);
    let mut rows = 1usize;
    for slot in between {
        right = right && has_row(net, rows, &[RowCell::buffer(first(0))], &[*slot]);
        rows = rows.saturating_add(1);
    }
    let above = has_row(net, rows, &[RowCell::output(first(0), 0)], &[u32::from(to)]);
    right && above && net.net.rows.len() == rows.saturating_add(1)
}

// How far the farthest wire moves that goes to the first pin of a cell of a row, from a row with these slots.
fn farthest_to(below: &[u32], cells: &[RowCell], slots: &[u32]) -> u32 {
    let mut most = 0;
    for (cell, slot) in cells.iter().zip(slots) {
        if let Some(source) = cell.source0 {
            let from = below.get(source.cell as usize).copied().unwrap_or(u32::MAX);
            most = slot.abs_diff(from).max(most);
        }
    }
    most
}

// The same for the rows of a net.
fn farthest(net: &Placed) -> u32 {
    let mut most = 0;
    let rows = net.net.rows.as_slice().iter().zip(net.slots.as_slice());
    let mut below: &[u32] = &[];
    for (row, slots) in rows {
        most = farthest_to(below, row.as_slice(), slots.as_slice()).max(most);
        below = slots.as_slice();
    }
    most
}

// Whether there are so many rows, each of so many cells.
fn has_sizes(net: &Placed, rows: usize, cells: usize) -> bool {
    let each = net.net.rows.as_slice();
    each.len() == rows && each.iter().all(|row| row.len() == cells)
}

fn turned_farthest(alloc: Global) -> Result<u32, Memory> {
    let net = turned(alloc)?;
    Ok(farthest(&net))
}

fn turned_repeated(alloc: Global) -> Result<Placed, Memory> {
    let net = turned(alloc)?;
    repeated(alloc, &net, 14)
}

#[test]
fn forty_wires_that_turn_round(rt: HostRuntime) -> Result<(), Fail> {
    assert_eq!(rt; turned_farthest(rt.alloc())?, 39);
    let out = turned_repeated(rt.alloc())?;
    assert!(rt; has_sizes(&out, 7, 40));
    assert_eq!(rt; farthest(&out), 13);
    Ok(())
}

// Whether a wire from one slot to another has its repeaters in these.
fn is_repeated_in(
    alloc: Global,
    reach: u64,
    from: u16,
    between: &[u32],
    to: u16,
) -> Result<bool, Memory> {
    let net = wire(alloc, from, to)?;
    let out = repeated(alloc, &net, reach)?;
    Ok(has_repeaters(&out, from, between, to))
}

#[test]
fn one_wire(rt: HostRuntime) -> Result<(), Fail> {
    let wires: [(u64, u16, &[u32], u16); 17] = [
        (14, 0, &[], 13),
        (14, 0, &[13], 14),
        (14, 13, &[], 0),
        (14, 14, &[14, 7], 0),
        (2, 1, &[], 1),
        (2, 0, &[], 1),
        (2, 0, &[1], 2),
        (2, 2, &[2, 1], 0),
        (3, 0, &[], 2),
        (3, 0, &[1], 3),
        (4, 0, &[3, 5, 7], 9),
        (4, 9, &[8, 6, 4, 2], 0),
        (5, 0, &[], 4),
        (5, 0, &[3], 5),
        (5, 4, &[], 0),
        (5, 5, &[4], 0),
        (u64::MAX, u16::MAX, &[], 0),
    ];
    for (reach, from, between, to) in wires {
        let right = is_repeated_in(rt.alloc(), reach, from, between, to)?;
        assert!(rt; right, "reach {reach}, {from} to {to}");
    }
    Ok(())
}

fn and_repeated(alloc: Global) -> Result<Placed, Memory> {
    let net = and_net(alloc)?;
    repeated(alloc, &net, 2)
}

#[test]
fn wires_of_an_and(rt: HostRuntime) -> Result<(), Fail> {
    let out = and_repeated(rt.alloc())?;
    let slots = [0, 1, 2];
    let first_row = [
        RowCell::buffer(first(1)),
        RowCell::buffer(first(0)),
        RowCell::buffer(first(2)),
    ];
    let second_row = [
        RowCell::buffer(first(0)),
        RowCell::buffer(first(2)),
        RowCell::buffer(first(1)),
    ];
    assert!(rt;
        has_row(
            &out,
            0,
            &[
                RowCell::input(0),
                RowCell::bare(CellKind::Zero),
                RowCell::input(1)
            ],
            &slots
        )
    );
    assert!(rt; has_row(&out, 1, &first_row, &slots));
    assert!(rt; has_row(&out, 2, &second_row, &slots));
    assert!(rt; has_row(&out, 3, &[majority(1, 0, 2)], &[0]));
    assert!(rt; has_row(&out, 4, &[RowCell::output(first(0), 0)], &[0]));
    assert_eq!(rt; out.net.rows.len(), 5);
    Ok(())
}

fn four_repeated(alloc: Global) -> Result<Placed, Memory> {
    let net = four_wires(alloc)?;
    repeated(alloc, &net, 4)
}

// The destinations are 7, 5, (1), (3), (4), (6), 0, 2, then (1), (3), 5, 7, 0, 2, (4), (6), and then (1), (3), 0, 2, 5,
// 7, (4), (6), those without a wire in parentheses.
#[test]
fn slots_between_wires(rt: HostRuntime) -> Result<(), Fail> {
    let out = four_repeated(rt.alloc())?;
    let slots = [2, 3, 4, 5];
    let one = RowCell::buffer(first(0));
    let two = RowCell::buffer(first(1));
    let three = RowCell::buffer(first(2));
    let four = RowCell::buffer(first(3));
    assert!(rt; has_row(&out, 1, &[two, one, three, four], &slots));
    assert!(rt; has_row(&out, 2, &[three, four, one, two], &slots));
    let above = [
        RowCell::output(first(0), 0),
        RowCell::output(first(1), 1),
        RowCell::output(first(2), 2),
        RowCell::output(first(3), 3),
    ];
    assert!(rt; has_row(&out, 3, &above, &[0, 2, 5, 7]));
    assert_eq!(rt; out.net.rows.len(), 4);
    Ok(())
}

fn split_repeated(alloc: Global) -> Result<Placed, Memory> {
    let net = split_net(alloc)?;
    repeated(alloc, &net, 2)
}

#[test]
fn wires_of_a_splitter(rt: HostRuntime) -> Result<(), Fail> {
    let out = split_repeated(rt.alloc())?;
    assert!(rt; has_row(&out, 1, &[splitter()], &[0]));
    assert!(rt;
        has_row(
            &out,
            2,
            &[RowCell::buffer(second(0)), RowCell::buffer(first(0))],
            &[0, 1]
        )
    );
    assert!(rt;
        has_row(
            &out,
            3,
            &[RowCell::output(first(0), 0), RowCell::output(first(1), 1)],
            &[0, 2]
        )
    );
    assert_eq!(rt; out.net.rows.len(), 4);
    Ok(())
}

// The number of rows with which the net is too tall at a reach of 14; 0 if it isn't, and 1 for another refusal.
fn too_tall(alloc: Global, net: &Placed, height: u64, channel: u64) -> u64 {
    let pass = RepeatPass {
        reach: 14,
        height,
        channel,
    };
    match pass.run(alloc, net) {
        Ok(_) => 0,
        Err(RepeatRefusal::TooTall { rows }) => rows,
        Err(_) => 1,
    }
}

#[test]
fn two_rows_are_as_tall_as_may_be(rt: HostRuntime) -> Result<(), Fail> {
    let net = wire(rt.alloc(), 0, 13)?;
    for (height, channel, rows) in [
        (0, 0, 0),
        (1_000_000_000, 147_483_647, 0),
        (1_000_000_000, 147_483_648, 2),
        (0, 2_147_483_647, 0),
        (0, 2_147_483_648, 2),
        (1_073_741_823, 1, 0),
        (1_073_741_823, 2, 2),
        (1_073_741_824, 0, 2),
        (u64::MAX, 0, 2),
        (0, u64::MAX, 2),
        (u64::MAX, u64::MAX, 2),
    ] {
        assert_eq!(rt;
            too_tall(rt.alloc(), &net, height, channel),
            rows,
            "at {height}, {channel}"
        );
    }
    Ok(())
}

#[test]
fn rows_of_repeaters_count(rt: HostRuntime) -> Result<(), Fail> {
    let net = wire(rt.alloc(), 0, 14)?;
    for (height, channel, rows) in [
        (700_000_001, 23_741_822, 0),
        (700_000_001, 23_741_823, 3),
        (700_000_002, 23_741_822, 3),
        (0, 1_073_741_823, 0),
        (0, 1_073_741_824, 3),
        (u64::MAX, u64::MAX, 3),
    ] {
        assert_eq!(rt;
            too_tall(rt.alloc(), &net, height, channel),
            rows,
            "at {height}, {channel}"
        );
    }
    Ok(())
}
