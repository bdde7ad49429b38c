// Nets worked by hand, splitter trees of each size, constants, and a net that is too large.
ghost use Rattle.std.specs.Prelude.{◌≡◌, ◌<◌, IfOk, length};

use aq_base::{List, Memory};
use circuit::{Gate, Pass, PlainNet, Word, answer_word};
use level_balance::{LevelPass, LevelRefusal};
use rowed::RowNet;
use std::alloc::Global;
use std::test::Fail;

// One input, which so many outputs show.
fn shown_by(alloc: Global, outputs: u32) -> Result<PlainNet, Memory>
    requires { 0 < outputs }
    ensures { IfOk result (λ net. net.inputs ≡ 1) }
{
    let gates = [Gate::Input(0), Gate::Zero, Gate::One];
    Ok(PlainNet {
        inputs: 1,
        gates: List::from_vec(Vec::from_array(alloc, gates)?),
        outputs: List::from_vec(vec![in alloc; 0; outputs as usize]?),
    })
}

// The exclusive or of two inputs: their `or`, and not their `and`.
fn exclusive_or(alloc: Global) -> Result<PlainNet, Memory>
    ensures { IfOk result (λ net. net.inputs ≡ 2) }
{
    let gates = [
        Gate::Input(0),
        Gate::Input(1),
        Gate::Zero,
        Gate::One,
        Gate::Maj(0, 3, 1),
        Gate::Maj(0, 2, 1),
        Gate::Inv(5),
        Gate::Maj(4, 2, 6),
    ];
    Ok(PlainNet {
        inputs: 2,
        gates: List::from_vec(Vec::from_array(alloc, gates)?),
        outputs: List::from_vec(Vec::from_array(alloc, [7])?),
    })
}

// One, the `or` of the first two of three inputs, and Zero; the third input is not used.
fn constants(alloc: Global) -> Result<PlainNet, Memory>
    ensures { IfOk result (λ net. net.inputs ≡ 3) }
{
    let gates = [
        Gate::Input(0),
        Gate::Input(1),
        Gate::Input(2),
        Gate::Zero,
        Gate::One,
        Gate::Maj(0, 4, 1),
    ];
    Ok(PlainNet {
        inputs: 3,
        gates: List::from_vec(Vec::from_array(alloc, gates)?),
        outputs: List::from_vec(Vec::from_array(alloc, [4, 5, 3])?),
    })
}

// The rows of a net, which keep its number of inputs.
fn levelled(alloc: Global, net: &PlainNet, three: bool) -> Result<RowNet, Memory>
    ensures { IfOk result (λ rows. rows.inputs ≡ net.now.inputs) }
{
    match (LevelPass { three }).run(alloc, net) {
        Ok(rows) => Ok(rows),
        Err(_) => Err(Memory),
    }
}

// Whether so many cells stand in each row.
fn has_sizes(rows: &RowNet, sizes: &[usize]) -> bool {
    let mut all = rows.rows.len() == sizes.len();
    for (row, size) in rows.rows.as_slice().iter().zip(sizes) {
        all = all && row.len() == *size;
    }
    all
}

fn xor_has(alloc: Global, sizes: &[usize]) -> Result<bool, Memory> {
    let net = exclusive_or(alloc)?;
    let rows = levelled(alloc, &net, true)?;
    Ok(has_sizes(&rows, sizes))
}

fn tree_has(alloc: Global, outputs: u32, three: bool, sizes: &[usize]) -> Result<bool, Memory>
    requires { 0 < outputs }
{
    let net = shown_by(alloc, outputs)?;
    let rows = levelled(alloc, &net, three)?;
    Ok(has_sizes(&rows, sizes))
}

fn constants_have(alloc: Global, sizes: &[usize]) -> Result<bool, Memory> {
    let net = constants(alloc)?;
    let rows = levelled(alloc, &net, true)?;
    Ok(has_sizes(&rows, sizes))
}

#[test]
fn rows_worked_by_hand(rt: HostRuntime) -> Result<(), Fail> {
    let alloc = rt.alloc();
    assert!(rt; xor_has(alloc, &[2, 4, 2, 3, 1, 1])?);
    assert!(rt; tree_has(alloc, 3, true, &[1, 1, 3])?);
    assert!(rt; tree_has(alloc, 3, false, &[1, 1, 2, 3])?);
    assert!(rt; constants_have(alloc, &[4, 3, 3])?);
    Ok(())
}

// How many cells stand in all rows.
fn total(rows: &RowNet) -> usize {
    let mut total: usize = 0;
    for row in rows.rows.as_slice() {
        total = total.saturating_add(row.len());
    }
    total
}

fn tree_cells(alloc: Global, outputs: u32, three: bool) -> Result<usize, Memory>
    requires { 0 < outputs }
{
    let net = shown_by(alloc, outputs)?;
    let rows = levelled(alloc, &net, three)?;
    Ok(total(&rows))
}

// Whether the word has so many values, each this one.
fn is_all(word: &Word, count: u32, value: bool) -> bool {
    word.len() == count as usize && word.as_slice().iter().all(|v| *v == value)
}

fn one_value(alloc: Global, value: bool) -> Result<Word, Memory>
    ensures { IfOk result (λ word. length word ≡ 1) }
{
    let mut word = List::new(alloc);
    word.push(value)?;
    Ok(word)
}

// Whether each output shows the input's value.
fn tree_shows(alloc: Global, outputs: u32, three: bool, value: bool) -> Result<bool, Memory>
    requires { 0 < outputs }
{
    let net = shown_by(alloc, outputs)?;
    let rows = levelled(alloc, &net, three)?;
    let word = one_value(alloc, value)?;
    let answer = answer_word(alloc, &rows, &word)?;
    Ok(is_all(&answer, outputs, value))
}

// How many trees, from one output on, have other counts of cells, or show another value than the input's.
fn odd_trees(alloc: Global, three: bool, counts: &[usize]) -> Result<u32, Memory> {
    let mut odd: u32 = 0;
    let mut outputs: u32 = 0;
    for count in counts {
        outputs = outputs.saturating_add(1);
        let cells = tree_cells(alloc, outputs, three)?;
        let low = tree_shows(alloc, outputs, three, false)?;
        let high = tree_shows(alloc, outputs, three, true)?;
        if cells != *count || !low || !high {
            odd = odd.saturating_add(1);
        }
    }
    Ok(odd)
}

#[test]
fn trees_of_each_size(rt: HostRuntime) -> Result<(), Fail> {
    let narrow = [
        2, 4, 7, 8, 12, 13, 15, 16, 21, 22, 24, 25, 28, 29, 31, 32, 38, 39, 41, 42, 45, 46, 48, 49,
        53, 54, 56, 57, 60, 61,
    ];
    let wide = [
        2, 4, 5, 8, 9, 10, 12, 13, 14, 18, 19, 20, 22, 23, 24, 26, 27, 28, 31, 32, 33, 35, 36, 37,
        39, 40, 41, 46, 47, 48,
    ];
    assert_eq!(rt; odd_trees(rt.alloc(), false, &narrow)?, 0);
    assert_eq!(rt; odd_trees(rt.alloc(), true, &wide)?, 0);
    Ok(())
}

#[test]
fn too_many_cells(rt: HostRuntime) -> Result<(), Fail> {
    let net = shown_by(rt.alloc(), 2_000_000)?;
    let cells = match (LevelPass { three: true }).run(rt.alloc(), &net) {
        Ok(_) => 0,
        Err(LevelRefusal::TooManyCells { cells }) => cells,
        Err(LevelRefusal::Memory) => 1,
    };
    assert_eq!(rt; cells, 3_000_008);
    Ok(())
}

fn three_values(alloc: Global, first: bool, second: bool) -> Result<Word, Memory>
    ensures { IfOk result (λ word. length word ≡ 3) }
{
    let mut word = List::new(alloc);
    word.push(first)?;
    word.push(second)?;
    word.push(true)?;
    Ok(word)
}

// The rows' answer, in which the third input has no part.
fn answer_of_constants(alloc: Global, first: bool, second: bool) -> Result<Word, Memory> {
    let net = constants(alloc)?;
    let rows = levelled(alloc, &net, false)?;
    let word = three_values(alloc, first, second)?;
    answer_word(alloc, &rows, &word)
}

#[test]
fn constants_are_shown(rt: HostRuntime) -> Result<(), Fail> {
    for (first, second) in [(false, false), (true, false), (false, true), (true, true)] {
        let answer = answer_of_constants(rt.alloc(), first, second)?;
        assert_eq!(rt;
            answer.as_slice(),
            [true, first || second, false].as_slice()
        );
    }
    Ok(())
}
