// Chips that are searched for: they answer as their graphs.

use crate::graphs::{made, random};
use aq_base::{List, Memory};
use circuit::{Answers, Pass, Word, answer_word};
use mig::{Graph, GraphRefusal, Shallower};
use plan_compact::{Effort, small_chip};
use rowed::Placed;
use std::alloc::Global;
use std::test::Fail;

/// The word whose values are the last binary digits of a number, the lowest first.
fn word_of(alloc: Global, number: u32, count: u32) -> Result<Word, Memory> {
    let mut word = Vec::new(alloc);
    let mut rest = number;
    for _ in 0..count {
        word.push(rest % 2 == 1)?;
        rest = rest / 2;
    }
    Ok(List::from_vec(word))
}

/// The answer of a circuit to a number's digits; false alone where there are not as many digits as inputs.
fn answer_of<C: Answers>(alloc: Global, circuit: &C, number: u32) -> Result<Word, Memory> {
    let word = word_of(alloc, number, circuit.input_count())?;
    if word.len() == circuit.input_count() as usize {
        answer_word(alloc, circuit, &word)
    } else {
        word_of(alloc, 0, 1)
    }
}

/// Whether graph and chip answer alike to each word.
fn are_alike(alloc: Global, graph: &Graph, chip: &Placed) -> Result<bool, Memory> {
    let inputs = graph.input_count();
    if inputs > 8 || inputs != chip.input_count() {
        return Ok(false);
    }
    for number in 0..1u32 << inputs {
        let one = answer_of(alloc, graph, number)?;
        let other = answer_of(alloc, chip, number)?;
        if one.as_slice() != other.as_slice() {
            return Ok(false);
        }
    }
    Ok(true)
}

/// Whether a chip is found for a graph and a shallower one, with splitters of two or three and wires that move at most
/// `reach - 1` slots, which answers as the graph.
fn is_found(
    alloc: Global,
    graph: &Graph,
    three: bool,
    reach: u32,
    effort: &Effort,
) -> Result<bool, GraphRefusal> {
    let graphs = Vec::from_array(alloc, [Shallower.run(alloc, graph)?])?;
    match small_chip(alloc, graphs.as_slice(), three, reach, effort)? {
        Some(chip) => Ok(are_alike(alloc, graph, &chip)?),
        None => Ok(false),
    }
}

/// Whether chips are found by little and by much effort.
fn are_found(alloc: Global, graph: &Graph) -> Result<bool, GraphRefusal> {
    let mut are = true;
    for (three, reach) in [(true, 14), (false, 14), (true, 3), (false, 2), (true, 0)] {
        let plain = is_found(alloc, graph, three, reach, &Effort::plain())?;
        let full = is_found(alloc, graph, three, reach, &Effort::full())?;
        are = are && plain && full;
    }
    Ok(are)
}

/// The carry and the sum of three inputs.
fn full_adder(alloc: Global) -> Result<Graph, GraphRefusal> {
    made(alloc, 3, &[[2, 4, 6], [2, 4, 7], [6, 9, 10]], &[8, 12])
}

/// What uses constants, shows an input twice and its complement, and leaves an input unused.
fn constants(alloc: Global) -> Result<Graph, GraphRefusal> {
    made(alloc, 3, &[[0, 2, 5], [1, 2, 8]], &[0, 2, 3, 2, 10, 1, 8])
}

#[test]
fn chips_of_small_graphs(rt: HostRuntime) -> Result<(), Fail> {
    let alloc = rt.alloc();
    let adder = full_adder(alloc)?;
    assert!(rt; are_found(alloc, &adder)?);
    Ok(())
}

#[test]
fn chips_of_constants(rt: HostRuntime) -> Result<(), Fail> {
    let alloc = rt.alloc();
    let constants = constants(alloc)?;
    assert!(rt; are_found(alloc, &constants)?);
    Ok(())
}

/// Whether chips are found for the graph of a number.
fn are_found_for(alloc: Global, seed: u64) -> Result<bool, GraphRefusal> {
    let graph = random(alloc, seed)?;
    are_found(alloc, &graph)
}

#[test]
fn chips_of_random_graphs(rt: HostRuntime) -> Result<(), Fail> {
    let alloc = rt.alloc();
    for seed in 0..6 {
        assert!(rt; are_found_for(alloc, seed)?, "graph {seed}");
    }
    Ok(())
}

#[test]
fn no_chip_of_no_graph(rt: HostRuntime) -> Result<(), Fail> {
    let alloc = rt.alloc();
    for effort in [Effort::plain(), Effort::full()] {
        assert!(rt; small_chip(alloc, &[], true, 14, &effort)?.is_none());
    }
    Ok(())
}
