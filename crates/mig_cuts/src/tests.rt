// A full adder of two-input gates is three majorities after two turns; two ands of one operand are one.
use crate::CutRewriting;
use aq_base::{List, Memory};
use circuit::{Answers, Pass};
use mig::{Builder, Graph, GraphRefusal};
use std::alloc::Global;
use std::test::Fail;

/// The majority, if the three literals are there; else false.
fn maj_of(builder: &mut Builder, x: u32, y: u32, z: u32) -> Result<u32, GraphRefusal> {
    builder.known();
    let limit = 2 * (1 + builder.inputs() as u64 + builder.node_count() as u64);
    if (x as u64) < limit && (y as u64) < limit && (z as u64) < limit {
        builder.maj(x, y, z)
    } else {
        Ok(0)
    }
}

/// The literals of the sum and the carry of three inputs, by gates of two inputs.
fn sum_and_carry(builder: &mut Builder) -> Result<(u32, u32), GraphRefusal> {
    let some = maj_of(builder, 1, 2, 4)?;
    let both = maj_of(builder, 0, 2, 4)?;
    let differ = maj_of(builder, 0, some, both ^ 1)?;
    let any = maj_of(builder, 1, differ, 6)?;
    let all = maj_of(builder, 0, differ, 6)?;
    let sum = maj_of(builder, 0, any, all ^ 1)?;
    let carry = maj_of(builder, 1, both, all)?;
    Ok((sum, carry))
}

/// The graph whose outputs show two literals, if they are there.
fn shown(
    alloc: Global,
    builder: Builder,
    one: u32,
    two: u32,
) -> Result<Option<Graph>, GraphRefusal> {
    builder.known();
    let limit = 2 * (1 + builder.inputs() as u64 + builder.node_count() as u64);
    if (one as u64) < limit && (two as u64) < limit {
        Ok(Some(builder.finish(vec![in alloc; one, two]?)))
    } else {
        Ok(None)
    }
}

/// The graph of a full adder, if its literals are there.
fn full_adder(alloc: Global) -> Result<Option<Graph>, GraphRefusal> {
    let mut builder = Builder::new(alloc, 3)?;
    let (sum, carry) = sum_and_carry(&mut builder)?;
    shown(alloc, builder, sum, carry)
}

/// The graph of an input, and of that input and one of two others, by two ands, if its literals are there.
fn two_ands(alloc: Global) -> Result<Option<Graph>, GraphRefusal> {
    let mut builder = Builder::new(alloc, 3)?;
    let one = maj_of(&mut builder, 0, 2, 4)?;
    let two = maj_of(&mut builder, 0, 2, 6)?;
    let any = maj_of(&mut builder, 1, one, two)?;
    shown(alloc, builder, 2, any)
}

/// Whether a graph answers to the bits of a number with these two values.
fn answers(alloc: Global, graph: &Graph, number: u32, values: [bool; 2]) -> Result<bool, Memory> {
    let mut word = List::new(alloc);
    for place in 0..3u32 {
        word.push(number >> place & 1 == 1)?;
    }
    if word.len() != graph.inputs() as usize {
        return Ok(false);
    }
    let answer = graph.answer(alloc, &word)?;
    Ok(answer.as_slice() == values.as_slice())
}

/// Whether a graph answers to the bits of a number with their sum and carry.
fn adds(alloc: Global, graph: &Graph, number: u32) -> Result<bool, Memory> {
    let ones = number.count_ones();
    answers(alloc, graph, number, [ones % 2 == 1, ones > 1])
}

#[test]
fn full_adders(rt: HostRuntime) -> Result<(), Fail> {
    let Some(gates) = full_adder(rt.alloc())? else {
        return Err("no gates".into());
    };
    let pass = CutRewriting::new(rt.alloc())?;
    let once = pass.run(rt.alloc(), &gates)?;
    let twice = pass.run(rt.alloc(), &once)?;
    let one = pass.in_place(rt.alloc(), &gates, None)?;
    let two = pass.in_place(rt.alloc(), &one, Some(1))?;
    assert_eq!(rt; (gates.node_count(), twice.node_count()), (7, 3));
    assert_eq!(rt; two.node_count(), 3);
    for number in 0..8u32 {
        assert!(rt; adds(rt.alloc(), &twice, number)?);
        assert!(rt; adds(rt.alloc(), &two, number)?);
    }
    Ok(())
}

#[test]
fn ands_share_an_operand(rt: HostRuntime) -> Result<(), Fail> {
    let Some(gates) = two_ands(rt.alloc())? else {
        return Err("no gates".into());
    };
    let pass = CutRewriting::new(rt.alloc())?;
    let made = pass.by_ands(rt.alloc(), &gates, None)?;
    assert_eq!(rt; (gates.node_count(), made.node_count()), (3, 2));
    for number in 0..8u32 {
        let first = number % 2 == 1;
        assert!(rt; answers(rt.alloc(), &made, number, [first, first && number > 1])?);
    }
    Ok(())
}
