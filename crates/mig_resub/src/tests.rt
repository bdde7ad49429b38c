// The vote of three by ands and ors is one majority after resubstitution.
use crate::Resubstitution;
use aq_base::{List, Memory};
use circuit::{Answers, Pass};
use mig::{Builder, Graph, GraphRefusal};
use std::alloc::Global;
use std::test::Fail;

/// The majority, if the three literals are there; else false.
fn maj_of(builder: &mut Builder, x: u32, y: u32, z: u32) -> Result<u32, GraphRefusal> {
    builder.known();
    let limit = 2 * (1 + builder.inputs() as u64 + builder.node_count() as u64);
    if (x as u64) < limit && (y as u64) < limit && (z as u64) < limit {
        builder.maj(x, y, z)
    } else {
        Ok(0)
    }
}

/// The graph of a vote of three by gates of two inputs, (a and b) or ((a or b) and c), if its literal is there. Literal 0
/// is false and 1 true, 2, 4 and 6 are the inputs; a majority with 0 is an and, one with 1 an or.
fn vote(alloc: Global) -> Result<Option<Graph>, GraphRefusal> {
    let mut builder = Builder::new(alloc, 3)?;
    let both = maj_of(&mut builder, 0, 2, 4)?;
    let some = maj_of(&mut builder, 1, 2, 4)?;
    let last = maj_of(&mut builder, 0, some, 6)?;
    let vote = maj_of(&mut builder, 1, both, last)?;
    builder.known();
    let limit = 2 * (1 + builder.inputs() as u64 + builder.node_count() as u64);
    if (vote as u64) < limit {
        Ok(Some(builder.finish(vec![in alloc; vote]?)))
    } else {
        Ok(None)
    }
}

/// Whether a graph answers to the bits of a number with what most of them are.
fn votes(alloc: Global, graph: &Graph, number: u32) -> Result<bool, Memory> {
    let mut word = List::new(alloc);
    for place in 0..3u32 {
        word.push(number >> place & 1 == 1)?;
    }
    if word.len() != graph.inputs() as usize {
        return Ok(false);
    }
    let answer = graph.answer(alloc, &word)?;
    Ok(answer.as_slice() == [number.count_ones() > 1].as_slice())
}

#[test]
fn votes_of_three(rt: HostRuntime) -> Result<(), Fail> {
    let found = vote(rt.alloc())?;
    assert!(rt; found.is_some(), "the vote has no literal");
    let Some(gates) = found else {
        return Ok(());
    };
    let made = Resubstitution.run(rt.alloc(), &gates)?;
    let shaken = Resubstitution.shaken(rt.alloc(), &gates, 1)?;
    assert_eq!(rt;
        (gates.node_count(), made.node_count(), shaken.node_count()),
        (4, 1, 1)
    );
    for number in 0..8u32 {
        assert!(rt; votes(rt.alloc(), &made, number)?);
        assert!(rt; votes(rt.alloc(), &shaken, number)?);
    }
    Ok(())
}
