// Equal nodes are one after merging, and the graph answers as before.
use aq_base::{List, Memory};
use circuit::{Answers, Pass};
use mig::{Builder, Graph, GraphRefusal};
use mig_merge::Merging;
use std::alloc::Global;
use std::test::Fail;

/// The majority, if the three literals are there; else false.
pub(crate) fn maj_of(builder: &mut Builder, x: u32, y: u32, z: u32) -> Result<u32, GraphRefusal> {
    builder.known();
    let limit = 2 * (1 + builder.inputs() as u64 + builder.node_count() as u64);
    if (x as u64) < limit && (y as u64) < limit && (z as u64) < limit {
        builder.maj(x, y, z)
    } else {
        Ok(0)
    }
}

/// A vote of three, and the same by ands and ors, if their literals are there.
fn votes(alloc: Global) -> Result<Option<Graph>, GraphRefusal> {
    let mut builder = Builder::new(alloc, 3)?;
    let vote = maj_of(&mut builder, 2, 4, 6)?;
    let both = maj_of(&mut builder, 0, 2, 4)?;
    let some = maj_of(&mut builder, 1, 2, 4)?;
    let last = maj_of(&mut builder, 0, some, 6)?;
    let other = maj_of(&mut builder, 1, both, last)?;
    builder.known();
    let limit = 2 * (1 + builder.inputs() as u64 + builder.node_count() as u64);
    if (vote as u64) < limit && (other as u64) < limit {
        Ok(Some(builder.finish(vec![in alloc; vote, other]?)))
    } else {
        Ok(None)
    }
}

/// Whether both outputs answer to the bits of a number with what most of them are.
fn answers(alloc: Global, graph: &Graph, number: u32) -> Result<bool, Memory> {
    let mut word = List::new(alloc);
    for place in 0..3u32 {
        word.push(number >> place & 1 == 1)?;
    }
    if word.len() != graph.inputs() as usize {
        return Ok(false);
    }
    let answer = graph.answer(alloc, &word)?;
    let vote = number.count_ones() > 1;
    Ok(answer.as_slice() == [vote, vote].as_slice())
}

#[test]
fn equal_nodes_are_merged(rt: HostRuntime) -> Result<(), Fail> {
    let Some(graph) = votes(rt.alloc())? else {
        return Err("no votes".into());
    };
    let made = Merging.run(rt.alloc(), &graph)?;
    assert_eq!(rt; (graph.node_count(), made.node_count()), (5, 1));
    for number in 0..8u32 {
        assert!(rt; answers(rt.alloc(), &made, number)?);
    }
    Ok(())
}
