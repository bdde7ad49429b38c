// Products share a part once they are joined in another order, and the graph answers as before.
use crate::merging::maj_of;
use aq_base::{List, Memory};
use circuit::{Answers, Pass};
use mig::{Builder, Graph, GraphRefusal};
use mig_share::Sharing;
use std::alloc::Global;
use std::test::Fail;

/// The products of each of the first three of five inputs with the fourth, and then with the fifth, if their literals
/// are there.
fn products(alloc: Global) -> Result<Option<Graph>, GraphRefusal> {
    let mut builder = Builder::new(alloc, 5)?;
    let first = maj_of(&mut builder, 0, 2, 8)?;
    let second = maj_of(&mut builder, 0, 4, 8)?;
    let third = maj_of(&mut builder, 0, 6, 8)?;
    let one = maj_of(&mut builder, 0, first, 10)?;
    let two = maj_of(&mut builder, 0, second, 10)?;
    let three = maj_of(&mut builder, 0, third, 10)?;
    builder.known();
    let limit = 2 * (1 + builder.inputs() as u64 + builder.node_count() as u64);
    if (one as u64) < limit && (two as u64) < limit && (three as u64) < limit {
        Ok(Some(builder.finish(vec![in alloc; one, two, three]?)))
    } else {
        Ok(None)
    }
}

/// Whether the outputs answer to the bits of a number with the products.
fn answers(alloc: Global, graph: &Graph, number: u32) -> Result<bool, Memory> {
    let mut word = List::new(alloc);
    for place in 0..5u32 {
        word.push(number >> place & 1 == 1)?;
    }
    if word.len() != graph.inputs() as usize {
        return Ok(false);
    }
    let answer = graph.answer(alloc, &word)?;
    let both = number >> 3 == 3;
    let products = [
        both && number & 1 == 1,
        both && number & 2 == 2,
        both && number & 4 == 4,
    ];
    Ok(answer.as_slice() == products.as_slice())
}

#[test]
fn products_share_a_part(rt: HostRuntime) -> Result<(), Fail> {
    let Some(graph) = products(rt.alloc())? else {
        return Err("no products".into());
    };
    let made = Sharing.run(rt.alloc(), &graph)?;
    assert_eq!(rt; (graph.node_count(), made.node_count()), (6, 4));
    for number in 0..32u32 {
        assert!(rt; answers(rt.alloc(), &made, number)?);
    }
    Ok(())
}
