// Graphs that grow node by node: which majorities are one node, and what others come to.
use mig::{Builder, GraphRefusal, Node, literals_of, turned};
use std::test::Fail;

/// The majority, if the three literals are there; else false.
fn maj_of(builder: &mut Builder, x: u32, y: u32, z: u32) -> Result<u32, GraphRefusal> {
    builder.known();
    let limit = 2 * (1 + builder.inputs() as u64 + builder.node_count() as u64);
    if (x as u64) < limit && (y as u64) < limit && (z as u64) < limit {
        builder.maj(x, y, z)
    } else {
        Ok(0)
    }
}

#[test]
fn majorities(rt: HostRuntime) -> Result<(), Fail> {
    // three literals, their majority, and how many nodes there are then; there are four inputs
    let majorities = [
        ([2, 2, 4], 2, 0),
        ([4, 3, 2], 4, 0),
        ([1, 6, 0], 6, 0),
        ([7, 6, 9], 9, 0),
        ([2, 4, 6], 10, 1),
        ([6, 2, 4], 10, 1),
        ([3, 5, 7], 11, 1),
        ([0, 2, 5], 12, 2),
        ([1, 3, 4], 13, 2),
        ([1, 2, 4], 14, 3),
        ([10, 12, 14], 16, 4),
        ([11, 13, 14], 19, 5),
        ([10, 12, 15], 18, 5),
    ];
    let mut builder = Builder::new(rt.alloc(), 4)?;
    for ([x, y, z], wanted, nodes) in majorities {
        let literal = maj_of(&mut builder, x, y, z)?;
        assert_eq!(rt; (literal, builder.node_count()), (wanted, nodes));
        assert!(rt; builder.find(x, y, z) == Some(literal));
    }
    assert_eq!(rt;
        (builder.level(8), builder.level(10), builder.level(19)),
        (0, 1, 2)
    );
    assert!(rt; builder.operands(11) == Some(Node { x: 3, y: 5, z: 7 }));
    assert!(rt; builder.operands(9).is_none());
    assert_eq!(rt; (turned(8), turned(9)), (9, 8));
    Ok(())
}

#[test]
fn literals_by_number(rt: HostRuntime) -> Result<(), Fail> {
    let found = [Some(2), None, Some(5)];
    let cases = [
        ([2, 0].as_slice(), Some([5, 2].as_slice())),
        ([].as_slice(), Some([].as_slice())),
        ([0, 1].as_slice(), None),
        ([3].as_slice(), None),
    ];
    for (numbers, wanted) in cases {
        let literals = literals_of(rt.alloc(), &found, numbers)?;
        assert!(rt; literals.as_deref() == wanted);
    }
    Ok(())
}
