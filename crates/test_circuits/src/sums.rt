// The sample of one bit and of two, against texts that are worked by hand.
use crate::fixtures::word;
use aq_base::{List, MemSink};
use sample_adder::{SampleCounts, adder_text, print_sample, sample_words, worked_sample};
use std::test::Fail;

const TWO_BITS: &[u8] =
    b".model adder\n.inputs a0 b0 a1 b1\n.outputs s0 s1 s2\n.names a0 b0 s0\n10 1\n01 1\n.names a0 b0 c1\n11 1\n.names a1 b1 p1\n10 1\n01 1\n.names p1 c1 s1\n10 1\n01 1\n.names a1 b1 g1\n11 1\n.names p1 c1 h1\n11 1\n.names g1 h1 c2\n1- 1\n-1 1\n.names c2 s2\n1 1\n.end\n";

#[test]
fn netlist_of_two_bits(rt: HostRuntime) -> Result<(), Fail> {
    worked_sample();
    let text = adder_text(rt.alloc(), 2)?;
    assert_eq!(rt; text.as_slice(), TWO_BITS);
    Ok(())
}

#[test]
fn words_of_sixty_four_bits(rt: HostRuntime) -> Result<(), Fail> {
    let words = sample_words(rt.alloc(), 64)?;
    assert_eq!(rt; words.len(), 8);
    for word in words.as_slice() {
        assert_eq!(rt; word.len(), 128);
    }
    Ok(())
}

#[test]
fn printed_text(rt: HostRuntime) -> Result<(), Fail> {
    let alloc = rt.alloc();
    let mut answers = List::new(alloc);
    answers.push(word(alloc, [false, true])?)?;
    answers.push(word(alloc, [true, false])?)?;
    let counts = SampleCounts {
        bits: 1,
        rows: 6,
        cells: 18,
        wires: 20,
    };
    let mut out = MemSink::new(alloc);
    match print_sample(alloc, counts, &answers, &mut out) {
        Ok(()) => {}
        Err(_) => return Err("not printed".into()),
    }
    assert_eq!(rt;
        out.bytes(),
        b"bits 1 rows 6 cells 18 wires 20 delay 5\n01\n10\n".as_slice()
    );
    Ok(())
}
