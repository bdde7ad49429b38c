// The circuit of the first chip answers words.
use crate::fixtures::word;
use aq_base::Memory;
use circuit::{Answers, answer_word};
use circuit_extracted::{Extracted, one_answer, two_buffers};
use std::alloc::Global;
use std::test::Fail;

// Whether a copy of the circuit is the same.
fn is_copied(circuit: &Extracted) -> Result<bool, Memory> {
    let copy = circuit.clone()?;
    Ok(*circuit == copy)
}

// Whether the circuit has one input and one output, which shows this value where the input has it.
fn shows(alloc: Global, circuit: &Extracted, value: bool) -> Result<bool, Memory> {
    if circuit.input_count() != 1 || circuit.output_count() != 1 {
        return Ok(false);
    }
    let word = word(alloc, [value])?;
    let answer = answer_word(alloc, circuit, &word)?;
    Ok(answer.as_slice() == [value].as_slice())
}

#[test]
fn first_chip(rt: HostRuntime) -> Result<(), Fail> {
    one_answer();
    let circuit = two_buffers(rt.alloc())?;
    circuit.known();
    assert!(rt; is_copied(&circuit)?);
    assert!(rt; shows(rt.alloc(), &circuit, true)?);
    Ok(())
}
