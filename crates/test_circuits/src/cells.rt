// The first chip, two buffers one above the other, against a wire and against an inverter.
ghost use Rattle.std.specs.Prelude.{◌≡◌, ◌<◌, IfOk, length};
ghost use Rattle.circuit_extracted.specs.FirstCircuit.{first_circuit};

use crate::fixtures::word;
use aq_base::{List, Memory};
use circuit::{Gate, answer_word};
use circuit_extracted::two_buffers;
use circuit_gates::extracted_cells;
use decide::{Cells, DecideRefusal, Verdict, decide};
use std::alloc::Global;
use std::test::Fail;

// The chip's gates.
#[tactic(auto, unfolding(circuit_extracted::specs::FirstCircuit::first_circuit))]
fn chip(alloc: Global) -> Result<Cells, Memory>
    ensures inputs { IfOk result (λ c. c.inputs ≡ 1) }
    ensures outputs { IfOk result (λ c. length c.outputs ≡ 1) }
{
    let circuit = two_buffers(alloc)?;
    extracted_cells(alloc, &circuit)
}

// One input, and its complement where that is wanted.
fn wire(alloc: Global, inverted: bool) -> Result<Cells, Memory>
    ensures inputs { IfOk result (λ c. c.inputs ≡ 1) }
    ensures outputs { IfOk result (λ c. length c.outputs ≡ 1) }
{
    let last = if inverted { Gate::Inv(0) } else { Gate::Buf(0) };
    let gates = [Gate::Input(0), last];
    Ok(Cells {
        inputs: 1,
        gates: List::from_vec(Vec::from_array(alloc, gates)?),
        outputs: List::from_vec(Vec::from_array(alloc, [1])?),
    })
}

// Whether the gates answer the value of their one input with it.
fn shows(alloc: Global, cells: &Cells, value: bool) -> Result<bool, Memory>
    requires { cells.now.inputs ≡ 1 }
{
    let word = word(alloc, [value])?;
    let answer = answer_word(alloc, cells, &word)?;
    Ok(answer.as_slice() == [value].as_slice())
}

#[test]
fn first_chip(rt: HostRuntime) -> Result<(), Fail> {
    let cells = chip(rt.alloc())?;
    let gates = [Gate::Input(0), Gate::Buf(0), Gate::Buf(1)];
    assert!(rt; cells.gates.as_slice() == gates.as_slice());
    assert_eq!(rt; cells.outputs.as_slice(), [2].as_slice());
    for value in [false, true] {
        assert!(rt; shows(rt.alloc(), &cells, value)?, "{value}");
    }
    Ok(())
}

// The verdict on the chip's gates against a wire, or its complement.
fn verdict(alloc: Global, cells: &Cells, inverted: bool) -> Result<Verdict, DecideRefusal>
    requires inputs { cells.now.inputs ≡ 1 }
    requires outputs { length cells.now.outputs ≡ 1 }
{
    let wire = wire(alloc, inverted)?;
    decide(alloc, cells, &wire)
}

#[test]
fn compared(rt: HostRuntime) -> Result<(), Fail> {
    let cells = chip(rt.alloc())?;
    assert!(rt; matches!(verdict(rt.alloc(), &cells, false), Ok(Verdict::Equal)));
    match verdict(rt.alloc(), &cells, true) {
        Ok(Verdict::LeastDifference { output, word }) => {
            assert_eq!(rt; output, 0);
            assert_eq!(rt; word.as_slice(), [false].as_slice());
        }
        _other => assert!(rt; false),
    }
    Ok(())
}
