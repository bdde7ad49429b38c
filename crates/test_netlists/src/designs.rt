// A design with the netlist that it says, and one with a cycle through a call.
use blif_flat::{FlatRefusal, read_design};
use blif_read::{BlifFault, Netlist};
use circuit::Answers;
use std::alloc::{AllocError, Global};
use std::test::Fail;

const HALF_ADDER: &[u8] =
    b".model top\n.inputs a b\n.outputs s c\n.subckt half x=a y=b p=s q=c\n.end\n.model half\n.inputs x y\n.outputs p q\n.names x y p\n10 1\n01 1\n.names x y q\n11 1\n.end\n";

fn has_outputs(net: &Netlist, inputs: u32, names: u32, outputs: &[u32]) -> bool {
    net.input_count() == inputs && net.name_count() == names && net.outputs().as_slice() == outputs
}

#[test]
fn a_half_adder_in_a_call(rt: HostRuntime) -> Result<(), Fail> {
    match read_design(rt.alloc(), HALF_ADDER) {
        Ok(net) => assert!(rt; has_outputs(&net, 2, 8, &[6, 7])),
        Err(_) => assert!(rt; false),
    }
    Ok(())
}

/// The line of a cycle, and its signals, each before a blank.
fn cycle_of(alloc: Global, fault: &BlifFault) -> Result<(u64, Vec<u8>), AllocError> {
    let mut names = Vec::new(alloc);
    match fault {
        BlifFault::Cycle { line, signals } => {
            for name in signals.as_slice() {
                names.extend_from_slice(name.as_slice())?;
                names.push(b' ')?;
            }
            Ok((*line, names))
        }
        BlifFault::Line { line: _, kind: _ } => Ok((0, names)),
    }
}

#[test]
fn a_cycle_through_a_call(rt: HostRuntime) -> Result<(), Fail> {
    let text = b".outputs y\n.subckt m x=y o=y\n.model m\n.inputs x\n.outputs o\n.names x o\n1 1\n";
    match read_design(rt.alloc(), text) {
        Err(FlatRefusal::Text(fault)) => {
            let (line, names) = cycle_of(rt.alloc(), &fault)?;
            assert_eq!(rt; line, 2);
            assert_eq!(rt; names.as_slice(), b"#1.x y #1.o ".as_slice());
        }
        _other => assert!(rt; false),
    }
    Ok(())
}
