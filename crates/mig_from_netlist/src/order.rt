// The order in which signals get their literals. Nothing depends on it but which nodes there are.
use aq_base::Memory;
use blif_read::Netlist;
use circuit::Answers;
use std::alloc::Global;

/// A signal whose inputs before `at` were walked.
#[derive(Clone, Copy)]
struct Visit {
    signal: u32,
    at: usize,
}

/// The signals that a signal reads.
fn reads(net: &Netlist, signal: u32) -> &[u32] {
    let inputs = net.input_count();
    if signal < inputs {
        return &[];
    }
    match net.defs().as_slice().get((signal - inputs) as usize) {
        Some(def) => def.inputs.as_slice(),
        None => &[],
    }
}

/// Puts a signal on the stack that was not there.
fn enter(
    stack: &mut Vec<Visit>,
    seen: &mut Vec<bool>,
    inputs: u32,
    signal: u32,
) -> Result<(), Memory> {
    if signal < inputs {
        return Ok(());
    }
    let place = (signal - inputs) as usize;
    if place >= seen.len() || seen[place] {
        return Ok(());
    }
    seen[place] = true;
    stack.push(Visit { signal, at: 0 })?;
    Ok(())
}

/// The defined signals that the outputs need, in the order in which a depth-first walk leaves them.
pub(crate) fn order_of(alloc: Global, net: &Netlist) -> Result<Vec<u32>, Memory> {
    let inputs = net.input_count();
    let mut seen = vec![in alloc; false; net.defs().len()]?;
    let mut stack: Vec<Visit> = Vec::new(alloc);
    let mut order = Vec::new(alloc);
    for output in net.outputs().as_slice() {
        enter(&mut stack, &mut seen, inputs, *output)?;
        for _turn in 0..u64::MAX {
            let Some(visit) = stack.pop() else {
                break;
            };
            let reads = reads(net, visit.signal);
            if visit.at < reads.len() {
                let below = reads[visit.at];
                stack.push(Visit {
                    signal: visit.signal,
                    at: visit.at + 1,
                })?;
                enter(&mut stack, &mut seen, inputs, below)?;
            } else {
                order.push(visit.signal)?;
            }
        }
    }
    Ok(order)
}
