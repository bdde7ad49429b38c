// The comparison of two circuits, by one graph first.
ghost use Rattle.std.specs.Prelude.{◌≡◌, length, IfOk, IfErr, IfSome};
ghost use Rattle.circuit.specs.CellNets.{circuit, IsCells};
ghost use Rattle.decide.specs.Verdicts.{IsVerdict, IsRefusal};
ghost use Rattle.sat_sweep.specs.Code.Least.{IsFound};

use crate::decided::{decided, decided_or};
use crate::differ::differ_at;
use crate::literals::output_literals;
use crate::merged::Merged;
use crate::sweep::swept;
use crate::sweep_result::SweepResult;
use aq_base::Memory;
use circuit::Gate;
use decide::{Cells, DecideRefusal, Verdict};
use mig::GraphRefusal;
use std::alloc::Global;

/// What is found of the outputs of two circuits in a graph of their inputs, by its structure and by a sweep. A word at
/// which outputs should differ is tried on the circuits.
#[tactic(auto, using(crate::proofs::Compared::seen_difference))]
fn compare(
    alloc: Global,
    graph: &mut Merged,
    gates: &[Gate],
    outputs: &[u32],
    other_gates: &[Gate],
    other_outputs: &[u32],
) -> Result<Option<Verdict>, GraphRefusal>
    requires first { IsCells (circuit graph.old.inputs gates.now outputs.now) }
    requires second { IsCells (circuit graph.old.inputs other_gates.now other_outputs.now) }
    requires outputs { length other_outputs.now ≡ length outputs.now }
    ensures { IfOk result (λ found. IfSome found (IsFound (circuit graph.old.inputs gates.now outputs.now)
        (circuit graph.old.inputs other_gates.now other_outputs.now))) }
{
    let ones = output_literals(alloc, graph, gates, outputs)?;
    let others = output_literals(alloc, graph, other_gates, other_outputs)?;
    let found = swept(alloc, graph, &ones, &others)?;
    graph.known();
    match found {
        SweepResult::Equal => Ok(Some(Verdict::Equal)),
        SweepResult::Undecided => Ok(None),
        SweepResult::LeastCounterexample { place, word } => {
            let (one, other) = (outputs[place], other_outputs[place]);
            if differ_at(alloc, gates, one, other_gates, other, word.as_slice())? {
                let output = place as u32;
                Ok(Some(Verdict::LeastDifference { output, word }))
            } else {
                Ok(None)
            }
        }
        SweepResult::Counterexample { place, word } => {
            let (one, other) = (outputs[place], other_outputs[place]);
            if differ_at(alloc, gates, one, other_gates, other, word.as_slice())? {
                let output = place as u32;
                Ok(Some(Verdict::SomeDifference { output, word }))
            } else {
                Ok(None)
            }
        }
    }
}

/// The same, in a graph of its own.
fn compare_cells(alloc: Global, one: &Cells, other: &Cells) -> Result<Option<Verdict>, GraphRefusal>
    requires inputs { other.now.inputs ≡ one.now.inputs }
    requires outputs { length other.now.outputs ≡ length one.now.outputs }
    ensures { IfOk result (λ found. IfSome found (IsFound one.now other.now)) }
{
    let mut graph = Merged::new(alloc, one.inputs)?;
    compare(
        alloc,
        &mut graph,
        one.gates.as_slice(),
        one.outputs.as_slice(),
        other.gates.as_slice(),
        other.outputs.as_slice(),
    )
}

/// How many gates are majorities.
fn majorities(gates: &[Gate]) -> usize {
    gates
        .iter()
        .filter(|gate| matches!(gate, Gate::Maj(_, _, _)))
        .count()
}

/// The same, where the gates of one of the two come first, into which those of the other one are merged.
fn compare_in_order(
    alloc: Global,
    one: &Cells,
    other: &Cells,
    is_first: bool,
) -> Result<Option<Verdict>, GraphRefusal>
    requires inputs { other.now.inputs ≡ one.now.inputs }
    requires outputs { length other.now.outputs ≡ length one.now.outputs }
    ensures { IfOk result (λ found. IfSome found (IsFound one.now other.now)) }
{
    if is_first {
        compare_cells(alloc, one, other)
    } else {
        compare_cells(alloc, other, one)
    }
}

/// The same in both orders, until something is found: the smaller circuit first, and then the larger one.
fn compare_in_both(
    alloc: Global,
    one: &Cells,
    other: &Cells,
) -> Result<Option<Verdict>, GraphRefusal>
    requires inputs { other.now.inputs ≡ one.now.inputs }
    requires outputs { length other.now.outputs ≡ length one.now.outputs }
    ensures { IfOk result (λ found. IfSome found (IsFound one.now other.now)) }
{
    let is_larger = majorities(other.gates.as_slice()) < majorities(one.gates.as_slice());
    match compare_in_order(alloc, one, other, !is_larger)? {
        None => compare_in_order(alloc, one, other, is_larger),
        found => Ok(found),
    }
}

/// What is found of two circuits of the same counts without their diagram. Their gates are made into one graph of
/// majorities, where an inverter turns a literal and a buffer keeps it. Where the literals of their outputs are not the
/// same, nodes that have the same values at many words are compared, lowest first, and merged where searches prove them
/// equal, in a second graph too, with the circuits in the other order, where the first one tells nothing; where outputs
/// differ, searches find the least word. `SomeDifference` has an output that differs at its word, and says
/// nothing of others. `None` says nothing at all. These two come where the searches would take too much work, which is
/// counted and the same in each run, or where the graph would have 2^30 nodes.
pub fn swept_verdict(alloc: Global, one: &Cells, other: &Cells) -> Result<Option<Verdict>, Memory>
    requires inputs { other.now.inputs ≡ one.now.inputs }
    requires outputs { length other.now.outputs ≡ length one.now.outputs }
    ensures { IfOk result (λ found. IfSome found (IsFound one.now other.now)) }
{
    match compare_in_both(alloc, one, other) {
        Ok(found) => Ok(found),
        Err(GraphRefusal::TooManyNodes) => Ok(None),
        Err(GraphRefusal::Memory) => Err(Memory),
    }
}

/// Whether two circuits of the same counts answer every word alike, and where they do not, the least output on which
/// some word gives different values, and the least such word. Most are decided by one graph of both, whose nodes are
/// merged where they are alike, however large their diagram would be; the diagram decides all others. `TooMany` comes
/// only where the two circuits have more than 1,000,000 subfunctions, and `Memory` only where memory is refused. In the
/// place of `TooMany` a difference is told that need not be the least, where one is known.
pub fn verdict(alloc: Global, a: &Cells, b: &Cells) -> Result<Verdict, DecideRefusal>
    requires inputs { b.now.inputs ≡ a.now.inputs }
    requires outputs { length b.now.outputs ≡ length a.now.outputs }
    ensures verdict { IfOk result (IsVerdict a.now b.now) }
    ensures refusal { IfErr result (IsRefusal a.now b.now) }
{
    match swept_verdict(alloc, a, b)? {
        None => decided(alloc, a, b),
        Some(Verdict::SomeDifference { output, word }) => decided_or(alloc, a, b, output, word),
        Some(Verdict::Equal) => Ok(Verdict::Equal),
        Some(Verdict::LeastDifference { output, word }) => Ok(Verdict::LeastDifference {
            output,
            word,
        }),
    }
}
