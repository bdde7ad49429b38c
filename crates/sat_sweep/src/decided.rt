// The diagram's verdict, or a difference that needs no diagram.
ghost use Rattle.std.specs.Prelude.{◌≡◌, length, IfOk, IfErr};
ghost use Rattle.decide.specs.Verdicts.{IsVerdict, IsRefusal};
ghost use Rattle.sat_sweep.specs.Code.Differences.{IsDifference};

use crate::some_difference::{Difference, some_difference};
use circuit::Word;
use decide::{Cells, DecideRefusal, Verdict, decide};
use std::alloc::Global;

/// The diagram's verdict; where the diagram is too large, a difference that some word shows, if one was found.
#[tactic(auto, using(crate::proofs::Differing::differs))]
pub(crate) fn decided(alloc: Global, a: &Cells, b: &Cells) -> Result<Verdict, DecideRefusal>
    requires inputs { b.now.inputs ≡ a.now.inputs }
    requires outputs { length b.now.outputs ≡ length a.now.outputs }
    ensures verdict { IfOk result (IsVerdict a.now b.now) }
    ensures refusal { IfErr result (IsRefusal a.now b.now) }
{
    match decide(alloc, a, b) {
        Err(DecideRefusal::TooMany { functions }) => match some_difference(alloc, a, b)? {
            Some(Difference { output, word }) => Ok(Verdict::SomeDifference { output, word }),
            None => Err(DecideRefusal::TooMany { functions }),
        },
        answer => answer,
    }
}

/// The diagram's verdict; where the diagram is too large, this difference.
#[tactic(auto, using(crate::proofs::Differing::differs))]
pub(crate) fn decided_or(
    alloc: Global,
    a: &Cells,
    b: &Cells,
    output: u32,
    word: Word,
) -> Result<Verdict, DecideRefusal>
    requires inputs { b.now.inputs ≡ a.now.inputs }
    requires outputs { length b.now.outputs ≡ length a.now.outputs }
    requires seen { IsDifference a.now b.now output word }
    ensures verdict { IfOk result (IsVerdict a.now b.now) }
    ensures refusal { IfErr result (IsRefusal a.now b.now) }
{
    match decide(alloc, a, b) {
        Err(DecideRefusal::TooMany { .. }) => Ok(Verdict::SomeDifference { output, word }),
        answer => answer,
    }
}
