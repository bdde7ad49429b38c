// Passes: what makes another circuit of a circuit, with the same answers.
ghost use Rattle.std.specs.Prelude.{IfOk, IfErr, ◌⊎◌};
ghost use Rattle.circuit.specs.SameAnswers.{SameAnswers};
ghost use Rattle.circuit.specs.Composed.{OfPart};

use crate::Answers;
use std::alloc::Global;

/// Makes a circuit of another circuit. What it makes has as many inputs and outputs as the one that it is given, and
/// the same answer to every word. What a pass needs of its own fields is kept by its type.
pub trait Pass<A: Answers> {
    /// What is made.
    type Out: Answers + Drop;

    /// Why nothing is made.
    type Refusal: Drop;

    /// The input may give the output.
    ghost may_give: { Self → A → Self.Out → Type 0 };

    /// The input may meet the refusal.
    ghost may_meet: { Self → A → Self.Refusal → Type 0 };

    /// The refusal is want of memory.
    ghost is_memory: { Self.Refusal → Type 0 };

    /// Makes an output that the input may give. A refusal is want of memory, or one that the input may meet.
    fn run(&self, alloc: Global, from: &A) -> Result<Self::Out, Self::Refusal>
        ensures given { IfOk result (λ out. may_give self.now from.now out) }
        ensures met { IfErr result (λ refusal. is_memory refusal ⊎ may_meet self.now from.now refusal) };

    /// The law of passes: an output that an input may give has its counts, and its answer to every word.
    ghost keeps: { (s : Self) (a : A) (o : Self.Out) → may_give s a o
        → SameAnswers (A.inputs a) (Self.Out.inputs o) (A.outputs a) (Self.Out.outputs o)
        (A.meaning a) (Self.Out.meaning o) };
}

/// The second pass after the first.
#[derive(Drop)]
pub struct Then<P, Q> {
    pub first: P,
    pub second: Q,
}

/// The refusal of the first pass, or that of the second.
#[derive(Debug, Drop)]
pub enum ThenRefusal<R, S> {
    First(R),
    Second(S),
}

impl<A: Answers, P: Pass<A>, Q: Pass<P::Out>> Pass<A> for Then<P, Q> {
    ghost use Rattle.std.proofs.Common.{sym, ◌∙◌};

    type Out = Q::Out;

    type Refusal = ThenRefusal<P::Refusal, Q::Refusal>;

    ghost may_give = { λ s a o. (m : P.Out) × P.may_give s.first a m × Q.may_give s.second m o };

    ghost may_meet = { λ s a r. OfPart (P.may_meet s.first a)
        (λ t. (m : P.Out) × P.may_give s.first a m × Q.may_meet s.second m t) r };

    ghost is_memory = { OfPart P.is_memory Q.is_memory };

    ghost keeps = { λ s a o h.
        let one = P.keeps s.first a h.0 h.1 in
        let two = Q.keeps s.second h.0 o h.2 in
        record {
          same_inputs = two.same_inputs ∙ one.same_inputs;
          same_outputs = two.same_outputs ∙ one.same_outputs;
          there = λ x y long m. two.there x y (long ∙ sym one.same_inputs) (one.there x y long m);
          back = λ x y long m. one.back x y long (two.back x y (long ∙ sym one.same_inputs) m);
        } };

    fn run(&self, alloc: Global, from: &A) -> Result<Self::Out, Self::Refusal> {
        match self.first.run(alloc, from) {
            Ok(middle) => match self.second.run(alloc, &middle) {
                Ok(out) => Ok(out),
                Err(refusal) => Err(ThenRefusal::Second(refusal)),
            },
            Err(refusal) => Err(ThenRefusal::First(refusal)),
        }
    }
}
