// The least word at which two literals differ, by searches.
ghost use Rattle.std.specs.Prelude.{◌≡◌, ◌+◌, ◌<◌, ◌^◌, ◌++◌, ◌∷◌, [], IfOk, IfSome, IsTrue, length};
ghost use Rattle.sat_solver.specs.declared.answer.Answer.TheVariants as answers;
ghost use Rattle.sat_sweep.specs.Code.Least.{AreAlikeWhere, AreAlikeBefore, IsNextLiteral, IsLeastWord};

use aq_base::{List, Memory};
use circuit::Word;
use mig::{Builder, turned};
use sat_solver::{Answer, Budget, Solver};
use std::alloc::Global;

/// These literals and three more.
fn with_three(alloc: Global, first: &[u32], x: u32, y: u32, z: u32) -> Result<Vec<u32>, Memory>
    ensures { IfOk result (λ all. all.items ≡ ((first.now ++ x ∷ []) ++ y ∷ []) ++ z ∷ []) }
{
    let mut all = Vec::from_slice(alloc, first)?;
    all.push(x)?;
    all.push(y)?;
    all.push(z)?;
    Ok(all)
}

/// The rest of a word from a place on, from another one.
fn take_rest(word: &mut [bool], from: usize, other: &[bool]) {
    for place in from..word.len() {
        word[place] = other.get(place).copied().unwrap_or(false);
    }
}

/// Two literals of a graph that are compared: a miter, which is satisfied by the words at which they differ.
#[derive(Clone, Copy)]
pub(crate) struct Miter<'a> {
    pub(crate) alloc: Global,
    pub(crate) graph: &'a Builder,
    pub(crate) one: u32,
    pub(crate) other: u32,
}

impl Miter<'_> {
    /// Whether the two literals have one value under the assumptions that these first literals and one more are true.
    #[tactic(auto, using(crate::proofs::LeastWords::both_refuted))]
    fn compare_under(
        &self,
        solver: &mut Solver,
        first: &[u32],
        more: u32,
        budget: &mut Budget,
    ) -> Result<Answer, Memory>
        ensures { IfOk result (λ found. found ≡ answers.Unsatisfiable
            → AreAlikeWhere self.now.graph.now first.now more self.now.one self.now.other) }
    {
        let no_one = turned(self.one);
        let no_other = turned(self.other);
        let assumed = with_three(self.alloc, first, more, self.one, no_other)?;
        match solver.refute(self.graph, &assumed, budget)? {
            Answer::Unsatisfiable => {
                let second = with_three(self.alloc, first, more, no_one, self.other)?;
                solver.refute(self.graph, &second, budget)
            }
            found => Ok(found),
        }
    }

    /// The literal that an input has at a word, if no word that is lower there tells the two literals apart.
    fn next_literal(
        &self,
        solver: &mut Solver,
        first: &[u32],
        own: u32,
        is_true: bool,
        budget: &mut Budget,
    ) -> Result<Option<u32>, Memory>
        requires { own + 1 < 2 ^ 32 }
        ensures { IfOk result (λ some.
            IfSome some (IsNextLiteral self.now.graph.now first.now own is_true self.now.one self.now.other)) }
    {
        if !is_true {
            return Ok(Some(own + 1));
        }
        match self.compare_under(solver, first, own + 1, budget)? {
            Answer::Unsatisfiable => Ok(Some(own)),
            _ => Ok(None),
        }
    }

    /// Whether the two literals have one value at each word before this one.
    #[tactic(auto, using(crate::proofs::LeastWords::least_more, crate::proofs::LeastWords::alike_before))]
    fn are_alike_before(
        &self,
        solver: &mut Solver,
        word: &[bool],
        budget: &mut Budget,
    ) -> Result<bool, Memory>
        requires { length word.now ≡ self.now.graph.now.inputs }
        ensures { IfOk result (λ alike.
            IsTrue alike → AreAlikeBefore self.now.graph.now word.now self.now.one self.now.other) }
    {
        self.graph.known();
        let mut first = Vec::new(self.alloc);
        for input in 0..word.len() {
            let own = 2 * (1 + input as u32);
            let is_true = word[input];
            match self.next_literal(solver, &first, own, is_true, budget)? {
                None => return Ok(false),
                Some(literal) => first.push(literal)?,
            }
        }
        Ok(true)
    }

    /// Makes a word at which the two literals differ lower, as far as searches find one. No clause speaks of it.
    pub(crate) fn lower(
        &self,
        solver: &mut Solver,
        word: &mut [bool],
        budget: &mut Budget,
    ) -> Result<(), Memory> {
        let mut first = Vec::new(self.alloc);
        let mut literal = 2u32;
        for input in 0..word.len() {
            let no = literal.saturating_add(1);
            if word[input]
                && 0 < budget.work.left
                && self.compare_under(solver, &first, no, budget)? == Answer::Word
            {
                take_rest(word, input, solver.word());
            }
            first.push(if word[input] { literal } else { no })?;
            literal = literal.saturating_add(2);
        }
        Ok(())
    }

    /// A word, if the two literals have one value at each word before it.
    pub(crate) fn least_or_none(
        &self,
        solver: &mut Solver,
        word: Vec<bool>,
        budget: &mut Budget,
    ) -> Result<Option<Word>, Memory>
        requires { length word.items ≡ self.now.graph.now.inputs }
        ensures { IfOk result (λ some.
            IfSome some (IsLeastWord self.now.graph.now self.now.one self.now.other)) }
    {
        if self.are_alike_before(solver, &word, budget)? {
            Ok(Some(List::from_vec(word)))
        } else {
            Ok(None)
        }
    }
}
