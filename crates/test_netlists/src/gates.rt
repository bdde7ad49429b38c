// The table of kinds, and a circuit of two crossed wires.
ghost use Rattle.std.specs.Prelude.{◌≡◌, reverse};

use crate::fixtures::answers_so;
use aq_base::{List, Memory};
use circuit::{Answers, CellKind, Gate, Pass, PlainNet, Then, ThenRefusal, Word, answer_word};
use std::alloc::Global;
use std::test::Fail;

#[test]
fn kinds(rt: HostRuntime) -> Result<(), Fail> {
    let rows = [
        (CellKind::Buffer, (1, 1, 1, 1)),
        (CellKind::Inverter, (2, 1, 1, 1)),
        (CellKind::Zero, (3, 0, 1, 1)),
        (CellKind::One, (4, 0, 1, 1)),
        (CellKind::Split2, (5, 1, 2, 2)),
        (CellKind::Split3, (6, 1, 3, 3)),
        (CellKind::Majority, (7, 3, 1, 3)),
    ];
    for (kind, row) in rows {
        assert_eq!(rt;
            (kind.number(), kind.inputs(), kind.outputs(), kind.slots()),
            row
        );
    }
    Ok(())
}

#[derive(Drop)]
struct Crossed;

impl Answers for Crossed {
    ghost use Rattle.std.specs.Prelude.{◌≡◌, reverse};

    ghost inputs = { λ s. 2 };

    ghost outputs = { λ s. 2 };

    ghost meaning = { λ s x y. y ≡ reverse x };

    fn input_count(&self) -> u32 {
        2
    }

    fn output_count(&self) -> u32 {
        2
    }

    fn answer(&self, alloc: Global, word: &Word) -> Result<Word, Memory> {
        let turned = word.as_slice().iter().rev().copied().collect(alloc)?;
        Ok(List::from_vec(turned))
    }
}

#[test]
fn crossed_wires(rt: HostRuntime) -> Result<(), Fail> {
    let mut word = List::new(rt.alloc());
    word.push(true)?;
    word.push(false)?;
    assert_eq!(rt; Crossed.input_count(), 2);
    assert_eq!(rt; Crossed.output_count(), 2);
    let answer = answer_word(rt.alloc(), &Crossed, &word)?;
    assert_eq!(rt; answer.as_slice(), [false, true].as_slice());
    Ok(())
}

// The exclusive or of two inputs: their `or`, and not their `and`.
fn exclusive_or(alloc: Global) -> Result<PlainNet, Memory> {
    let gates = [
        Gate::Input(0),
        Gate::Input(1),
        Gate::Zero,
        Gate::One,
        Gate::Maj(0, 3, 1),
        Gate::Maj(0, 2, 1),
        Gate::Inv(5),
        Gate::Maj(4, 2, 6),
    ];
    Ok(PlainNet {
        inputs: 2,
        gates: List::from_vec(Vec::from_array(alloc, gates)?),
        outputs: List::from_vec(Vec::from_array(alloc, [7, 0])?),
    })
}

// Whether a net answers two values with their exclusive or and the first.
fn is_exclusive_or(
    alloc: Global,
    net: &PlainNet,
    first: bool,
    second: bool,
) -> Result<bool, Memory> {
    let word = List::from_vec(Vec::from_array(alloc, [first, second])?);
    answers_so(alloc, net, &word, &[first != second, first])
}

#[test]
fn gates_answer(rt: HostRuntime) -> Result<(), Fail> {
    let net = exclusive_or(rt.alloc())?;
    assert_eq!(rt; (net.input_count(), net.output_count()), (2, 2));
    for (first, second) in [(false, false), (true, false), (false, true), (true, true)] {
        let right = is_exclusive_or(rt.alloc(), &net, first, second)?;
        assert!(rt; right, "{first} {second}");
    }
    Ok(())
}

// Gives the crossed wires again, or refuses.
#[derive(Drop)]
struct Again {
    refuses: bool,
}

impl Pass<Crossed> for Again {
    ghost use Rattle.std.specs.Prelude.{◌≡◌, reverse, refl};
    ghost use Rattle.circuit.specs.SameAnswers.{SameAnswers};

    type Out = Crossed;

    type Refusal = Memory;

    ghost may_give = { λ s a o. Unit {0} };

    ghost may_meet = { λ s a r. Unit {0} };

    ghost is_memory = { λ r. ⊥ };

    ghost keeps = { λ s a o given. record {
      same_inputs = refl;
      same_outputs = refl;
      there = λ x y long answer. answer;
      back = λ x y long answer. answer;
    } };

    fn run(&self, _alloc: Global, _from: &Crossed) -> Result<Crossed, Memory> {
        if self.refuses {
            Err(Memory)
        } else {
            Ok(Crossed)
        }
    }
}

#[test]
fn one_pass_after_another(rt: HostRuntime) -> Result<(), Fail> {
    for (first, second) in [(false, false), (false, true), (true, false), (true, true)] {
        let both = Then {
            first: Again { refuses: first },
            second: Again { refuses: second },
        };
        let which = match both.run(rt.alloc(), &Crossed) {
            Ok(_) => 0,
            Err(ThenRefusal::First(_)) => 1,
            Err(ThenRefusal::Second(_)) => 2,
        };
        assert_eq!(rt;
            which,
            if first {
                1
            } else if second {
                2
            } else {
                0
            }
        );
    }
    Ok(())
}
