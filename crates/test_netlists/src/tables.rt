// Recipes that were written out by hand.
ghost use Rattle.std.specs.Prelude.{◌<◌};

use case_tables::Operand::{A, B, C, Step as R};
use case_tables::Step::{And, Inv, Maj, Or};
use case_tables::{Operand, Step, Table, three_inputs, two_inputs};
use std::test::Fail;

// Whether the function of a number is made by these steps.
fn is_made_by<const N: usize>(table: &Table<N>, number: u16, steps: &[Step]) -> bool
    requires { number < N }
{
    table.recipe(number).steps.as_slice() == steps
}

// The operand that is the function of a number.
fn out<const N: usize>(table: &Table<N>, number: u16) -> Operand
    requires { number < N }
{
    table.recipe(number).out
}

#[test]
fn recipes_of_two_inputs(rt: HostRuntime) -> Result<(), Fail> {
    let table = two_inputs(rt.alloc())?;
    let exclusive_or = [Or(A, B), And(A, B), Inv(R(1)), And(R(0), R(2))];
    assert!(rt; is_made_by(&table, 6, &exclusive_or));
    assert!(rt; out(&table, 6) == R(3));
    assert!(rt; is_made_by(&table, 12, &[]));
    assert!(rt; out(&table, 12) == B);
    Ok(())
}

#[test]
fn recipes_of_three_inputs(rt: HostRuntime) -> Result<(), Fail> {
    let table = three_inputs(rt.alloc())?;
    assert!(rt; is_made_by(&table, 232, &[Maj(A, C, B)]));
    let choice = [Inv(C), And(A, R(0)), And(B, C), Or(R(1), R(2))];
    assert!(rt; is_made_by(&table, 202, &choice));
    assert!(rt; out(&table, 202) == R(3));
    let odd = table.recipe(150).steps.as_slice();
    assert_eq!(rt; odd.len(), 8);
    assert!(rt; odd.get(5) == Some(&And(R(3), C)));
    Ok(())
}
