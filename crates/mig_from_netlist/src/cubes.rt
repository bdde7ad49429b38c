// Covers by their planes.
ghost use Rattle.std.specs.Prelude.{ℕ, Bool, ◌≡◌, ◌++◌, false, map, IfOk, OnOk};
ghost use Rattle.mig.specs.Graphs.{literal_value};
ghost use Rattle.mig.specs.Building.{BuilderView, Grown, Gives, AllThere};
ghost use Rattle.mig_from_netlist.specs.declared.fold.Join.TheVariants.{And};
ghost use Rattle.mig_from_netlist.specs.Code.Covers.{takes_all, cover};
ghost use Rattle.mig_from_netlist.specs.Code.Joins.{joined, literals_of, AreCubes};

use crate::decompose::input_at;
use crate::fold::{Join, fold};
use blif_read::{Cube, Def};
use mig::{Builder, GraphRefusal, turned};
use std::alloc::Global;

/// Adds the literal of a byte of a plane.
fn push_literal(literals: &mut Vec<u32>, byte: u8, input: u32) -> Result<(), GraphRefusal>
    ensures { OnOk result (literals.new.items ≡ literals.old.items ++ literals_of byte input) }
{
    if byte == b'-' {
        return Ok(());
    }
    if byte == b'1' {
        literals.push(input)?;
    } else if byte == b'0' {
        literals.push(turned(input))?;
    } else {
        literals.push(0)?;
    }
    Ok(())
}

/// The literals of a plane, left to right.
fn literals(alloc: Global, plane: &[u8], inputs: &[u32]) -> Result<Vec<u32>, GraphRefusal>
    ensures there { (b : BuilderView) → AllThere b inputs.now → IfOk result (λ ls. AllThere b ls.items) }
    ensures values { (v : ℕ → Bool) → v 0 ≡ false → IfOk result (λ ls. joined And (map (literal_value v) ls.items)
        ≡ takes_all plane.now (map (literal_value v) inputs.now)) }
{
    let mut made = Vec::new(alloc);
    for (i, byte) in plane.iter().enumerate() {
        let Some(input) = input_at(inputs, i) else {
            return Ok(made);
        };
        push_literal(&mut made, *byte, input)?;
    }
    Ok(made)
}

/// True where the plane takes the values of the inputs.
fn cube(
    alloc: Global,
    builder: &mut Builder,
    plane: &[u8],
    inputs: &[u32],
) -> Result<u32, GraphRefusal>
    requires { AllThere builder.old inputs.now }
    ensures grown { Grown builder.old builder.new }
    ensures given { IfOk result (λ l. Gives builder.new l
        (λ v. takes_all plane.now (map (literal_value v) inputs.now))) }
{
    let literals = literals(alloc, plane, inputs)?;
    fold(builder, Join::And, &literals)
}

/// All cubes, in order.
fn cubes(
    alloc: Global,
    builder: &mut Builder,
    cubes: &[Cube],
    inputs: &[u32],
) -> Result<Vec<u32>, GraphRefusal>
    requires { AllThere builder.old inputs.now }
    ensures grown { Grown builder.old builder.new }
    ensures made { IfOk result (λ ls. AreCubes builder.new ls.items cubes.now inputs.now) }
{
    let mut made = Vec::with_capacity(alloc, cubes.len())?;
    for one in cubes {
        let literal = cube(alloc, builder, one.plane.as_slice(), inputs)?;
        made.push(literal)?;
    }
    Ok(made)
}

/// A cover by its cubes: their disjunction, or its complement where they say where it is false.
pub(crate) fn by_cubes(
    alloc: Global,
    builder: &mut Builder,
    def: &Def,
    inputs: &[u32],
) -> Result<u32, GraphRefusal>
    requires { AllThere builder.old inputs.now }
    ensures grown { Grown builder.old builder.new }
    ensures given { IfOk result (λ l. Gives builder.new l
        (λ v. cover def.now (map (literal_value v) inputs.now))) }
{
    let cubes = cubes(alloc, builder, def.cubes.as_slice(), inputs)?;
    let any = fold(builder, Join::Or, &cubes)?;
    if def.on { Ok(any) } else { Ok(turned(any)) }
}
