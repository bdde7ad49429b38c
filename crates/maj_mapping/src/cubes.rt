// The gates of a definition by its cubes.
ghost use Rattle.std.specs.Prelude.{◌≡◌, ◌<◌, ◌^◌, ◌++◌, length, IfOk, OnOk};
ghost use Rattle.circuit.specs.PlainNets.{AreGates};
ghost use Rattle.maj_mapping.specs.Code.MakerView.{with_gates};
ghost use Rattle.maj_mapping.specs.Code.Literals.{literal};
ghost use Rattle.maj_mapping.specs.Covers.{literals, cube_made, cubes_made, by_cubes};
ghost use Rattle.maj_mapping.specs.Values.{HasPlanes};
ghost use Rattle.maj_mapping.specs.Counts.{AllBelow};

use crate::maker::{Join, Maker};
use aq_base::Memory;
use blif_read::{Cube, Def};
use std::alloc::Global;

/// Adds the literal of a byte of a plane: the input for `1`, its inverse for `0`, and nothing for `-`.
fn push_literal(
    maker: &mut Maker,
    literals: &mut Vec<u32>,
    byte: u8,
    input: u32,
) -> Result<(), Memory>
    requires inside { input < length maker.old.gates }
    requires room { length (literal maker.old.inputs maker.old.gates byte input).gates < 2 ^ 32 }
    ensures gates { OnOk result (maker.new
        ≡ with_gates maker.old (literal maker.old.inputs maker.old.gates byte input).gates) }
    ensures more { OnOk result (literals.new.items
        ≡ literals.old.items ++ (literal maker.old.inputs maker.old.gates byte input).ats) }
{
    if byte == b'1' {
        literals.push(input)?;
        return Ok(());
    }
    if byte == b'0' {
        let inverse = maker.inv(input)?;
        literals.push(inverse)?;
        return Ok(());
    }
    Ok(())
}

/// The literals of a plane over the gates of the inputs, left to right.
fn literals(
    alloc: Global,
    maker: &mut Maker,
    plane: &[u8],
    inputs: &[u32],
) -> Result<Vec<u32>, Memory>
    requires good { AreGates maker.old.inputs maker.old.gates }
    requires below { AllBelow (length maker.old.gates) inputs.now }
    requires room { length (literals maker.old.inputs maker.old.gates plane.now inputs.now).gates < 2 ^ 32 }
    ensures gates { OnOk result (maker.new
        ≡ with_gates maker.old (literals maker.old.inputs maker.old.gates plane.now inputs.now).gates) }
    ensures all { IfOk result (λ r. r.items ≡ (literals maker.old.inputs maker.old.gates plane.now inputs.now).ats) }
{
    let mut made = Vec::new(alloc);
    for (i, byte) in plane.iter().enumerate() {
        let Some(input) = inputs.get(i) else {
            return Ok(made);
        };
        push_literal(maker, &mut made, *byte, *input)?;
    }
    Ok(made)
}

/// The `and` of the literals of a plane.
fn cube(alloc: Global, maker: &mut Maker, plane: &[u8], inputs: &[u32]) -> Result<u32, Memory>
    requires good { AreGates maker.old.inputs maker.old.gates }
    requires below { AllBelow (length maker.old.gates) inputs.now }
    requires room { length (cube_made maker.old.inputs maker.old.gates inputs.now plane.now).gates < 2 ^ 32 }
    ensures gates { OnOk result (maker.new
        ≡ with_gates maker.old (cube_made maker.old.inputs maker.old.gates inputs.now plane.now).gates) }
    ensures at { IfOk result (λ r. r ≡ (cube_made maker.old.inputs maker.old.gates inputs.now plane.now).at) }
{
    let literals = literals(alloc, maker, plane, inputs)?;
    maker.fold(Join::And, &literals)
}

/// All cubes, in order.
fn cubes(
    alloc: Global,
    maker: &mut Maker,
    cubes: &[Cube],
    inputs: &[u32],
) -> Result<Vec<u32>, Memory>
    requires good { AreGates maker.old.inputs maker.old.gates }
    requires below { AllBelow (length maker.old.gates) inputs.now }
    requires planes { HasPlanes cubes.now }
    requires room { length (cubes_made maker.old.inputs maker.old.gates inputs.now cubes.now).gates < 2 ^ 32 }
    ensures gates { OnOk result (maker.new
        ≡ with_gates maker.old (cubes_made maker.old.inputs maker.old.gates inputs.now cubes.now).gates) }
    ensures all { IfOk result (λ r. r.items ≡ (cubes_made maker.old.inputs maker.old.gates inputs.now cubes.now).ats) }
{
    let mut made = Vec::with_capacity(alloc, cubes.len())?;
    for one in cubes {
        let gate = cube(alloc, maker, one.plane.as_slice(), inputs)?;
        made.push(gate)?;
    }
    Ok(made)
}

/// The `or` of the cubes of a definition, or its inverse where the cubes say where it is false.
pub fn by_cubes(alloc: Global, maker: &mut Maker, def: &Def, inputs: &[u32]) -> Result<u32, Memory>
    requires good { AreGates maker.old.inputs maker.old.gates }
    requires below { AllBelow (length maker.old.gates) inputs.now }
    requires planes { HasPlanes def.now.cubes }
    requires room { length (by_cubes maker.old.inputs maker.old.gates inputs.now def.now).gates < 2 ^ 32 }
    ensures gates { OnOk result (maker.new
        ≡ with_gates maker.old (by_cubes maker.old.inputs maker.old.gates inputs.now def.now).gates) }
    ensures at { IfOk result (λ r. r ≡ (by_cubes maker.old.inputs maker.old.gates inputs.now def.now).at) }
{
    let cubes = cubes(alloc, maker, def.cubes.as_slice(), inputs)?;
    let any = maker.fold(Join::Or, &cubes)?;
    if def.on {
        return Ok(any);
    }
    maker.inv(any)
}
