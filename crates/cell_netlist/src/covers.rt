// What the definition of a cell computes.
ghost use Rattle.std.specs.Prelude.{◌≡◌, [], ◌∷◌, Bool, true, false, IfOk};
ghost use Rattle.circuit.specs.Function.{majority};
ghost use Rattle.blif_read.specs.Equations.{takes};
ghost use Rattle.cell_netlist.specs.Kinds.{Computes, IsGateOf, AreGatesOf};
ghost use Rattle.cell_netlist.specs.Code.Covers.{takes_each, cover_at, IsMajority};

use aq_base::Memory;
use blif_read::Def;
use circuit::{CellKind, Gate};
use std::alloc::Global;

/// A byte of a plane takes a value: `-` takes both, `1` takes true and `0` takes false.
fn takes(byte: u8, value: bool) -> bool
    ensures { result ≡ takes byte value }
{
    if value {
        byte == b'-' || byte == b'1'
    } else {
        byte == b'-' || byte == b'0'
    }
}

/// The plane takes these values, place by place.
fn takes_each(plane: &[u8], values: &[bool]) -> bool
    ensures { result ≡ takes_each plane.now values.now }
{
    for (i, byte) in plane.iter().enumerate() {
        if i >= values.len() {
            return true;
        }
        if !takes(*byte, values[i]) {
            return false;
        }
    }
    true
}

/// The value of a cover whose inputs have these.
fn cover_at(def: &Def, values: &[bool]) -> bool
    ensures { result ≡ cover_at def.now values.now }
{
    for cube in def.cubes.as_slice() {
        if takes_each(cube.plane.as_slice(), values) {
            return def.on;
        }
    }
    !def.on
}

/// Whether a cover of three inputs is true where two of these values are.
fn agrees(def: &Def, a: bool, b: bool, c: bool) -> bool
    ensures yes { result ≡ true → cover_at def.now (a ∷ b ∷ c ∷ []) ≡ majority a b c }
    ensures no { result ≡ false → cover_at def.now (a ∷ b ∷ c ∷ []) ≡ majority a b c → ⊥ }
{
    cover_at(def, &[a, b, c]) == CellKind::Majority.value(a, b, c)
}

/// Whether a cover of three inputs agrees with their majority where the first has this value.
fn agrees_at(def: &Def, a: bool) -> bool
    ensures yes { result ≡ true → (b c : Bool) → cover_at def.now (a ∷ b ∷ c ∷ []) ≡ majority a b c }
    ensures no { result ≡ false → ((b c : Bool) → cover_at def.now (a ∷ b ∷ c ∷ []) ≡ majority a b c) → ⊥ }
{
    agrees(def, a, false, false)
        && agrees(def, a, false, true)
        && agrees(def, a, true, false)
        && agrees(def, a, true, true)
}

/// Whether a cover of three inputs is their majority.
fn is_majority(def: &Def) -> bool
    ensures yes { result ≡ true → IsMajority def.now }
    ensures no { result ≡ false → IsMajority def.now → ⊥ }
{
    agrees_at(def, false) && agrees_at(def, true)
}

/// The gate of a definition without inputs.
fn constant(def: &Def) -> Gate
    requires { def.now.inputs ≡ [] }
    ensures { Computes def.now result }
{
    let value = cover_at(def, &[]);
    if value { Gate::One } else { Gate::Zero }
}

/// The gate of a definition with one input, if it is that of a cell.
fn one_gate(def: &Def, x: u32) -> Option<Gate>
    requires { def.now.inputs ≡ x ∷ [] }
    ensures { IsGateOf def.now result }
{
    let low = cover_at(def, &[false]);
    let high = cover_at(def, &[true]);
    if low {
        if high { None } else { Some(Gate::Inv(x)) }
    } else if high {
        Some(Gate::Buf(x))
    } else {
        None
    }
}

/// The gate of a definition with three inputs, if it is that of a cell.
fn three_gate(def: &Def, x: u32, y: u32, z: u32) -> Option<Gate>
    requires { def.now.inputs ≡ x ∷ y ∷ z ∷ [] }
    ensures { IsGateOf def.now result }
{
    if x == y || x == z || y == z {
        return None;
    }
    let agrees = is_majority(def);
    if agrees {
        Some(Gate::Maj(x, y, z))
    } else {
        None
    }
}

/// The gate of a definition, if it is that of a cell.
fn gate_of(def: &Def) -> Option<Gate>
    ensures { IsGateOf def.now result }
{
    let inputs = def.inputs.as_slice();
    if inputs.len() == 0 {
        Some(constant(def))
    } else if inputs.len() == 1 {
        one_gate(def, inputs[0])
    } else if inputs.len() == 3 {
        three_gate(def, inputs[0], inputs[1], inputs[2])
    } else {
        None
    }
}

/// The gates of all definitions, in order.
pub(crate) fn gates_of(alloc: Global, defs: &[Def]) -> Result<Vec<Option<Gate>>, Memory>
    ensures { IfOk result (λ gates. AreGatesOf defs.now gates.items) }
{
    let mut gates = Vec::with_capacity(alloc, defs.len())?;
    for def in defs {
        gates.push(gate_of(def))?;
    }
    Ok(gates)
}
