// The values of the signals of a netlist, each after those that it is computed from.
ghost use Rattle.std.specs.Prelude.{◌≡◌, ℕ, Bool, ◌+◌, ◌<◌, ◌^◌, length, map, IfOk, false, slice_index_or};
ghost use Rattle.circuit.specs.Gates.{valuation};
ghost use Rattle.blif_read.specs.Equations.{takes, matches, cover_value, Fits};
ghost use Rattle.blif_read.specs.Walked.{IsOrder};

use crate::netlist::Def;
use aq_base::{List, Memory};
use circuit::{Word, value_at};
use std::alloc::Global;

/// A byte of a plane takes a value: `-` takes both, `1` takes true and `0` takes false.
fn takes(byte: u8, value: bool) -> bool
    ensures { result ≡ takes byte value }
{
    if value {
        byte == b'-' || byte == b'1'
    } else {
        byte == b'-' || byte == b'0'
    }
}

/// The plane takes the values of the signals, place by place.
fn matches(plane: &[u8], signals: &[u32], values: &[bool]) -> bool
    ensures { result ≡ matches plane.now signals.now (valuation values.now) }
{
    for (i, byte) in plane.iter().enumerate() {
        let Some(signal) = signals.get(i) else {
            return true;
        };
        if !takes(*byte, value_at(values, *signal)) {
            return false;
        }
    }
    true
}

/// The value of a cover.
fn cover_value(def: &Def, values: &[bool]) -> bool
    ensures { result ≡ cover_value def.now (valuation values.now) }
{
    for cube in def.cubes.as_slice() {
        if matches(cube.plane.as_slice(), def.inputs.as_slice(), values) {
            return def.on;
        }
    }
    !def.on
}

/// The values of all signals, inputs first, where the inputs have those of the word.
pub fn values(
    alloc: Global,
    inputs: u32,
    defs: &[Def],
    order: &[u32],
    word: &[bool],
) -> Result<Vec<bool>, Memory>
    requires few { inputs + length defs.now < 2 ^ 32 }
    requires order { IsOrder inputs defs.now order.now }
    requires word { length word.now ≡ inputs }
    ensures { IfOk result (λ values. (v : ℕ → Bool) → Fits inputs defs.now word.now v → (s : ℕ) →
        s < inputs + length defs.now → valuation values.items s ≡ v s) }
{
    let mut values = vec![in alloc; false; inputs as usize + defs.len()]?;
    for (i, bit) in word.iter().enumerate() {
        values[i] = *bit;
    }
    for signal in order {
        let def = &defs[(*signal - inputs) as usize];
        values[*signal as usize] = cover_value(def, &values);
    }
    Ok(values)
}

/// The values of the outputs.
pub fn shown(alloc: Global, outputs: &[u32], values: &[bool]) -> Result<Word, Memory>
    ensures { IfOk result (λ word. word ≡ map (valuation values.now) outputs.now) }
{
    let mut word = List::new(alloc);
    for output in outputs {
        word.push(value_at(values, *output))?;
    }
    Ok(word)
}
