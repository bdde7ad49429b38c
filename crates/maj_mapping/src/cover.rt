// Covers as functions of the values of their inputs, and their truth numbers.
ghost use Rattle.std.specs.Prelude.{◌≡◌, ◌+◌, ◌*◌, ◌≤◌, ◌∷◌, [], cond};
ghost use Rattle.blif_read.specs.Equations.{takes};
ghost use Rattle.case_tables.specs.Recipes.{number, values2, values3};
ghost use Rattle.maj_mapping.specs.Values.{takes_all, cover};

use blif_read::Def;

/// A byte of a plane takes a value: `-` takes both, `1` takes true and `0` takes false.
fn takes(byte: u8, value: bool) -> bool
    ensures { result ≡ takes byte value }
{
    if value {
        byte == b'-' || byte == b'1'
    } else {
        byte == b'-' || byte == b'0'
    }
}

/// The plane takes these values, place by place.
fn takes_all(plane: &[u8], values: &[bool]) -> bool
    ensures { result ≡ takes_all plane.now values.now }
{
    for (i, byte) in plane.iter().enumerate() {
        let Some(value) = values.get(i) else {
            return true;
        };
        if !takes(*byte, *value) {
            return false;
        }
    }
    true
}

/// The value of a cover where the inputs of its definition have these values.
pub fn cover(def: &Def, values: &[bool]) -> bool
    ensures { result ≡ cover def.now values.now }
{
    for cube in def.cubes.as_slice() {
        if takes_all(cube.plane.as_slice(), values) {
            return def.on;
        }
    }
    !def.on
}

fn bit(value: bool) -> u16
    ensures is { result ≡ cond value 1 0 }
    ensures low { result ≤ 1 }
{
    if value { 1 } else { 0 }
}

/// The number with these four binary digits, the lowest first.
fn four_bits(a: bool, b: bool, c: bool, d: bool) -> u16
    ensures is { result ≡ number (a ∷ b ∷ c ∷ d ∷ []) }
    ensures low { result ≤ 15 }
{
    bit(a) + 2 * bit(b) + 4 * bit(c) + 8 * bit(d)
}

/// The truth number of a definition with one input. The second bit of a row is not looked at.
pub fn number_of_one(def: &Def) -> u16
    ensures { result ≡ number (values2 (λ a b. cover def.now (a ∷ []))) }
{
    let (off, on) = (cover(def, &[false]), cover(def, &[true]));
    four_bits(off, on, off, on)
}

/// The truth number of a definition with two inputs.
pub fn number_of_two(def: &Def) -> u16
    ensures { result ≡ number (values2 (λ a b. cover def.now (a ∷ b ∷ []))) }
{
    four_bits(
        cover(def, &[false, false]),
        cover(def, &[true, false]),
        cover(def, &[false, true]),
        cover(def, &[true, true]),
    )
}

/// The truth number of a definition with three inputs.
pub fn number_of_three(def: &Def) -> u16
    ensures { result ≡ number (values3 (λ a b c. cover def.now (a ∷ b ∷ c ∷ []))) }
{
    let low = four_bits(
        cover(def, &[false, false, false]),
        cover(def, &[true, false, false]),
        cover(def, &[false, true, false]),
        cover(def, &[true, true, false]),
    );
    let high = four_bits(
        cover(def, &[false, false, true]),
        cover(def, &[true, false, true]),
        cover(def, &[false, true, true]),
        cover(def, &[true, true, true]),
    );
    low + 16 * high
}
