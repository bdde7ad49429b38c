// What a TOML table has under its keys.
ghost use Rattle.std.specs.Prelude.{◌≡◌, IfOk, option_map, option_copied, not, find, string_bytes};
ghost use Rattle.std.specs.BTreeMap.{keys, IsOrdered};
ghost use Rattle.std.specs.String.{string_cmp};
ghost use Rattle.toml.specs.Data.{get_member};
ghost use Rattle.toml.specs.View.{table_view, view, items_view};
ghost use Rattle.cell_library.specs.Documents.{integer_under, as_integers, integers_of as integers_in, natural_within};
ghost use Rattle.cell_library.specs.Documents.{is_among, least, other_keys};
ghost use Rattle.cell_library.specs.Faults.{top_keys, pins_keys};

use std::alloc::{AllocError, Global};
use toml::{Table, Value};

/// The value under a key.
#[tactic(auto, using(crate::proofs::Look::looks))]
pub fn value_under<'a>(table: &'a Table, key: &str) -> Option<&'a Value>
    ensures { option_map (λ value. view value.now) result ≡ get_member key.now (table_view table.now) }
{
    table.get(key)
}

/// The integer under a key, if there is one.
pub fn integer_at(table: &Table, key: &str) -> Option<i64>
    ensures { result ≡ integer_under (table_view table.now) key.now }
{
    match value_under(table, key) {
        Some(value) => value.as_integer(),
        None => None,
    }
}

/// The integers of a value, if it is an array that holds nothing else.
pub fn integers(alloc: Global, value: &Value) -> Result<Option<Vec<i64>>, AllocError>
    ensures { IfOk result (λ found. option_map (λ all. all.items) found ≡ as_integers (view value.now)) }
{
    match value.as_array() {
        Some(items) => integers_of(alloc, items),
        None => Ok(None),
    }
}

// The integers of items, if they are nothing else.
#[tactic(auto, using(crate::proofs::Integers::integer_steps))]
fn integers_of(alloc: Global, items: &[Value]) -> Result<Option<Vec<i64>>, AllocError>
    ensures { IfOk result (λ found. option_map (λ all. all.items) found ≡ integers_in (items_view items.now)) }
{
    let mut all = Vec::new(alloc);
    for item in items {
        match item.as_integer() {
            Some(number) => all.push(number)?,
            None => return Ok(None),
        }
    }
    Ok(Some(all))
}

/// The integer as a natural number, if it has these bounds.
pub fn within(number: i64, least: u64, most: u64) -> Option<u64>
    ensures { result ≡ natural_within least most number }
{
    match u64::try_from(number) {
        Ok(natural) if least <= natural && natural <= most => Some(natural),
        _ => None,
    }
}

// Whether the key may stand at the top of a library file.
fn is_top_key(key: &str) -> bool
    ensures { result ≡ is_among top_keys key.now }
{
    matches!(
        key,
        "name"
            | "wire"
            | "space"
            | "via"
            | "enclose"
            | "pin"
            | "height"
            | "pitch"
            | "columns"
            | "capacity"
            | "limit"
            | "buffer"
            | "inverter"
            | "zero"
            | "one"
            | "split2"
            | "split3"
            | "majority"
    )
}

// Whether the key may stand in the table of a kind.
fn is_pins_key(key: &str) -> bool
    ensures { result ≡ is_among pins_keys key.now }
{
    matches!(key, "inputs" | "outputs")
}

/// The least key at the top that may not stand there, if there is one.
pub fn unknown_top_key(table: &Table) -> Option<&String>
    ensures { option_map (λ key. string_bytes key.now) result ≡ least (other_keys top_keys (table_view table.now)) }
{
    first_unknown_top_key(table)
}

// The first such key in the order of the table.
fn first_unknown_top_key(table: &Table) -> Option<&String>
    ensures found { option_copied result ≡ find (λ key. not (is_among top_keys (string_bytes key))) (keys table.now) }
    ensures ordered { IsOrdered string_cmp table.now }
{
    table.keys().find(|key| !is_top_key(key.as_str()))
}

/// The least key in the table of a kind that may not stand there, if there is one.
pub fn unknown_pins_key(table: &Table) -> Option<&String>
    ensures { option_map (λ key. string_bytes key.now) result ≡ least (other_keys pins_keys (table_view table.now)) }
{
    first_unknown_pins_key(table)
}

// The first such key in the order of the table.
fn first_unknown_pins_key(table: &Table) -> Option<&String>
    ensures found { option_copied result ≡ find (λ key. not (is_among pins_keys (string_bytes key))) (keys table.now) }
    ensures ordered { IsOrdered string_cmp table.now }
{
    table.keys().find(|key| !is_pins_key(key.as_str()))
}
