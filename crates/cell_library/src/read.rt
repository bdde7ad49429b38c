// The reader of library files.
ghost use Rattle.std.specs.Prelude.{◌≡◌, ◌≤◌, ◌^◌, [], ◌∷◌, IfOk, codes, IsErr, Err, Ok, ◌⊎◌};
ghost use Rattle.std.specs.Prelude.{length, map, All, find, filter_map, is_none, Some};
ghost use Rattle.toml.specs.Data.{get_member};
ghost use Rattle.toml.specs.View.{table_view};
ghost use Rattle.cell_library.specs.Kinds.{key_of, all_kinds, mandatory_kinds};
ghost use Rattle.cell_library.specs.Library.{LibraryView, IsGiven};
ghost use Rattle.cell_library.specs.Faults.{unknown_key_fault, number_fault, numbers_fault, missing_fault};
ghost use Rattle.cell_library.specs.Faults.{inner_key_fault, dotted, columns_fault, inner_fault, kind_fault};
ghost use Rattle.cell_library.specs.Faults.{kinds_fault, table_fault};
ghost use Rattle.cell_library.specs.Says.{number_under, columns_under, pins_in, pins_under, SaysLibrary, HasFault};
ghost use Rattle.cell_library.specs.Says.{Answers};
ghost use Rattle.cell_library.specs.Code.Stages.{RefusesFor, Judges, IsNumbersOf, IsDraftOf, IsJudged};
ghost use Rattle.cell_library.specs.Documents.{natural_within};
ghost use Rattle.cell_library.specs.declared.fault.LibraryFault.{LibraryFault};

use crate::document::{
    integer_at, integers, unknown_pins_key, unknown_top_key, value_under, within,
};
use crate::draft::{Draft, Numbers, Pins};
use crate::fault::{LibraryFault, LibraryRefusal};
use crate::kinds::{KINDS, MANDATORY_KINDS, kind_key};
use crate::laws::first_broken;
use crate::library::Library;
use aq_base::{Bytes, List};
use circuit::CellKind;
use std::alloc::{AllocError, Global};
use toml::Table;

// The bytes of a key.
fn key_bytes(alloc: Global, key: &str) -> Result<Bytes, AllocError>
    ensures { IfOk result (λ bytes. bytes ≡ key.now) }
{
    Ok(Bytes::from_vec(key.as_bytes().to_vec(alloc)?))
}

// The bytes of a key in a kind's table, after the kind's key and a dot.
fn dotted_bytes(alloc: Global, kind: CellKind, key: &str) -> Result<Bytes, AllocError>
    ensures { IfOk result (λ bytes. bytes ≡ dotted kind key.now) }
{
    let mut bytes = kind_key(kind).as_bytes().to_vec(alloc)?;
    bytes.push(b'.')?;
    bytes.extend_from_slice(key.as_bytes())?;
    Ok(Bytes::from_vec(bytes))
}

// The refusal for a key.
fn bad_key(alloc: Global, key: &str) -> LibraryRefusal
    ensures { RefusesFor (LibraryFault.Key key.now) result }
{
    match key_bytes(alloc, key) {
        Ok(key) => LibraryRefusal::Bad(LibraryFault::Key { key }),
        Err(_) => LibraryRefusal::Memory,
    }
}

// The refusal for a key in a kind's table.
fn bad_dotted_key(alloc: Global, kind: CellKind, key: &str) -> LibraryRefusal
    ensures { RefusesFor (LibraryFault.Key (dotted kind key.now)) result }
{
    match dotted_bytes(alloc, kind, key) {
        Ok(key) => LibraryRefusal::Bad(LibraryFault::Key { key }),
        Err(_) => LibraryRefusal::Memory,
    }
}

// Refuses a key at the top that may not stand there.
fn no_unknown_key(alloc: Global, table: &Table) -> Result<(), LibraryRefusal>
    ensures { Judges (unknown_key_fault (table_view table.now)) (λ _. Unit {0}) result }
{
    match unknown_top_key(table) {
        Some(key) => Err(bad_key(alloc, key.as_str())),
        None => Ok(()),
    }
}

// The number under a key, from 1 to the greatest.
fn read_number(alloc: Global, table: &Table, key: &str, most: u64) -> Result<u64, LibraryRefusal>
    ensures { Judges (number_fault (table_view table.now) (record { key = key.now; most = most }))
        (λ n. (n ≡ number_under (table_view table.now) key.now) × (1 ≤ n) × (n ≤ most)) result }
{
    let Some(value) = integer_at(table, key) else {
        return Err(bad_key(alloc, key));
    };
    match within(value, 1, most) {
        Some(number) => Ok(number),
        None => match key_bytes(alloc, key) {
            Ok(key) => Err(LibraryRefusal::Bad(LibraryFault::Value { key, value })),
            Err(_) => Err(LibraryRefusal::Memory),
        },
    }
}

// The first kind that every library gives and the table doesn't have.
fn missing_kind(table: &Table) -> Option<CellKind>
    ensures { result ≡ find (λ kind. is_none (get_member (key_of kind) (table_view table.now))) mandatory_kinds }
{
    MANDATORY_KINDS
        .iter()
        .copied()
        .find(|kind| value_under(table, kind_key(*kind)).is_none())
}

// Refuses a table without a kind that every library gives.
fn no_missing_kind(table: &Table) -> Result<(), LibraryRefusal>
    ensures { Judges (missing_fault (table_view table.now)) (λ _. Unit {0}) result }
{
    match missing_kind(table) {
        Some(kind) => Err(LibraryRefusal::Bad(LibraryFault::Missing { kind })),
        None => Ok(()),
    }
}

// The integer as a column, if it is one.
fn column_of(number: i64) -> Option<u32>
    ensures { result ≡ natural_within 0 2999 number }
{
    match u32::try_from(number) {
        Ok(column) if column <= 2999 => Some(column),
        _ => None,
    }
}

// The first number that is no column, if there is one.
fn first_outside(numbers: &[i64]) -> Option<i64>
    ensures { result ≡ find (λ z. is_none (natural_within 0 2999 z)) numbers.now }
{
    numbers
        .iter()
        .copied()
        .find(|number| column_of(*number).is_none())
}

// The numbers that are columns.
fn columns_among(alloc: Global, numbers: &[i64]) -> Result<Vec<u32>, AllocError>
    ensures { IfOk result (λ columns. columns.items ≡ filter_map (natural_within 0 2999) numbers.now) }
{
    numbers
        .iter()
        .filter_map(|number| column_of(*number))
        .collect(alloc)
}

// The refusal for a column that is out of range.
fn bad_column(alloc: Global, kind: CellKind, part: &str, value: i64) -> LibraryRefusal
    ensures { RefusesFor (LibraryFault.Value (dotted kind part.now) value) result }
{
    match dotted_bytes(alloc, kind, part) {
        Ok(key) => LibraryRefusal::Bad(LibraryFault::Value { key, value }),
        Err(_) => LibraryRefusal::Memory,
    }
}

// The columns of the pins of one side of a kind.
#[tactic(auto, using(crate::proofs::Columns::all_columns))]
fn read_columns(
    alloc: Global,
    inner: &Table,
    kind: CellKind,
    part: &str,
) -> Result<List<u32>, LibraryRefusal>
    ensures { Judges (columns_fault (table_view inner.now) kind part.now)
        (λ columns. columns ≡ columns_under (table_view inner.now) part.now) result }
{
    let Some(value) = value_under(inner, part) else {
        return Err(bad_dotted_key(alloc, kind, part));
    };
    let Some(numbers) = integers(alloc, value)? else {
        return Err(bad_dotted_key(alloc, kind, part));
    };
    if let Some(value) = first_outside(&numbers) {
        return Err(bad_column(alloc, kind, part, value));
    }
    let columns = columns_among(alloc, &numbers)?;
    Ok(List::from_vec(columns))
}

// Refuses a key in a kind's table that may not stand there.
fn no_unknown_pins_key(alloc: Global, inner: &Table, kind: CellKind) -> Result<(), LibraryRefusal>
    ensures { Judges (inner_key_fault (table_view inner.now) kind) (λ _. Unit {0}) result }
{
    match unknown_pins_key(inner) {
        Some(key) => Err(bad_dotted_key(alloc, kind, key.as_str())),
        None => Ok(()),
    }
}

// The pins of a kind by its table.
fn read_pins(alloc: Global, inner: &Table, kind: CellKind) -> Result<Pins, LibraryRefusal>
    ensures { Judges (inner_fault kind (Some (table_view inner.now)))
        (λ pins. pins ≡ pins_in (table_view inner.now)) result }
{
    no_unknown_pins_key(alloc, inner, kind)?;
    let inputs = read_columns(alloc, inner, kind, "inputs")?;
    let outputs = read_columns(alloc, inner, kind, "outputs")?;
    Ok(Pins { inputs, outputs })
}

// The pins of a kind, if it is given.
fn read_kind(alloc: Global, table: &Table, kind: CellKind) -> Result<Option<Pins>, LibraryRefusal>
    ensures { Judges (kind_fault (table_view table.now) kind)
        (λ pins. pins ≡ pins_under (table_view table.now) kind) result }
{
    let Some(value) = value_under(table, kind_key(kind)) else {
        return Ok(None);
    };
    let Some(inner) = value.as_table() else {
        return Err(bad_key(alloc, kind_key(kind)));
    };
    let pins = read_pins(alloc, inner, kind)?;
    Ok(Some(pins))
}

// The pins of each kind.
fn read_kinds(alloc: Global, table: &Table) -> Result<Vec<Option<Pins>>, LibraryRefusal>
    ensures { Judges (kinds_fault (table_view table.now))
        (λ pins. pins.items ≡ map (pins_under (table_view table.now)) all_kinds) result }
{
    let mut all = Vec::new(alloc);
    for kind in KINDS {
        let pins = read_kind(alloc, table, kind)?;
        all.push(pins)?;
    }
    Ok(all)
}

// The ten numbers.
fn read_numbers(alloc: Global, table: &Table) -> Result<Numbers, LibraryRefusal>
    ensures { Judges (numbers_fault (table_view table.now)) (IsNumbersOf (table_view table.now)) result }
{
    Ok(Numbers {
        wire: read_number(alloc, table, "wire", 1_000_000)?,
        space: read_number(alloc, table, "space", 1_000_000)?,
        via: read_number(alloc, table, "via", 1_000_000)?,
        enclose: read_number(alloc, table, "enclose", 1_000_000)?,
        pin: read_number(alloc, table, "pin", 1_000_000)?,
        height: read_number(alloc, table, "height", 1_000_000)?,
        pitch: read_number(alloc, table, "pitch", 1_000_000)?,
        columns: read_number(alloc, table, "columns", 1_000)?,
        capacity: read_number(alloc, table, "capacity", 1_000)?,
        limit: read_number(alloc, table, "limit", 2_147_483_647)?,
    })
}

// Everything but the laws.

fn read_draft(alloc: Global, table: &Table) -> Result<Draft, LibraryRefusal>
    ensures { Judges (table_fault (table_view table.now)) (IsDraftOf (table_view table.now)) result }
{
    no_unknown_key(alloc, table)?;
    let numbers = read_numbers(alloc, table)?;
    no_missing_kind(table)?;
    let pins = read_kinds(alloc, table)?;
    Ok(Draft::new(numbers, pins))
}

// The library of a table, if it has no fault.

fn judged(alloc: Global, table: &Table) -> Result<Library, LibraryRefusal>
    ensures { IsJudged (table_view table.now) result }
{
    let draft = read_draft(alloc, table)?;
    match first_broken(&draft) {
        Some(number) => Err(LibraryRefusal::Bad(LibraryFault::Law { number })),
        None => Ok(Library::new(draft)),
    }
}

/// Reads a library file: TOML with ten numbers and a table for each kind of cells.
///
/// The text is at most 268,435,456 bytes long. `Bad` names the first fault: a text that is no document; the least key
/// that may not stand at the top; each number in turn, absent, no integer or out of range; the first kind that is
/// missing; each kind in turn, its keys and columns; the first law that is broken.

pub fn read_library(alloc: Global, text: &[u8]) -> Result<Library, LibraryRefusal>
    requires { length text.now ≤ 268435456 }
    ensures answer { Answers text.now result }
    ensures said { (library : LibraryView) → SaysLibrary text.now library
        → (result ≡ Ok library) ⊎ (result ≡ Err LibraryRefusal.Memory) }
    ensures faulty { (fault : LibraryFault) → HasFault text.now fault
        → (result ≡ Err (LibraryRefusal.Bad fault)) ⊎ (result ≡ Err LibraryRefusal.Memory) }
{
    match toml::table_from_slice(alloc, text) {
        Ok(table) => judged(alloc, &table),
        Err(error) => {
            if error.is_memory() {
                return Err(LibraryRefusal::Memory);
            }
            Err(LibraryRefusal::Bad(LibraryFault::Text))
        }
    }
}
