// The library that comes with the program.
ghost use Rattle.std.specs.Prelude.{◌≡◌, IfOk, Some};
ghost use Rattle.cell_library.specs.LibraryA.{library_a_view, pins_at};

use crate::draft::{Draft, Numbers, Pins};
use crate::library::Library;
use aq_base::{List, Memory};
use std::alloc::{AllocError, Global};

const NUMBERS: Numbers = Numbers {
    wire: 1_000,
    space: 1_000,
    via: 600,
    enclose: 200,
    pin: 1_000,
    height: 10_000,
    pitch: 2_000,
    columns: 4,
    capacity: 28,
    limit: 180_000,
};

// The pins at these columns.
fn pins_of_columns(
    alloc: Global,
    inputs: &[u32],
    outputs: &[u32],
) -> Result<Option<Pins>, AllocError>
    ensures { IfOk result (λ pins. pins ≡ pins_at inputs.now outputs.now) }
{
    let inputs = List::from_vec(inputs.to_vec(alloc)?);
    let outputs = List::from_vec(outputs.to_vec(alloc)?);
    Ok(Some(Pins { inputs, outputs }))
}

// The pins of the kinds, by rising number.
fn pins_of_kinds(alloc: Global) -> Result<Vec<Option<Pins>>, AllocError>
    ensures { IfOk result (λ pins. pins.items ≡ library_a_view.pins) }
{
    let mut pins = Vec::with_capacity(alloc, 7)?;
    pins.push(pins_of_columns(alloc, &[1], &[2])?)?;
    pins.push(pins_of_columns(alloc, &[1], &[2])?)?;
    pins.push(pins_of_columns(alloc, &[], &[2])?)?;
    pins.push(pins_of_columns(alloc, &[], &[2])?)?;
    pins.push(pins_of_columns(alloc, &[1], &[2, 6])?)?;
    pins.push(pins_of_columns(alloc, &[1], &[2, 6, 10])?)?;
    pins.push(pins_of_columns(alloc, &[1, 5, 9], &[2])?)?;
    Ok(pins)
}

/// Library A.
pub fn library_a(alloc: Global) -> Result<Library, Memory>
    ensures { IfOk result (λ library. library ≡ library_a_view) }
{
    let pins = pins_of_kinds(alloc)?;
    Ok(Library::new(Draft::new(NUMBERS, pins)))
}
