// The chips of `compact` and `draw`, through `netlist` and `draw` with their library: what comes back answers alike, in
// no more rows and cells.
use crate::examples::EXAMPLES;
use std::alloc::Global;
use std::test::Fail;
use test_runs::{LIBRARY_A, Outcome, ran, stored};

/// What a counts line says of a chip.
#[derive(Clone, Copy)]
struct Size {
    rows: u32,
    cells: u32,
}

/// The number after a word of a line.
fn number_after(line: &str, name: &str) -> Option<u32> {
    let mut is_next = false;
    for word in line.split_whitespace() {
        if is_next {
            return word.parse::<u32>().ok();
        }
        is_next = word == name;
    }
    None
}

fn size_of(line: &[u8]) -> Option<Size> {
    let text = std::str::from_utf8(line).ok()?;
    Some(Size {
        rows: number_after(text, "rows")?,
        cells: number_after(text, "cells")?,
    })
}

fn is_no_larger(new: Option<Size>, old: Size) -> bool {
    match new {
        Some(new) => new.rows <= old.rows && new.cells <= old.cells,
        None => false,
    }
}

/// The chip of `compact`, under `chip`, with the library under `lib`.
fn compacted(alloc: Global, net: &str, lib: &str) -> Result<Outcome, Fail> {
    Ok(ran(alloc, stored(alloc, net, lib, "")?, "compact net lib chip")?)
}

/// The chip that `draw` makes with a library, under `lib`, of the netlist of `compact`'s chip with library A.
fn drawn(alloc: Global, net: &str, lib: &str) -> Result<Outcome, Fail> {
    let files = stored(alloc, net, lib, LIBRARY_A)?;
    let chip = ran(alloc, files, "compact net words chip")?;
    let written = ran(alloc, chip.files, "netlist chip words net")?;
    Ok(ran(alloc, written.files, "draw net lib chip")?)
}

/// The chip of the netlist that is stored of a chip, under `out`; the netlist is under `net`.
fn drawn_again(alloc: Global, chip: Outcome) -> Result<Outcome, Fail> {
    let written = ran(alloc, chip.files, "netlist chip lib net")?;
    Ok(ran(alloc, written.files, "draw net lib out")?)
}

/// Whether a chip comes back no larger, and answers as its netlist does.
fn comes_back(alloc: Global, chip: Outcome) -> Result<bool, Fail> {
    let Some(first) = size_of(chip.out.bytes()) else {
        return Ok(false);
    };
    let again = drawn_again(alloc, chip)?;
    let is_small = is_no_larger(size_of(again.out.bytes()), first);
    let compared = ran(alloc, again.files, "equal out lib net")?;
    Ok(is_small && compared.out.bytes() == b"equal\n".as_slice())
}

/// The library with so many tracks in a channel.
fn with_capacity(alloc: Global, capacity: u32) -> Result<String, Fail> {
    let line = format!(in alloc; "capacity = {capacity}")?;
    Ok(LIBRARY_A.replace(alloc, "capacity = 28", line.as_str())?)
}

/// The first example whose chip of `compact`, or of `draw`, doesn't come back, with so many tracks in a channel.
fn lost(alloc: Global, capacity: u32) -> Result<Option<&'static str>, Fail> {
    let lib = with_capacity(alloc, capacity)?;
    for example in EXAMPLES {
        if !comes_back(alloc, compacted(alloc, example.text, lib.as_str())?)? {
            return Ok(Some(example.name));
        }
        if !comes_back(alloc, drawn(alloc, example.text, lib.as_str())?)? {
            return Ok(Some(example.name));
        }
    }
    Ok(None)
}

#[test]
fn with_four_tracks(rt: HostRuntime) -> Result<(), Fail> {
    assert_eq!(rt; lost(rt.alloc(), 4)?, None);
    Ok(())
}

#[test]
fn with_eight_tracks(rt: HostRuntime) -> Result<(), Fail> {
    assert_eq!(rt; lost(rt.alloc(), 8)?, None);
    Ok(())
}

#[test]
fn with_the_tracks_of_library_a(rt: HostRuntime) -> Result<(), Fail> {
    assert_eq!(rt; lost(rt.alloc(), 28)?, None);
    Ok(())
}
