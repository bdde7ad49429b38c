// The values that records of wide streams must have.
ghost use Rattle.std.specs.Prelude.{◌≡◌, ℕ, suc, ◌+◌, ◌<◌, ◌-ℤ◌, ◌&&◌, ◌||◌, ◌==◌, not, length, true, Bool, None, IfOk};
ghost use Rattle.gds_records.specs.declared.fault.StreamKind.TheVariants.{Unsupported};
ghost use Rattle.gds_records.specs.Records.{record_with};
ghost use Rattle.gds_records.specs.Table.{wide_table, has_length_in};
ghost use Rattle.gds_records.specs.Values.{unsigned_value, rule};
ghost use Rattle.gds_records.specs.Drawing.{coordinate};
ghost use Rattle.gds_records.specs.WideValues.{points, is_ring, is_path, is_width, is_flip, is_one, quarters, is_turn};
ghost use Rattle.gds_records.specs.WideValues.{columns, rows, is_count, is_colrow, is_multiple, is_lattice, refers};
ghost use Rattle.gds_records.specs.WideValues.{wide_fault_in};

use crate::fields::{narrow, number};
use crate::points::points;
use crate::values::{flag_bits, is_rectangle, is_value};
use crate::ways::{is_path, is_round};
use aq_base::Memory;
use gds_records::codes::{
    ANGLE, AREF, BOUNDARY, COLROW, MAG, PATH, PATHTYPE, SREF, STRANS, WIDTH, XY,
};
use gds_records::{StreamKind, rectangles_are_rings};
use poly_cut::has_squares;
use std::alloc::Global;

// What holds, or else this fault.
fn unless(holds: bool, kind: StreamKind) -> Option<StreamKind>
    ensures { result ≡ rule true holds kind None }
{
    if holds { None } else { Some(kind) }
}

// Whether the points of a boundary go round by right angles, with a square inside.
fn is_ring(alloc: Global, xy: &[u8]) -> Result<bool, Memory>
    ensures { IfOk result (λ is. is ≡ is_ring (points xy.now)) }
{
    rectangles_are_rings();
    if is_rectangle(xy) {
        return Ok(true);
    }
    let ring = points(alloc, xy)?;
    if !is_round(ring.as_slice()) {
        return Ok(false);
    }
    has_squares(alloc, ring.as_slice())
}

// Whether the points are those of a path.
fn is_track(alloc: Global, xy: &[u8]) -> Result<bool, Memory>
    ensures { IfOk result (λ is. is ≡ is_path (points xy.now)) }
{
    let track = points(alloc, xy)?;
    Ok(is_path(track.as_slice()))
}

fn width_bits(width: &[u8]) -> u32
    requires { length width.now ≡ 4 }
    ensures { result ≡ unsigned_value 0 width.now }
{
    u32::from_be_bytes([width[0], width[1], width[2], width[3]])
}

fn is_width(width: &[u8]) -> bool
    requires { length width.now ≡ 4 }
    ensures { result ≡ is_width width.now }
{
    let bits = width_bits(width);
    bits % 2 == 0 && bits != 0
}

fn is_flip(flags: &[u8]) -> bool
    requires { length flags.now ≡ 2 }
    ensures { result ≡ is_flip flags.now }
{
    let bits = flag_bits(flags);
    bits == 0 || bits == 0x8000
}

fn has_known_ends(path_type: &[u8]) -> bool
    requires { length path_type.now ≡ 2 }
    ensures { result ≡ (unsigned_value 0 path_type.now == 0 || unsigned_value 0 path_type.now == 2) }
{
    let bits = flag_bits(path_type);
    bits == 0 || bits == 2
}

// The bits of an eight-byte real.
fn real_bits(real: &[u8]) -> u64
    requires { length real.now ≡ 8 }
    ensures { result ≡ unsigned_value 0 real.now }
{
    let r = real;
    u64::from_be_bytes([r[0], r[1], r[2], r[3], r[4], r[5], r[6], r[7]])
}

fn is_one(real: &[u8]) -> bool
    requires { length real.now ≡ 8 }
    ensures { result ≡ is_one real.now }
{
    real_bits(real) == 0x4110_0000_0000_0000
}

/// How many quarters an angle has, if it is one of 0 to 3.
pub fn quarters(angle: &[u8]) -> Option<u8>
    requires { length angle.now ≡ 8 }
    ensures { result ≡ quarters angle.now }
{
    match real_bits(angle) {
        0 => Some(0),
        0x425A_0000_0000_0000 => Some(1),
        0x42B4_0000_0000_0000 => Some(2),
        0x4310_E000_0000_0000 => Some(3),
        _ => None,
    }
}

fn is_turn(angle: &[u8]) -> bool
    requires { length angle.now ≡ 8 }
    ensures { result ≡ is_turn angle.now }
{
    quarters(angle).is_some()
}

/// The columns of a COLROW.
pub fn columns(colrow: &[u8]) -> u16
    ensures { result ≡ columns colrow.now }
{
    number(colrow)
}

/// The rows of a COLROW.
pub fn rows(colrow: &[u8]) -> u16
    ensures { result ≡ rows colrow.now }
{
    if colrow.len() < 2 {
        return 0;
    }
    let (_, rows) = colrow.split_at(2);
    number(rows)
}

fn is_count(count: u16) -> bool
    ensures { result ≡ is_count count }
{
    count != 0 && count < 32768
}

fn is_colrow(colrow: &[u8]) -> bool
    ensures { result ≡ is_colrow colrow.now }
{
    is_count(columns(colrow)) && is_count(rows(colrow))
}

// b less a.
fn distance(a: i32, b: i32) -> i64
    ensures { result ≡ b -ℤ a }
{
    i64::from(b) - i64::from(a)
}

// Whether b less a is so many times a whole number.
fn is_multiple(count: u16, a: i32, b: i32) -> bool
    ensures { result ≡ is_multiple count a b }
{
    let distance = distance(a, b);
    if count == 0 {
        return distance == 0;
    }
    distance % i64::from(count) == 0
}

// Whether so many steps lead from the first point to the one whose coordinates begin at number i.
fn is_lattice_point(count: u16, xy: &[u8], i: usize) -> bool
    requires { i < 1000 }
    ensures { result ≡ (is_multiple count (coordinate xy.now 0) (coordinate xy.now i)
        && is_multiple count (coordinate xy.now 1) (coordinate xy.now (suc i))) }
{
    let (x, y) = (narrow(xy, i), narrow(xy, i + 1));
    is_multiple(count, narrow(xy, 0), x) && is_multiple(count, narrow(xy, 1), y)
}

// Whether steps lead from the first of three points to the second by columns, and to the third by rows.
fn is_lattice(columns: u16, rows: u16, xy: &[u8]) -> bool
    ensures { result ≡ is_lattice columns rows (points xy.now) }
{
    if xy.len() / 8 != 3 {
        return false;
    }
    is_lattice_point(columns, xy, 2) && is_lattice_point(rows, xy, 4)
}

// Whether the points of an XY are as the element that this record opened wants them.
fn xy_fault(
    alloc: Global,
    element: u8,
    colrow: &[u8],
    xy: &[u8],
) -> Result<Option<StreamKind>, Memory>
    ensures { IfOk result (λ fault. (form : ℕ) (taken : Bool)
        → fault ≡ wide_fault_in element colrow.now taken (record_with XY form xy.now)) }
{
    match element {
        BOUNDARY => Ok(unless(is_ring(alloc, xy)?, StreamKind::NotRectangle)),
        PATH => Ok(unless(is_track(alloc, xy)?, StreamKind::Value)),
        AREF => Ok(unless(
            is_lattice(columns(colrow), rows(colrow), xy),
            StreamKind::Value,
        )),
        _ => Ok(unless(xy.len() == 8, StreamKind::Value)),
    }
}

// What is wrong with the transform of an element that this record opened.
fn transform_fault(element: u8, holds: bool) -> Option<StreamKind>
    ensures { result ≡ rule (refers element) holds Unsupported None }
{
    if element == SREF || element == AREF {
        unless(holds, StreamKind::Unsupported)
    } else {
        None
    }
}

/// What is wrong with the value of a record of a wide stream. `element` is the kind of the record that opened the
/// element, as BOUNDARY or AREF, `colrow` the content of the last COLROW, and `taken` says whether the name that this
/// record may hold is an earlier structure's.
pub fn wide_fault(
    alloc: Global,
    element: u8,
    colrow: &[u8],
    taken: bool,
    kind: u8,
    content: &[u8],
) -> Result<Option<StreamKind>, Memory>
    requires { has_length_in wide_table kind (4 + length content.now) ≡ true }
    ensures { IfOk result (λ fault. (form : ℕ) → fault ≡ wide_fault_in element colrow.now taken
        (record_with kind form content.now)) }
{
    match kind {
        STRANS => Ok(transform_fault(element, is_flip(content))),
        MAG => Ok(transform_fault(element, is_one(content))),
        ANGLE => Ok(transform_fault(element, is_turn(content))),
        PATHTYPE if element == PATH => Ok(unless(has_known_ends(content), StreamKind::Unsupported)),
        WIDTH if element == PATH => Ok(unless(is_width(content), StreamKind::Value)),
        XY => xy_fault(alloc, element, colrow, content),
        COLROW => Ok(unless(is_colrow(content), StreamKind::Value)),
        _ => Ok(unless(is_value(taken, kind, content), StreamKind::Value)),
    }
}
