// The bytes of records, elements and structures, put behind what a buffer has.
ghost use Rattle.std.specs.Prelude.{◌≡◌, ◌+◌, ◌<◌, ◌≤◌, ◌++◌, ◌∷◌, [], length, OnOk, FitsSigned, All};
ghost use Rattle.std.specs.Int.{w32, to_be_bytes, cast_unsigned};
ghost use Rattle.std.specs.List.{flat_map};
ghost use Rattle.geom.specs.Writable.{names_in, IsWritableShape, IsWritableLabel, IsWritableElement};
ghost use Rattle.geom.specs.Writable.{IsWritableStructure, IsWritableText};
ghost use Rattle.gds_records.specs.Records.{record_with, spelled};
ghost use Rattle.gds_records.specs.Code.Buffer.{Gains, boundary_records};
ghost use Rattle.gds_records.specs.Writing.{two_bytes, padded, corner_bits, element_records, dates, library_head};

use crate::codes::{
    ASCII_STRING, BGNLIB, BGNSTR, BOUNDARY, DATATYPE, EIGHT_BYTE_REAL, ENDEL, FOUR_BYTE_INTEGER,
    HEADER, LAYER, LIBNAME, NO_DATA, SNAME, SREF, STRING, STRNAME, TEXT, TEXTTYPE,
    TWO_BYTE_INTEGER, UNITS, XY,
};
use aq_base::Memory;
use geom::{Element, Label, Shape, Structure};

fn put(into: &mut Vec<u8>, bytes: &[u8]) -> Result<(), Memory>
    ensures { OnOk result (Gains into.old.items into.new.items bytes.now) }
{
    into.extend_from_slice(bytes)?;
    Ok(())
}

/// A record without data.
pub fn put_mark(into: &mut Vec<u8>, kind: u8) -> Result<(), Memory>
    ensures { OnOk result (Gains into.old.items into.new.items (spelled (record_with kind NO_DATA []))) }
{
    put(into, &[0, 4, kind, NO_DATA])
}

fn put_head(into: &mut Vec<u8>, length: u16, kind: u8, form: u8) -> Result<(), Memory>
    ensures { OnOk result (Gains into.old.items into.new.items (two_bytes length ++ kind ∷ form ∷ [])) }
{
    let [high, low] = length.to_be_bytes();
    put(into, &[high, low, kind, form])
}

fn put_number(into: &mut Vec<u8>, kind: u8, number: u16) -> Result<(), Memory>
    ensures { OnOk result
        (Gains into.old.items into.new.items (spelled (record_with kind TWO_BYTE_INTEGER (two_bytes number)))) }
{
    let [high, low] = number.to_be_bytes();
    put(into, &[0, 6, kind, TWO_BYTE_INTEGER, high, low])
}

// A signed number as the bits of its two's complement.
fn bits(number: i64) -> u32
    requires { FitsSigned w32 number }
    ensures { result ≡ cast_unsigned w32 number }
{
    (number as i32).cast_unsigned()
}

fn put_place(into: &mut Vec<u8>, x: u32, y: u32) -> Result<(), Memory>
    ensures { OnOk result
        (Gains into.old.items into.new.items
        (spelled (record_with XY FOUR_BYTE_INTEGER (to_be_bytes w32 x ++ to_be_bytes w32 y)))) }
{
    let form = FOUR_BYTE_INTEGER;
    let [a0, a1, a2, a3] = x.to_be_bytes();
    let [b0, b1, b2, b3] = y.to_be_bytes();
    put(into, &[0, 12, XY, form, a0, a1, a2, a3, b0, b1, b2, b3])
}

fn put_text(into: &mut Vec<u8>, kind: u8, text: &[u8]) -> Result<(), Memory>
    requires { length text.now ≤ 512 }
    ensures { OnOk result
        (Gains into.old.items into.new.items (spelled (record_with kind ASCII_STRING (padded text.now)))) }
{
    let odd = text.len() % 2;
    put_head(into, (4 + text.len() + odd) as u16, kind, ASCII_STRING)?;
    put(into, text)?;
    if odd == 1 { put(into, &[0]) } else { Ok(()) }
}

// A boundary, by the bits of its coordinates, is put as one array, since most of a chip's bytes are boundaries.
fn put_boundary(
    into: &mut Vec<u8>,
    shape: &Shape,
    x0: u32,
    y0: u32,
    x1: u32,
    y1: u32,
) -> Result<(), Memory>
    ensures { OnOk result
        (Gains into.old.items into.new.items
        (flat_map spelled (boundary_records shape.now.layer shape.now.datatype (corner_bits x0 y0 x1 y1)))) }
{
    let (short, long) = (TWO_BYTE_INTEGER, FOUR_BYTE_INTEGER);
    let [l0, l1] = shape.layer.to_be_bytes();
    let [d0, d1] = shape.datatype.to_be_bytes();
    let [a0, a1, a2, a3] = x0.to_be_bytes();
    let [b0, b1, b2, b3] = y0.to_be_bytes();
    let [c0, c1, c2, c3] = x1.to_be_bytes();
    let [e0, e1, e2, e3] = y1.to_be_bytes();
    let records = [
        0, 4, BOUNDARY, NO_DATA, 0, 6, LAYER, short, l0, l1, 0, 6, DATATYPE, short, d0, d1, 0, 44,
        XY, long, a0, a1, a2, a3, b0, b1, b2, b3, c0, c1, c2, c3, b0, b1, b2, b3, c0, c1, c2, c3,
        e0, e1, e2, e3, a0, a1, a2, a3, e0, e1, e2, e3, a0, a1, a2, a3, b0, b1, b2, b3, 0, 4,
        ENDEL, NO_DATA,
    ];
    put(into, &records)
}

fn put_box(into: &mut Vec<u8>, shape: &Shape) -> Result<(), Memory>
    requires { IsWritableShape shape.now }
    ensures { OnOk result
        (Gains into.old.items into.new.items (flat_map spelled (element_records [] (Element.Box shape.now)))) }
{
    let r = &shape.rect;
    put_boundary(into, shape, bits(r.x0), bits(r.y0), bits(r.x1), bits(r.y1))?;
    Ok(())
}

fn put_reference(into: &mut Vec<u8>, name: &[u8], x: i64, y: i64) -> Result<(), Memory>
    requires name { length name.now ≤ 512 }
    requires x { FitsSigned w32 x }
    requires y { FitsSigned w32 y }
    ensures { OnOk result
        (Gains into.old.items into.new.items
        (flat_map spelled (element_records (name.now ∷ []) (Element.Place 0 x y)))) }
{
    put_mark(into, SREF)?;
    put_text(into, SNAME, name)?;
    put_place(into, bits(x), bits(y))?;
    put_mark(into, ENDEL)?;
    Ok(())
}

fn put_label(into: &mut Vec<u8>, label: &Label) -> Result<(), Memory>
    requires { IsWritableLabel label.now }
    ensures { OnOk result
        (Gains into.old.items into.new.items (flat_map spelled (element_records [] (Element.Text label.now)))) }
{
    put_mark(into, TEXT)?;
    put_number(into, LAYER, label.layer)?;
    put_number(into, TEXTTYPE, 0)?;
    put_place(into, bits(label.x), bits(label.y))?;
    put_text(into, STRING, label.text.as_slice())?;
    put_mark(into, ENDEL)?;
    Ok(())
}

/// An element of a structure among these.
pub fn put_element(
    into: &mut Vec<u8>,
    structures: &[Structure],
    element: &Element,
) -> Result<(), Memory>
    requires element { IsWritableElement (length structures.now) element.now }
    requires names { All (IsWritableStructure (length structures.now)) structures.now }
    ensures { OnOk result
        (Gains into.old.items into.new.items
        (flat_map spelled (element_records (names_in structures.now) element.now))) }
{
    match element {
        Element::Box(shape) => put_box(into, shape),
        Element::Place { structure, x, y } => {
            let named = &structures[*structure as usize];
            put_reference(into, named.name.as_slice(), *x, *y)
        }
        Element::Text(label) => put_label(into, label),
    }
}

fn put_dates(into: &mut Vec<u8>, kind: u8) -> Result<(), Memory>
    ensures { OnOk result (Gains into.old.items into.new.items (spelled (record_with kind TWO_BYTE_INTEGER dates))) }
{
    let date = [7, 178, 0, 1, 0, 1, 0, 0, 0, 0, 0, 0];
    put_head(into, 28, kind, TWO_BYTE_INTEGER)?;
    put(into, &date)?;
    put(into, &date)?;
    Ok(())
}

/// What stands before the elements of a structure.
pub fn put_structure_head(into: &mut Vec<u8>, name: &[u8]) -> Result<(), Memory>
    requires { length name.now ≤ 512 }
    ensures { OnOk result
        (Gains into.old.items into.new.items
        (spelled (record_with BGNSTR TWO_BYTE_INTEGER dates)
        ++ spelled (record_with STRNAME ASCII_STRING (padded name.now)))) }
{
    put_dates(into, BGNSTR)?;
    put_text(into, STRNAME, name)?;
    Ok(())
}

/// What stands before the structures.
pub fn put_library_head(into: &mut Vec<u8>) -> Result<(), Memory>
    ensures { OnOk result (Gains into.old.items into.new.items (flat_map spelled library_head)) }
{
    put_number(into, HEADER, 600)?;
    put_dates(into, BGNLIB)?;
    put_text(into, LIBNAME, b"AQFP")?;
    put_head(into, 20, UNITS, EIGHT_BYTE_REAL)?;
    put(into, &[0x3E, 0x41, 0x89, 0x37, 0x4B, 0xC6, 0xA7, 0xF0])?;
    put(into, &[0x39, 0x44, 0xB8, 0x2F, 0xA0, 0x9B, 0x5A, 0x54])?;
    Ok(())
}
