// Tests of wide streams: their figures, placements and texts, chains and loops of references, and their faults.
ghost use Rattle.poly_cut.specs.Conditions.{IsFlattenable};

use crate::fixtures::{Edit, FIRST, edited, flat, is_bad, is_refused, read};
use aq_base::Memory;
use gds_read::{StreamKind, StreamRefusal};
use geom::Rect;
use poly_cut::{Drawn, WideLayout, drawn_at};
use std::alloc::{AllocError, Global};
use std::test::Fail;

// A path 1,000 wide from (5000, 9000) to (5000, 12500).
const PATH: [u8; 48] = [
    0x00, 0x04, 0x09, 0x00, 0x00, 0x06, 0x0D, 0x02, 0x00, 0x0A, 0x00, 0x06, 0x0E, 0x02, 0x00, 0x00,
    0x00, 0x08, 0x0F, 0x03, 0x00, 0x00, 0x03, 0xE8, 0x00, 0x14, 0x10, 0x03, 0x00, 0x00, 0x13, 0x88,
    0x00, 0x00, 0x23, 0x28, 0x00, 0x00, 0x13, 0x88, 0x00, 0x00, 0x30, 0xD4, 0x00, 0x04, 0x11, 0x00,
];

// The boundary (0, 0), (4, 0), (4, 2), (2, 2), (2, 6), (0, 6), (0, 0).
const RING: [u8; 80] = [
    0x00, 0x04, 0x08, 0x00, 0x00, 0x06, 0x0D, 0x02, 0x00, 0x0A, 0x00, 0x06, 0x0E, 0x02, 0x00, 0x00,
    0x00, 0x3C, 0x10, 0x03, 0x00, 0x00, 0x00, 0x00, 0x00, 0x00, 0x00, 0x00, 0x00, 0x00, 0x00, 0x04,
    0x00, 0x00, 0x00, 0x00, 0x00, 0x00, 0x00, 0x04, 0x00, 0x00, 0x00, 0x02, 0x00, 0x00, 0x00, 0x02,
    0x00, 0x00, 0x00, 0x02, 0x00, 0x00, 0x00, 0x02, 0x00, 0x00, 0x00, 0x06, 0x00, 0x00, 0x00, 0x00,
    0x00, 0x00, 0x00, 0x06, 0x00, 0x00, 0x00, 0x00, 0x00, 0x00, 0x00, 0x00, 0x00, 0x04, 0x11, 0x00,
];

// An array of BUF, mirrored and turned by a quarter, of one column and two rows up to (0, 28000).
const ARRAY: [u8; 70] = [
    0x00, 0x04, 0x0B, 0x00, 0x00, 0x08, 0x12, 0x06, 0x42, 0x55, 0x46, 0x00, 0x00, 0x06, 0x1A, 0x01,
    0x80, 0x00, 0x00, 0x0C, 0x1C, 0x05, 0x42, 0x5A, 0x00, 0x00, 0x00, 0x00, 0x00, 0x00, 0x00, 0x08,
    0x13, 0x02, 0x00, 0x01, 0x00, 0x02, 0x00, 0x1C, 0x10, 0x03, 0x00, 0x00, 0x00, 0x00, 0x00, 0x00,
    0x00, 0x00, 0x00, 0x00, 0x1F, 0x40, 0x00, 0x00, 0x00, 0x00, 0x00, 0x00, 0x00, 0x00, 0x00, 0x00,
    0x6D, 0x60, 0x00, 0x04, 0x11, 0x00,
];

// A stream of one structure, BUF, with this element, whose first record stands at 98.
fn stream(alloc: Global, element: &[u8]) -> Result<Vec<u8>, AllocError> {
    let mut bytes = Vec::new(alloc);
    bytes.extend_from_slice(&FIRST[0..98])?;
    bytes.extend_from_slice(element)?;
    bytes.extend_from_slice(&FIRST[1038..1046])?;
    Ok(bytes)
}

// The edges of a rectangle: left, lower, right, upper.
type Edges = (i64, i64, i64, i64);

fn edges(rect: &Rect) -> Edges {
    (rect.x0, rect.y0, rect.x1, rect.y1)
}

// Whether the shapes of a stream are these rectangles.
fn has_shapes(alloc: Global, bytes: &[u8], rows: &[Edges]) -> bool {
    let Ok(flat) = flat(alloc, bytes) else {
        return false;
    };
    let shapes = flat.shapes.as_slice();
    for (shape, row) in shapes.iter().zip(rows) {
        if edges(&shape.rect) != *row {
            return false;
        }
    }
    shapes.len() == rows.len()
}

// ---- figures

// A path along the x axis from (0, 0) to (100, 0) and up to (100, 50), with a point inside its first run, 20 wide.
const BEND: [u8; 70] = [
    0x00, 0x04, 0x09, 0x00, 0x00, 0x06, 0x0D, 0x02, 0x00, 0x0A, 0x00, 0x06, 0x0E, 0x02, 0x00, 0x00,
    0x00, 0x06, 0x21, 0x02, 0x00, 0x00, 0x00, 0x08, 0x0F, 0x03, 0x00, 0x00, 0x00, 0x14, 0x00, 0x24,
    0x10, 0x03, 0x00, 0x00, 0x00, 0x00, 0x00, 0x00, 0x00, 0x00, 0x00, 0x00, 0x00, 0x28, 0x00, 0x00,
    0x00, 0x00, 0x00, 0x00, 0x00, 0x64, 0x00, 0x00, 0x00, 0x00, 0x00, 0x00, 0x00, 0x64, 0x00, 0x00,
    0x00, 0x32, 0x00, 0x04, 0x11, 0x00,
];

#[test]
fn figures_are_cut(rt: HostRuntime) -> Result<(), Fail> {
    // An element, a place in the stream where bytes are put in place of as many, and its rectangles.
    let rows: [(&[u8], usize, &[u8], &[Edges]); 5] = [
        (&RING, 98, &[], &[(0, 0, 4, 2), (0, 2, 2, 6)]),
        (&PATH, 98, &[], &[(4500, 9000, 5500, 12_500)]),
        (&BEND, 119, &[0], &[(0, -10, 110, 10), (90, -10, 110, 50)]),
        (&BEND, 119, &[2], &[(-10, -10, 110, 10), (90, -10, 110, 60)]),
        (
            &BEND,
            124,
            &[0xFF, 0xFF, 0xFF, 0xEC],
            &[(0, -10, 110, 10), (90, -10, 110, 50)],
        ),
    ];
    for (element, at, put, rectangles) in rows {
        let whole = stream(rt.alloc(), element)?;
        let taken = put.len();
        let bytes = edited(rt.alloc(), whole.as_slice(), Edit { at, taken, put })?;
        let cut = has_shapes(rt.alloc(), bytes.as_slice(), rectangles);
        assert!(rt; cut, "{rectangles:?}");
    }
    Ok(())
}

// ---- placements

// The boundary (0, 0), (10, 0), (10, 20), (0, 20), (0, 0).
const BLOCK: [u8; 64] = [
    0x00, 0x04, 0x08, 0x00, 0x00, 0x06, 0x0D, 0x02, 0x00, 0x0A, 0x00, 0x06, 0x0E, 0x02, 0x00, 0x00,
    0x00, 0x2C, 0x10, 0x03, 0x00, 0x00, 0x00, 0x00, 0x00, 0x00, 0x00, 0x00, 0x00, 0x00, 0x00, 0x0A,
    0x00, 0x00, 0x00, 0x00, 0x00, 0x00, 0x00, 0x0A, 0x00, 0x00, 0x00, 0x14, 0x00, 0x00, 0x00, 0x00,
    0x00, 0x00, 0x00, 0x14, 0x00, 0x00, 0x00, 0x00, 0x00, 0x00, 0x00, 0x00, 0x00, 0x04, 0x11, 0x00,
];

// An array of BUF of two columns, 50 apart, and three rows, 70 apart, from (100, 200) on.
const GRID: [u8; 70] = [
    0x00, 0x04, 0x0B, 0x00, 0x00, 0x08, 0x12, 0x06, 0x42, 0x55, 0x46, 0x00, 0x00, 0x06, 0x1A, 0x01,
    0x00, 0x00, 0x00, 0x0C, 0x1C, 0x05, 0x00, 0x00, 0x00, 0x00, 0x00, 0x00, 0x00, 0x00, 0x00, 0x08,
    0x13, 0x02, 0x00, 0x02, 0x00, 0x03, 0x00, 0x1C, 0x10, 0x03, 0x00, 0x00, 0x00, 0x64, 0x00, 0x00,
    0x00, 0xC8, 0x00, 0x00, 0x00, 0xC8, 0x00, 0x00, 0x00, 0xC8, 0x00, 0x00, 0x00, 0x64, 0x00, 0x00,
    0x01, 0x9A, 0x00, 0x04, 0x11, 0x00,
];

// BUF, which is the block, and a top with the grid; its STRANS has its data at 218, its COLROW at 236.
fn gridded(alloc: Global, at: usize, put: &[u8]) -> Result<Vec<u8>, AllocError> {
    let mut bytes = Vec::new(alloc);
    bytes.extend_from_slice(&FIRST[0..98])?;
    bytes.extend_from_slice(&BLOCK)?;
    bytes.extend_from_slice(&FIRST[290..330])?;
    bytes.extend_from_slice(&GRID)?;
    bytes.extend_from_slice(&FIRST[1038..1046])?;
    let taken = put.len();
    edited(alloc, bytes.as_slice(), Edit { at, taken, put })
}

// The edges of the first shape, of the second, and of the last of six.
fn corners(alloc: Global, bytes: &[u8]) -> Option<(Edges, Edges, Edges)> {
    let Ok(flat) = flat(alloc, bytes) else {
        return None;
    };
    match flat.shapes.as_slice() {
        [first, second, _, _, _, last] => Some((
            edges(&first.rect),
            edges(&second.rect),
            edges(&last.rect),
        )),
        _ => None,
    }
}

#[test]
fn arrays_are_placed_in_each_turn(rt: HostRuntime) -> Result<(), Fail> {
    // The flags, the first bytes of the angle, and the edges of three blocks.
    let rows: [(u8, [u8; 3], (Edges, Edges, Edges)); 8] = [
        (
            0x00,
            [0x00, 0x00, 0x00],
            (
                (100, 200, 110, 220),
                (150, 200, 160, 220),
                (150, 340, 160, 360),
            ),
        ),
        (
            0x00,
            [0x42, 0x5A, 0x00],
            (
                (80, 200, 100, 210),
                (130, 200, 150, 210),
                (130, 340, 150, 350),
            ),
        ),
        (
            0x00,
            [0x42, 0xB4, 0x00],
            (
                (90, 180, 100, 200),
                (140, 180, 150, 200),
                (140, 320, 150, 340),
            ),
        ),
        (
            0x00,
            [0x43, 0x10, 0xE0],
            (
                (100, 190, 120, 200),
                (150, 190, 170, 200),
                (150, 330, 170, 340),
            ),
        ),
        (
            0x80,
            [0x00, 0x00, 0x00],
            (
                (100, 180, 110, 200),
                (150, 180, 160, 200),
                (150, 320, 160, 340),
            ),
        ),
        (
            0x80,
            [0x42, 0x5A, 0x00],
            (
                (100, 200, 120, 210),
                (150, 200, 170, 210),
                (150, 340, 170, 350),
            ),
        ),
        (
            0x80,
            [0x42, 0xB4, 0x00],
            (
                (90, 200, 100, 220),
                (140, 200, 150, 220),
                (140, 340, 150, 360),
            ),
        ),
        (
            0x80,
            [0x43, 0x10, 0xE0],
            (
                (80, 190, 100, 200),
                (130, 190, 150, 200),
                (130, 330, 150, 340),
            ),
        ),
    ];
    for (flags, angle, blocks) in rows {
        let [first, second, third] = angle;
        let put = [flags, 0, 0, 0x0C, 0x1C, 0x05, first, second, third];
        let bytes = gridded(rt.alloc(), 218, &put)?;
        assert_eq!(rt; corners(rt.alloc(), bytes.as_slice()), Some(blocks));
    }
    Ok(())
}

// The array, mirrored and turned by a quarter, of the block and the first chip's label of input 0 beside it.
fn labelled(alloc: Global) -> Result<Vec<u8>, AllocError> {
    let turn = [0x80, 0, 0, 0x0C, 0x1C, 0x05, 0x42, 0x5A, 0];
    let bytes = gridded(alloc, 218, &turn)?;
    let put = &FIRST[962..1_000];
    edited(
        alloc,
        bytes.as_slice(),
        Edit {
            at: 162,
            taken: 0,
            put,
        },
    )
}

// Whether it is a shape, and its lower left corner or its point.
type Place = (bool, i64, i64);

fn place_of(alloc: Global, wide: &WideLayout, number: u64) -> Result<Option<Place>, Memory>
    requires { IsFlattenable wide.now }
{
    match drawn_at(alloc, wide, number)? {
        Some(Drawn::Shape(shape)) => Ok(Some((true, shape.rect.x0, shape.rect.y0))),
        Some(Drawn::Label(label)) => Ok(Some((false, label.x, label.y))),
        None => Ok(None),
    }
}

#[test]
fn shapes_and_labels_are_found_by_number(rt: HostRuntime) -> Result<(), Fail> {
    let bytes = labelled(rt.alloc())?;
    let Ok(wide) = read(rt.alloc(), bytes.as_slice()) else {
        return Err("refused".into());
    };
    let rows: [(u64, Option<Place>); 7] = [
        (0, Some((true, 100, 200))),
        (1, Some((true, 150, 200))),
        (5, Some((true, 150, 340))),
        (6, Some((false, 600, 3200))),
        (7, Some((false, 650, 3200))),
        (11, Some((false, 650, 3340))),
        (12, None),
    ];
    for (number, place) in rows {
        assert_eq!(rt; place_of(rt.alloc(), &wide, number)?, place);
    }
    Ok(())
}

#[test]
fn too_many_placements_are_counted(rt: HostRuntime) -> Result<(), Fail> {
    // 3,000 columns and 2,667 rows, each one apart.
    let put = [
        0x0B, 0xB8, 0x0A, 0x6B, 0x00, 0x1C, 0x10, 0x03, 0x00, 0x00, 0x00, 0x00, 0x00, 0x00, 0x00,
        0x00, 0x00, 0x00, 0x0B, 0xB8, 0x00, 0x00, 0x00, 0x00, 0x00, 0x00, 0x00, 0x00, 0x00, 0x00,
        0x0A, 0x6B,
    ];
    let bytes = gridded(rt.alloc(), 236, &put)?;
    let many = StreamRefusal::TooManyShapes { count: 8_001_000 };
    assert!(rt; is_refused(rt.alloc(), bytes.as_slice(), many));
    Ok(())
}

// ---- chains and loops

// Adds a structure of this name, of one letter, with a reference to each of these.
fn add_structure(bytes: &mut Vec<u8>, name: u8, references: &[u8]) -> Result<(), AllocError> {
    bytes.extend_from_slice(&FIRST[62..90])?;
    bytes.extend_from_slice(&[0x00, 0x06, 0x06, 0x06, name, 0x00])?;
    for reference in references {
        let named = [
            0x00, 0x04, 0x0A, 0x00, 0x00, 0x06, 0x12, 0x06, *reference, 0x00,
        ];
        bytes.extend_from_slice(&named)?;
        bytes.extend_from_slice(&FIRST[342..358])?;
    }
    bytes.extend_from_slice(&FIRST[290..294])
}

// So many structures, each of which refers to the next, and then some more.
fn linked(alloc: Global, last: u8, more: &[(u8, &[u8])]) -> Result<Vec<u8>, AllocError> {
    let mut bytes = Vec::new(alloc);
    bytes.extend_from_slice(&FIRST[0..62])?;
    for name in 1..last {
        add_structure(&mut bytes, name, &[name + 1])?;
    }
    if last > 0 {
        add_structure(&mut bytes, last, &[])?;
    }
    for (name, references) in more {
        add_structure(&mut bytes, *name, *references)?;
    }
    bytes.extend_from_slice(&FIRST[1042..1046])?;
    Ok(bytes)
}

#[test]
fn deep_references_are_read(rt: HostRuntime) -> Result<(), Fail> {
    let rows: [(u8, &[(u8, &[u8])]); 3] = [
        (65, &[]),
        (1, &[(b'T', &[1, 1])]),
        (
            0,
            &[(b'A', b"BC"), (b'B', b"D"), (b'C', b"DB"), (b'D', b"")],
        ),
    ];
    for (last, more) in rows {
        let bytes = linked(rt.alloc(), last, more)?;
        let wide = read(rt.alloc(), bytes.as_slice())?;
        assert!(rt; wide.structures.len() > 1, "{last}");
    }
    Ok(())
}

// Whether such a stream is refused for this fault. A structure has 38 bytes, and each reference 26.
fn is_linked_badly(
    alloc: Global,
    last: u8,
    more: &[(u8, &[u8])],
    offset: u64,
    kind: StreamKind,
) -> Result<bool, AllocError> {
    let bytes = linked(alloc, last, more)?;
    Ok(is_bad(alloc, bytes.as_slice(), offset, kind))
}

#[test]
fn long_chains_are_found(rt: HostRuntime) -> Result<(), Fail> {
    // A chain of so many structures, more structures, and the first from which more than 64 references go down.
    let rows: [(u8, &[(u8, &[u8])], u64); 4] = [
        (66, &[], 62),
        (66, &[(b'X', b"Y"), (b'Y', b"X")], 62),
        (65, &[(b'T', &[1])], 4196),
        (65, &[(b'X', b"Y"), (b'Y', b"X")], 4196),
    ];
    for (last, more, offset) in rows {
        let is_found = is_linked_badly(rt.alloc(), last, more, offset, StreamKind::Unsupported)?;
        assert!(rt; is_found, "{last} structures, {offset}");
    }
    Ok(())
}

#[test]
fn loops_are_chains_without_an_end(rt: HostRuntime) -> Result<(), Fail> {
    // Structures, and the first of them that is in a loop or above one.
    let rows: [(&[(u8, &[u8])], u64); 8] = [
        (&[(b'A', b"A")], 62),
        (&[(b'A', b"B"), (b'B', b"A")], 62),
        (&[(b'T', b"A"), (b'A', b"B"), (b'B', b"A")], 62),
        (&[(b'A', b"B"), (b'B', b"A"), (b'T', b"A")], 62),
        (
            &[(b'T', b"A"), (b'A', b"B"), (b'B', b"C"), (b'C', b"A")],
            62,
        ),
        (
            &[(b'X', b"C"), (b'A', b"B"), (b'B', b"AX"), (b'C', b"C")],
            62,
        ),
        (&[(b'L', b""), (b'T', b"LA"), (b'A', b"A")], 100),
        (
            &[(b'M', b"L"), (b'L', b""), (b'A', b"MA"), (b'T', b"A")],
            164,
        ),
    ];
    for (structures, offset) in rows {
        let is_found = is_linked_badly(rt.alloc(), 0, structures, offset, StreamKind::Unsupported)?;
        assert!(rt; is_found, "{offset}");
    }
    Ok(())
}

#[test]
fn faults_of_the_whole_are_found(rt: HostRuntime) -> Result<(), Fail> {
    let rows: [(&[(u8, &[u8])], u64, StreamKind); 4] = [
        (&[(b'A', b"AZ")], 126, StreamKind::UnknownName),
        (
            &[(b'A', b"B"), (b'B', b""), (b'C', b"B")],
            164,
            StreamKind::SeveralTops,
        ),
        (
            &[(b'A', b"B"), (b'B', b""), (b'C', b"C")],
            164,
            StreamKind::Unsupported,
        ),
        (&[(b'A', b""), (b'A', b"")], 128, StreamKind::Value),
    ];
    for (structures, offset, kind) in rows {
        let is_found = is_linked_badly(rt.alloc(), 0, structures, offset, kind)?;
        assert!(rt; is_found, "{kind:?} at {offset}");
    }
    Ok(())
}

// ---- faults of records

#[test]
fn wide_faults_are_found_at_their_places(rt: HostRuntime) -> Result<(), Fail> {
    let rows: [(&[u8], usize, usize, &[u8], u64, StreamKind); 13] = [
        (&PATH, 121, 1, &[0xE9], 114, StreamKind::Value),
        (&PATH, 120, 2, &[0x00, 0x00], 114, StreamKind::Value),
        (&BEND, 119, 1, &[0x01], 114, StreamKind::Unsupported),
        (&BEND, 143, 1, &[0x96], 128, StreamKind::Value),
        (&PATH, 129, 1, &[0x89], 122, StreamKind::Value),
        (&RING, 129, 1, &[0x01], 114, StreamKind::NotRectangle),
        (&RING, 141, 1, &[0x00], 114, StreamKind::NotRectangle),
        (&ARRAY, 114, 1, &[0x81], 110, StreamKind::Unsupported),
        (
            &ARRAY,
            116,
            0,
            &[
                0x00, 0x0C, 0x1B, 0x05, 0x41, 0x20, 0x00, 0x00, 0x00, 0x00, 0x00, 0x00,
            ],
            116,
            StreamKind::Unsupported,
        ),
        (&ARRAY, 121, 1, &[0x5B], 116, StreamKind::Unsupported),
        (&ARRAY, 133, 1, &[0x00], 128, StreamKind::Value),
        (&ARRAY, 163, 1, &[0x61], 136, StreamKind::Value),
        (&ARRAY, 128, 8, &[], 128, StreamKind::Order),
    ];
    for (element, at, taken, put, offset, kind) in rows {
        let whole = stream(rt.alloc(), element)?;
        let bytes = edited(rt.alloc(), whole.as_slice(), Edit { at, taken, put })?;
        assert!(rt;
            is_bad(rt.alloc(), bytes.as_slice(), offset, kind),
            "{kind:?} at {offset}"
        );
    }
    Ok(())
}
