// Tests of the reader on the first chip, a buffer in each of two rows, and on what becomes of its bytes.
use crate::fixtures::{Edit, FIRST, edited, flat, is_bad, is_refused, read};
use gds_read::{StreamKind, StreamRefusal};
use std::alloc::{AllocError, Global};
use std::test::Fail;

// Whether the bytes have the flat form of the first chip.
fn is_first(alloc: Global, bytes: &[u8]) -> bool {
    match (flat(alloc, bytes), flat(alloc, &FIRST)) {
        (Ok(chip), Ok(first)) => chip == first,
        _ => false,
    }
}

#[test]
fn first_chip_is_read(rt: HostRuntime) -> Result<(), Fail> {
    let layout = read(rt.alloc(), &FIRST)?;
    assert_eq!(rt; layout.structures.len(), 2);
    assert_eq!(rt; layout.top, 1);
    let flat = flat(rt.alloc(), &FIRST)?;
    assert_eq!(rt; flat.shapes.len(), 15);
    assert_eq!(rt; flat.labels.len(), 2);
    let pin = flat.shapes.get(12);
    assert_eq!(rt; (pin.layer, pin.rect.x0, pin.rect.y1), (22, 4500, 24_000));
    assert_eq!(rt; flat.labels.get(1).text.as_slice(), b"O0".as_slice());
    Ok(())
}

// The first reference is to the buffer, whose first shape is its frame, at (0, 0).
#[test]
fn a_mirrored_reference_is_read(rt: HostRuntime) -> Result<(), Fail> {
    let edit = Edit {
        at: 342,
        taken: 0,
        put: &[0x00, 0x06, 0x1A, 0x01, 0x80, 0x00],
    };
    let bytes = edited(rt.alloc(), &FIRST, edit)?;
    let flat = flat(rt.alloc(), bytes.as_slice())?;
    assert_eq!(rt; flat.shapes.len(), 15);
    let frame = flat.shapes.get(0).rect;
    assert_eq!(rt;
        (frame.x0, frame.y0, frame.x1, frame.y1),
        (0, -10_000, 8_000, 0)
    );
    Ok(())
}

#[test]
fn a_cut_is_truncated_at_its_record(rt: HostRuntime) {
    let records = [1000, 1004, 1010, 1016, 1028, 1034, 1038, 1042, 1046];
    for window in records.windows(2) {
        for length in window[0]..window[1] {
            let (cut, _) = FIRST.split_at(length);
            assert!(rt;
                is_bad(rt.alloc(), cut, window[0] as u64, StreamKind::Truncated),
                "{length}"
            );
        }
    }
}

#[test]
fn faults_are_found_at_their_places(rt: HostRuntime) -> Result<(), Fail> {
    let none: &[u8] = &[];
    let rows: [(usize, usize, &[u8], u64, StreamKind); 14] = [
        (0, 1046, none, 0, StreamKind::Truncated),
        (0, 1046, &[0x00, 0x03, 0x00, 0x02], 0, StreamKind::Length),
        (0, 1046, &[0x00, 0x04, 0x00, 0x02], 0, StreamKind::Length),
        (
            0,
            1046,
            &[0x00, 0x06, 0x00, 0x03, 0x02, 0x58],
            0,
            StreamKind::DataType,
        ),
        (0, 6, none, 0, StreamKind::Order),
        (42, 20, none, 42, StreamKind::Order),
        (54, 1, &[0x3A], 42, StreamKind::Value),
        (62, 984, &[0x00, 0x04, 0x04, 0x00], 62, StreamKind::NoTop),
        // A PATH has a WIDTH before its XY; a NODE is no record of these streams.
        (100, 1, &[0x09], 114, StreamKind::Order),
        (100, 1, &[0x15], 98, StreamKind::Unsupported),
        (133, 1, &[0x01], 114, StreamKind::NotRectangle),
        (326, 3, b"BUF", 322, StreamKind::Value),
        (340, 1, b"G", 334, StreamKind::UnknownName),
        (
            342,
            0,
            &[0x00, 0x06, 0x1A, 0x01, 0x80, 0x04],
            342,
            StreamKind::Unsupported,
        ),
    ];
    for (at, taken, put, offset, kind) in rows {
        let bytes = edited(rt.alloc(), &FIRST, Edit { at, taken, put })?;
        assert!(rt;
            is_bad(rt.alloc(), bytes.as_slice(), offset, kind),
            "{kind:?} at {offset}"
        );
    }
    Ok(())
}

#[test]
fn faults_of_the_whole_are_found(rt: HostRuntime) -> Result<(), Fail> {
    let none: &[u8] = &[];
    let rows: [(usize, usize, &[u8], usize, usize, &[u8], u64, StreamKind); 3] = [
        (814, 3, b"TOP", 338, 3, b"TOP", 294, StreamKind::Unsupported),
        (806, 28, none, 330, 28, none, 294, StreamKind::SeveralTops),
        (
            1046,
            0,
            &[0x00, 0x01],
            1046,
            0,
            none,
            1047,
            StreamKind::Value,
        ),
    ];
    for (at, taken, put, second_at, second_taken, second_put, offset, kind) in rows {
        let once = edited(rt.alloc(), &FIRST, Edit { at, taken, put })?;
        let edit = Edit {
            at: second_at,
            taken: second_taken,
            put: second_put,
        };
        let bytes = edited(rt.alloc(), once.as_slice(), edit)?;
        assert!(rt;
            is_bad(rt.alloc(), bytes.as_slice(), offset, kind),
            "{kind:?} at {offset}"
        );
    }
    let edit = Edit {
        at: 1046,
        taken: 0,
        put: &[0x01],
    };
    let bytes = edited(rt.alloc(), &FIRST, edit)?;
    assert!(rt; is_bad(rt.alloc(), bytes.as_slice(), 1046, StreamKind::Value));
    Ok(())
}

// REFLIBS, FONTS, ATTRTABLE and GENERATIONS.
const LIBRARIES: [u8; 20] = [
    0x00, 0x06, 0x1F, 0x06, 0x41, 0x42, 0x00, 0x04, 0x20, 0x06, 0x00, 0x04, 0x23, 0x06, 0x00, 0x06,
    0x22, 0x02, 0x00, 0x03,
];

// ELFLAGS and PLEX.
const FLAGS: [u8; 14] = [
    0x00, 0x06, 0x26, 0x01, 0x00, 0x01, 0x00, 0x08, 0x2F, 0x03, 0x00, 0x00, 0x00, 0x07,
];

// PROPATTR and PROPVALUE.
const PROPERTY: [u8; 12] = [
    0x00, 0x06, 0x2B, 0x02, 0x00, 0x01, 0x00, 0x06, 0x2C, 0x06, 0x41, 0x42,
];

// The first frame, from its upper right corner and clockwise.
const CORNERS: [u8; 40] = [
    0x00, 0x00, 0x1F, 0x40, 0x00, 0x00, 0x27, 0x10, 0x00, 0x00, 0x1F, 0x40, 0x00, 0x00, 0x00, 0x00,
    0x00, 0x00, 0x00, 0x00, 0x00, 0x00, 0x00, 0x00, 0x00, 0x00, 0x00, 0x00, 0x00, 0x00, 0x27, 0x10,
    0x00, 0x00, 0x1F, 0x40, 0x00, 0x00, 0x27, 0x10,
];

// PRESENTATION, PATHTYPE, WIDTH, STRANS, MAG and ANGLE.
const LETTERING: [u8; 50] = [
    0x00, 0x06, 0x17, 0x01, 0x00, 0x05, 0x00, 0x06, 0x21, 0x02, 0x00, 0x00, 0x00, 0x08, 0x0F, 0x03,
    0x00, 0x00, 0x00, 0x0A, 0x00, 0x06, 0x1A, 0x01, 0x80, 0x00, 0x00, 0x0C, 0x1B, 0x05, 0x41, 0x10,
    0x00, 0x00, 0x00, 0x00, 0x00, 0x00, 0x00, 0x0C, 0x1C, 0x05, 0x42, 0x5A, 0x00, 0x00, 0x00, 0x00,
    0x00, 0x00,
];

#[test]
fn what_does_not_count_is_passed_over(rt: HostRuntime) -> Result<(), Fail> {
    let zeros = [0u8; 1002];
    let rows: [(usize, usize, &[u8]); 7] = [
        (42, 0, &LIBRARIES),
        (102, 0, &FLAGS),
        (158, 0, &PROPERTY),
        (118, 40, &CORNERS),
        (342, 0, &[0x00, 0x06, 0x1A, 0x01, 0x00, 0x00]),
        (978, 0, &LETTERING),
        (1046, 0, &zeros),
    ];
    for (at, taken, put) in rows {
        let bytes = edited(rt.alloc(), &FIRST, Edit { at, taken, put })?;
        assert!(rt; is_first(rt.alloc(), bytes.as_slice()), "at {at}");
    }
    Ok(())
}

// A structure of 4,000 boundaries, and a top that refers to it so many times.
fn crowded(alloc: Global, references: usize) -> Result<Vec<u8>, AllocError> {
    let mut bytes = Vec::new(alloc);
    bytes.extend_from_slice(&FIRST[0..98])?;
    for _ in 0..4_000 {
        bytes.extend_from_slice(&FIRST[98..162])?;
    }
    bytes.extend_from_slice(&FIRST[290..330])?;
    for _ in 0..references {
        bytes.extend_from_slice(&FIRST[330..358])?;
    }
    bytes.extend_from_slice(&FIRST[1038..1046])?;
    Ok(bytes)
}

#[test]
fn too_many_shapes_are_counted(rt: HostRuntime) -> Result<(), Fail> {
    let enough = crowded(rt.alloc(), 2_000)?;
    let layout = read(rt.alloc(), enough.as_slice())?;
    assert_eq!(rt; layout.structures.len(), 2);
    let more = crowded(rt.alloc(), 2_001)?;
    let many = StreamRefusal::TooManyShapes { count: 8_004_000 };
    assert!(rt; is_refused(rt.alloc(), more.as_slice(), many));
    Ok(())
}
