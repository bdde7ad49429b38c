// The first chip with something changed, and what is told of it when its circuit is extracted.
use crate::fixtures::{INPUT, Named, OUTPUT, chip, drawn, told, told_of};
use aq_base::List;
use circuit_extracted::two_buffers;
use geom::{Flat, Shape};
use layout_rules::layers::{BAR, EVEN_LINE, FRAME, INPUT_PIN, M1, OUTPUT_PIN};
use shape_extract::{Rule, extract};
use std::test::Fail;

/// A splitter of two in place of the upper buffer.
fn splitter() -> [(usize, Shape); 2] {
    [
        (10, drawn(FRAME, 5, 0, 14_000, 8_000, 10_000)),
        (15, drawn(OUTPUT_PIN, 1, 6_500, 23_000, 1_000, 1_000)),
    ]
}

#[test]
fn the_first_chip_is_a_circuit(rt: HostRuntime) -> Result<(), Fail> {
    let flat = chip(rt.alloc(), &[], &[INPUT, OUTPUT])?;
    assert!(rt; flat.shapes.len() < 100 && flat.labels.len() < 100);
    match extract(rt.alloc(), &flat) {
        Ok(circuit) => assert!(rt; circuit == two_buffers(rt.alloc())?),
        Err(_) => assert!(rt; false, "no circuit"),
    }
    let outputs = [INPUT, OUTPUT, Named(7_000, 23_500, b"O1")];
    assert_eq!(rt; told(rt.alloc(), &rt, &splitter(), &outputs)?, None);
    Ok(())
}

#[test]
fn cells_that_are_none(rt: HostRuntime) -> Result<(), Fail> {
    let empty = Flat {
        shapes: List::new(rt.alloc()),
        labels: List::new(rt.alloc()),
    };
    assert_eq!(rt; told_of(rt.alloc(), &empty)?, Some((Rule::E1, 0, 0)));
    let cases = [
        // a frame of no kind, of a kind with more outputs, and with an output of another number
        (10, drawn(FRAME, 8, 0, 14_000, 8_000, 10_000), 10),
        (10, drawn(FRAME, 5, 0, 14_000, 8_000, 10_000), 10),
        (12, drawn(OUTPUT_PIN, 1, 4_500, 23_000, 1_000, 1_000), 10),
        // a pin in no frame, and pins in two
        (15, drawn(INPUT_PIN, 0, 7_500, 0, 1_000, 1_000), 15),
        (15, drawn(FRAME, 1, 0, 14_000, 8_000, 10_000), 11),
    ];
    for (number, shape, at) in cases {
        assert_eq!(rt;
            told(rt.alloc(), &rt, &[(number, shape)], &[INPUT, OUTPUT])?,
            Some((Rule::E1, at, at))
        );
    }
    Ok(())
}

#[test]
fn nets_that_join_or_miss_pins(rt: HostRuntime) -> Result<(), Fail> {
    // metal between two outputs, metal between two inputs, and a wire that leads nowhere
    let cases = [
        (15, drawn(M1, 0, 4_500, 9_000, 1_000, 15_000), (2, 12)),
        (15, drawn(M1, 0, 2_500, 0, 1_000, 15_000), (1, 11)),
        (5, drawn(M1, 0, 14_500, 9_000, 1_000, 3_500), (11, 11)),
    ];
    for (number, shape, (first, second)) in cases {
        assert_eq!(rt;
            told(rt.alloc(), &rt, &[(number, shape)], &[INPUT, OUTPUT])?,
            Some((Rule::E3, first, second))
        );
    }
    // a label on a pin that another cell feeds
    let labels = [INPUT, OUTPUT, Named(3_000, 14_500, b"I1")];
    assert_eq!(rt;
        told(rt.alloc(), &rt, &[], &labels)?,
        Some((Rule::E3, 11, 2))
    );
    Ok(())
}

#[test]
fn wires_that_stay_in_a_row(rt: HostRuntime) -> Result<(), Fail> {
    let changes = [
        (10, drawn(FRAME, 1, 10_000, 0, 8_000, 10_000)),
        (11, drawn(INPUT_PIN, 0, 12_500, 0, 1_000, 1_000)),
        (12, drawn(OUTPUT_PIN, 0, 14_500, 9_000, 1_000, 1_000)),
        (4, drawn(EVEN_LINE, BAR, 0, 0, 18_000, 10_000)),
        (5, drawn(M1, 0, 4_500, 9_000, 9_000, 200)),
        (6, drawn(M1, 0, 12_500, 0, 1_000, 9_500)),
    ];
    assert_eq!(rt;
        told(rt.alloc(), &rt, &changes, &[INPUT, OUTPUT])?,
        Some((Rule::E4, 11, 2))
    );
    Ok(())
}

#[test]
fn labels_that_mark_no_port_alone(rt: HostRuntime) -> Result<(), Fail> {
    // a zero before others, another letter, no pin at the point, and a pin that is no port
    let cases = [
        Named(5_000, 23_500, b"O00"),
        Named(5_000, 23_500, b"X0"),
        Named(5_000, 20_000, b"O0"),
        Named(5_000, 9_500, b"O0"),
    ];
    for label in cases {
        assert_eq!(rt;
            told(rt.alloc(), &rt, &[], &[INPUT, label])?,
            Some((Rule::E6, 16, 16))
        );
    }
    // a port without a label, and one with two
    assert_eq!(rt;
        told(rt.alloc(), &rt, &[], &[INPUT])?,
        Some((Rule::E6, 12, 12))
    );
    let labels = [INPUT, OUTPUT, Named(4_600, 23_200, b"O1")];
    assert_eq!(rt;
        told(rt.alloc(), &rt, &[], &labels)?,
        Some((Rule::E6, 12, 12))
    );
    Ok(())
}

#[test]
fn labels_with_wrong_numbers(rt: HostRuntime) -> Result<(), Fail> {
    let high = [Named(3_000, 500, b"I1"), OUTPUT];
    assert_eq!(rt;
        told(rt.alloc(), &rt, &[], &high)?,
        Some((Rule::E6, 15, 15))
    );
    let huge = [INPUT, Named(5_000, 23_500, b"O18446744073709551616")];
    assert_eq!(rt;
        told(rt.alloc(), &rt, &[], &huge)?,
        Some((Rule::E6, 16, 16))
    );
    let twice = [INPUT, OUTPUT, Named(7_000, 23_500, b"O0")];
    assert_eq!(rt;
        told(rt.alloc(), &rt, &splitter(), &twice)?,
        Some((Rule::E6, 18, 18))
    );
    Ok(())
}
