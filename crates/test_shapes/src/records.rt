// Tests of the writer on the first chip, a buffer in each of two rows.
ghost use Rattle.std.specs.Prelude.{◌≡◌, IfOk, IsSome};
ghost use Rattle.aq_base.specs.MemoryStore.{store_of};
ghost use Rattle.geom.specs.FirstChip.{first_layout, first_buffer, first_top};

use crate::fixtures::FIRST;
use aq_base::{Files, List, MemFiles, Memory, Text};
use gds_records::{Head, WriteRefusal, record_head, write_stream};
use geom::{Element, Label, Layout, Rect, Shape, Structure};
use std::alloc::Global;

fn text(alloc: Global, text: &[u8]) -> Result<List<u8>, Memory>
    ensures { IfOk result (λ t. t ≡ text.now) }
{
    let mut bytes = Vec::new(alloc);
    bytes.extend_from_slice(text)?;
    Ok(List::from_vec(bytes))
}

#[tactic(auto, unfolding(geom::specs::FirstChip::first_buffer))]
fn buffer(alloc: Global) -> Result<Structure, Memory>
    ensures { IfOk result (λ s. s ≡ first_buffer) }
{
    let elements = vec![in alloc;
        Element::Box(Shape {
            layer: 20,
            datatype: 1,
            rect: Rect {
                x0: 0,
                y0: 0,
                x1: 8000,
                y1: 10000,
            },
        }),
        Element::Box(Shape {
            layer: 21,
            datatype: 0,
            rect: Rect {
                x0: 2500,
                y0: 0,
                x1: 3500,
                y1: 1000,
            },
        }),
        Element::Box(Shape {
            layer: 22,
            datatype: 0,
            rect: Rect {
                x0: 4500,
                y0: 9000,
                x1: 5500,
                y1: 10000,
            },
        }),
    ]?;
    Ok(Structure {
        name: text(alloc, b"BUF")?,
        elements: List::from_vec(elements),
    })
}

#[tactic(auto, unfolding(geom::specs::FirstChip::first_top))]
fn top(alloc: Global) -> Result<Structure, Memory>
    ensures { IfOk result (λ s. s ≡ first_top) }
{
    let input = Text::from_vec(text(alloc, b"I0")?.into_vec())?;
    let output = Text::from_vec(text(alloc, b"O0")?.into_vec())?;
    let elements = vec![in alloc;
        Element::Place {
            structure: 0,
            x: 0,
            y: 0,
        },
        Element::Box(Shape {
            layer: 14,
            datatype: 2,
            rect: Rect {
                x0: -4000,
                y0: 0,
                x1: 0,
                y1: 10000,
            },
        }),
        Element::Box(Shape {
            layer: 14,
            datatype: 0,
            rect: Rect {
                x0: 0,
                y0: 0,
                x1: 8000,
                y1: 10000,
            },
        }),
        Element::Box(Shape {
            layer: 10,
            datatype: 0,
            rect: Rect {
                x0: 4500,
                y0: 9000,
                x1: 5500,
                y1: 12500,
            },
        }),
        Element::Box(Shape {
            layer: 10,
            datatype: 0,
            rect: Rect {
                x0: 2500,
                y0: 11500,
                x1: 3500,
                y1: 15000,
            },
        }),
        Element::Box(Shape {
            layer: 12,
            datatype: 0,
            rect: Rect {
                x0: 2500,
                y0: 11500,
                x1: 5500,
                y1: 12500,
            },
        }),
        Element::Box(Shape {
            layer: 11,
            datatype: 0,
            rect: Rect {
                x0: 4700,
                y0: 11700,
                x1: 5300,
                y1: 12300,
            },
        }),
        Element::Box(Shape {
            layer: 11,
            datatype: 0,
            rect: Rect {
                x0: 2700,
                y0: 11700,
                x1: 3300,
                y1: 12300,
            },
        }),
        Element::Place {
            structure: 0,
            x: 0,
            y: 14000,
        },
        Element::Box(Shape {
            layer: 15,
            datatype: 2,
            rect: Rect {
                x0: -4000,
                y0: 14000,
                x1: 0,
                y1: 24000,
            },
        }),
        Element::Box(Shape {
            layer: 15,
            datatype: 0,
            rect: Rect {
                x0: 0,
                y0: 14000,
                x1: 8000,
                y1: 24000,
            },
        }),
        Element::Text(Label {
            layer: 30,
            x: 3000,
            y: 500,
            text: input,
        }),
        Element::Text(Label {
            layer: 30,
            x: 5000,
            y: 23500,
            text: output,
        }),
    ]?;
    Ok(Structure {
        name: text(alloc, b"TOP")?,
        elements: List::from_vec(elements),
    })
}

#[tactic(auto, unfolding(geom::specs::FirstChip::first_layout))]
fn first(alloc: Global) -> Result<Layout, Memory>
    ensures { IfOk result (λ l. l ≡ first_layout) }
{
    let structures = vec![in alloc; buffer(alloc)?, top(alloc)?]?;
    Ok(Layout {
        structures: List::from_vec(structures),
        top: 1,
    })
}

fn written(alloc: Global, files: &mut MemFiles) -> Result<(), WriteRefusal>
    requires { IsSome (store_of files.old).opened }
{
    geom::first_chip_is_writable();
    let layout = first(alloc)?;
    write_stream(alloc, &layout, files)
}

#[test]
fn the_first_chip_is_written(rt: HostRuntime) {
    let mut files = MemFiles::new(rt.alloc());
    assert!(rt; files.create("chip").is_ok());
    assert!(rt; written(rt.alloc(), &mut files).is_ok());
    let bytes = files.bytes("chip").expect(&rt, "the file");
    assert!(rt; bytes == &FIRST[..]);
    assert_eq!(rt; files.calls(), 2);
}

#[test]
fn a_refused_append_leaves_a_prefix(rt: HostRuntime) {
    let mut files = MemFiles::new(rt.alloc());
    assert!(rt; files.fail_at(1, 1_000).is_ok());
    assert!(rt; files.create("chip").is_ok());
    assert_eq!(rt; written(rt.alloc(), &mut files), Err(WriteRefusal::Failed));
    let bytes = files.bytes("chip").expect(&rt, "the file");
    assert!(rt; bytes == &FIRST[..1_000]);
}

#[test]
fn heads_of_records(rt: HostRuntime) {
    let cases = [
        (0, 6, 0x00, 2),
        (98, 4, 0x08, 0),
        (114, 44, 0x10, 3),
        (1_042, 4, 0x04, 0),
    ];
    for (at, length, kind, form) in cases {
        assert!(rt; record_head(&FIRST, at) == Head::Full { length, kind, form });
    }
    assert!(rt; record_head(&FIRST, 1_043) == Head::Short);
    assert!(rt; record_head(&FIRST, 1_046) == Head::Short);
}
