// Rings and paths that are cut, and layouts that are counted.
ghost use Rattle.std.specs.Prelude.{◌≡◌, ◌<◌, ◌≤◌, ◌^◌, All};
ghost use Rattle.poly_cut.specs.Figures.{IsBent, IsNarrow};

use crate::cutting::{cut_path, cut_ring};
use crate::{Figure, Grid, Item, Point, Ring, Turn, WideLayout, WideStructure, count_flat};
use aq_base::{List, Memory};
use geom::Rect;
use std::alloc::Global;
use std::test::Fail;

// A rectangle by its left, lower, right and upper edges.
type Edges = (i64, i64, i64, i64);

fn are(rects: &[Rect], expected: &[Edges]) -> bool {
    if rects.len() != expected.len() {
        return false;
    }
    for (rect, expected) in rects.iter().zip(expected.iter()) {
        if (rect.x0, rect.y0, rect.x1, rect.y1) != *expected {
            return false;
        }
    }
    true
}

fn points(alloc: Global, corners: &[(i64, i64)]) -> Result<Vec<Point>, Memory> {
    let mut points = Vec::new(alloc);
    for corner in corners {
        points.push(Point {
            x: corner.0,
            y: corner.1,
        })?;
    }
    Ok(points)
}

#[test]
fn rings(rt: HostRuntime) -> Result<(), Fail> {
    let rows: [(&[(i64, i64)], &[Edges]); 7] = [
        // an L
        (
            &[(0, 0), (4, 0), (4, 2), (2, 2), (2, 6), (0, 6), (0, 0)],
            &[(0, 0, 4, 2), (0, 2, 2, 6)],
        ),
        // points on a straight edge
        (
            &[(0, 0), (2, 0), (4, 0), (4, 3), (4, 9), (0, 9), (0, 0)],
            &[(0, 0, 4, 9)],
        ),
        // a frame, by a cut from its outer to its inner edge
        (
            &[
                (0, 0),
                (6, 0),
                (6, 6),
                (0, 6),
                (0, 2),
                (2, 2),
                (2, 4),
                (4, 4),
                (4, 2),
                (0, 2),
                (0, 0),
            ],
            &[(0, 0, 6, 2), (0, 2, 2, 4), (4, 2, 6, 4), (0, 4, 6, 6)],
        ),
        // a ring that crosses itself: where it goes round twice, nothing is inside
        (
            &[
                (0, 0),
                (6, 0),
                (6, 4),
                (2, 4),
                (2, 2),
                (8, 2),
                (8, 6),
                (0, 6),
                (0, 0),
            ],
            &[(0, 0, 6, 2), (0, 2, 2, 4), (6, 2, 8, 4), (0, 4, 8, 6)],
        ),
        // the other way round, below the origin
        (
            &[(0, 0), (0, -3), (-5, -3), (-5, 0), (0, 0)],
            &[(-5, -3, 0, 0)],
        ),
        // there and back: no square inside
        (&[(0, 0), (4, 0), (4, 4), (4, 0), (0, 0)], &[]),
        (&[], &[]),
    ];
    for (corners, expected) in rows {
        let ring = points(rt.alloc(), corners)?;
        let rects = cut_ring(rt.alloc(), ring.as_slice())?;
        assert!(rt; are(rects.as_slice(), expected));
    }
    Ok(())
}

fn bent(alloc: Global, extended: bool) -> Result<List<Rect>, Memory> {
    let points = [
        Point { x: 5, y: 5 },
        Point { x: 9, y: 5 },
        Point { x: 9, y: 2 },
    ];
    cut_path(alloc, extended, 1, points.as_slice())
}

#[test]
fn paths(rt: HostRuntime) -> Result<(), Fail> {
    let flush = bent(rt.alloc(), false)?;
    assert!(rt; are(flush.as_slice(), &[(5, 4, 10, 6), (8, 2, 10, 6)]));
    let extended = bent(rt.alloc(), true)?;
    assert!(rt; are(extended.as_slice(), &[(4, 4, 10, 6), (8, 1, 10, 6)]));
    Ok(())
}

// A structure of one figure, and above it so many structures, each of which places the one below it at a grid.
fn tower(alloc: Global, above: u32, columns: u16, rows: u16) -> Result<WideLayout, Memory> {
    let mut structures = List::new(alloc);
    let ring = points(
        alloc,
        &[(0, 0), (4, 0), (4, 2), (2, 2), (2, 6), (0, 6), (0, 0)],
    )?;
    let figure = Figure::Ring(Ring::new(alloc, List::from_vec(ring))?);
    let draw = Item::Draw {
        layer: 1,
        datatype: 0,
        figure,
    };
    let mut items = List::new(alloc);
    items.push(draw)?;
    structures.push(WideStructure {
        name: List::new(alloc),
        items,
    })?;
    for structure in 0..above {
        let mut items = List::new(alloc);
        items.push(Item::Place {
            structure,
            at: Point { x: 10, y: 20 },
            turn: Turn {
                mirror: true,
                quarter: 1,
            },
            grid: Grid {
                columns,
                rows,
                column_step: Point { x: 100, y: 0 },
                row_step: Point { x: 0, y: 100 },
            },
        })?;
        structures.push(WideStructure {
            name: List::new(alloc),
            items,
        })?;
    }
    Ok(WideLayout {
        structures,
        top: above,
    })
}

#[test]
fn counts(rt: HostRuntime) -> Result<(), Fail> {
    // references that stand on one another, columns and rows of each, and how many shapes
    let rows: [(u32, u16, u16, u64); 7] = [
        (0, 1, 1, 2),
        (1, 1, 1, 2),
        (1, 3, 5, 30),
        (2, 3, 1, 18),
        (64, 1, 1, 2),
        (65, 1, 1, 0),
        (64, 2, 1, u64::MAX),
    ];
    for (above, columns, count_rows, expected) in rows {
        let layout = tower(rt.alloc(), above, columns, count_rows)?;
        assert_eq!(rt; count_flat(rt.alloc(), &layout)?, expected);
    }
    Ok(())
}

#[test]
fn rings_keep_their_cut(rt: HostRuntime) -> Result<(), Fail> {
    let corners = points(
        rt.alloc(),
        &[(0, 0), (4, 0), (4, 2), (2, 2), (2, 6), (0, 6), (0, 0)],
    )?;
    let ring = Ring::new(rt.alloc(), List::from_vec(corners))?;
    assert_eq!(rt; ring.count(), 2);
    let copy = ring.clone()?;
    assert!(rt; copy == ring);
    let rects = copy.rects(rt.alloc())?;
    assert!(rt; are(rects.as_slice(), &[(0, 0, 4, 2), (0, 2, 2, 6)]));
    Ok(())
}
