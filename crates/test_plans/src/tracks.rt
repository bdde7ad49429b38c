// Channels worked by hand, in slots of four columns.
ghost use Rattle.std.specs.Prelude.{◌≡◌, ◌/◌};

use channel_route::{RouteRefusal, Tracks, route};
use rowed::Wire;
use std::alloc::Global;
use std::test::Fail;

// A wire between two columns.
fn wire(from_column: u32, to_column: u32) -> Wire
    ensures { result
        ≡ record { from_slot = from_column / 4; to_slot = to_column / 4; from_column = from_column; to_column = to_column } }
{
    Wire {
        from_slot: from_column / 4,
        to_slot: to_column / 4,
        from_column,
        to_column,
    }
}

// Whether these are the tracks.
fn has_tracks(
    routed: &Result<Tracks, RouteRefusal>,
    track: &[u32],
    used: u32,
    column: u32,
) -> bool {
    match routed {
        Ok(tracks) => {
            tracks.track.as_slice() == track && tracks.used == used && tracks.column == column
        }
        Err(_) => false,
    }
}

// Whether the channel is full, with this column and these wires.
fn is_full(routed: &Result<Tracks, RouteRefusal>, full_at: u32, over: &[u32]) -> bool {
    match routed {
        Err(RouteRefusal::Full { column, wires }) => *column == full_at && wires.as_slice() == over,
        _ => false,
    }
}

// Three wires that all cross columns 5 and 6.
fn three(alloc: Global, capacity: u32) -> Result<Tracks, RouteRefusal> {
    route(alloc, &[wire(2, 9), wire(6, 5), wire(10, 1)], capacity)
}

fn none(alloc: Global, capacity: u32) -> Result<Tracks, RouteRefusal> {
    route(alloc, &[], capacity)
}

// The first ends one column before the second begins.
fn end_to_end(alloc: Global, capacity: u32) -> Result<Tracks, RouteRefusal> {
    route(alloc, &[wire(0, 3), wire(4, 7)], capacity)
}

// The first ends one column after the second begins.
fn overlapping(alloc: Global, capacity: u32) -> Result<Tracks, RouteRefusal> {
    route(alloc, &[wire(0, 5), wire(4, 7)], capacity)
}

// Each begins and ends in one slot, in neighbouring columns.
fn within_slots(alloc: Global, capacity: u32) -> Result<Tracks, RouteRefusal> {
    route(alloc, &[wire(10, 9), wire(2, 1), wire(6, 5)], capacity)
}

// Both tracks are free where the last begins.
fn both_free(alloc: Global, capacity: u32) -> Result<Tracks, RouteRefusal> {
    route(alloc, &[wire(0, 5), wire(2, 3), wire(6, 7)], capacity)
}

// One wire crosses columns 0 to 3, and four cross columns 8 to 10.
fn five(alloc: Global, capacity: u32) -> Result<Tracks, RouteRefusal> {
    route(
        alloc,
        &[
            wire(8, 15),
            wire(0, 13),
            wire(10, 5),
            wire(4, 11),
            wire(20, 21),
        ],
        capacity,
    )
}

#[test]
fn three_wires(rt: HostRuntime) -> Result<(), Fail> {
    assert!(rt; has_tracks(&three(rt.alloc(), 28), &[1, 2, 0], 3, 5));
    assert!(rt; is_full(&three(rt.alloc(), 2), 5, &[0, 1, 2]));
    Ok(())
}

#[test]
fn no_wires(rt: HostRuntime) -> Result<(), Fail> {
    assert!(rt; has_tracks(&none(rt.alloc(), 0), &[], 0, 0));
    assert!(rt; has_tracks(&none(rt.alloc(), 28), &[], 0, 0));
    Ok(())
}

#[test]
fn neighbouring_columns(rt: HostRuntime) -> Result<(), Fail> {
    assert!(rt; has_tracks(&end_to_end(rt.alloc(), 1), &[0, 0], 1, 0));
    assert!(rt; has_tracks(&overlapping(rt.alloc(), 2), &[0, 1], 2, 4));
    assert!(rt; is_full(&overlapping(rt.alloc(), 1), 4, &[0, 1]));
    assert!(rt; has_tracks(&within_slots(rt.alloc(), 1), &[0, 0, 0], 1, 1));
    Ok(())
}

#[test]
fn lowest_free_track(rt: HostRuntime) -> Result<(), Fail> {
    assert!(rt; has_tracks(&both_free(rt.alloc(), 2), &[0, 1, 0], 2, 2));
    Ok(())
}

#[test]
fn least_full_column(rt: HostRuntime) -> Result<(), Fail> {
    assert!(rt; has_tracks(&five(rt.alloc(), 4), &[3, 0, 2, 1, 0], 4, 8));
    assert!(rt; is_full(&five(rt.alloc(), 3), 8, &[0, 1, 2, 3]));
    assert!(rt; is_full(&five(rt.alloc(), 2), 5, &[1, 2, 3]));
    assert!(rt; is_full(&five(rt.alloc(), 1), 4, &[1, 3]));
    assert!(rt; is_full(&five(rt.alloc(), 0), 0, &[1]));
    Ok(())
}
