// Names as lines show them.
ghost use Rattle.std.specs.Prelude.{◌+◌, ◌≤◌, length};

use crate::ShownName;
use std::test::Fail;

/// How many bytes the long names of these tests have.
const LONG: usize = 250;

#[test]
fn control_bytes_are_spelled(rt: HostRuntime) -> Result<(), Fail> {
    let rows: [(&[u8], &[u8]); 6] = [
        (b"", b""),
        (b"buffer.width", b"buffer.width"),
        (b"a\nb", b"a\\x0ab"),
        (b"\x00\x1f\x20\x7e\x7f\x80", b"\\x00\\x1f ~\\x7f\x80"),
        (b"\x1b[2J", b"\\x1b[2J"),
        (b"a\\x0a", b"a\\x0a"),
    ];
    for (name, shown) in rows {
        assert!(rt; ShownName::of(name).as_slice() == shown);
    }
    assert!(rt;
        ShownName::of("\u{e9}\u{20ac}".as_bytes()).as_slice() == "\u{e9}\u{20ac}".as_bytes()
    );
    Ok(())
}

// `a` as often as a long name has bytes, and these bytes from the given place on.
fn long_name(place: usize, bytes: &[u8]) -> [u8; 250]
    requires { place + length bytes.now ≤ 250 }
{
    let mut name = [b'a'; LONG];
    name[place..place + bytes.len()].copy_from_slice(bytes);
    name
}

// How many bytes of a long name stand before the two dots.
fn stands(name: &[u8]) -> Option<usize>
    requires { length name.now ≤ 250 }
{
    let shown = ShownName::of(name);
    let text = shown.as_slice();
    if text.len() < 2 || text.len() > name.len() || &text[text.len() - 2..] != b"..".as_slice() {
        return None;
    }
    let count = text.len() - 2;
    if &text[..count] == &name[..count] {
        Some(count)
    } else {
        None
    }
}

#[test]
fn long_names_are_cut_between_characters(rt: HostRuntime) -> Result<(), Fail> {
    // the place of a character, its bytes, and how many bytes of the name are shown
    let rows: [(usize, &[u8], usize); 16] = [
        (0, b"", 200),
        (198, b"\xc3\xa9", 200),
        (199, b"\xc3\xa9", 199),
        (200, b"\xc3\xa9", 200),
        (197, b"\xe2\x82\xac", 200),
        (198, b"\xe2\x82\xac", 198),
        (199, b"\xe2\x82\xac", 199),
        (200, b"\xe2\x82\xac", 200),
        (196, b"\xf0\x9f\x98\x80", 200),
        (197, b"\xf0\x9f\x98\x80", 197),
        (198, b"\xf0\x9f\x98\x80", 198),
        (199, b"\xf0\x9f\x98\x80", 199),
        (200, b"\xf0\x9f\x98\x80", 200),
        // no UTF-8: a byte that goes on with a character stands after none, one is cut short, one begins none
        (199, b"\x80\x80", 198),
        (199, b"\xe2a", 200),
        (199, b"\xff\xff", 200),
    ];
    for (place, bytes, shown) in rows {
        if place + bytes.len() <= LONG {
            assert!(rt; stands(&long_name(place, bytes)) == Some(shown), "{place}");
        }
    }
    Ok(())
}

#[test]
fn two_hundred_bytes_stand_whole(rt: HostRuntime) -> Result<(), Fail> {
    let name = [b'a'; 201];
    assert!(rt; ShownName::of(&name[..200]).as_slice() == &name[..200]);
    assert!(rt; ShownName::of(&name).as_slice().len() == 202);
    // each byte that is spelled counts as one
    let bells = [7; 201];
    assert!(rt; ShownName::of(&bells[..200]).as_slice().len() == 800);
    assert!(rt; ShownName::of(&bells).as_slice().len() == 802);
    // where no byte begins a character, none is shown
    assert!(rt; ShownName::of(&[0x80; 201]).as_slice() == b"..".as_slice());
    Ok(())
}
