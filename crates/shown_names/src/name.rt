// A name as a line shows it.
ghost use Rattle.std.specs.Prelude.{ℕ, ◌≡◌, ◌≤◌, ◌<◌, ◌+◌, ◌*◌, List, [], ◌∷◌, ◌++◌, length, take};
ghost use Rattle.std.specs.Char.{digit_char};
ghost use Rattle.shown_names.specs.Names.{is_control as is_control_byte, goes_on as goes_on_with, shown_byte};
ghost use Rattle.shown_names.specs.Names.{shown_bytes, shown_name, whole_length as longest_whole};

use std::marker::Model;

/// The most bytes of a name that are shown.
const MOST: usize = 200;

/// Room for as many bytes, each spelled by four, and two dots.
const ROOM: usize = 802;

const _: () = prove!(ROOM == 4 * MOST + 2);

/// A name as a line shows it. A control byte (below 32, or 127) is spelled `\xHH`, by two lower-case hexadecimal digits;
/// of a name of more than 200 bytes the longest beginning of at most 200 is shown that cuts no character of UTF-8, and
/// two dots. All other bytes stay as they are. The bytes stand in the value itself: it takes no memory.
#[derive(Drop)]
pub struct ShownName {
    bytes: [u8; ROOM],
    used: usize,
}

impl Model for ShownName {
    ghost use Rattle.std.specs.Prelude.{ℕ, ◌≤◌, List, take};

    ghost Value = { List ℕ };

    ghost view = { λ s. take s.used s.bytes };

    ghost invariant = { λ s. s.used ≤ 802 };
}

fn is_control(byte: u8) -> bool
    ensures { result ≡ is_control_byte byte }
{
    byte < 32 || byte == 127
}

fn goes_on(byte: u8) -> bool
    ensures { result ≡ goes_on_with byte }
{
    byte >= 128 && byte < 192
}

// A hexadecimal digit, in lower case.
fn digit(value: u8) -> u8
    requires { value < 16 }
    ensures { result ≡ digit_char value }
{
    if value < 10 {
        b'0' + value
    } else {
        b'a' + (value - 10)
    }
}

// How long the beginning is that is shown of a name too long to be shown whole.
fn whole_length(name: &[u8]) -> usize
    requires { 200 < length name.now }
    ensures value { result ≡ longest_whole name.now 200 }
    ensures bound { result ≤ 200 }
{
    let mut shown = MOST;
    while shown > 0 && goes_on(name[shown]) {
        shown -= 1;
    }
    shown
}

impl ShownName {
    /// The name as a line shows it.
    pub fn of(name: &[u8]) -> Self
        ensures { result ≡ shown_name name.now }
    {
        let mut shown = ShownName {
            bytes: [0; ROOM],
            used: 0,
        };
        if name.len() <= MOST {
            shown.push_bytes(name);
        } else {
            shown.push_bytes(&name[..whole_length(name)]);
            shown.push(b'.');
            shown.push(b'.');
        }
        shown
    }

    /// The bytes that are put in the line.
    pub fn as_slice(&self) -> &[u8]
        ensures { result.now ≡ self.now }
    {
        &self.bytes[..self.used]
    }

    fn push(&mut self, byte: u8)
        requires { length self.old < 802 }
        ensures { self.new ≡ self.old ++ byte ∷ [] }
    {
        self.bytes[self.used] = byte;
        self.used += 1;
    }

    fn push_byte(&mut self, byte: u8)
        requires { length self.old + 4 ≤ 802 }
        ensures { self.new ≡ self.old ++ shown_byte byte }
    {
        if is_control(byte) {
            self.push(b'\\');
            self.push(b'x');
            self.push(digit(byte / 16));
            self.push(digit(byte % 16));
        } else {
            self.push(byte);
        }
    }

    fn push_bytes(&mut self, bytes: &[u8])
        requires { length self.old + 4 * length bytes.now ≤ 802 }
        ensures { self.new ≡ self.old ++ shown_bytes bytes.now }
    {
        for byte in bytes {
            self.push_byte(*byte);
        }
    }
}
