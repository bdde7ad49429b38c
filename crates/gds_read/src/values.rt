// The values that records must have.
ghost use Rattle.std.specs.Prelude.{◌≡◌, ℕ, ◌+◌, ◌*◌, ◌≤◌, ◌&&◌, length, drop, not};
ghost use Rattle.gds_records.specs.Records.{record_with, trimmed};
ghost use Rattle.gds_records.specs.Values.{at, one_x, one_y, is_rectangle, holds_zero, is_text, is_name, is_nanometre};
ghost use Rattle.gds_records.specs.Values.{unsigned_value, has_value};

use gds_records::codes::{LIBNAME, SNAME, STRING, STRNAME, UNITS, XY};

/// A text without its trailing zero bytes.
pub fn trimmed(content: &[u8]) -> &[u8]
    ensures { result.now ≡ trimmed content.now }
{
    let mut end = content.len();
    'zeros: while end > 0 && content[end - 1] == 0 {
        end -= 1;
    }
    let (text, _) = content.split_at(end);
    text
}

fn holds_zero(text: &[u8]) -> bool
    ensures { result ≡ holds_zero text.now }
{
    for b in text {
        if *b == 0 {
            return true;
        }
    }
    false
}

fn is_text(content: &[u8]) -> bool
    ensures { result ≡ is_text content.now }
{
    !holds_zero(trimmed(content))
}

fn is_name(content: &[u8]) -> bool
    ensures { result ≡ is_name content.now }
{
    let name = trimmed(content);
    name.len() != 0 && !holds_zero(name)
}

// The bits of number i of an XY.
fn word(xy: &[u8], i: usize) -> u32
    requires { 4 * i + 4 ≤ length xy.now }
    ensures { result ≡ at xy.now i }
{
    let k = 4 * i;
    u32::from_be_bytes([xy[k], xy[k + 1], xy[k + 2], xy[k + 3]])
}

fn has_one_x(xy: &[u8], i: usize, j: usize) -> bool
    requires i { 8 * i + 8 ≤ length xy.now }
    requires j { 8 * j + 8 ≤ length xy.now }
    ensures { result ≡ one_x xy.now i j }
{
    word(xy, 2 * i) == word(xy, 2 * j)
}

fn has_one_y(xy: &[u8], i: usize, j: usize) -> bool
    requires i { 8 * i + 8 ≤ length xy.now }
    requires j { 8 * j + 8 ≤ length xy.now }
    ensures { result ≡ one_y xy.now i j }
{
    word(xy, 2 * i + 1) == word(xy, 2 * j + 1)
}

// The first side along x, and then the others in turn.
fn goes_along_x(xy: &[u8]) -> bool
    requires { 40 ≤ length xy.now }
    ensures { result ≡ (one_y xy.now 0 1 && one_x xy.now 1 2 && one_y xy.now 2 3 && one_x xy.now 3 0) }
{
    has_one_y(xy, 0, 1) && has_one_x(xy, 1, 2) && has_one_y(xy, 2, 3) && has_one_x(xy, 3, 0)
}

// The first side along y, and then the others in turn.
fn goes_along_y(xy: &[u8]) -> bool
    requires { 40 ≤ length xy.now }
    ensures { result ≡ (one_x xy.now 0 1 && one_y xy.now 1 2 && one_x xy.now 2 3 && one_y xy.now 3 0) }
{
    has_one_x(xy, 0, 1) && has_one_y(xy, 1, 2) && has_one_x(xy, 2, 3) && has_one_y(xy, 3, 0)
}

// The last point is the first.
fn is_closed(xy: &[u8]) -> bool
    requires { 40 ≤ length xy.now }
    ensures { result ≡ (one_x xy.now 0 4 && one_y xy.now 0 4) }
{
    has_one_x(xy, 0, 4) && has_one_y(xy, 0, 4)
}

// The first point and the third differ in x and in y.
fn is_wide_and_high(xy: &[u8]) -> bool
    requires { 40 ≤ length xy.now }
    ensures { result ≡ (not (one_x xy.now 0 2) && not (one_y xy.now 0 2)) }
{
    !has_one_x(xy, 0, 2) && !has_one_y(xy, 0, 2)
}

/// Whether the points of an XY are those of a rectangle.
pub fn is_rectangle(xy: &[u8]) -> bool
    ensures { result ≡ is_rectangle xy.now }
{
    if xy.len() != 40 {
        return false;
    }
    let round = goes_along_x(xy) || goes_along_y(xy);
    is_closed(xy) && is_wide_and_high(xy) && round
}

// The mantissa of the second real of UNITS.
fn mantissa(units: &[u8]) -> u64
    requires { length units.now ≡ 16 }
    ensures { result ≡ unsigned_value 0 (drop 9 units.now) }
{
    let u = units;
    u64::from_be_bytes([0, u[9], u[10], u[11], u[12], u[13], u[14], u[15]])
}

fn is_nanometre(units: &[u8]) -> bool
    requires { length units.now ≡ 16 }
    ensures { result ≡ is_nanometre units.now }
{
    let number = mantissa(units);
    units[8] == 0x39 && number >= 0x44_B82F_A000_0000 && number < 0x44_B82F_A100_0000
}

/// The number without sign in two bytes.
pub fn flag_bits(flags: &[u8]) -> u16
    requires { length flags.now ≡ 2 }
    ensures { result ≡ unsigned_value 0 flags.now }
{
    u16::from_be_bytes([flags[0], flags[1]])
}

/// Whether the value of a record is as it must be in any element; a structure's name may not be taken.
pub fn is_value(taken: bool, kind: u8, content: &[u8]) -> bool
    requires { kind ≡ 3 → length content.now ≡ 16 }
    ensures { (form : ℕ) → result ≡ has_value taken (record_with kind form content.now) }
{
    match kind {
        LIBNAME | STRING => is_text(content),
        UNITS => is_nanometre(content),
        STRNAME => is_name(content) && !taken,
        SNAME => is_name(content),
        XY => content.len() == 8,
        _ => true,
    }
}
