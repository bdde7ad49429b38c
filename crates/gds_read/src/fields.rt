// Numbers in the data of records.
ghost use Rattle.std.specs.Prelude.{◌≡◌, ◌*◌, ◌^◌, ◌<◌, slice_index, ◌==◌};
ghost use Rattle.std.specs.Int.{w32, cast_unsigned};
ghost use Rattle.gds_records.specs.Records.{number};
ghost use Rattle.gds_records.specs.Values.{at, unsigned_value};
ghost use Rattle.gds_records.specs.Drawing.{coordinate};

// A byte of the data, and 0 behind its end.
fn byte(content: &[u8], k: usize) -> u8
    ensures { result ≡ slice_index content.now k }
{
    if k < content.len() { content[k] } else { 0 }
}

/// The number in the first two bytes.
pub fn number(content: &[u8]) -> u16
    ensures { result ≡ number content.now }
{
    u16::from_be_bytes([byte(content, 0), byte(content, 1)])
}

fn bits(xy: &[u8], i: usize) -> u32
    requires { i < 2 ^ 61 }
    ensures { result ≡ at xy.now i }
{
    let k = 4 * i;
    u32::from_be_bytes([
        byte(xy, k),
        byte(xy, k + 1),
        byte(xy, k + 2),
        byte(xy, k + 3),
    ])
}

/// Coordinate number `i`, where x and y of each point take turns, in four bytes.
pub fn narrow(xy: &[u8], i: usize) -> i32
    requires { i < 2 ^ 61 }
    ensures { result ≡ coordinate xy.now i }
{
    bits(xy, i).cast_signed()
}

/// Coordinate number `i`, where x and y of each point take turns.
pub fn coordinate(xy: &[u8], i: usize) -> i64
    requires { i < 2 ^ 61 }
    ensures value { result ≡ coordinate xy.now i }
    ensures back { cast_unsigned w32 result ≡ at xy.now i }
{
    i64::from(bits(xy, i).cast_signed())
}

/// Whether the bytes are this number, without sign.
pub fn is_number(bytes: &[u8], number: u64) -> bool
    ensures { result ≡ (unsigned_value 0 bytes.now == number) }
{
    let mut so_far: u64 = 0;
    for b in bytes {
        if so_far > number / 256 {
            return false;
        }
        so_far = so_far * 256 + u64::from(*b);
    }
    so_far == number
}
