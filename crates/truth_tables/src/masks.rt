// Tables of 64 bits, and the bits of a place.
ghost use Rattle.std.specs.Prelude.{◌≡◌, ◌<◌};
ghost use Rattle.truth_tables.specs.Tables.{mask};

/// The table of the value of an input: bit i is bit `place` of i.
pub fn mask(place: usize) -> u64
    requires { place < 6 }
    ensures { result ≡ mask place }
{
    match place {
        0 => 0xAAAA_AAAA_AAAA_AAAA,
        1 => 0xCCCC_CCCC_CCCC_CCCC,
        2 => 0xF0F0_F0F0_F0F0_F0F0,
        3 => 0xFF00_FF00_FF00_FF00,
        4 => 0xFFFF_0000_FFFF_0000,
        _ => 0xFFFF_FFFF_0000_0000,
    }
}
