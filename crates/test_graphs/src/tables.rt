// Tables of 64 bits.
use std::test::Fail;
use truth_tables::{majority_table, mask, signed};

/// The bit of a number at a place.
fn bit(number: u64, place: usize) -> bool {
    number >> (place % 64) & 1 == 1
}

#[test]
fn tables_of_literals(rt: HostRuntime) -> Result<(), Fail> {
    for i in 0..64 {
        for place in 0..6 {
            assert_eq!(rt; bit(mask(place), i), bit(i as u64, place));
        }
    }
    assert_eq!(rt;
        (signed(6, 0x0F), signed(7, 0x0F)),
        (0x0F, 0xFFFF_FFFF_FFFF_FFF0)
    );
    assert_eq!(rt;
        majority_table(0b0000_1111, 0b0011_0011, 0b0101_0101),
        0b0001_0111
    );
    Ok(())
}
