// Small circuits that are alike by their structure or not, and random ones of which all words are tried as well.
use crate::pairs::{Found, Pair, compared};
use aq_base::Memory;
use circuit::Gate;
use decide::DecideRefusal;
use std::alloc::Global;
use std::test::Fail;
use test_fixtures::{next_number, random_gate};

// Alike by their structure, and so equal.
const ALIKE: Found = Found {
    is_alike: true,
    is_decided: true,
    is_equal: true,
};

// Alike after a sweep alone. What differs is decided by it as well.
const SWEPT: Found = Found {
    is_alike: false,
    is_decided: true,
    is_equal: true,
};

const DIFFERENT: Found = Found {
    is_alike: false,
    is_decided: true,
    is_equal: false,
};

// Whether this is found of a pair, and all words say so too.
fn is_right(alloc: Global, pair: Pair, expected: Found) -> Result<bool, DecideRefusal> {
    match compared(alloc, pair)? {
        None => Ok(false),
        Some((found, agree)) => Ok(found == expected && agree == expected.is_equal),
    }
}

// A full adder: gate 10 is the sum of three inputs, gate 5 the carry.
const ADDER: [Gate; 11] = [
    Gate::Input(0),
    Gate::Input(1),
    Gate::Input(2),
    Gate::Zero,
    Gate::One,
    Gate::Maj(0, 1, 2),
    Gate::Inv(5),
    Gate::Inv(2),
    Gate::Maj(0, 1, 7),
    Gate::Buf(6),
    Gate::Maj(9, 8, 2),
];

// The same in another order, with exchanged operands and turned majorities: the sum is gate 12, the carry gate 4.
const OTHER_ADDER: [Gate; 13] = [
    Gate::Input(2),
    Gate::Input(1),
    Gate::Input(0),
    Gate::Inv(0),
    Gate::Maj(1, 0, 2),
    Gate::Inv(1),
    Gate::Inv(2),
    Gate::Maj(0, 6, 5),
    Gate::Inv(7),
    Gate::Inv(4),
    Gate::Inv(9),
    Gate::Inv(10),
    Gate::Maj(0, 11, 8),
];

// An exclusive or of two inputs, as their or and not their and: gate 7.
const EXCLUSIVE: [Gate; 8] = [
    Gate::Input(0),
    Gate::Input(1),
    Gate::Zero,
    Gate::One,
    Gate::Maj(0, 3, 1),
    Gate::Maj(0, 2, 1),
    Gate::Inv(5),
    Gate::Maj(4, 2, 6),
];

// The same, as one without the other: gate 8.
const EITHER_ALONE: [Gate; 10] = [
    Gate::Input(1),
    Gate::Input(0),
    Gate::Zero,
    Gate::One,
    Gate::Inv(0),
    Gate::Inv(1),
    Gate::Maj(2, 0, 5),
    Gate::Maj(4, 1, 2),
    Gate::Maj(6, 7, 3),
    Gate::Buf(1),
];

// A full adder of two exclusive ors: gate 12 is the sum of three inputs, gate 13 the carry.
const TWO_EXCLUSIVES: [Gate; 14] = [
    Gate::Input(0),
    Gate::Input(1),
    Gate::Input(2),
    Gate::Zero,
    Gate::One,
    Gate::Maj(0, 1, 3),
    Gate::Maj(0, 1, 4),
    Gate::Inv(5),
    Gate::Maj(6, 7, 3),
    Gate::Maj(8, 2, 3),
    Gate::Maj(8, 2, 4),
    Gate::Inv(9),
    Gate::Maj(10, 11, 3),
    Gate::Maj(5, 9, 4),
];

// The same by the second input, which chooses between what sum and carry are without it: gates 15 and 8. Gate 16 is
// false.
const CHOSEN: [Gate; 17] = [
    Gate::Input(0),
    Gate::Input(1),
    Gate::Input(2),
    Gate::Zero,
    Gate::One,
    Gate::Maj(0, 4, 2),
    Gate::Maj(0, 3, 2),
    Gate::Maj(5, 1, 3),
    Gate::Maj(7, 6, 4),
    Gate::Inv(6),
    Gate::Maj(5, 9, 3),
    Gate::Inv(10),
    Gate::Inv(1),
    Gate::Maj(11, 1, 3),
    Gate::Maj(10, 12, 3),
    Gate::Maj(13, 14, 4),
    Gate::Maj(13, 14, 3),
];

#[test]
fn known_pairs(rt: HostRuntime) -> Result<(), Fail> {
    use Gate::{Buf, Input, Inv, Maj, One, Zero};
    let (adder, other): (&[Gate], &[Gate]) = (&ADDER, &OTHER_ADDER);
    let (exclusive, either): (&[Gate], &[Gate]) = (&EXCLUSIVE, &EITHER_ALONE);
    let (twice, chosen): (&[Gate], &[Gate]) = (&TWO_EXCLUSIVES, &CHOSEN);
    let chain: &[Gate] = &[Input(0), Inv(0), Buf(1), Inv(2), Inv(3), Buf(4), Inv(5)];
    let constants: &[Gate] = &[
        One,
        Zero,
        Input(0),
        Maj(0, 2, 1),
        Maj(2, 0, 0),
        Inv(1),
        Maj(1, 1, 3),
    ];
    // inputs, the gates and outputs of both circuits, and what is found
    let rows: [(u32, &[Gate], &[u32], &[Gate], &[u32], Found); 19] = [
        (3, adder, &[10, 5], other, &[12, 4], ALIKE),
        (3, adder, &[10, 5], other, &[12, 3], DIFFERENT),
        (3, adder, &[10, 5], other, &[4, 12], DIFFERENT),
        (1, chain, &[6, 3, 0], &[Input(0)], &[0, 0, 0], ALIKE),
        (1, chain, &[6, 5], &[Input(0)], &[0, 0], DIFFERENT),
        (
            1,
            constants,
            &[0, 1, 3, 4, 5, 6],
            &[Zero, One, Input(0)],
            &[1, 0, 2, 1, 1, 0],
            ALIKE,
        ),
        (0, &[Zero], &[0], &[One], &[0], DIFFERENT),
        (1, &[Input(0)], &[0], &[Zero], &[0], DIFFERENT),
        (2, exclusive, &[7], exclusive, &[7], ALIKE),
        (2, exclusive, &[7], either, &[8], SWEPT),
        (2, exclusive, &[0, 7], either, &[9, 8], SWEPT),
        (3, adder, &[10, 5], twice, &[12, 13], SWEPT),
        (3, adder, &[5, 10], twice, &[12, 13], DIFFERENT),
        (3, twice, &[12, 13], chosen, &[15, 8], SWEPT),
        (3, twice, &[3, 13], chosen, &[16, 8], SWEPT),
        (3, twice, &[12, 13], chosen, &[16, 8], DIFFERENT),
        (2, exclusive, &[4], exclusive, &[5], DIFFERENT),
        (3, &[Input(2)], &[0], &[Input(0)], &[0], DIFFERENT),
        (0, &[], &[], &[One], &[], ALIKE),
    ];
    for (inputs, gates, outputs, other_gates, other_outputs, expected) in rows {
        let pair = Pair {
            inputs,
            gates,
            outputs,
            other_gates,
            other_outputs,
        };
        assert!(rt; is_right(rt.alloc(), pair, expected)?);
    }
    Ok(())
}

// A random circuit of four inputs, both constants and sixteen more gates.
fn random_gates(alloc: Global, seed: u64) -> Result<Vec<Gate>, Memory> {
    let first = [
        Gate::Input(0),
        Gate::Input(1),
        Gate::Input(2),
        Gate::Input(3),
        Gate::Zero,
        Gate::One,
    ];
    let mut gates = Vec::from_array(alloc, first)?;
    let mut state = seed;
    for place in 6..22 {
        state = next_number(state);
        gates.push(random_gate(state, place))?;
    }
    Ok(gates)
}

// A random circuit beside one with another gate in one place.
fn changed(
    alloc: Global,
    gates: &[Gate],
    place: usize,
    gate: Gate,
) -> Result<Option<(Found, bool)>, DecideRefusal> {
    let mut other = Vec::from_slice(alloc, gates)?;
    if place < other.len() {
        other[place] = gate;
    }
    let pair = Pair {
        inputs: 4,
        gates,
        outputs: &[21, 20],
        other_gates: &other,
        other_outputs: &[21, 20],
    };
    compared(alloc, pair)
}

// The random pair of a number.
fn random_pair(alloc: Global, seed: u64) -> Result<Option<(Found, bool)>, DecideRefusal> {
    let gates = random_gates(alloc, seed.wrapping_mul(0x9e37_79b9_7f4a_7c15))?;
    let place = 6 + (seed % 16) as u32;
    let gate = random_gate(next_number(seed.wrapping_mul(0x1234_5678_9abc_def1)), place);
    changed(alloc, &gates, place as usize, gate)
}

#[test]
fn random_pairs(rt: HostRuntime) -> Result<(), Fail> {
    let (mut alike, mut equal) = (0u32, 0u32);
    for seed in 1..101_u64 {
        match random_pair(rt.alloc(), seed)? {
            None => assert!(rt; false),
            Some((found, agree)) => {
                assert!(rt; found.is_equal == agree);
                assert!(rt; found.is_decided);
                assert!(rt; agree || !found.is_alike);
                alike = alike.saturating_add(u32::from(found.is_alike));
                equal = equal.saturating_add(u32::from(found.is_equal));
            }
        }
    }
    // some of the pairs are alike, some are equal all the same, and some differ
    assert!(rt; 10 < alike && alike < equal && equal < 90);
    Ok(())
}
