// Tables that are a majority of two inputs and of a further table: where the two agree, they decide. Nothing depends on
// how such a majority is found, since its table is compared with the one that is wanted.
ghost use Rattle.std.specs.Prelude.{◌<◌};

use crate::parts::parts_at;

/// An input of a majority, or its complement.
#[derive(Clone, Copy)]
pub(crate) struct Voter {
    pub place: usize,
    pub is_turned: bool,
}

/// Two inputs, and the table that decides where they don't agree.
#[derive(Clone, Copy)]
pub(crate) struct Votes {
    pub first: Voter,
    pub second: Voter,
    pub rest: u64,
}

/// The values of a table over two inputs: the first digit of a name is the first input's.
#[derive(Clone, Copy)]
struct Quarters {
    at_11: u64,
    at_10: u64,
    at_01: u64,
    at_00: u64,
}

fn quarters_of(table: u64, first: usize, second: usize) -> Quarters
    requires first { first < 6 }
    requires second { second < 6 }
{
    let parts = parts_at(table, first);
    let high = parts_at(parts.high, second);
    let low = parts_at(parts.low, second);
    Quarters {
        at_11: high.high,
        at_10: high.low,
        at_01: low.high,
        at_00: low.low,
    }
}

/// Whether the first table is always true and the second never.
fn are_decided(yes: u64, no: u64) -> bool {
    yes == u64::MAX && no == 0
}

/// Which of the two inputs are complemented in a majority with these quarters, and its third table.
fn signs(it: Quarters) -> Option<(bool, bool, u64)> {
    if it.at_10 == it.at_01 {
        if are_decided(it.at_11, it.at_00) {
            return Some((false, false, it.at_10));
        }
        if are_decided(it.at_00, it.at_11) {
            return Some((true, true, it.at_10));
        }
    }
    if it.at_11 == it.at_00 {
        if are_decided(it.at_10, it.at_01) {
            return Some((false, true, it.at_11));
        }
        if are_decided(it.at_01, it.at_10) {
            return Some((true, false, it.at_11));
        }
    }
    None
}

/// The first two inputs of which the table is a majority with a third table.
pub(crate) fn votes_of(table: u64) -> Option<Votes> {
    for second in 1..6 {
        for first in 0..second {
            if let Some((one, other, rest)) = signs(quarters_of(table, first, second)) {
                return Some(Votes {
                    first: Voter {
                        place: first,
                        is_turned: one,
                    },
                    second: Voter {
                        place: second,
                        is_turned: other,
                    },
                    rest,
                });
            }
        }
    }
    None
}
