// A multiplier whose diagram is too large, beside the same with exchanged operands, and with other adders.
use crate::pairs::{Found, Pair, compared};
use aq_base::Memory;
use circuit::Gate;
use decide::DecideRefusal;
use std::alloc::Global;
use std::test::Fail;

// How many bits a factor has.
const BITS: u32 = 16;

// The number of the gate that gives false, after the inputs.
const ZERO: u32 = 2 * BITS;

// How the gates are made: each majority has its operands in the one order or in the other, or each sum is made of two
// exclusive ors in place of majorities.
#[derive(Clone, Copy, PartialEq, Eq)]
enum Form {
    Plain,
    Turned,
    Exclusive,
}

// Gates that grow.
#[derive(Drop)]
struct Maker {
    gates: Vec<Gate>,
    form: Form,
}

// The number of the last gate.
fn last(gates: &[Gate]) -> u32 {
    u32::try_from(gates.len()).unwrap_or(1).saturating_sub(1)
}

impl Maker {
    // The number of a new inverter.
    fn inverter(&mut self, x: u32) -> Result<u32, Memory> {
        self.gates.push(Gate::Inv(x))?;
        Ok(last(&self.gates))
    }

    // The number of a new majority.
    fn majority(&mut self, x: u32, y: u32, z: u32) -> Result<u32, Memory> {
        let gate = if self.form == Form::Turned {
            Gate::Maj(z, y, x)
        } else {
            Gate::Maj(x, y, z)
        };
        self.gates.push(gate)?;
        Ok(last(&self.gates))
    }

    // The numbers of a new and, and of a new exclusive or.
    fn exclusive(&mut self, x: u32, y: u32) -> Result<(u32, u32), Memory> {
        let one = self.inverter(ZERO)?;
        let both = self.majority(x, y, ZERO)?;
        let either = self.majority(x, y, one)?;
        let not_both = self.inverter(both)?;
        Ok((both, self.majority(either, not_both, ZERO)?))
    }

    // The numbers of the sum and of the carry of three gates.
    fn sum(&mut self, x: u32, y: u32, z: u32) -> Result<(u32, u32), Memory> {
        if self.form == Form::Exclusive {
            let (low, half) = self.exclusive(x, y)?;
            let (high, sum) = self.exclusive(half, z)?;
            let one = self.inverter(ZERO)?;
            return Ok((sum, self.majority(low, high, one)?));
        }
        let carry = self.majority(x, y, z)?;
        let no_carry = self.inverter(carry)?;
        let no_last = self.inverter(z)?;
        let first = self.majority(x, y, no_last)?;
        let sum = self.majority(no_carry, first, z)?;
        Ok((sum, carry))
    }
}

// Adds the second factor to the sums where the first one has this bit.
fn add_row(maker: &mut Maker, sums: &mut [u32], row: u32) -> Result<(), Memory> {
    let mut carry = ZERO;
    for bit in 0..BITS {
        let place = row.saturating_add(bit) as usize;
        let product = maker.majority(row, BITS + bit, ZERO)?;
        let old = sums.get(place).copied().unwrap_or(ZERO);
        let (sum, above) = maker.sum(old, product, carry)?;
        if place < sums.len() {
            sums[place] = sum;
        }
        carry = above;
    }
    let place = row.saturating_add(BITS) as usize;
    if place < sums.len() {
        sums[place] = carry;
    }
    Ok(())
}

// Makes the gates of a multiplier.
fn add_gates(maker: &mut Maker, sums: &mut [u32]) -> Result<(), Memory> {
    for input in 0..ZERO {
        maker.gates.push(Gate::Input(input))?;
    }
    maker.gates.push(Gate::Zero)?;
    for row in 0..BITS {
        add_row(maker, sums, row)?;
    }
    Ok(())
}

// A multiplier beside gates and outputs of another.
fn beside(
    alloc: Global,
    gates: &[Gate],
    outputs: &[u32],
    form: Form,
) -> Result<Option<(Found, bool)>, DecideRefusal> {
    let mut maker = Maker {
        gates: Vec::new(alloc),
        form,
    };
    let mut sums = [ZERO; 32];
    add_gates(&mut maker, &mut sums)?;
    let pair = Pair {
        inputs: ZERO,
        gates,
        outputs,
        other_gates: &maker.gates,
        other_outputs: &sums,
    };
    compared(alloc, pair)
}

// A multiplier beside the same in another form.
fn multipliers(alloc: Global, form: Form) -> Result<Option<(Found, bool)>, DecideRefusal> {
    let mut maker = Maker {
        gates: Vec::new(alloc),
        form: Form::Plain,
    };
    let mut sums = [ZERO; 32];
    add_gates(&mut maker, &mut sums)?;
    beside(alloc, &maker.gates, &sums, form)
}

// What is found of them.
fn is_found(alloc: Global, form: Form, is_alike: bool) -> Result<bool, DecideRefusal> {
    match multipliers(alloc, form)? {
        None => Ok(false),
        Some((found, _)) => Ok(found.is_alike == is_alike && found.is_decided && found.is_equal),
    }
}

// Their diagram would have far more nodes than there may be.
#[test]
fn multipliers_of_sixteen_bits(rt: HostRuntime) -> Result<(), Fail> {
    assert!(rt; is_found(rt.alloc(), Form::Turned, true)?);
    assert!(rt; is_found(rt.alloc(), Form::Exclusive, false)?);
    Ok(())
}
