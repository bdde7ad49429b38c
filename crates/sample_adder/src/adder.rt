// The text of the sample netlist.
ghost use Rattle.std.specs.Prelude.{◌≡◌, ◌++◌, ◌<◌, ◌≤◌, ◌-◌, IfOk, OnOk};
ghost use Rattle.sample_adder.specs.Adder as adder;

use aq_base::Memory;
use std::alloc::Global;

/// A signal of the netlist, which is called by a letter and a number.
#[derive(Clone, Copy)]
struct Signal {
    letter: u8,
    number: u32,
}

fn first_bit(number: u32) -> Signal
    ensures { result ≡ adder.first_bit number }
{
    let letter = b'a';
    Signal { letter, number }
}

fn second_bit(number: u32) -> Signal
    ensures { result ≡ adder.second_bit number }
{
    let letter = b'b';
    Signal { letter, number }
}

fn sum_bit(number: u32) -> Signal
    ensures { result ≡ adder.sum_bit number }
{
    let letter = b's';
    Signal { letter, number }
}

fn carry_bit(number: u32) -> Signal
    ensures { result ≡ adder.carry_bit number }
{
    let letter = b'c';
    Signal { letter, number }
}

fn one_set(number: u32) -> Signal
    ensures { result ≡ adder.one_set number }
{
    let letter = b'p';
    Signal { letter, number }
}

fn both_set(number: u32) -> Signal
    ensures { result ≡ adder.both_set number }
{
    let letter = b'g';
    Signal { letter, number }
}

fn carried_on(number: u32) -> Signal
    ensures { result ≡ adder.carried_on number }
{
    let letter = b'h';
    Signal { letter, number }
}

fn add_name(alloc: Global, signal: Signal, text: &mut Vec<u8>) -> Result<(), Memory>
    ensures { OnOk result (text.new.items ≡ text.old.items ++ adder.name_of signal) }
{
    text.push(signal.letter)?;
    let number = signal.number;
    text.extend_from_slice(format!(in alloc; "{number}")?.as_bytes())?;
    Ok(())
}

/// Adds a signal of two others, with its rows.
#[tactic(auto, using(std::proofs::Common::append_assoc), unfolding(crate::specs::Adder::gate))]
fn add_gate(
    alloc: Global,
    x: Signal,
    y: Signal,
    out: Signal,
    rows: &[u8],
    text: &mut Vec<u8>,
) -> Result<(), Memory>
    ensures { OnOk result (text.new.items ≡ text.old.items ++ adder.gate x y out rows.now) }
{
    text.extend_from_slice(b".names ")?;
    add_name(alloc, x, text)?;
    text.push(b' ')?;
    add_name(alloc, y, text)?;
    text.push(b' ')?;
    add_name(alloc, out, text)?;
    text.push(b'\n')?;
    text.extend_from_slice(rows)?;
    Ok(())
}

#[tactic(auto, using(std::proofs::Common::append_assoc), unfolding(crate::specs::Adder::half_adder))]
fn add_half_adder(alloc: Global, text: &mut Vec<u8>) -> Result<(), Memory>
    ensures { OnOk result (text.new.items ≡ text.old.items ++ adder.half_adder) }
{
    let (a, b) = (first_bit(0), second_bit(0));
    add_gate(alloc, a, b, sum_bit(0), b"10 1\n01 1\n", text)?;
    add_gate(alloc, a, b, carry_bit(1), b"11 1\n", text)
}

#[tactic(auto, using(std::proofs::Common::append_assoc), unfolding(crate::specs::Adder::full_adder))]
fn add_full_adder(alloc: Global, bit: u32, text: &mut Vec<u8>) -> Result<(), Memory>
    requires { bit < 64 }
    ensures { OnOk result (text.new.items ≡ text.old.items ++ adder.full_adder bit) }
{
    let (a, b, c) = (first_bit(bit), second_bit(bit), carry_bit(bit));
    let (p, g, h) = (one_set(bit), both_set(bit), carried_on(bit));
    add_gate(alloc, a, b, p, b"10 1\n01 1\n", text)?;
    add_gate(alloc, p, c, sum_bit(bit), b"10 1\n01 1\n", text)?;
    add_gate(alloc, a, b, g, b"11 1\n", text)?;
    add_gate(alloc, p, c, h, b"11 1\n", text)?;
    add_gate(alloc, g, h, carry_bit(bit + 1), b"1- 1\n-1 1\n", text)
}

#[tactic(auto, using(std::proofs::Common::append_assoc))]
fn add_full_adders(alloc: Global, count: u32, text: &mut Vec<u8>) -> Result<(), Memory>
    requires { count < 64 }
    ensures { OnOk result (text.new.items ≡ text.old.items ++ adder.full_adders count) }
{
    for done in 0..count {
        add_full_adder(alloc, done + 1, text)?;
    }
    Ok(())
}

#[tactic(auto, using(std::proofs::Common::append_assoc))]
fn add_summand_names(alloc: Global, bits: u32, text: &mut Vec<u8>) -> Result<(), Memory>
    ensures { OnOk result (text.new.items ≡ text.old.items ++ adder.summand_names bits) }
{
    for bit in 0..bits {
        text.push(b' ')?;
        add_name(alloc, first_bit(bit), text)?;
        text.push(b' ')?;
        add_name(alloc, second_bit(bit), text)?;
    }
    Ok(())
}

#[tactic(auto, using(std::proofs::Common::append_assoc))]
fn add_sum_names(alloc: Global, bits: u32, text: &mut Vec<u8>) -> Result<(), Memory>
    ensures { OnOk result (text.new.items ≡ text.old.items ++ adder.sum_names bits) }
{
    for bit in 0..bits {
        text.push(b' ')?;
        add_name(alloc, sum_bit(bit), text)?;
    }
    Ok(())
}

#[tactic(auto, using(std::proofs::Common::append_assoc), unfolding(crate::specs::Adder::head))]
fn add_head(alloc: Global, bits: u32, text: &mut Vec<u8>) -> Result<(), Memory>
    requires { bits ≤ 64 }
    ensures { OnOk result (text.new.items ≡ text.old.items ++ adder.head bits) }
{
    text.extend_from_slice(b".model adder\n.inputs")?;
    add_summand_names(alloc, bits, text)?;
    text.extend_from_slice(b"\n.outputs")?;
    add_sum_names(alloc, bits + 1, text)?;
    text.push(b'\n')?;
    Ok(())
}

#[tactic(auto, using(std::proofs::Common::append_assoc), unfolding(crate::specs::Adder::foot))]
fn add_foot(alloc: Global, bits: u32, text: &mut Vec<u8>) -> Result<(), Memory>
    ensures { OnOk result (text.new.items ≡ text.old.items ++ adder.foot bits) }
{
    text.extend_from_slice(b".names ")?;
    add_name(alloc, carry_bit(bits), text)?;
    text.push(b' ')?;
    add_name(alloc, sum_bit(bits), text)?;
    text.extend_from_slice(b"\n1 1\n.end\n")?;
    Ok(())
}

/// The netlist of the adder of two numbers of so many bits, 1 to 64, as a text: `2 * bits` inputs, which are bit 0 of
/// the first number, bit 0 of the second, bit 1 of the first and so on, and `bits + 1` outputs, the bits of the sum
/// from the lowest. It is refused for want of memory alone.
#[tactic(auto, using(std::proofs::Common::append_assoc), unfolding(crate::specs::Adder::adder))]
pub fn adder_text(alloc: Global, bits: u32) -> Result<Vec<u8>, Memory>
    requires some { 1 ≤ bits }
    requires most { bits ≤ 64 }
    ensures { IfOk result (λ text. text.items ≡ adder.adder bits) }
{
    let mut text = Vec::new(alloc);
    add_head(alloc, bits, &mut text)?;
    add_half_adder(alloc, &mut text)?;
    add_full_adders(alloc, bits - 1, &mut text)?;
    add_foot(alloc, bits, &mut text)?;
    Ok(text)
}
