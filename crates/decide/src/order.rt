// Another variable order, and circuits whose inputs stand in it.
ghost use Rattle.std.specs.Prelude.{◌≡◌, ◌<◌, ℕ, IsTrue, IfOk, map, length};
ghost use Rattle.decide.specs.Code.Orders.{IsOrder, StandsAt, renumber};

use aq_base::Memory;
use circuit::Gate;
use std::alloc::Global;

/// Whether an input stands at its rank in the order. An order lists inputs; the rank of an input is its place there.
fn stands(order: &[u32], rank: &[u32], input: usize) -> bool
    requires { input < length rank.now }
    ensures { IsTrue result → StandsAt order.now rank.now input }
{
    let at = rank[input] as usize;
    at < order.len() && order[at] as usize == input
}

/// Whether the ranks undo the order: each input stands at its rank, and both have one length.
pub fn undoes(order: &[u32], rank: &[u32]) -> bool
    ensures { IsTrue result → IsOrder (length rank.now) order.now rank.now }
{
    if order.len() != rank.len() {
        return false;
    }
    for input in 0..rank.len() {
        if !stands(order, rank, input) {
            return false;
        }
    }
    true
}

/// The gate with the rank of its input in the place of the input's number; rank 0 past the last.
fn renumbered_gate(gate: Gate, rank: &[u32]) -> Gate
    ensures { result ≡ renumber rank.now gate }
{
    match gate {
        Gate::Input(input) => Gate::Input(rank.get(input as usize).copied().unwrap_or(0)),
        other => other,
    }
}

/// The gates, which read the input at each rank in the place of the input itself.
pub fn renumbered(alloc: Global, gates: &[Gate], rank: &[u32]) -> Result<Vec<Gate>, Memory>
    ensures { IfOk result (λ v. v.items ≡ map (renumber rank.now) gates.now) }
{
    let mut again = Vec::with_capacity(alloc, gates.len())?;
    for gate in gates {
        again.push(renumbered_gate(*gate, rank))?;
    }
    Ok(again)
}

/// The rank of each of so many inputs: its last place in the order, else 0.
pub fn ranks(alloc: Global, inputs: u32, order: &[u32]) -> Result<Vec<u32>, Memory>
    ensures { IfOk result (λ v. length v.items ≡ inputs) }
{
    let mut rank = zeros(alloc, inputs)?;
    let mut place = 0_u32;
    for input in order {
        let at = *input as usize;
        if at < rank.len() {
            rank[at] = place;
        }
        place = place.saturating_add(1);
    }
    Ok(rank)
}

/// So many zeros.
fn zeros(alloc: Global, count: u32) -> Result<Vec<u32>, Memory>
    ensures { IfOk result (λ v. length v.items ≡ count) }
{
    Ok(vec![in alloc; 0; count as usize]?)
}
