// Makes gates: each operation in constant time, with its simplifications.
ghost use Rattle.std.specs.Prelude.{◌≡◌, ℕ, ◌<◌, ◌+◌, ◌^◌, ◌∷◌, ◌++◌, [], length, slice_index_or, IfOk, OnOk, None};
ghost use Rattle.circuit.specs.declared.gate.Gate.TheVariants as gates;
ghost use Rattle.maj_mapping.specs.Code.MakerView.{MakerView, with_gates};
ghost use Rattle.maj_mapping.specs.Operations.{side, inv, and, or, maj, inverter_from};
ghost use Rattle.maj_mapping.specs.Code.Makers.{NoInverter, not_made};
ghost use Rattle.maj_mapping.specs.Covers.{join, fold, none};
ghost use Rattle.maj_mapping.specs.Plan.{first_gates};

use aq_base::{List, Memory};
use circuit::Gate;
use std::alloc::Global;
use std::marker::Model;

/// Which constant a gate is.
#[derive(Clone, Copy, PartialEq, Eq)]
pub enum Side {
    IsZero,
    IsOne,
    Neither,
}

/// Which operation joins operands.
#[derive(Clone, Copy, PartialEq, Eq)]
pub enum Join {
    And,
    Or,
}

/// Stands for an inverter that was not made: no gate has this number.
const NOT_MADE: u32 = u32::MAX;

/// The gates so far, and their inverters. The index is as long as the last gate needs that has one.
#[derive(Drop)]
pub struct Maker {
    inputs: u32,
    gates: List<Gate>,
    inverters: Vec<u32>,
}

impl Model for Maker {
    ghost use Rattle.maj_mapping.specs.Code.MakerView.{MakerView};

    ghost Value = { MakerView };

    ghost view = { λ m. record { inputs = m.inputs; gates = m.gates } };

    ghost use Rattle.maj_mapping.specs.Code.Makers.{IsMaker};

    ghost invariant = { λ m. IsMaker m.inputs m.gates m.inverters.items };
}

/// Makes a place in an index, if it has none, which holds no inverter.
fn make_place(index: &mut Vec<u32>, place: usize) -> Result<(), Memory>
    requires { place < 2 ^ 32 }
    ensures same { (x : ℕ) → slice_index_or index.new.items x not_made ≡ slice_index_or index.old.items x not_made }
    ensures there { OnOk result (place < length index.new.items) }
{
    if index.len() <= place {
        index.resize(place + 1, NOT_MADE)?;
    }
    Ok(())
}

impl Maker {
    /// The inputs and the two constants.
    pub fn new(alloc: Global, inputs: u32) -> Result<Self, Memory>
        requires { inputs + 2 < 2 ^ 32 }
        ensures { IfOk result (λ m. m ≡ record { inputs = inputs; gates = first_gates inputs }) }
    {
        let mut maker = Maker {
            inputs,
            gates: List::new(alloc),
            inverters: Vec::new(alloc),
        };
        for input in 0..inputs {
            maker.make(Gate::Input(input))?;
        }
        maker.make(Gate::Zero)?;
        maker.make(Gate::One)?;
        Ok(maker)
    }

    /// The finished gates.
    pub fn into_gates(self) -> List<Gate>
        ensures gates { result ≡ self.gates }
        ensures few { length result < 2 ^ 32 }
    {
        self.gates
    }

    /// The gate that is Zero.
    pub fn zero(&self) -> u32
        ensures { result ≡ self.now.inputs }
    {
        self.inputs
    }

    /// The gate that is One.
    pub fn one(&self) -> u32
        ensures { result ≡ self.now.inputs + 1 }
    {
        self.inputs + 1
    }

    fn side(&self, x: u32) -> Side
        ensures { result ≡ side self.now.inputs x }
    {
        if x == self.inputs {
            Side::IsZero
        } else if x == self.inputs + 1 {
            Side::IsOne
        } else {
            Side::Neither
        }
    }

    /// The number of the next gate.
    fn next(&self) -> u32
        ensures { result ≡ length self.now.gates }
    {
        self.gates.len() as u32
    }

    /// Adds a gate that is no inverter.
    fn make(&mut self, gate: Gate) -> Result<u32, Memory>
        requires plain { NoInverter gate }
        requires room { length self.old.gates + 1 < 2 ^ 32 }
        ensures gates { OnOk result (self.new ≡ with_gates self.old (self.old.gates ++ gate ∷ [])) }
        ensures at { IfOk result (λ r. r ≡ length self.old.gates) }
    {
        let at = self.next();
        self.gates.push(gate)?;
        Ok(at)
    }

    /// The inverter of a gate, if one was made.
    fn inverter(&self, x: u32) -> Option<u32>
        ensures { result ≡ inverter_from x 0 self.now.gates }
    {
        let at = self.inverters.get(x as usize).copied().unwrap_or(NOT_MADE);
        if at == NOT_MADE { None } else { Some(at) }
    }

    /// Adds the inverter of a gate that has none.
    fn invert(&mut self, x: u32) -> Result<u32, Memory>
        requires inside { x < length self.old.gates }
        requires free { inverter_from x 0 self.old.gates ≡ None }
        requires room { length self.old.gates + 1 < 2 ^ 32 }
        ensures gates { OnOk result (self.new ≡ with_gates self.old (self.old.gates ++ gates.Inv x ∷ [])) }
        ensures at { IfOk result (λ r. r ≡ length self.old.gates) }
    {
        let at = self.next();
        make_place(&mut self.inverters, x as usize)?;
        self.gates.push(Gate::Inv(x))?;
        self.inverters[x as usize] = at;
        Ok(at)
    }

    /// The inverse of a gate.
    pub fn inv(&mut self, x: u32) -> Result<u32, Memory>
        requires inside { x < length self.old.gates }
        requires room { length (inv self.old.inputs self.old.gates x).gates < 2 ^ 32 }
        ensures gates { OnOk result (self.new ≡ with_gates self.old (inv self.old.inputs self.old.gates x).gates) }
        ensures at { IfOk result (λ r. r ≡ (inv self.old.inputs self.old.gates x).at) }
    {
        match self.side(x) {
            Side::IsZero => Ok(self.one()),
            Side::IsOne => Ok(self.inputs),
            Side::Neither => match *self.gates.get(x as usize) {
                Gate::Inv(y) => Ok(y),
                _ => match self.inverter(x) {
                    Some(made) => Ok(made),
                    None => self.invert(x),
                },
            },
        }
    }

    /// The gate that is true where both gates are: one that is there, or a new majority with Zero.
    pub fn and(&mut self, x: u32, y: u32) -> Result<u32, Memory>
        requires { length (and self.old.inputs self.old.gates x y).gates < 2 ^ 32 }
        ensures gates { OnOk result (self.new ≡ with_gates self.old (and self.old.inputs self.old.gates x y).gates) }
        ensures at { IfOk result (λ r. r ≡ (and self.old.inputs self.old.gates x y).at) }
    {
        match (self.side(x), self.side(y)) {
            (Side::IsZero, _) => Ok(self.inputs),
            (_, Side::IsZero) => Ok(self.inputs),
            (Side::IsOne, _) => Ok(y),
            (_, Side::IsOne) => Ok(x),
            (Side::Neither, Side::Neither) => {
                if x == y {
                    Ok(x)
                } else {
                    self.make(Gate::Maj(x, self.inputs, y))
                }
            }
        }
    }

    /// The gate that is true where one of the gates is: one that is there, or a new majority with One.
    pub fn or(&mut self, x: u32, y: u32) -> Result<u32, Memory>
        requires { length (or self.old.inputs self.old.gates x y).gates < 2 ^ 32 }
        ensures gates { OnOk result (self.new ≡ with_gates self.old (or self.old.inputs self.old.gates x y).gates) }
        ensures at { IfOk result (λ r. r ≡ (or self.old.inputs self.old.gates x y).at) }
    {
        match (self.side(x), self.side(y)) {
            (Side::IsOne, _) => Ok(self.one()),
            (_, Side::IsOne) => Ok(self.one()),
            (Side::IsZero, _) => Ok(y),
            (_, Side::IsZero) => Ok(x),
            (Side::Neither, Side::Neither) => {
                if x == y {
                    Ok(x)
                } else {
                    let one = self.one();
                    self.make(Gate::Maj(x, one, y))
                }
            }
        }
    }

    /// The value that at least two of three gates have.
    pub fn maj(&mut self, x: u32, y: u32, z: u32) -> Result<u32, Memory>
        requires { length (maj self.old.inputs self.old.gates x y z).gates < 2 ^ 32 }
        ensures gates { OnOk result (self.new ≡ with_gates self.old (maj self.old.inputs self.old.gates x y z).gates) }
        ensures at { IfOk result (λ r. r ≡ (maj self.old.inputs self.old.gates x y z).at) }
    {
        if x == y {
            return Ok(x);
        }
        if x == z {
            return Ok(x);
        }
        if y == z {
            return Ok(y);
        }
        match (self.side(x), self.side(y), self.side(z)) {
            (Side::Neither, Side::Neither, _) => self.make(Gate::Maj(x, y, z)),
            (Side::Neither, _, Side::Neither) => self.make(Gate::Maj(x, y, z)),
            (_, Side::Neither, Side::Neither) => self.make(Gate::Maj(x, y, z)),
            (Side::Neither, _, _) => Ok(x),
            (_, Side::Neither, _) => Ok(y),
            (_, _, _) => Ok(z),
        }
    }

    fn join(&mut self, which: Join, x: u32, y: u32) -> Result<u32, Memory>
        requires { length (join which self.old.inputs self.old.gates x y).gates < 2 ^ 32 }
        ensures gates { OnOk result (self.new
            ≡ with_gates self.old (join which self.old.inputs self.old.gates x y).gates) }
        ensures at { IfOk result (λ r. r ≡ (join which self.old.inputs self.old.gates x y).at) }
    {
        match which {
            Join::And => self.and(x, y),
            Join::Or => self.or(x, y),
        }
    }

    /// The constant that no operand gives.
    fn none(&self, which: Join) -> u32
        ensures { result ≡ none which self.now.inputs }
    {
        match which {
            Join::And => self.one(),
            Join::Or => self.inputs,
        }
    }

    /// The operands joined: the first half, rounded up, then the rest, and then both.
    pub fn fold(&mut self, which: Join, operands: &[u32]) -> Result<u32, Memory>
        requires { length (fold which self.old.inputs self.old.gates operands.now).gates < 2 ^ 32 }
        ensures gates { OnOk result (self.new
            ≡ with_gates self.old (fold which self.old.inputs self.old.gates operands.now).gates) }
        ensures at { IfOk result (λ r. r ≡ (fold which self.old.inputs self.old.gates operands.now).at) }
    {
        if operands.len() == 0 {
            return Ok(self.none(which));
        }
        if operands.len() == 1 {
            return Ok(operands[0]);
        }
        let (left, right) = operands.split_at((operands.len() + 1) / 2);
        let first = self.fold(which, left)?;
        let second = self.fold(which, right)?;
        self.join(which, first, second)
    }
}
