// Simulation signatures: values of nodes at many words, which hint at nodes that may be equal. Nothing is proved of
// them.
ghost use Rattle.std.specs.Prelude.{◌≡◌, ◌<◌, length, IfOk, IfSome};

use crate::numbers::{first_node, node_limit};
use aq_base::Memory;
use mig::{Builder, Node};
use std::alloc::Global;

/// How many numbers of 64 values each node has.
const NUMBERS: usize = 8;

/// How many more there may be, of counterexamples that searches found.
const MOST_COUNTEREXAMPLES: usize = 32;

/// How many numbers there may be for all nodes, beyond which no more are kept.
const MOST_IN_ALL: usize = 1 << 23;

/// The signature of a node: its values at 512 words.
type Signature = [u64; NUMBERS];

/// A number that looks random, from another.
fn random(number: u64) -> u64 {
    let start = number.wrapping_mul(0x9E37_79B9_7F4A_7C15);
    let first = (start ^ (start >> 30)).wrapping_mul(0xBF58_476D_1CE4_E5B9);
    let second = (first ^ (first >> 27)).wrapping_mul(0x94D0_49BB_1331_11EB);
    second ^ (second >> 31)
}

/// 64 values of an input, which are true as often as this number's place tells: a half, a quarter, three quarters, an
/// eighth, a half, seven eighths, and one and all but one of 32.
fn input_number(input: u64, place: u64) -> u64 {
    let seed = input.wrapping_mul(8).wrapping_add(place).wrapping_mul(8);
    let a = random(seed.wrapping_add(1));
    let b = random(seed.wrapping_add(2));
    let c = random(seed.wrapping_add(3));
    let d = random(seed.wrapping_add(4));
    let e = random(seed.wrapping_add(5));
    match place {
        1 => a & b,
        2 => a | b,
        3 => a & b & c,
        5 => a | b | c,
        6 => a & b & c & d & e,
        7 => a | b | c | d | e,
        _ => a,
    }
}

/// The signature of an input.
fn input_signature(input: u64) -> Signature {
    let mut values = [0; NUMBERS];
    for place in 0..NUMBERS {
        values[place] = input_number(input, place as u64);
    }
    values
}

/// The number that turns 64 values where a literal is odd.
fn turn(literal: u32) -> u64 {
    if literal % 2 == 1 { u64::MAX } else { 0 }
}

/// Where two of three values are true.
fn majority(x: u64, y: u64, z: u64) -> u64 {
    (x & y) | (x & z) | (y & z)
}

/// 64 values of a literal, by those of the nodes.
fn literal_number(numbers: &[u64], literal: u32) -> u64 {
    let number = numbers.get((literal / 2) as usize).copied().unwrap_or(0);
    number ^ turn(literal)
}

/// 64 values of a majority, by those of the nodes.
fn node_number(numbers: &[u64], node: Node) -> u64 {
    majority(
        literal_number(numbers, node.x),
        literal_number(numbers, node.y),
        literal_number(numbers, node.z),
    )
}

/// The signature of a literal's node.
fn signature_of(all: &[Signature], literal: u32) -> Signature {
    all.get((literal / 2) as usize)
        .copied()
        .unwrap_or([0; NUMBERS])
}

/// The signature of a majority, by those of the nodes.
fn node_signature(all: &[Signature], node: Node) -> Signature {
    let x = signature_of(all, node.x);
    let y = signature_of(all, node.y);
    let z = signature_of(all, node.z);
    let mut values = [0; NUMBERS];
    for place in 0..NUMBERS {
        values[place] = majority(
            x[place] ^ turn(node.x),
            y[place] ^ turn(node.y),
            z[place] ^ turn(node.z),
        );
    }
    values
}

/// Whether values are others than these, which are turned by this number.
fn differ(one: &Signature, other: &Signature, turned: u64) -> bool {
    for place in 0..NUMBERS {
        if one[place] ^ turned != other[place] {
            return true;
        }
    }
    false
}

/// The majority of a node, or of nothing where it is none.
fn operands(graph: &Builder, node: u32) -> Node {
    let none = Node { x: 0, y: 0, z: 0 };
    graph.operands(node.saturating_mul(2)).unwrap_or(none)
}

/// 64 values of each node: at a word, and at words in which some inputs of it are turned.
fn near_word(alloc: Global, graph: &Builder, word: &[bool], seed: u64) -> Result<Vec<u64>, Memory> {
    let count = node_limit(graph) as usize;
    let mut numbers = Vec::with_capacity(alloc, count)?;
    numbers.push(0)?;
    for input in 1..first_node(graph) {
        let place = seed
            .wrapping_mul(0x0001_0000_0001)
            .wrapping_add(u64::from(input));
        let few = random(place.wrapping_mul(4))
            & random(place.wrapping_mul(4).wrapping_add(1))
            & random(place.wrapping_mul(4).wrapping_add(2))
            & random(place.wrapping_mul(4).wrapping_add(3));
        let is_true = word.get((input - 1) as usize).copied().unwrap_or(false);
        let value = if is_true { u64::MAX } else { 0 };
        numbers.push(value ^ (few & !1))?;
    }
    for node in first_node(graph)..node_limit(graph) {
        let number = node_number(&numbers, operands(graph, node));
        numbers.push(number)?;
    }
    Ok(numbers)
}

/// The values of all nodes of a graph: the signatures, at random words, and those at counterexamples.
#[derive(Drop)]
pub(crate) struct Signatures {
    random: Vec<Signature>,
    counterexamples: Vec<Vec<u64>>,
}

impl Signatures {
    /// The signatures of the constant and the inputs.
    pub(crate) fn new(alloc: Global, inputs: u32) -> Result<Signatures, Memory> {
        let mut random = Vec::new(alloc);
        random.push([0; NUMBERS])?;
        for input in 0..inputs {
            random.push(input_signature(u64::from(input)))?;
        }
        Ok(Signatures {
            random,
            counterexamples: Vec::new(alloc),
        })
    }

    /// Takes in the nodes of the graph that are new.
    pub(crate) fn grow(&mut self, graph: &Builder) -> Result<(), Memory> {
        let known = u32::try_from(self.random.len()).unwrap_or(u32::MAX);
        for node in known..node_limit(graph) {
            let operands = operands(graph, node);
            self.random.push(node_signature(&self.random, operands))?;
            for place in 0..self.counterexamples.len() {
                let numbers = &mut self.counterexamples[place];
                let number = node_number(numbers, operands);
                numbers.push(number)?;
            }
        }
        Ok(())
    }

    /// The signature of a node, by its literal.
    fn signature(&self, literal: u32) -> Signature {
        signature_of(&self.random, literal)
    }

    /// The key of the candidate class of a node: the same for nodes of the same signature, or of complements.
    pub(crate) fn class_key(&self, node: u32) -> u64 {
        let values = self.signature(node.saturating_mul(2));
        let turned = if values[0] % 2 == 1 { u64::MAX } else { 0 };
        let mut key = 0u64;
        for value in values {
            key = random(key ^ value ^ turned);
        }
        key
    }

    /// The literal of a node that may be equal to another node: it has all values of that one.
    pub(crate) fn candidate_literal(&self, node: u32, other: u32) -> Option<u32> {
        let even = node.saturating_mul(2);
        let values = self.signature(even);
        let wanted = self.signature(other.saturating_mul(2));
        let literal = if (values[0] ^ wanted[0]) % 2 == 1 {
            even.saturating_add(1)
        } else {
            even
        };
        if self.are_known_to_differ(literal, other.saturating_mul(2)) {
            None
        } else {
            Some(literal)
        }
    }

    /// Whether the values of two literals are known to differ.
    pub(crate) fn are_known_to_differ(&self, one: u32, other: u32) -> bool {
        let turned = turn(one) ^ turn(other);
        if differ(&self.signature(one), &self.signature(other), turned) {
            return true;
        }
        for numbers in &self.counterexamples {
            if literal_number(numbers, one) != literal_number(numbers, other) {
                return true;
            }
        }
        false
    }

    /// 64 values of a literal, by the number of its values.
    fn number(&self, place: usize, literal: u32) -> u64 {
        if place < NUMBERS {
            self.signature(literal)[place] ^ turn(literal)
        } else {
            match self.counterexamples.get(place - NUMBERS) {
                None => 0,
                Some(numbers) => literal_number(numbers, literal),
            }
        }
    }

    /// A word at which two literals differ, of those that are known.
    pub(crate) fn distinguishing_word(
        &self,
        alloc: Global,
        inputs: u32,
        one: u32,
        other: u32,
    ) -> Result<Option<Vec<bool>>, Memory>
        ensures { IfOk result (λ some. IfSome some (λ word. length word.items ≡ inputs)) }
    {
        for place in 0..NUMBERS.saturating_add(self.counterexamples.len()) {
            let differing = self.number(place, one) ^ self.number(place, other);
            if differing != 0 {
                let word = self.word_at(alloc, inputs, place, differing.trailing_zeros() % 64)?;
                return Ok(Some(word));
            }
        }
        Ok(None)
    }

    /// The word that a digit of the numbers at a place stands for.
    fn word_at(
        &self,
        alloc: Global,
        inputs: u32,
        place: usize,
        digit: u32,
    ) -> Result<Vec<bool>, Memory>
        requires { digit < 64 }
        ensures { IfOk result (λ word. length word.items ≡ inputs) }
    {
        let mut word = Vec::new(alloc);
        let mut literal = 2u32;
        for _input in 0..inputs {
            word.push((self.number(place, literal) >> digit) % 2 == 1)?;
            literal = literal.saturating_add(2);
        }
        Ok(word)
    }

    /// Whether values at more words may be kept.
    fn has_room(&self) -> bool {
        let most = MOST_IN_ALL / self.random.len().max(1);
        self.counterexamples.len() < MOST_COUNTEREXAMPLES
            && NUMBERS + self.counterexamples.len() < most
    }

    /// Takes in a counterexample, a word at which two literals should differ, with words that are near it. Says whether
    /// all nodes were evaluated for it.
    pub(crate) fn add_counterexample(
        &mut self,
        alloc: Global,
        graph: &Builder,
        word: &[bool],
        one: u32,
        other: u32,
    ) -> Result<bool, Memory> {
        if !self.has_room() {
            return Ok(false);
        }
        let numbers = near_word(alloc, graph, word, self.counterexamples.len() as u64)?;
        if literal_number(&numbers, one) != literal_number(&numbers, other) {
            self.counterexamples.push(numbers)?;
        }
        Ok(true)
    }
}
