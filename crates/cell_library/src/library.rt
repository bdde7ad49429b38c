// A library of cells, which keeps every law.
ghost use Rattle.std.specs.Prelude.{◌≡◌, ◌<◌, ◌≤◌, ◌↔◌, IsTrue, length};
ghost use Rattle.circuit.specs.CellKinds.{inputs_of, outputs_of};
ghost use Rattle.cell_library.specs.Library.{LibraryView, IsGiven, input_column_of, output_column_of};
ghost use Rattle.cell_library.specs.Reach.{reach_of};
ghost use Rattle.cell_library.specs.Laws.{IsLibrary};
ghost use Rattle.cell_library.specs.PinPlaces.{PlacesPins};

use crate::draft::Draft;
use crate::same::{same_numbers, same_pins};
use circuit::CellKind;
use std::marker::Model;

/// A library of cells: ten numbers and the pin columns of each kind, which keep every law.
#[derive(Drop)]
pub struct Library {
    draft: Draft,
}

impl Model for Library {
    ghost use Rattle.cell_library.specs.Library.{LibraryView};
    ghost use Rattle.cell_library.specs.Laws.{IsLibrary};

    ghost Value = { LibraryView };

    ghost view = { λ s. s.draft };

    ghost invariant = { λ s. IsLibrary s.draft };
}

impl Library {
    /// The library of a draft that keeps every law.
    pub(crate) fn new(draft: Draft) -> Library
        requires { IsLibrary draft }
        ensures { result ≡ draft }
    {
        Library { draft }
    }

    /// What every library keeps: the ranges of its numbers, the kinds that none leaves out, the laws, and by them the
    /// places of the pins.
    #[tactic(auto, using(crate::proofs::PlacedPins::places_pins))]
    pub fn known(&self)
        ensures library { IsLibrary self.now }
        ensures pins { PlacesPins self.now }
    {
        let _ = &self.draft;
    }

    /// The width of a wire, in nanometres.
    pub fn wire(&self) -> u64
        ensures { result ≡ self.now.wire }
    {
        self.draft.numbers().wire
    }

    /// The least space between two wires, in nanometres.
    pub fn space(&self) -> u64
        ensures { result ≡ self.now.space }
    {
        self.draft.numbers().space
    }

    /// The side of a via, in nanometres.
    pub fn via(&self) -> u64
        ensures { result ≡ self.now.via }
    {
        self.draft.numbers().via
    }

    /// How far metal reaches past a via on each side, at least, in nanometres.
    pub fn enclose(&self) -> u64
        ensures { result ≡ self.now.enclose }
    {
        self.draft.numbers().enclose
    }

    /// The height of a pin, in nanometres.
    pub fn pin(&self) -> u64
        ensures { result ≡ self.now.pin }
    {
        self.draft.numbers().pin
    }

    /// The height of a cell, in nanometres.
    pub fn height(&self) -> u64
        ensures { result ≡ self.now.height }
    {
        self.draft.numbers().height
    }

    /// The distance of neighbouring columns, and of neighbouring tracks, in nanometres.
    pub fn pitch(&self) -> u64
        ensures { result ≡ self.now.pitch }
    {
        self.draft.numbers().pitch
    }

    /// How many columns a slot has.
    pub fn columns(&self) -> u64
        ensures { result ≡ self.now.columns }
    {
        self.draft.numbers().columns
    }

    /// How many tracks a channel has.
    pub fn capacity(&self) -> u64
        ensures { result ≡ self.now.capacity }
    {
        self.draft.numbers().capacity
    }

    /// The greatest length of a wire, in nanometres.
    pub fn limit(&self) -> u64
        ensures { result ≡ self.now.limit }
    {
        self.draft.numbers().limit
    }

    /// The column of an input pin, counted from the cell's left edge.
    #[tactic(auto, using(crate::proofs::PinCounts::pin_counts))]
    pub fn input_column(&self, kind: CellKind, pin: u32) -> u32
        requires given { IsGiven self.now kind }
        requires pin { pin < inputs_of kind }
        ensures { result ≡ input_column_of self.now kind pin }
    {
        match self.draft.pins(kind) {
            Some(pins) => *pins.inputs.get(pin as usize),
            None => 0,
        }
    }

    /// The column of an output pin, counted from the cell's left edge.
    #[tactic(auto, using(crate::proofs::PinCounts::pin_counts))]
    pub fn output_column(&self, kind: CellKind, pin: u32) -> u32
        requires given { IsGiven self.now kind }
        requires pin { pin < outputs_of kind }
        ensures { result ≡ output_column_of self.now kind pin }
    {
        match self.draft.pins(kind) {
            Some(pins) => *pins.outputs.get(pin as usize),
            None => 0,
        }
    }

    /// Whether the library has cells of the kind. Only the splitter of three may be missing.
    pub fn has(&self, kind: CellKind) -> bool
        ensures { IsTrue result ↔ IsGiven self.now kind }
    {
        self.draft.pins(kind).is_some()
    }

    /// Whether the library has splitters of three.
    pub fn has_three(&self) -> bool
        ensures { IsTrue result ↔ IsGiven self.now CellKind.Split3 }
    {
        self.has(CellKind::Split3)
    }

    /// The reach, in slots: a wire that moves fewer slots than this is within its limit, and no channel of such wires
    /// has more of them than tracks. It is at least 2.
    #[tactic(auto, using(crate::proofs::PinCounts::reach_least))]
    pub fn reach(&self) -> u64
        ensures value { result ≡ reach_of self.now }
        ensures least { 2 ≤ result }
    {
        self.draft
            .length_reach()
            .min(self.draft.numbers().capacity / 2)
    }

    /// Whether the two libraries have the same numbers and pins.
    #[tactic(auto, using(crate::proofs::Sameness::same_libraries))]
    pub fn is_same(&self, other: &Library) -> bool
        ensures { IsTrue result ↔ (self.now ≡ other.now) }
    {
        same_numbers(self.draft.numbers(), other.draft.numbers())
            && same_pins(&self.draft, &other.draft)
    }
}
