// The numbers of labels: those of a letter are below the count of its ports, each once.
ghost use Rattle.std.specs.Prelude.{◌≡◌, ◌+◌, ◌^◌, ◌<◌, ◌≤◌, ℕ, true, false, IfOk, MatchOption, length};
ghost use Rattle.layout_rules.specs.Labels.{is_decimal, tail, number_of_label};
ghost use Rattle.layout_rules.specs.Pins.{entry_count, exit_count};
ghost use Rattle.layout_rules.specs.Reports.{Alone, ReportsNone};
ghost use Rattle.layout_rules.specs.CircuitRules.{IsNoPortLabel, IsMisnumbered};
ghost use Rattle.shape_extract.specs.Searches.{Finds};
ghost use Rattle.shape_extract.specs.Code.LabelNames.{name_count, name_place, is_seen, Takes};
ghost use Rattle.shape_extract.specs.Code.Ports.{ports_of};

use crate::search::Report;
use crate::tables::label_texts::{names_input, number_of};
use crate::tables::ports::{Port, count_entries, count_exits};
use aq_base::Memory;
use geom::{Flat, Label};
use layout_rules::layers::LABELS;
use std::alloc::Global;

/// How many names the label's letter has.
fn name_count(label: &Label, entries: usize, exits: usize) -> usize
    ensures { result ≡ name_count entries exits label.now }
{
    if names_input(label) { entries } else { exits }
}

/// The place of the label's name, where its number is below the count of names.
fn name_place(label: &Label, entries: usize, exits: usize) -> Option<usize>
    requires few { entries + exits < 2 ^ 64 }
    requires numbered { is_decimal (tail label.now.text) ≡ true }
    ensures { MatchOption result (name_count entries exits label.now ≤ number_of_label label.now)
        (λ place. (number_of_label label.now < name_count entries exits label.now)
        × (place ≡ name_place entries label.now)) }
{
    let number = number_of(label)? as usize;
    if number >= name_count(label, entries, exits) {
        return None;
    }
    Some(if names_input(label) {
        number
    } else {
        entries + number
    })
}

/// Takes the place of the label's name, and answers whether it was there and free.
fn take_name(label: &Label, entries: usize, exits: usize, seen: &mut [bool]) -> bool
    requires few { entries + exits < 2 ^ 64 }
    requires numbered { is_decimal (tail label.now.text) ≡ true }
    requires long { length seen.old ≡ entries + exits }
    ensures { Takes result entries exits label.now seen.old seen.new }
{
    match name_place(label, entries, exits) {
        Some(place) if !seen[place] => {
            seen[place] = true;
            true
        }
        _ => false,
    }
}

/// The first label whose number is too high or is that of an earlier one with its letter. The list has a place for
/// each name, and none is taken.
fn first_misnumbered(flat: &Flat, entries: usize, exits: usize, seen: &mut [bool]) -> Option<Report>
    requires few { length flat.now.shapes + length flat.now.labels < 2 ^ 32 }
    requires entries { entries ≡ entry_count flat.now.shapes }
    requires exits { exits ≡ exit_count flat.now.shapes }
    requires counts { entries + exits < 2 ^ 64 }
    requires kept { ReportsNone (Alone (IsNoPortLabel flat.now)) }
    requires long { length seen.old ≡ entries + exits }
    requires free { (place : ℕ) → is_seen seen.old place ≡ false }
    ensures { Finds (Alone (IsMisnumbered flat.now)) result }
{
    let shape_count = flat.shapes.len() as u32;
    let labels = flat.labels.as_slice();
    for place in 0..labels.len() as u32 {
        let label = &labels[place as usize];
        if label.layer == LABELS && !take_name(label, entries, exits, seen) {
            let number = shape_count + place;
            return Some(Report {
                first: number,
                second: number,
            });
        }
    }
    None
}

/// The first label whose number is wrong, where each label marks one port.
pub fn find_misnumbered(
    alloc: Global,
    flat: &Flat,
    ports: &[Port],
) -> Result<Option<Report>, Memory>
    requires few { length flat.now.shapes + length flat.now.labels < 2 ^ 32 }
    requires ports { ports.now ≡ ports_of flat.now.shapes }
    requires kept { ReportsNone (Alone (IsNoPortLabel flat.now)) }
    ensures { IfOk result (Finds (Alone (IsMisnumbered flat.now))) }
{
    let entries = count_entries(ports);
    let exits = count_exits(ports);
    let mut seen = vec![in alloc; false; entries + exits]?;
    let found = first_misnumbered(flat, entries, exits, &mut seen);
    Ok(found)
}
