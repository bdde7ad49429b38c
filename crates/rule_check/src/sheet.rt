// The shapes of a layout by kinds: what all keep, and what is reported of the kinds.
ghost use Rattle.std.specs.Prelude.{◌≡◌, ◌<◌, ◌^◌, length};
ghost use Rattle.rule_check.specs.Code.Named.{HasPlaces, named};
ghost use Rattle.rule_check.specs.Code.Sheets.{HaveSides};

use shape_extract::{Kinds, Report};

/// What all kinds keep: each has a positive width and a positive height. It does nothing else.
pub fn known(kinds: &Kinds)
    requires { length kinds.now < 2 ^ 32 }
    ensures { HaveSides kinds.now }
{
    for place in 0..kinds.count() {
        kinds.get(place as u32).rect.known();
    }
}

/// The report by the numbers of these places.
pub fn named(numbers: &[u32], found: Option<Report>) -> Option<Report>
    requires { HasPlaces (length numbers.now) found }
    ensures { result ≡ named numbers.now found }
{
    match found {
        Some(report) => Some(Report {
            first: numbers[report.first as usize],
            second: numbers[report.second as usize],
        }),
        None => None,
    }
}
