// Searches for the first report of a rule, number by number.
ghost use Rattle.std.specs.Prelude.{◌≡◌, ℕ, ◌<◌, IfOk};
ghost use Rattle.shape_extract.specs.Searches.{Finds, FindsAt};

use aq_base::Memory;
use std::alloc::Global;

/// The two numbers that a rule reports.
#[derive(Clone, Copy, PartialEq, Eq)]
pub struct Report {
    pub first: u32,
    pub second: u32,
}

/// A part of a rule that is judged number by number.
pub trait Part {
    /// What has to hold of the part itself.
    ghost valid: { Self → Type 0 };

    /// The numbers below this one are judged.
    ghost count: { Self → ℕ };

    /// What it reports.
    ghost reported: { Self → ℕ → ℕ → Type 0 };

    /// How many numbers are judged. Nothing is reported past them.
    fn count(&self) -> u32
        requires { valid self.now }
        ensures count { result ≡ count self.now }
        ensures within { (a b : ℕ) → reported self.now a b → a < count self.now };

    /// The least second number that is reported with this first one. The list is for use within.
    fn second(&self, a: u32, found: &mut Vec<u32>) -> Result<Option<u32>, Memory>
        requires valid { valid self.now }
        requires within { a < count self.now }
        ensures { IfOk result (FindsAt (reported self.now) a) };
}

/// The first report of the part.
pub fn first_of<P: Part>(alloc: Global, part: &P) -> Result<Option<Report>, Memory>
    requires { P.valid part.now }
    ensures { IfOk result (Finds (P.reported part.now)) }
{
    let mut found = Vec::new(alloc);
    for a in 0..part.count() {
        if let Some(b) = part.second(a, &mut found)? {
            return Ok(Some(Report {
                first: a,
                second: b,
            }));
        }
    }
    Ok(None)
}
