// Numbers of structures, by their names.
ghost use Rattle.std.specs.Prelude.{◌≡◌, ◌<◌, ◌^◌, ℕ, List, length, map, IfOk, OnOk};
ghost use Rattle.std.specs.Str.{bytes_eq};
ghost use Rattle.gds_read.specs.Code.Outlining.{outline_of};
ghost use Rattle.gds_read.specs.Code.Numbering.{number_in, number_or, IsNumbering};

use crate::outline::NamedOutline;
use aq_base::Memory;
use indexmap::IndexMap;
use name_hash::NameHash;
use std::alloc::Global;

/// The number of each name: of structures of one name, that of the first. The hash is keyed by all names of the stream.
pub type Numbers<'a> = IndexMap<&'a [u8], u32, NameHash>;

/// The number of a name.
pub fn number_of(numbers: &Numbers<'_>, name: &[u8]) -> Option<u32>
    ensures { result ≡ number_in numbers.now.entries name.now }
{
    numbers.get(&name).copied()
}

// Gives a name its number, unless it has one.
fn add<'a>(numbers: &mut Numbers<'a>, name: &'a [u8], number: u32) -> Result<(), Memory>
    ensures { OnOk result ((t : List ℕ) → number_in numbers.new.entries t
        ≡ number_or (number_in numbers.old.entries t) (bytes_eq name.now t) number) }
{
    if number_of(numbers, name).is_some() {
        return Ok(());
    }
    numbers.insert(name, number)?;
    Ok(())
}

/// The numbers of structures by their names. There are fewer than 2^32.
pub fn numbers<'a>(
    alloc: Global,
    hash: NameHash,
    outlines: &[NamedOutline<'a>],
) -> Result<Numbers<'a>, Memory>
    requires { length outlines.now < 2 ^ 32 }
    ensures { IfOk result (λ numbers. IsNumbering numbers.entries (map (λ s. s.name) (map outline_of outlines.now))) }
{
    let mut numbers = IndexMap::with_hasher(alloc, hash);
    for (number, outline) in outlines.iter().enumerate() {
        add(&mut numbers, outline.name, number as u32)?;
    }
    Ok(numbers)
}
