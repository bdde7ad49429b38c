// Numbers of names.
ghost use Rattle.std.specs.Prelude.{◌≡◌, ℕ, ◌<◌, ◌^◌, List, OnOk};
ghost use Rattle.std.specs.Str.{bytes_eq};
ghost use Rattle.blif_flat.specs.Code.Numbering.{number_in, number_or};

use aq_base::Memory;
use indexmap::IndexMap;
use name_hash::NameHash;

/// The number of each name. The hash is keyed by the text that the names stand in.
pub type Numbers<'a> = IndexMap<&'a [u8], u32, NameHash>;

/// A number of items that 32 bits hold.
pub fn narrow(number: usize) -> u32
    requires { number < 2 ^ 32 }
    ensures { result ≡ number }
{
    number as u32
}

/// The number of a name, if it has one.
pub fn number_of(numbers: &Numbers<'_>, name: &[u8]) -> Option<u32>
    ensures { result ≡ number_in numbers.now.entries name.now }
{
    numbers.get(&name).copied()
}

/// Gives a name its number, unless it has one.
pub fn add<'a>(numbers: &mut Numbers<'a>, name: &'a [u8], number: u32) -> Result<(), Memory>
    ensures { OnOk result ((t : List ℕ) → number_in numbers.new.entries t
        ≡ number_or (number_in numbers.old.entries t) (bytes_eq name.now t) number) }
{
    if number_of(numbers, name).is_some() {
        return Ok(());
    }
    numbers.insert(name, number)?;
    Ok(())
}
