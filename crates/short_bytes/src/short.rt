// A list of bytes that stands in place where it is short.
ghost use Rattle.std.specs.Prelude.{◌≡◌, ◌≤◌, [], length, take, nat_eq, IfOk};
ghost use Rattle.std.specs.Cmp.{partial_equiv_from_equiv};
ghost use Rattle.std.specs.Cmp.Rules.{hashing};
ghost use Rattle.std.specs.Cmp.Lexicographic.{pointwise, nat_list_eq_equiv};
ghost use Rattle.std.specs.Hash as fed;
ghost use Rattle.std.proofs.Common.{rules};

use aq_base::Memory;
use std::alloc::{AllocError, Global};
use std::hash::{Hash, Hasher};
use std::marker::Model;
use std::mem::size_of;

/// The most bytes that stand in place.
const ROOM: usize = 14;

/// The first `length` of these bytes.
#[derive(Clone, Copy, Debug, Drop)]
struct InPlace {
    length: u8,
    bytes: [u8; ROOM],
}

/// Where the bytes stand.
#[derive(Debug, Drop)]
enum Held {
    InPlace(InPlace),
    Elsewhere(Box<Vec<u8>>),
}

const _: () = prove!(size_of::<Held>() == 16);

/// A list of bytes that does not change, of any length. Up to fourteen bytes take no memory beside the value.
#[derive(Debug, Drop)]
pub struct ShortBytes {
    held: Held,
}

impl Model for ShortBytes {
    ghost use Rattle.std.specs.Prelude.{ℕ, List};

    ghost Value = { List ℕ };

    ghost use Rattle.short_bytes.specs.Held.{bytes_of, IsHeld};

    ghost view = { λ b. bytes_of b.held };

    ghost invariant = { λ b. IsHeld b.held };
}

/// The bytes in place; there is room for them.
fn in_place(bytes: &[u8]) -> InPlace
    requires { length bytes.now ≤ 14 }
    ensures held { result.length ≤ 14 }
    ensures bytes { take result.length result.bytes ≡ bytes.now }
{
    let mut all = [0; ROOM];
    all[..bytes.len()].copy_from_slice(bytes);
    InPlace {
        length: bytes.len() as u8,
        bytes: all,
    }
}

impl ShortBytes {
    /// The empty list.
    pub fn new() -> Self
        ensures { result ≡ [] }
    {
        ShortBytes {
            held: Held::InPlace(in_place(&[])),
        }
    }

    /// The list of these bytes.
    pub fn copy(alloc: Global, bytes: &[u8]) -> Result<Self, Memory>
        ensures { IfOk result (λ list. list ≡ bytes.now) }
    {
        let held = if bytes.len() <= ROOM {
            Held::InPlace(in_place(bytes))
        } else {
            Held::Elsewhere(Box::new(alloc, bytes.to_vec(alloc)?)?)
        };
        Ok(ShortBytes { held })
    }

    /// The list of the bytes of a `Vec`, which are not copied where they are many: the `Vec` becomes their memory.
    pub fn from_vec(alloc: Global, bytes: Vec<u8>) -> Result<Self, Memory>
        ensures { IfOk result (λ list. list ≡ bytes.items) }
    {
        let held = if bytes.len() <= ROOM {
            Held::InPlace(in_place(&bytes))
        } else {
            Held::Elsewhere(Box::new(alloc, bytes)?)
        };
        Ok(ShortBytes { held })
    }

    /// The bytes in order.
    pub fn as_slice(&self) -> &[u8]
        ensures { result.now ≡ self.now }
    {
        match &self.held {
            Held::InPlace(short) => &short.bytes[..short.length as usize],
            Held::Elsewhere(long) => long.as_slice(),
        }
    }

    /// How many bytes the list has.
    pub fn len(&self) -> usize
        ensures { result ≡ length self.now }
    {
        self.as_slice().len()
    }
}

impl Clone for ShortBytes {
    ghost is_clone = { λ it copy. copy ≡ it };

    fn clone(&self) -> Result<ShortBytes, AllocError> {
        let held = match &self.held {
            Held::InPlace(short) => Held::InPlace(*short),
            Held::Elsewhere(long) => Held::Elsewhere(long.clone()?),
        };
        Ok(ShortBytes { held })
    }
}

impl PartialEq for ShortBytes {
    ghost eq = { pointwise nat_eq };

    ghost laws = { partial_equiv_from_equiv nat_list_eq_equiv };

    fn eq(&self, other: &Self) -> bool {
        self.as_slice() == other.as_slice()
    }
}

impl Eq for ShortBytes {
    ghost laws = { nat_list_eq_equiv };
}

impl Hash for ShortBytes {
    ghost hash_input = { fed.slice fed.u8 };

    ghost respects_eq = { Prim.search (hashing, rules) };

    fn hash<H: Hasher>(&self, state: &mut H) {
        self.as_slice().hash(state);
    }
}
