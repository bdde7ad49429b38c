// Texts that copies share.
ghost use Rattle.std.specs.Prelude.{◌≡◌, IfOk, drop, take};
ghost use Rattle.std.specs.Prelude.{nat_eq};
ghost use Rattle.std.specs.List.{list_all};
ghost use Rattle.std.specs.Char.{is_ascii_digit};
ghost use Rattle.std.specs.Cmp.Lexicographic.{pointwise, nat_list_eq_equiv};
ghost use Rattle.std.specs.Cmp.{partial_equiv_from_equiv};

use crate::Memory;
use std::alloc::AllocError;
use std::marker::Model;
use std::rc::Rc;

/// Bytes, and what is found of them when they are kept.
#[derive(Drop)]
struct Kept {
    bytes: Vec<u8>,
    digits_follow: bool,
    ghost found: { digits_follow ≡ list_all is_ascii_digit (drop 1 bytes.items) },
}

/// A text in bytes that doesn't change any more. Its clones share the bytes, and what is found of them: a text that a
/// thousand labels show takes memory once and is judged once.
#[derive(Drop)]
pub struct Text {
    kept: Rc<Kept>,
}

impl Model for Text {
    ghost use Rattle.std.specs.Prelude.{ℕ, List as Items};

    ghost Value = { Items ℕ };

    ghost view = { λ t. t.kept.value.bytes.items };
}

/// Whether each byte is a digit.
fn are_digits(bytes: &[u8]) -> bool
    ensures { result ≡ list_all is_ascii_digit bytes.now }
{
    bytes.iter().all(|byte| byte.is_ascii_digit())
}

impl Text {
    /// The text of these bytes. Without memory they are dropped.
    pub fn from_vec(bytes: Vec<u8>) -> Result<Self, Memory>
        ensures { IfOk result (λ text. text ≡ bytes.items) }
    {
        let alloc = *bytes.allocator();
        let digits_follow = bytes.is_empty() || are_digits(&bytes[1..]);
        Ok(Text {
            kept: Rc::new(
                alloc,
                Kept {
                    bytes,
                    digits_follow,
                },
            )?,
        })
    }

    /// The bytes in order.
    pub fn as_slice(&self) -> &[u8]
        ensures { result.now ≡ self.now }
    {
        self.kept.as_ref().bytes.as_slice()
    }

    /// Whether each byte after the first is a decimal digit, as it was found once for this text and its clones.
    pub fn digits_follow(&self) -> bool
        ensures { result ≡ list_all is_ascii_digit (drop 1 self.now) }
    {
        self.kept.as_ref().digits_follow
    }
}

impl Clone for Text {
    ghost is_clone = { λ text copy. copy ≡ text };

    fn clone(&self) -> Result<Text, AllocError> {
        Ok(Text {
            kept: self.kept.clone()?,
        })
    }
}

impl PartialEq for Text {
    ghost eq = { pointwise nat_eq };

    ghost laws = { partial_equiv_from_equiv nat_list_eq_equiv };

    fn eq(&self, other: &Self) -> bool {
        self.as_slice() == other.as_slice()
    }
}
