// Words.
ghost use Rattle.std.specs.Prelude.{◌≡◌, IfOk};

use aq_base::{List, Memory};
use circuit::Word;
use std::alloc::Global;

/// The word of these values.
pub fn word<const N: usize>(alloc: Global, values: [bool; N]) -> Result<Word, Memory>
    ensures { IfOk result (λ word. word ≡ values.entry) }
{
    Ok(List::from_vec(Vec::from_array(alloc, values)?))
}
