// Literals by the numbers of their nodes or signals.
ghost use Rattle.std.specs.Prelude.{IfOk, IfSome};
ghost use Rattle.mig.specs.Carried.{AreLiterals};

use aq_base::Memory;
use std::alloc::Global;

/// The literals of these nodes or signals, if all have them.
pub fn literals_of(
    alloc: Global,
    found: &[Option<u32>],
    numbers: &[u32],
) -> Result<Option<Vec<u32>>, Memory>
    ensures { IfOk result (λ all. IfSome all (λ literals. AreLiterals found.now numbers.now literals.items)) }
{
    let mut literals = Vec::with_capacity(alloc, numbers.len())?;
    for number in numbers {
        match found.get(*number as usize).copied().unwrap_or(None) {
            Some(literal) => literals.push(literal)?,
            None => return Ok(None),
        }
    }
    Ok(Some(literals))
}
