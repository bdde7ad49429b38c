// How printing to `out` ends.
ghost use Rattle.std.specs.Prelude.{◌≡◌};
ghost use Rattle.aqfp_top.specs.Code.Printing.{end_of_out};

use crate::fault::{Fault, WriteCall};
use aq_base::StoreRefusal;

/// How printing ends, by what the sink or a printer answered.
pub fn out_end(answer: Result<(), StoreRefusal>) -> Result<(), Fault>
    ensures { result ≡ end_of_out answer }
{
    match answer {
        Ok(()) => Ok(()),
        Err(StoreRefusal::Failed) => Err(Fault::WriteFault {
            call: WriteCall::Out,
        }),
        Err(StoreRefusal::Memory) => Err(Fault::Memory),
    }
}
