// A page of text, which is put once it is full.
ghost use Rattle.std.specs.Prelude.{◌≡◌, OnOk, IfErr, []};
ghost use Rattle.text_answers.specs.Printing.{PutsPage, RefusesPage};

use aq_base::{Sink, StoreRefusal};

/// A page is put when it has so many bytes.
const PAGE: usize = 65_536;

/// Puts what stands on the page, and clears it. A refusal is the sink's: it has taken some first bytes of the page.
pub fn put_page<O: Sink>(out: &mut O, page: &mut Vec<u8>) -> Result<(), StoreRefusal>
    ensures put { OnOk result (PutsPage (O.output out.old) (O.output out.new) page.old.items page.new.items) }
    ensures empty { OnOk result (page.new.items ≡ []) }
    ensures refused { IfErr result (RefusesPage (O.output out.old) (O.output out.new) page.old.items) }
{
    out.put(page.as_slice())?;
    page.clear();
    Ok(())
}

/// Puts the page, and clears it, where it has 65,536 bytes or more. A refusal is the sink's, as that of `put_page`.
pub fn put_full_page<O: Sink>(out: &mut O, page: &mut Vec<u8>) -> Result<(), StoreRefusal>
    ensures put { OnOk result (PutsPage (O.output out.old) (O.output out.new) page.old.items page.new.items) }
    ensures refused { IfErr result (RefusesPage (O.output out.old) (O.output out.new) page.old.items) }
{
    if page.len() < PAGE {
        return Ok(());
    }
    put_page(out, page)
}
