// Names of structures, as parts of the bytes that are read.
ghost use Rattle.std.specs.Prelude.{◌≡◌, ◌++◌, ◌∷◌, ◌||◌, ℕ, List, map, not, [], IfOk, OnOk, IsSome, is_some};
ghost use Rattle.std.specs.Str.{bytes_eq};
ghost use Rattle.indexmap.specs.IndexSet.{insert_key};
ghost use Rattle.gds_records.specs.Steps.{is_listed};
ghost use Rattle.gds_records.specs.Whole.{is_used, all_uses};
ghost use Rattle.gds_read.specs.Code.Numbering.{AreUsed};
ghost use Rattle.gds_read.specs.Code.Outlining.{use_of, outline_of};
ghost use Rattle.gds_read.specs.Code.Texts.{texts};

use crate::outline::{NamedOutline, NamedUse};
use aq_base::Memory;
use indexmap::IndexSet;
use name_hash::NameHash;
use std::alloc::Global;

/// Names of structures, each once, in the order of the structures. The hash is keyed by all names of the stream.
pub type Names<'a> = IndexSet<&'a [u8], NameHash>;

/// Adds a name.
pub fn add<'a>(names: &mut Names<'a>, name: &'a [u8]) -> Result<(), Memory>
    ensures { OnOk result (texts names.new.keys ≡ insert_key bytes_eq (texts names.old.keys) name.now) }
{
    names.insert_full(name)?;
    Ok(())
}

/// Whether a name is there.
#[tactic(auto, using(crate::proofs::Named::listed))]
pub fn is_taken(names: &Names<'_>, name: &[u8]) -> bool
    ensures { result ≡ is_listed name.now (texts names.now.keys) }
{
    names.get_index_of(&name).is_some()
}

// Adds the names of references.
fn add_uses<'a>(used: &mut Names<'a>, uses: &[NamedUse<'a>]) -> Result<(), Memory>
    ensures { OnOk result ((t : List ℕ) → is_listed t (texts used.new.keys)
        ≡ (is_listed t (texts used.old.keys) || is_used t (map use_of uses.now))) }
{
    for item in uses {
        add(used, item.name)?;
    }
    Ok(())
}

/// The names that structures refer to, each once.
pub fn used_names<'a>(
    alloc: Global,
    hash: NameHash,
    outlines: &[NamedOutline<'a>],
) -> Result<Names<'a>, Memory>
    ensures { IfOk result (λ used. AreUsed (texts used.keys) (all_uses (map outline_of outlines.now))) }
{
    let mut used = IndexSet::with_hasher(alloc, hash);
    for outline in outlines {
        add_uses(&mut used, outline.uses.as_slice())?;
    }
    Ok(used)
}
