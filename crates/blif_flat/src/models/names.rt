// Lists of names that are found fast: a few are looked through, and more have a table.
ghost use Rattle.std.specs.Prelude.{◌≡◌, ℕ, [], length, slice_index_or, IfOk, OnOk};
ghost use Rattle.std.specs.List.{IsDistinct, list_any, position};
ghost use Rattle.std.specs.Str.{bytes_eq};
ghost use Rattle.indexmap.specs.IndexSet.{insert_key, insert_all};
ghost use Rattle.blif_read.specs.Parts.{is_defined};
ghost use Rattle.blif_read.specs.Code.Seen.{texts};
ghost use Rattle.blif_flat.specs.Designs.{names_in};

use aq_base::Memory;
use blif_read::Named;
use indexmap::IndexSet;
use name_hash::NameHash;
use std::alloc::Global;
use std::marker::Model;

/// Up to so many names are looked through, one by one: a table of so few would take more memory than they do.
const FEW: usize = 8;

/// The names, in a table where they are many. The hash is keyed by the text that they stand in.
#[derive(Drop)]
enum Held<'a> {
    Few(Vec<&'a [u8]>),
    Many(Box<IndexSet<&'a [u8], NameHash>>),
}

/// Lists of names that are found fast: a few are looked through, and more have a table.
#[derive(Drop)]
pub struct Names<'a> {
    held: Held<'a>,
}

impl<'a> Model for Names<'a> {
    ghost use Rattle.std.specs.Prelude.{ℕ, List};
    ghost use Rattle.std.specs.List.{IsDistinct};
    ghost use Rattle.std.specs.Str.{bytes_eq};
    ghost use Rattle.blif_flat.specs.Code.Indexing.{names_held};

    ghost Value = { List (List ℕ) };

    ghost view = { λ n. names_held n.held };

    ghost invariant = { λ n. IsDistinct bytes_eq (names_held n.held) };
}

/// Whether a name is one of a few.
fn is_in(few: &[&[u8]], name: &[u8]) -> bool
    ensures { result ≡ list_any (λ other. bytes_eq name.now other.now) few.now }
{
    few.iter().any(|other| name == *other)
}

/// The number of a name among a few.
fn number_in(few: &[&[u8]], name: &[u8]) -> Option<usize>
    ensures { result ≡ position (λ other. bytes_eq name.now other.now) few.now }
{
    few.iter().position(|other| name == *other)
}

/// Adds a name to a few, unless it is one of them.
fn add<'a>(few: &mut Vec<&'a [u8]>, name: &'a [u8]) -> Result<(), Memory>
    ensures { OnOk result (few.new.items ≡ insert_key (λ a b. bytes_eq a.now b.now) few.old.items name.entry) }
{
    if !is_in(few.as_slice(), name) {
        few.push(name)?;
    }
    Ok(())
}

/// A few names, each once.
fn few_of<'a>(alloc: Global, named: &'a [Named]) -> Result<Vec<&'a [u8]>, Memory>
    ensures { IfOk result (λ few. texts few.items ≡ insert_all bytes_eq [] (names_in named.now)) }
{
    let mut few = Vec::with_capacity(alloc, named.len())?;
    for item in named {
        add(&mut few, item.name.as_slice())?;
    }
    Ok(few)
}

/// A table of names, each once.
fn table_of<'a>(
    alloc: Global,
    hash: NameHash,
    named: &'a [Named],
) -> Result<IndexSet<&'a [u8], NameHash>, Memory>
    ensures { IfOk result (λ table. texts table.keys ≡ insert_all bytes_eq [] (names_in named.now)) }
{
    let mut table = IndexSet::with_hasher(alloc, hash);
    table.reserve_exact(named.len())?;
    for item in named {
        table.insert(item.name.as_slice())?;
    }
    Ok(table)
}

impl<'a> Names<'a> {
    /// The names of these, each once.
    pub fn of(alloc: Global, hash: NameHash, named: &'a [Named]) -> Result<Self, Memory>
        ensures { IfOk result (λ names. names ≡ insert_all bytes_eq [] (names_in named.now)) }
    {
        let held = if named.len() <= FEW {
            Held::Few(few_of(alloc, named)?)
        } else {
            let table = table_of(alloc, hash, named)?;
            Held::Many(Box::new(alloc, table)?)
        };
        Ok(Names { held })
    }

    /// How many there are.
    pub fn len(&self) -> usize
        ensures count { result ≡ length self.now }
        ensures distinct { IsDistinct bytes_eq self.now }
    {
        match &self.held {
            Held::Few(names) => names.len(),
            Held::Many(table) => table.len(),
        }
    }

    /// The name of a number; empty past the last.
    pub fn at(&self, number: usize) -> &'a [u8]
        ensures { result.now ≡ slice_index_or self.now number [] }
    {
        let found = match &self.held {
            Held::Few(names) => names.get(number).copied(),
            Held::Many(table) => table.get_index(number).copied(),
        };
        match found {
            Some(name) => name,
            None => &[],
        }
    }

    /// Whether a name is one of these.
    pub fn has(&self, name: &[u8]) -> bool
        ensures { result ≡ is_defined self.now name.now }
    {
        match &self.held {
            Held::Few(names) => is_in(names.as_slice(), name),
            Held::Many(table) => table.contains(&name),
        }
    }

    /// The number of a name, if it is one of these.
    pub fn number(&self, name: &[u8]) -> Option<usize>
        ensures { result ≡ position (bytes_eq name.now) self.now }
    {
        match &self.held {
            Held::Few(names) => number_in(names.as_slice(), name),
            Held::Many(table) => table.get_index_of(&name),
        }
    }
}
