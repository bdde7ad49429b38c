// A growing list that contracts see as the list of its items.
ghost use Rattle.std.specs.Prelude.{◌≡◌, ◌<◌, ◌∷◌, ◌++◌, [], length, slice_get, slice_set, Some, OnOk, OnErr};
ghost use Rattle.std.specs.List.{AllZip};
ghost use Rattle.std.specs.Cmp.Lexicographic.{pointwise, lists_per, lists_equiv};
ghost use Rattle.std.specs.Hash as fed;
ghost use Rattle.std.specs.Hash.{items_Alike};

use std::alloc::{AllocError, AllocFailed, Global};
use std::hash::{Hash, Hasher};
use std::marker::Model;

/// Want of memory.
#[derive(Clone, Copy, Debug, PartialEq, Eq)]
pub struct Memory;

impl From<AllocError> for Memory {
    fn from(_: AllocError) -> Self {
        Memory
    }
}

impl<T: Drop> From<AllocFailed<T>> for Memory {
    fn from(_: AllocFailed<T>) -> Self {
        Memory
    }
}

/// A list that grows at its end, in memory of its own.
#[derive(Debug, Drop)]
pub struct List<T> {
    items: Vec<T>,
}

impl<T> Model for List<T> {
    ghost use Rattle.std.specs.Prelude.{List as Items};

    ghost Value = { Items T };

    ghost view = { λ a. a.items.items };
}

impl<T> List<T> {
    /// The empty list, which takes no memory.
    pub fn new(alloc: Global) -> Self
        ensures { result ≡ [] }
    {
        List {
            items: Vec::new(alloc),
        }
    }

    /// Adds the item at the end. Without memory the list stays as it is, and the item is dropped.
    pub fn push(&mut self, item: T) -> Result<(), Memory>
    where
        T: Drop,
        ensures ok { OnOk result (self.new ≡ self.old ++ item ∷ []) }
        ensures err { OnErr result (self.new ≡ self.old) }
    {
        self.items.push(item)?;
        Ok(())
    }

    /// How many items the list has.
    pub fn len(&self) -> usize
        ensures { result ≡ length self.now }
    {
        self.items.len()
    }

    /// The item at an index, counted from 0, which is below the length.
    pub fn get(&self, index: usize) -> &T
        requires { index < length self.now }
        ensures { slice_get self.now index ≡ Some result.now }
    {
        &self.items[index]
    }

    /// Puts an item at an index, which is below the length, in place of the one that is there.
    pub fn set(&mut self, index: usize, item: T)
    where
        T: Drop,
        requires { index < length self.old }
        ensures { self.new ≡ slice_set self.old index item }
    {
        self.items[index] = item;
    }

    /// The list of these items. No memory is taken.
    pub fn from_vec(items: Vec<T>) -> Self
        ensures { result ≡ items.items }
    {
        List { items }
    }

    /// The items as a `Vec`. No memory is taken.
    pub fn into_vec(self) -> Vec<T>
        ensures { result.items ≡ self }
    {
        self.items
    }

    /// The items in order.
    pub fn as_slice(&self) -> &[T]
        ensures { result.now ≡ self.now }
    {
        self.items.as_slice()
    }
}

impl<T: PartialEq> PartialEq for List<T> {
    ghost eq = { pointwise T.eq };

    ghost laws = { lists_per T.laws };

    fn eq(&self, other: &Self) -> bool {
        self.items == other.items
    }
}

impl<T: Clone> Clone for List<T> {
    ghost is_clone = { λ v w. AllZip T.is_clone v w };

    fn clone(&self) -> Result<List<T>, AllocError> {
        Ok(List {
            items: self.items.clone()?,
        })
    }
}

impl<T: Eq> Eq for List<T> {
    ghost laws = { lists_equiv T.Eq.laws };
}

impl<T: Hash> Hash for List<T> {
    ghost hash_input = { fed.slice T.hash_input };

    ghost respects_eq = { (items_Alike (record { fed = T.respects_eq })).fed };

    fn hash<H: Hasher>(&self, state: &mut H) {
        self.items.hash(state);
    }
}

#[cfg(test)]
mod tests {
    use super::*;
    use std::test::Fail;

    #[test]
    fn keeps_its_items(rt: HostRuntime) -> Result<(), Fail> {
        let mut list: List<u8> = List::new(rt.alloc());
        assert_eq!(rt; list.len(), 0);
        list.push(3)?;
        list.push(5)?;
        assert_eq!(rt; list.len(), 2);
        assert_eq!(rt; *list.get(0), 3);
        list.set(0, 4);
        assert_eq!(rt; list.as_slice(), [4, 5].as_slice());
        let copy = list.clone()?;
        assert_eq!(rt; copy, list);
        assert_eq!(rt; List::from_vec(copy.into_vec()).len(), 2);
        Ok(())
    }
}
