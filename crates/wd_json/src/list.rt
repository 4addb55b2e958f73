//! A list of items that keeps its allocator.

ghost use Rattle.std.specs.Prelude.{◌≡◌, [], ◌∷◌, ◌++◌, ◌<◌, Some, length, remove, slice_get, ◌↔◌, IsTrue, OnOk, OnErr};

use crate::memory::Memory;
use sqlite_items::Items;
use std::alloc::Global;
use std::marker::Model;

/// A list, seen by contracts as the list of its items. It keeps its allocator, so what grows it
/// takes none.
#[derive(Debug, Drop)]
pub struct WdList<T> {
    items: Items<T>,
}

impl<T> Model for WdList<T> {
    ghost use Rattle.std.specs.Prelude.{List};
    ghost use Rattle.std.specs.Coded.{coded_list};

    ghost Value = { List T };

    ghost coded = { coded_list T.code };

    ghost view = { λ list. list.items };
}

impl<T> WdList<T> {
    /// The empty list. It takes no memory.
    pub fn new(alloc: Global) -> WdList<T>
        ensures { result ≡ [] }
    {
        WdList {
            items: Items::new(alloc),
        }
    }

    /// The items of a `Vec`, which is moved in. It takes no memory.
    pub fn from_vec(items: Vec<T>) -> WdList<T>
        ensures { result ≡ items.items }
    {
        WdList {
            items: Items::from_vec(items),
        }
    }

    /// How many items there are.
    pub fn len(&self) -> usize
        ensures { result ≡ length self.now }
    {
        self.items.len()
    }

    /// Whether there are none.
    pub fn is_empty(&self) -> bool
        ensures { IsTrue result ↔ (self.now ≡ []) }
    {
        self.items.is_empty()
    }

    /// The item at place `i`, counted from 0.
    pub fn at(&self, i: usize) -> &T
        requires { i < length self.now }
        ensures { slice_get self.now i ≡ Some result.now }
    {
        &self.items.as_slice()[i]
    }

    /// The items in order.
    pub fn as_slice(&self) -> &[T]
        ensures { result.now ≡ self.now }
    {
        self.items.as_slice()
    }
}

impl<T: Drop> WdList<T> {
    /// Takes out the item at place `i`; the later ones move up. It takes no memory.
    pub fn take_out(&mut self, i: usize) -> T
        requires { i < length self.old }
        ensures item { slice_get self.old i ≡ Some result }
        ensures rest { self.new ≡ remove self.old i }
    {
        self.items.remove(i)
    }

    /// Adds an item at the end. After `Memory` the list is as it was, and the item is dropped.
    pub fn push(&mut self, item: T) -> Result<(), Memory>
        ensures ok { OnOk result (self.new ≡ self.old ++ item ∷ []) }
        ensures err { OnErr result (self.new ≡ self.old) }
    {
        self.items.push(item)?;
        Ok(())
    }
}
