//! Lists of bytes, one for each connection.

ghost use Rattle.std.specs.Prelude.{◌≡◌, ◌++◌, ◌∷◌, ◌<◌, [], Some, OnOk, OnErr, length, map, slice_get, slice_set, slice_index_or};
ghost use Rattle.wd_http.specs.HeldConnection.{comes_on};

use crate::entry::Entry;
use std::alloc::Global;
use std::marker::Model;
use wd_json::{Memory, WdBytes};

/// Lists of bytes, one for each connection, seen by contracts as the list of them. It keeps its
/// allocator, so what grows it takes none. Its items have room for what a line in memory keeps of a
/// connection, so such a line takes a list over without memory.
#[derive(Debug, Drop)]
pub struct BytesList {
    entries: Vec<Entry>,
}

impl Model for BytesList {
    ghost use Rattle.std.specs.Prelude.{List, ℕ, map};
    ghost use Rattle.wd_http.specs.HeldConnection.{comes_on};

    ghost Value = { List (List ℕ) };

    ghost view = { λ b. map comes_on b.entries.items };
}

impl BytesList {
    /// The empty list. It takes no memory.
    pub fn new(alloc: Global) -> BytesList
        ensures { result ≡ [] }
    {
        BytesList {
            entries: Vec::new(alloc),
        }
    }

    /// How many items there are.
    pub fn len(&self) -> usize
        ensures { result ≡ length self.now }
    {
        self.entries.len()
    }

    /// The bytes at place `i`, counted from 0.
    pub fn at(&self, i: usize) -> &WdBytes
        requires { i < length self.now }
        ensures { slice_get self.now i ≡ Some result.now }
    {
        let entry = &self.entries[i];
        entry.bytes()
    }

    /// Adds bytes at the end. After `Memory` the list is as it was, and the bytes are dropped.
    pub fn push(&mut self, bytes: WdBytes) -> Result<(), Memory>
        ensures ok { OnOk result (self.new ≡ self.old ++ bytes ∷ []) }
        ensures err { OnErr result (self.new ≡ self.old) }
    {
        self.entries.push(Entry::new(bytes))?;
        Ok(())
    }

    /// Adds to the bytes at place `i`. After `Memory` they are as they were.
    pub(crate) fn extend(&mut self, i: usize, piece: &[u8]) -> Result<(), Memory>
        requires { i < length self.old }
        ensures ok { OnOk result (self.new ≡ slice_set self.old i (slice_index_or self.old i [] ++ piece.now)) }
        ensures err { OnErr result (self.new ≡ self.old) }
    {
        let entry = &mut self.entries[i];
        entry.extend(piece)
    }

    /// The connections on which the bytes come.
    pub(crate) fn into_entries(self) -> Vec<Entry>
        ensures { map comes_on result.items ≡ self }
    {
        self.entries
    }
}
