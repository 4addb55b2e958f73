//! A map from texts, its entries in the order of their keys.

ghost use Rattle.std.specs.Prelude.{◌≡◌, [], ◌<◌, Some, length, slice_get, IfOk, IfErr, OnOk, OnErr};
ghost use Rattle.std.specs.Option.{option_copied};
ghost use Rattle.wd_json.specs.Keys.{key_order};

use crate::memory::Memory;
use crate::text::WdText;
use std::alloc::Global;
use std::cmp::Ordering;
use std::marker::Model;

/// A map from texts, seen by contracts as the list of its entries in the order of their keys'
/// UTF-8 bytes. It keeps its allocator, so what grows it takes none.
#[derive(Debug, Drop)]
pub struct WdMap<V> {
    entries: Vec<(WdText, V)>,
}

impl<V> Model for WdMap<V> {
    ghost use Rattle.std.specs.Prelude.{ℕ, List};
    ghost use Rattle.std.specs.Coded.{coded_list, coded×, coded_ℕ};
    ghost use Rattle.wd_json.specs.Keys.{KeysRise};

    ghost Value = { List (List ℕ × V) };

    ghost coded = { coded_list (coded× (coded_list coded_ℕ) V.code) };

    ghost view = { λ map. map.entries.items };

    ghost invariant = { λ map. KeysRise map.entries.items };
}

impl<V> WdMap<V> {
    ghost use Rattle.wd_json.specs.Keys.{KeysRise, get, IsAt, IsGap};

    /// The map without entries. It takes no memory.
    pub fn new(alloc: Global) -> WdMap<V>
        ensures { result ≡ [] }
    {
        WdMap {
            entries: Vec::new(alloc),
        }
    }

    /// The entries of a `Vec`, which is moved in and whose keys rise. It takes no memory.
    pub fn from_sorted(entries: Vec<(WdText, V)>) -> WdMap<V>
        requires { KeysRise entries.items }
        ensures { result ≡ entries.items }
    {
        WdMap { entries }
    }

    /// How many entries there are.
    pub fn len(&self) -> usize
        ensures { result ≡ length self.now }
    {
        self.entries.len()
    }

    /// The entry at place `i` of the order of keys, counted from 0.
    pub fn at(&self, i: usize) -> &(WdText, V)
        requires { i < length self.now }
        ensures { slice_get self.now i ≡ Some result.now }
    {
        &self.entries[i]
    }

    /// The entries in the order of their keys.
    pub fn as_slice(&self) -> &[(WdText, V)]
        ensures entries { result.now ≡ self.now }
        ensures rise { KeysRise self.now }
    {
        self.entries.as_slice()
    }

    /// The value at a key; `None` exactly where the key isn't there. It looks at about as many
    /// keys as the length has binary digits.
    pub fn get(&self, key: &str) -> Option<&V>
        ensures { option_copied result ≡ get key.now self.now }
    {
        match self.place(key) {
            Ok(at) => Some(&self.entries[at].1),
            Err(_) => None,
        }
    }

    /// Gives back the room that no entry stands in.
    pub fn shrink(&mut self)
        ensures { self.new ≡ self.old }
    {
        self.entries.shrink_to_fit();
    }

    // Where the key is, or where it would go.
    fn place(&self, key: &str) -> Result<usize, usize>
        ensures found { IfOk result (IsAt key.now self.now) }
        ensures absent { IfErr result (IsGap key.now self.now) }
    {
        self.entries.binary_search_by(|entry| compare(entry, key))
    }
}

impl<V: Drop> WdMap<V> {
    ghost use Rattle.wd_json.specs.Keys.{put};

    /// The map with that key set: a value that stood there is replaced, and a new key goes to its
    /// place in the order. After `Memory` the map is as it was.
    pub fn put(&mut self, key: WdText, value: V) -> Result<(), Memory>
        ensures ok { OnOk result (self.new ≡ put key value self.old) }
        ensures err { OnErr result (self.new ≡ self.old) }
    {
        match self.place(key.as_str()) {
            Ok(at) => {
                self.entries[at].1 = value;
                Ok(())
            }
            Err(at) => {
                self.entries.insert(at, (key, value))?;
                Ok(())
            }
        }
    }
}

// How the entry's key is to this one.
fn compare<V>(entry: &(WdText, V), key: &str) -> Ordering
    ensures { result ≡ key_order key.now entry.now }
{
    entry.0.as_str().cmp(&key)
}
