//! A connection in memory, but for the bytes that were sent on it.

ghost use Rattle.std.specs.Prelude.{◌≡◌, ◌++◌, ◌∷◌, [], List, ℕ, Some, None, OnOk, OnErr, length, take};
ghost use Rattle.wd_http.specs.HeldConnection.{HeldConnection, comes_on, untouched};
ghost use Rattle.wd_http.specs.Least.{least};

use crate::call::Call;
use std::marker::Model;
use wd_json::{Memory, WdBytes};

/// A connection in memory, but for the bytes that were sent on it.
#[derive(Debug, Drop)]
pub(crate) struct Entry {
    bytes: WdBytes,
    at: usize,
    place: Option<usize>,
    failed: Option<Call>,
}

impl Model for Entry {
    ghost use Rattle.std.specs.Prelude.{◌≤◌, take, drop, length};
    ghost use Rattle.wd_http.specs.HeldConnection.{HeldConnection};

    ghost Value = { HeldConnection };

    ghost view = { λ e. record { took = take e.at e.bytes; left = drop e.at e.bytes; place = e.place; failed = e.failed } };

    ghost invariant = { λ e. e.at ≤ length e.bytes };
}

impl Entry {
    /// A connection on which these bytes come.
    pub(crate) fn new(bytes: WdBytes) -> Entry
        ensures { result ≡ untouched bytes }
    {
        Entry {
            bytes,
            at: 0,
            place: None,
            failed: None,
        }
    }

    /// All bytes that come on it.
    pub(crate) fn bytes(&self) -> &WdBytes
        ensures { result.now ≡ comes_on self.now }
    {
        &self.bytes
    }

    /// The bytes that come on it.
    pub(crate) fn into_bytes(self) -> WdBytes
        ensures { result ≡ comes_on self }
    {
        self.bytes
    }

    /// Where what was sent on it stands.
    pub(crate) fn place(&self) -> Option<usize>
        ensures { result ≡ self.now.place }
    {
        self.place
    }

    /// Keeps where what was sent on it stands.
    pub(crate) fn put_at(&mut self, place: usize)
        ensures { self.new ≡ record self.old { place = Some place } }
    {
        self.place = Some(place);
    }

    /// Moves the least of `most`, the buffer and what is left.
    pub(crate) fn read(&mut self, into: &mut [u8], most: usize) -> usize
        ensures count { result ≡ least most (length into.new) (length self.old.left) }
        ensures left { self.old.left ≡ take result into.new ++ self.new.left }
        ensures took { self.new.took ≡ self.old.took ++ take result into.new }
        ensures place { self.new.place ≡ self.old.place }
        ensures failed { self.new.failed ≡ self.old.failed }
    {
        let left = self.bytes.len() - self.at;
        let n = most.min(into.len()).min(left);
        into[..n].copy_from_slice(&self.bytes.as_slice()[self.at..self.at + n]);
        self.at += n;
        n
    }

    /// Keeps that a call failed.
    pub(crate) fn fail(&mut self, call: Call)
        ensures { self.new ≡ record self.old { failed = Some call } }
    {
        self.failed = Some(call);
    }

    /// Adds to the bytes that come on it. After `Memory` they are as they were.
    pub(crate) fn extend(&mut self, piece: &[u8]) -> Result<(), Memory>
        ensures ok { OnOk result (comes_on self.new ≡ comes_on self.old ++ piece.now) }
        ensures err { OnErr result (comes_on self.new ≡ comes_on self.old) }
    {
        self.bytes.extend(piece)
    }
}
