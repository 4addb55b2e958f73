//! Connections in memory, one after another, with what comes and goes on them.

ghost use Rattle.std.specs.Prelude.{◌≡◌, ◌<◌, ◌++◌, [], false, Ok, OnOk, length, take};
ghost use Rattle.wd_http.specs.Talk.{Talk, Elsewhere, Took, Sends, Fails, GoesOn, HangsUp, fresh, given, sent_on};
ghost use Rattle.wd_http.specs.Least.{least};

use crate::bytes_list::BytesList;
use crate::call::Call;
use crate::entry::Entry;
use std::alloc::Global;
use std::marker::Model;
use wd_json::{Memory, WdBytes};

/// Connections in memory, one after another, on which no call fails. Contracts see what comes and
/// goes on them.
#[derive(Drop)]
pub(crate) struct Connections {
    alloc: Global,
    entries: Vec<Entry>,
    over: usize,
    is_open: bool,
    here: Entry,
    sent: BytesList,
    stray: WdBytes,
}

impl Model for Connections {
    ghost use Rattle.std.specs.Prelude.{◌≤◌, take, drop, length, map, if◌then◌else◌};
    ghost use Rattle.wd_http.specs.Talk.{Talk};
    ghost use Rattle.wd_http.specs.HeldConnection.{comes_on, next_of, whole, with_stray};
    ghost use Rattle.wd_http.specs.KeptConnections.{AreKept};

    ghost Value = { Talk };

    ghost view = { λ c. record {
      coming = map comes_on (drop (next_of c.over c.is_open) c.entries.items);
      is_open = c.is_open;
      here = with_stray c.is_open c.sent c.stray c.here;
      past = map (whole c.sent) (take c.over c.entries.items);
    } };

    ghost invariant = { λ c. AreKept c.over c.is_open c.entries.items c.here c.sent };
}

impl Connections {
    /// Those on which these bytes come; none stands. It takes no memory.
    pub(crate) fn new(alloc: Global, list: BytesList) -> Connections
        ensures { result ≡ record { coming = list; is_open = false; here = fresh []; past = [] } }
    {
        Connections {
            alloc,
            entries: list.into_entries(),
            over: 0,
            is_open: false,
            here: Entry::new(WdBytes::new(alloc)),
            sent: BytesList::new(alloc),
            stray: WdBytes::new(alloc),
        }
    }

    /// Whether there is a further one, which then stands.
    pub(crate) fn next(&mut self) -> bool
        ensures { GoesOn self.old self.new (Ok result) }
    {
        let next = if self.is_open {
            self.over + 1
        } else {
            self.over
        };
        if next >= self.entries.len() {
            return false;
        }
        self.hang_up();
        self.stand();
        true
    }

    /// Ends the one that stands, if one does.
    pub(crate) fn hang_up(&mut self)
        ensures { HangsUp self.old self.new }
    {
        let none = Entry::new(WdBytes::new(self.alloc));
        let here = std::mem::replace(&mut self.here, none);
        self.stray = WdBytes::new(self.alloc);
        if self.is_open {
            self.entries[self.over] = here;
            self.over += 1;
            self.is_open = false;
        }
    }

    /// Moves the least of `most`, the buffer and what is left.
    pub(crate) fn read(&mut self, into: &mut [u8], most: usize) -> usize
        ensures count { result ≡ least most (length into.new) (length self.old.here.left) }
        ensures elsewhere { Elsewhere self.old self.new }
        ensures took { Took self.old.here self.new.here (take result into.new) }
    {
        self.here.read(into, most)
    }

    /// Sends a piece; after `Memory` nothing of it.
    pub(crate) fn send(&mut self, piece: &[u8]) -> Result<(), Memory>
        ensures elsewhere { OnOk result (Elsewhere self.old self.new) }
        ensures sends { OnOk result (Sends self.old.here self.new.here piece.now) }
    {
        if !self.is_open {
            return self.stray.extend(piece);
        }
        if piece.is_empty() {
            return Ok(());
        }
        if let Some(place) = self.here.place() {
            self.sent.extend(place, piece)?;
            return Ok(());
        }
        let place = self.sent.len();
        self.sent.push(WdBytes::of(self.alloc, piece)?)?;
        self.here.put_at(place);
        Ok(())
    }

    /// Keeps that a call failed.
    pub(crate) fn fail(&mut self, call: Call)
        ensures elsewhere { Elsewhere self.old self.new }
        ensures fails { Fails self.old.here self.new.here call }
    {
        self.here.fail(call);
    }

    /// What was sent on those given so far, in order, without those on which nothing was.
    pub(crate) fn sent(&self) -> &BytesList
        ensures { result.now ≡ sent_on (given self.now) }
    {
        &self.sent
    }
}

impl Connections {
    ghost use Rattle.wd_http.specs.Talk.{Comes};

    /// The next one stands.
    fn stand(&mut self)
        requires closed { self.old.is_open ≡ false }
        requires more { 0 < length self.old.coming }
        ensures { Comes self.old self.new }
    {
        let none = Entry::new(WdBytes::new(self.alloc));
        let entry = std::mem::replace(&mut self.entries[self.over], none);
        self.here = Entry::new(entry.into_bytes());
        self.stray = WdBytes::new(self.alloc);
        self.is_open = true;
    }
}
