//! Whole requests, or a bad head, out of bytes that come in pieces.

ghost use Rattle.std.specs.Prelude.{◌≡◌, ◌++◌, [], Ok, IfOk, OnOk, None, Some, is_err, false};
ghost use Rattle.wd_http.specs.Stream.{Stream, Framed};
ghost use Rattle.wd_http.specs.declared.framer.Next.TheVariants.{Bad as BadNext};

use crate::front::{Front, Waiting, front_of, waits};
use crate::mark::Mark;
use crate::request::{BadHead, Request};
use std::alloc::Global;
use std::marker::Model;
use wd_json::Memory;

/// What stands in front of the unread bytes.
#[derive(Debug, Drop)]
pub enum Next {
    /// A whole request, which was taken.
    Request(Request),
    /// Neither a whole request nor a bad head.
    More,
    /// A bad head.
    Bad(BadHead),
}

/// Requests out of bytes that come in pieces. It stands for the bytes that were fed and not taken
/// yet, the bad head that was answered, if one was, and whether it is spent. Each byte is searched
/// for the end of a head once, and once more in the piece in which the head ends; each head is read
/// once, and a byte is copied a bounded number of times on average.
#[derive(Drop)]
pub struct Framer {
    alloc: Global,
    buffer: Vec<u8>,
    start: usize,
    seen: usize,
    mark: Mark,
    head: Option<Waiting>,
    bad: Option<BadHead>,
    spent: bool,
}

impl Model for Framer {
    ghost use Rattle.std.specs.Prelude.{◌≡◌, ◌≤◌, drop, vec_len};
    ghost use Rattle.wd_http.specs.Stream.{Stream, BadIs};
    ghost use Rattle.wd_http.specs.SearchedHead.{IsSeen};
    ghost use Rattle.wd_http.specs.Known.{HeadIsKnown};

    ghost Value = { Stream };

    ghost view = { λ f. record {
      unread = drop f.start f.buffer.items;
      bad = f.bad;
      spent = f.spent;
    } };

    ghost invariant = { λ f. (f.start ≤ vec_len f.buffer)
        × BadIs (drop f.start f.buffer.items) f.bad
        × IsSeen (drop f.start f.buffer.items) f.seen f.mark
        × HeadIsKnown (drop f.start f.buffer.items) f.head };
}

impl Framer {
    /// A framer that was fed nothing. It takes no memory.
    pub fn new(alloc: Global) -> Framer
        ensures { result ≡ record { unread = []; bad = None; spent = false } }
    {
        Framer {
            alloc,
            buffer: Vec::new(alloc),
            start: 0,
            seen: 0,
            mark: Mark::Blank,
            head: None,
            bad: None,
            spent: false,
        }
    }

    /// Adds a piece behind the unread bytes. After a bad head it does nothing. After `Memory` the
    /// framer is spent.
    pub fn feed(&mut self, piece: &[u8]) -> Result<(), Memory>
        requires { self.old.spent ≡ false }
        ensures fed { OnOk result (self.old.bad ≡ None
            → self.new ≡ record self.old { unread = self.old.unread ++ piece.now }) }
        ensures bad { (kind : _) → self.old.bad ≡ Some kind → self.new ≡ self.old }
        ensures spent { self.new.spent ≡ is_err result }
    {
        let fed = self.add(piece);
        self.spent = fed.is_err();
        fed
    }

    /// Takes the request in front, if a whole one stands there. `More` comes exactly where neither
    /// a whole request nor a bad head stands there, and nothing is taken; then fewer bytes than
    /// the longest request has are unread. `Bad` comes exactly where a bad head stands there, and
    /// from then on each call answers the same. After `Memory` the framer is spent.
    pub fn next(&mut self) -> Result<Next, Memory>
        requires { self.old.spent ≡ false }
        ensures framed { IfOk result (Framed self.old self.new) }
        ensures again { (kind : _) → self.old.bad ≡ Some kind
            → (result ≡ Ok (BadNext kind)) × (self.new ≡ self.old) }
        ensures spent { self.new.spent ≡ is_err result }
    {
        let next = self.take();
        self.spent = next.is_err();
        next
    }

    /// Whether a call wanted memory that wasn't there. No call but this one may follow.
    pub fn spent(&self) -> bool
        ensures { result ≡ self.now.spent }
    {
        self.spent
    }

    /// Adds a piece, after room was made.
    fn add(&mut self, piece: &[u8]) -> Result<(), Memory>
        ensures fed { OnOk result (self.old.bad ≡ None
            → self.new ≡ record self.old { unread = self.old.unread ++ piece.now }) }
        ensures bad { (kind : _) → self.old.bad ≡ Some kind
            → (is_err result ≡ false) × (self.new ≡ self.old) }
    {
        if self.bad.is_none() {
            self.compact()?;
            self.buffer.extend_from_slice(piece)?;
        }
        Ok(())
    }

    /// Drops the bytes that were taken, once they are more than those that were not.
    fn compact(&mut self) -> Result<(), Memory>
        ensures { self.new ≡ self.old }
    {
        if self.start > self.buffer.len() - self.start {
            self.buffer = Vec::from_slice(self.alloc, &self.buffer[self.start..])?;
            self.start = 0;
        }
        Ok(())
    }

    /// Takes what stands in front.
    fn take(&mut self) -> Result<Next, Memory>
        requires { self.old.spent ≡ false }
        ensures framed { IfOk result (Framed self.old self.new) }
        ensures again { (kind : _) → self.old.bad ≡ Some kind
            → (result ≡ Ok (BadNext kind)) × (self.new ≡ self.old) }
    {
        if let Some(kind) = self.bad {
            return Ok(Next::Bad(kind));
        }
        if self.head.is_none() {
            let unread = &self.buffer[self.start..];
            if let Some((seen, mark)) = waits(unread, self.seen, self.mark) {
                self.seen = seen;
                self.mark = mark;
                return Ok(Next::More);
            }
        }
        let head = self.head.take();
        match front_of(
            self.alloc,
            &self.buffer[self.start..],
            self.seen,
            self.mark,
            head,
        )? {
            Front::More(seen, mark) => {
                self.seen = seen;
                self.mark = mark;
                Ok(Next::More)
            }
            Front::Body(waiting) => {
                self.head = Some(waiting);
                Ok(Next::More)
            }
            Front::Bad(kind) => {
                self.bad = Some(kind);
                Ok(Next::Bad(kind))
            }
            Front::Whole(request, len) => {
                self.start += len;
                self.seen = 0;
                self.mark = Mark::Blank;
                Ok(Next::Request(request))
            }
        }
    }
}
