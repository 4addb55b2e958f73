//! A line in memory, of which some calls fail and the others move a limited number of bytes.

ghost use Rattle.std.specs.Prelude.{◌≡◌, ◌≤◌, ◌<◌, [], true, IfOk, length};
ghost use Rattle.wd_http.specs.Causes.{HasCause, HasWriteCause};
ghost use Rattle.wd_http.specs.Talk.{GoesOn, Reads, Writes, HangsUp, given, sent_on};
ghost use Rattle.wd_http.specs.LineState.{told_of, Refuses, ReadsLeast, WritesLeast};

use crate::bytes_list::BytesList;
use crate::call::Call;
use crate::call_count::CallCount;
use crate::connections::Connections;
use crate::fault::{Failed, WriteFault};
use crate::line::Line;
use crate::lists::CallList;
use std::alloc::Global;
use std::marker::Model;

/// A line in memory. Its calls of `open`, `next`, `read` and `write` are numbered together from 1,
/// and those whose numbers stand in a list fail. A read or a write moves at most a number of bytes.
/// Contracts see what comes and goes on it, its calls and that number.
#[derive(Drop)]
pub struct MemoryLine {
    connections: Connections,
    calls: CallCount,
    most: usize,
    refusals: u64,
}

impl Model for MemoryLine {
    ghost use Rattle.std.specs.Prelude.{◌<◌, ◌≤◌};
    ghost use Rattle.wd_http.specs.LineState.{LineState};

    ghost Value = { LineState };

    ghost view = { λ m. record { talk = m.connections; calls = m.calls; most = m.most; refusals = m.refusals } };

    ghost invariant = { λ m. (0 < m.most) × (m.refusals ≤ m.calls.faults) };
}

impl MemoryLine {
    /// A line on which these connections come: the calls whose numbers stand in `fails` fail, and a
    /// read or a write moves at most `most` bytes, which is at least 1. It takes no memory.
    pub fn new(alloc: Global, connections: BytesList, fails: CallList, most: usize) -> MemoryLine
        requires { 0 < most }
        ensures { result ≡ told_of connections fails most }
    {
        MemoryLine {
            connections: Connections::new(alloc, connections),
            calls: CallCount::new(fails),
            most,
            refusals: 0,
        }
    }

    /// The bytes that writes took: one entry for each connection on which a write took a byte, in
    /// order, the one that stands among them.
    pub fn sent(&self) -> &BytesList
        ensures { result.now ≡ sent_on (given self.now.talk) }
    {
        self.connections.sent()
    }

    /// Counts a call of `open` or `next`.
    fn refuses(&mut self) -> Result<(), Failed>
        ensures exact { Refuses self.old self.new result }
        ensures talk { self.new.talk ≡ self.old.talk }
        ensures cause { HasCause self.old.calls.faults self.new.calls.faults result }
        ensures refusal { HasCause self.old.refusals self.new.refusals result }
    {
        if self.calls.fails() {
            self.refusals += 1;
            return Err(Failed);
        }
        Ok(())
    }
}

impl Line for MemoryLine {
    ghost tells = { true };

    ghost talk = { λ m. m.talk };

    ghost faults = { λ m. m.calls.faults };

    ghost refusals = { λ m. m.refusals };

    ghost makes = { λ _ _ _. Unit {0} };

    /// Does nothing, and fails exactly where the number of the call stands in the list.
    fn open(&mut self, _port: u16) -> Result<(), Failed>
        ensures told { self.new.talk ≡ self.old.talk }
        ensures cause { HasCause self.old.calls.faults self.new.calls.faults result }
        ensures refusal { HasCause self.old.refusals self.new.refusals result }
        ensures exact { Refuses self.old self.new result }
    {
        self.refuses()
    }

    /// The next connection stands, if there is one. It fails exactly where the number of the call
    /// stands in the list.
    fn next(&mut self) -> Result<bool, Failed>
        ensures told { GoesOn self.old.talk self.new.talk result }
        ensures cause { HasCause self.old.calls.faults self.new.calls.faults result }
        ensures refusal { HasCause self.old.refusals self.new.refusals result }
        ensures exact { Refuses self.old self.new result }
    {
        self.refuses()?;
        Ok(self.connections.next())
    }

    /// Moves the least of `most`, the length of the buffer and what is left, and fails exactly
    /// where the number of the call stands in the list.
    fn read(&mut self, into: &mut [u8]) -> Result<usize, Failed>
        ensures bound { IfOk result (λ n. n ≤ length into.new) }
        ensures told { Reads self.old.talk self.new.talk into.new result }
        ensures cause { HasCause self.old.calls.faults self.new.calls.faults result }
        ensures refusal { self.new.refusals ≡ self.old.refusals }
        ensures exact { ReadsLeast self.old self.new into.new result }
    {
        if self.calls.fails() {
            self.connections.fail(Call::Read);
            return Err(Failed);
        }
        Ok(self.connections.read(into, self.most))
    }

    /// Takes the least of `most` and the length of the piece, and fails exactly where the number
    /// of the call stands in the list. After `Memory` a part of the piece may have been sent.
    fn write(&mut self, bytes: &[u8]) -> Result<usize, WriteFault>
        ensures bound { IfOk result (λ n. n ≤ length bytes.now) }
        ensures some { IfOk result (λ n. n ≡ 0 → bytes.now ≡ []) }
        ensures told { Writes self.old.talk self.new.talk bytes.now result }
        ensures cause { HasWriteCause self.old.calls.faults self.new.calls.faults result }
        ensures refusal { self.new.refusals ≡ self.old.refusals }
        ensures exact { WritesLeast self.old self.new bytes.now result }
    {
        if self.calls.fails() {
            self.connections.fail(Call::Write);
            return Err(WriteFault::Failed);
        }
        let taken = bytes.len().min(self.most);
        self.connections.send(&bytes[..taken])?;
        Ok(taken)
    }

    fn hang_up(&mut self)
        ensures told { HangsUp self.old.talk self.new.talk }
        ensures faults { self.new.calls.faults ≡ self.old.calls.faults }
        ensures refusal { self.new.refusals ≡ self.old.refusals }
        ensures calls { self.new.calls ≡ self.old.calls }
        ensures most { self.new.most ≡ self.old.most }
    {
        self.connections.hang_up();
    }
}
