//! A line of one connection whose bytes come in two parts.

ghost use Rattle.std.specs.Prelude.{◌≡◌, ◌≤◌, [], false, IsTrue, IfOk, length};
ghost use Rattle.wd_http.specs.Causes.{HasCause, HasWriteCause};
ghost use Rattle.wd_http.specs.Talk.{GoesOn, Reads, Writes, HangsUp};
ghost use Rattle.webdriverd.specs.Silent.{silent};

use std::alloc::Global;
use wd_http::{Failed, Line, WriteFault};

/// A line of one connection whose bytes come in two parts: no read gives bytes of both. Reads and writes move at most
/// `most` bytes.
#[derive(Drop)]
pub struct CutLine {
    bytes: Vec<u8>,
    cut: usize,
    most: usize,
    read: usize,
    came: bool,
    sent: Vec<u8>,
}

impl CutLine {
    pub fn new(alloc: Global, bytes: Vec<u8>, cut: usize, most: usize) -> CutLine {
        CutLine {
            bytes,
            cut,
            most,
            read: 0,
            came: false,
            sent: Vec::new(alloc),
        }
    }

    /// What was sent.
    pub fn sent(&self) -> &[u8] {
        self.sent.as_slice()
    }

    /// The bytes that the next read may give.
    fn coming(&self) -> &[u8] {
        let part = if self.read < self.cut {
            self.cut
        } else {
            self.bytes.len()
        };
        let end = self.read.saturating_add(self.most).min(part);
        self.bytes.get(self.read..end).unwrap_or(&[])
    }
}

impl Line for CutLine {
    ghost tells = { false };

    ghost talk = { λ _. silent };

    ghost faults = { λ _. 0 };

    ghost refusals = { λ _. 0 };

    ghost makes = { λ _ _ _. Unit {0} };

    fn open(&mut self, _port: u16) -> Result<(), Failed>
        ensures cause { HasCause 0 0 result }
        ensures refusal { HasCause 0 0 result }
    {
        Ok(())
    }

    fn next(&mut self) -> Result<bool, Failed>
        ensures told { IsTrue false → GoesOn silent silent result }
        ensures cause { HasCause 0 0 result }
        ensures refusal { HasCause 0 0 result }
    {
        let first = !self.came;
        self.came = true;
        Ok(first)
    }

    fn read(&mut self, into: &mut [u8]) -> Result<usize, Failed>
        ensures bound { IfOk result (λ n. n ≤ length into.new) }
        ensures told { IsTrue false → Reads silent silent into.new result }
        ensures cause { HasCause 0 0 result }
    {
        let piece = self.coming();
        let count = piece.len().min(into.len());
        for (slot, byte) in into.iter_mut().zip(piece) {
            *slot = *byte;
        }
        self.read = self.read.saturating_add(count);
        Ok(count)
    }

    fn write(&mut self, bytes: &[u8]) -> Result<usize, WriteFault>
        ensures bound { IfOk result (λ n. n ≤ length bytes.now) }
        ensures some { IfOk result (λ n. n ≡ 0 → bytes.now ≡ []) }
        ensures told { IsTrue false → Writes silent silent bytes.now result }
        ensures cause { HasWriteCause 0 0 result }
    {
        let count = self.most.max(1).min(bytes.len());
        match self.sent.extend_from_slice(&bytes[..count]) {
            Ok(()) => Ok(count),
            Err(_) => Err(WriteFault::Memory),
        }
    }

    fn hang_up(&mut self)
        ensures told { IsTrue false → HangsUp silent silent }
    {}
}
