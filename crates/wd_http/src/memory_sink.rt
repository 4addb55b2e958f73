//! A sink in memory, of which some writes fail.

ghost use Rattle.std.specs.Prelude.{◌≡◌, ◌≤◌, ◌<◌, List, ℕ, [], true, IsTrue, IfOk, length};
ghost use Rattle.wd_http.specs.Causes.{HasWriteCause};
ghost use Rattle.wd_http.specs.Written.{TakesBytes};
ghost use Rattle.wd_http.specs.SinkState.{SinkState, sunk_of, TakesLeast};

use crate::call_count::CallCount;
use crate::fault::WriteFault;
use crate::lists::CallList;
use crate::sink::Sink;
use std::alloc::Global;
use std::marker::Model;
use wd_json::WdBytes;

/// A sink in memory. Its writes are numbered from 1, and those whose numbers stand in a list fail.
/// Any other takes the least of a number and the length of its piece.
#[derive(Debug, Drop)]
pub struct MemorySink {
    bytes: WdBytes,
    calls: CallCount,
    most: usize,
}

impl Model for MemorySink {
    ghost use Rattle.std.specs.Prelude.{◌<◌};
    ghost use Rattle.wd_http.specs.SinkState.{SinkState};

    ghost Value = { SinkState };

    ghost view = { λ m. record { written = m.bytes; calls = m.calls; most = m.most } };

    ghost invariant = { λ m. 0 < m.most };
}

impl MemorySink {
    /// An empty sink: the writes whose numbers stand in `fails` fail, and a write takes at most
    /// `most` bytes, which is at least 1. It takes no memory.
    pub fn new(alloc: Global, fails: CallList, most: usize) -> MemorySink
        requires { 0 < most }
        ensures { result ≡ sunk_of fails most }
    {
        MemorySink {
            bytes: WdBytes::new(alloc),
            calls: CallCount::new(fails),
            most,
        }
    }

    /// The bytes that writes took.
    pub fn written(&self) -> &WdBytes
        ensures { result.now ≡ self.now.written }
    {
        &self.bytes
    }
}

impl Sink for MemorySink {
    ghost tells = { true };

    ghost written = { λ m. m.written };

    ghost faults = { λ m. m.calls.faults };

    /// Takes the least of `most` and the length of the piece, and fails exactly where the number
    /// of the call stands in the list.
    fn write(&mut self, bytes: &[u8]) -> Result<usize, WriteFault>
        ensures bound { IfOk result (λ n. n ≤ length bytes.now) }
        ensures some { IfOk result (λ n. n ≡ 0 → bytes.now ≡ []) }
        ensures told { TakesBytes self.old.written self.new.written bytes.now result }
        ensures cause { HasWriteCause self.old.calls.faults self.new.calls.faults result }
        ensures exact { TakesLeast self.old self.new bytes.now result }
    {
        if self.calls.fails() {
            return Err(WriteFault::Failed);
        }
        let taken = bytes.len().min(self.most);
        self.bytes.extend(&bytes[..taken])?;
        Ok(taken)
    }
}
