//! A list of bytes that keeps its allocator.

ghost use Rattle.std.specs.Prelude.{◌≡◌, [], ◌∷◌, ◌++◌, ◌<◌, Some, length, slice_get, IfOk, OnOk, OnErr, ◌↔◌, IsTrue};

use crate::memory::Memory;
use std::alloc::Global;
use std::marker::Model;

/// A list of bytes. It keeps its allocator, so what grows it takes none.
#[derive(Debug, Drop)]
pub struct WdBytes {
    bytes: Vec<u8>,
}

impl Model for WdBytes {
    ghost use Rattle.std.specs.Prelude.{ℕ, List};

    ghost Value = { List ℕ };

    ghost view = { λ b. b.bytes.items };
}

impl WdBytes {
    /// No bytes. It takes no memory.
    pub fn new(alloc: Global) -> WdBytes
        ensures { result ≡ [] }
    {
        WdBytes {
            bytes: Vec::new(alloc),
        }
    }

    /// A copy of these bytes. `Memory` where there is no memory for it.
    pub fn of(alloc: Global, bytes: &[u8]) -> Result<WdBytes, Memory>
        ensures { IfOk result (λ b. b ≡ bytes.now) }
    {
        Ok(WdBytes {
            bytes: Vec::from_slice(alloc, bytes)?,
        })
    }

    /// The bytes of a `Vec`, which is moved in. It takes no memory.
    pub fn from_vec(bytes: Vec<u8>) -> WdBytes
        ensures { result ≡ bytes.items }
    {
        WdBytes { bytes }
    }

    /// How many bytes there are.
    pub fn len(&self) -> usize
        ensures { result ≡ length self.now }
    {
        self.bytes.len()
    }

    /// The byte at place `i`, counted from 0.
    pub fn at(&self, i: usize) -> u8
        requires { i < length self.now }
        ensures { slice_get self.now i ≡ Some result }
    {
        self.bytes[i]
    }

    /// The bytes in order.
    pub fn as_slice(&self) -> &[u8]
        ensures { result.now ≡ self.now }
    {
        self.bytes.as_slice()
    }

    /// Whether they are those bytes.
    pub fn is(&self, bytes: &[u8]) -> bool
        ensures { IsTrue result ↔ (self.now ≡ bytes.now) }
    {
        self.bytes.as_slice() == bytes
    }

    /// Adds bytes at the end. After `Memory` these are as they were.
    pub fn extend(&mut self, bytes: &[u8]) -> Result<(), Memory>
        ensures ok { OnOk result (self.new ≡ self.old ++ bytes.now) }
        ensures err { OnErr result (self.new ≡ self.old) }
    {
        self.bytes.extend_from_slice(bytes)?;
        Ok(())
    }

    /// Adds a byte at the end. After `Memory` the bytes are as they were.
    pub fn push(&mut self, byte: u8) -> Result<(), Memory>
        ensures ok { OnOk result (self.new ≡ self.old ++ byte ∷ []) }
        ensures err { OnErr result (self.new ≡ self.old) }
    {
        self.bytes.push(byte)?;
        Ok(())
    }
}
