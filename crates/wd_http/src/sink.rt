//! Where text is written, with the writes that failed counted.

ghost use Rattle.std.specs.Prelude.{◌≡◌, ◌≤◌, ℕ, List, Bool, [], IsTrue, IfOk, length};
ghost use Rattle.wd_http.specs.Causes.{HasWriteCause};
ghost use Rattle.wd_http.specs.Written.{TakesBytes};

use crate::fault::WriteFault;

/// Where text is written to. A call answers `Failed` exactly where it raised the count of faults, by
/// one; no other answer raises it.
pub trait Sink {
    /// Whether it tells what was written.
    ghost tells: { Bool };

    /// The bytes that writes took.
    ghost written: { Self → List ℕ };

    /// How often a call has failed.
    ghost faults: { Self → ℕ };

    /// Writes, and answers how many bytes it took of the front of the piece: at least one of a
    /// piece that isn't empty.
    fn write(&mut self, bytes: &[u8]) -> Result<usize, WriteFault>
        ensures bound { IfOk result (λ n. n ≤ length bytes.now) }
        ensures some { IfOk result (λ n. n ≡ 0 → bytes.now ≡ []) }
        ensures told { IsTrue tells → TakesBytes (written self.old) (written self.new) bytes.now result }
        ensures cause { HasWriteCause (faults self.old) (faults self.new) result };
}
