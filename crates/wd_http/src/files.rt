//! Files by their names, read and written, with the calls that failed counted.

ghost use Rattle.std.specs.Prelude.{◌≡◌, ◌≤◌, ℕ, List, Bool, IsTrue, IfOk, length};
ghost use Rattle.wd_http.specs.Causes.{HasReadCause, HasWriteCause};
ghost use Rattle.wd_http.specs.Files.{IsOneMore, ReadsFile, Takes, WritesFile};

use crate::fault::{FileFault, WriteFault};
use wd_json::WdBytes;

/// Files by their names. Those that tell show them as a list of names and bytes, in which the last
/// entry of a name counts. A call answers `Failed` exactly where it raised the count of faults, by
/// one; no other answer raises it.
pub trait Files {
    /// Whether they tell.
    ghost tells: { Bool };

    /// Each name, as its characters, with its bytes.
    ghost files: { Self → List (List ℕ × List ℕ) };

    /// How often a call has failed.
    ghost faults: { Self → ℕ };

    /// How many calls were made.
    ghost made: { Self → ℕ };

    /// How many bytes the last read took of its file.
    ghost took: { Self → ℕ };

    /// The bytes of the file of that name, of which there are at most `limit`. `TooLong` exactly
    /// where the file has more, which is by the bytes that were taken of it; `Failed` where there is
    /// none of that name, or the call failed. Reading changes no file.
    fn read(&mut self, name: &str, limit: u64) -> Result<WdBytes, FileFault>
        ensures bound { IfOk result (λ bytes. length bytes ≤ limit) }
        ensures takes { Takes (took self.new) limit result }
        ensures told { IsTrue tells → ReadsFile (files self.old) name.now limit result }
        ensures same { IsTrue tells → files self.new ≡ files self.old }
        ensures made { IsOneMore (made self.old) (made self.new) result }
        ensures cause { HasReadCause (faults self.old) (faults self.new) result };

    /// Writes a file of that name, in place of the one there was. After `Failed` the files are as
    /// they were.
    fn write(&mut self, name: &str, bytes: &WdBytes) -> Result<(), WriteFault>
        ensures told { IsTrue tells → WritesFile (files self.old) (files self.new) name.now bytes.now result }
        ensures cause { HasWriteCause (faults self.old) (faults self.new) result };
}
