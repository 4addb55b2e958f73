//! Connections that come one after another, read and written, with the calls that failed counted.

ghost use Rattle.std.specs.Prelude.{◌≡◌, ◌≤◌, ℕ, Bool, IsTrue, IfOk, [], length};
ghost use Rattle.wd_http.specs.Talk.{Talk, GoesOn, Reads, Writes, HangsUp};
ghost use Rattle.wd_http.specs.Causes.{HasCause, HasWriteCause};
ghost use Rattle.wd_http.specs.Made.{LineCall, Opens, Asks, Takes, Hands, HangsUp as HangsUpCall};

use crate::fault::{Failed, WriteFault};

/// Connections that come one after another. A line that tells shows in its talk what comes and
/// goes, and each call says how the talk changes. A call answers `Failed` exactly where it raised the
/// count of faults, by one; no other answer raises it.
pub trait Line {
    /// Whether it tells what comes and goes.
    ghost tells: { Bool };

    /// What came and went, and what is to come.
    ghost talk: { Self → Talk };

    /// How often a call has failed.
    ghost faults: { Self → ℕ };

    /// How often `open` or `next` has failed.
    ghost refusals: { Self → ℕ };

    /// From this line, a call may lead to that line. So what a body calls is told of it, over every line.
    ghost makes: { Self → LineCall → Self → Type 0 };

    /// Listens at the port. What comes and goes stays as it is.
    fn open(&mut self, port: u16) -> Result<(), Failed>
        ensures told { IsTrue tells → talk self.new ≡ talk self.old }
        ensures cause { HasCause (faults self.old) (faults self.new) result }
        ensures refusal { HasCause (refusals self.old) (refusals self.new) result }
        ensures made { makes self.old (Opens port) self.new };

    /// Whether there is a further connection, which then stands; the one that stood is over. At
    /// `false` and after `Failed` all is as it was.
    fn next(&mut self) -> Result<bool, Failed>
        ensures told { IsTrue tells → GoesOn (talk self.old) (talk self.new) result }
        ensures cause { HasCause (faults self.old) (faults self.new) result }
        ensures refusal { HasCause (refusals self.old) (refusals self.new) result }
        ensures made { makes self.old Asks self.new };

    /// Reads from the connection that stands into the front of the buffer, and answers how many
    /// bytes. At a buffer that isn't empty 0 is the end.
    fn read(&mut self, into: &mut [u8]) -> Result<usize, Failed>
        ensures bound { IfOk result (λ n. n ≤ length into.new) }
        ensures told { IsTrue tells → Reads (talk self.old) (talk self.new) into.new result }
        ensures cause { HasCause (faults self.old) (faults self.new) result }
        ensures refusal { refusals self.new ≡ refusals self.old }
        ensures made { makes self.old Takes self.new };

    /// Writes to the connection that stands, and answers how many bytes it took of the front of
    /// the piece: at least one of a piece that isn't empty.
    fn write(&mut self, bytes: &[u8]) -> Result<usize, WriteFault>
        ensures bound { IfOk result (λ n. n ≤ length bytes.now) }
        ensures some { IfOk result (λ n. n ≡ 0 → bytes.now ≡ []) }
        ensures told { IsTrue tells → Writes (talk self.old) (talk self.new) bytes.now result }
        ensures cause { HasWriteCause (faults self.old) (faults self.new) result }
        ensures refusal { refusals self.new ≡ refusals self.old }
        ensures made { makes self.old (Hands bytes.now) self.new };

    /// Ends the connection that stands, if one does.
    fn hang_up(&mut self)
        ensures told { IsTrue tells → HangsUp (talk self.old) (talk self.new) }
        ensures faults { faults self.new ≡ faults self.old }
        ensures refusal { refusals self.new ≡ refusals self.old }
        ensures made { makes self.old HangsUpCall self.new };
}
