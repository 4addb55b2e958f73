//! How many bytes a writer takes of a piece.

ghost use Rattle.std.specs.Prelude.{◌≡◌, ◌≢◌, ◌≤◌, [], IfOk, length, take};
ghost use Rattle.std.specs.Io.KnownBytes.{Appends};

use crate::system_fault::write_fault;
use std::io::Write;
use wd_http::WriteFault;

/// How many bytes the writer takes of a piece that isn't empty. That it takes none counts as failed.
pub(crate) fn taken<W: Write>(output: &mut W, bytes: &[u8]) -> Result<usize, WriteFault>
    requires { bytes.now ≢ [] }
    ensures bound { IfOk result (λ n. n ≤ length bytes.now) }
    ensures some { IfOk result (λ n. n ≢ 0) }
    ensures bytes { IfOk result (λ n. Appends (W.contents output.old) (W.contents output.new) (take n bytes.now)) }
{
    match output.write(bytes) {
        Ok(0) => Err(WriteFault::Failed),
        Ok(count) => Ok(count),
        Err(error) => Err(write_fault(&error)),
    }
}
