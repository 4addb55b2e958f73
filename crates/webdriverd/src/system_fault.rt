//! What an error of the system means: no memory, or a call that failed.

ghost use Rattle.std.specs.Prelude.{◌≡◌, ◌⊎◌, ◌↔◌, IsTrue};
ghost use Rattle.std.specs.IoError.{error_kind};

use std::io::{Error, ErrorKind};
use wd_http::{FileFault, WriteFault};

/// Whether the system had no memory for a call.
fn is_memory(error: &Error) -> bool
    ensures { IsTrue result ↔ (error_kind error.now ≡ ErrorKind.OutOfMemory) }
{
    matches!(error.kind(), ErrorKind::OutOfMemory)
}

/// Why a write didn't succeed.
pub(crate) fn write_fault(error: &Error) -> WriteFault
    ensures { (result ≡ WriteFault.Memory) ↔ (error_kind error.now ≡ ErrorKind.OutOfMemory) }
{
    if is_memory(error) {
        WriteFault::Memory
    } else {
        WriteFault::Failed
    }
}

/// Why a file was not read.
pub(crate) fn file_fault(error: &Error) -> FileFault
    ensures memory { (result ≡ FileFault.Memory) ↔ (error_kind error.now ≡ ErrorKind.OutOfMemory) }
    ensures other { (result ≡ FileFault.Memory) ⊎ (result ≡ FileFault.Failed) }
{
    if is_memory(error) {
        FileFault::Memory
    } else {
        FileFault::Failed
    }
}
