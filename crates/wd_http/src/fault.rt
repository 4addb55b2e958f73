//! Why a call on the outside failed: of a line, of a write, of a read of a file.

ghost use Rattle.std.specs.Prelude.{◌≡◌};
ghost use Rattle.wd_http.specs.declared.fault.WriteFault.TheVariants.{Memory as write_memory};
ghost use Rattle.wd_http.specs.declared.fault.FileFault.TheVariants.{Memory as file_memory};

use std::alloc::{AllocError, AllocFailed};
use std::error::Error;
use std::fmt;
use wd_json::Memory;

/// A call on the outside failed.
#[derive(Clone, Copy, Debug, PartialEq, Eq)]
pub struct Failed;

impl fmt::Display for Failed {
    fn fmt<W: fmt::Write>(&self, f: &mut fmt::Formatter<W>) -> fmt::Result {
        write!(f, "a call on the outside failed")
    }
}

impl Error for Failed {}

/// Why a write took nothing: one variant a cause.
#[derive(Clone, Copy, Debug, PartialEq, Eq)]
pub enum WriteFault {
    /// The call failed.
    Failed,
    /// There was no memory.
    Memory,
}

impl fmt::Display for WriteFault {
    fn fmt<W: fmt::Write>(&self, f: &mut fmt::Formatter<W>) -> fmt::Result {
        match self {
            WriteFault::Failed => write!(f, "a write failed"),
            WriteFault::Memory => write!(f, "out of memory"),
        }
    }
}

impl Error for WriteFault {}

impl From<Memory> for WriteFault {
    ghost from_gives = { λ _ fault. fault ≡ write_memory };

    fn from(_error: Memory) -> WriteFault {
        WriteFault::Memory
    }
}

impl From<AllocError> for WriteFault {
    ghost from_gives = { λ _ fault. fault ≡ write_memory };

    fn from(_error: AllocError) -> WriteFault {
        WriteFault::Memory
    }
}

impl<T: Drop> From<AllocFailed<T>> for WriteFault {
    ghost from_gives = { λ _ fault. fault ≡ write_memory };

    fn from(_error: AllocFailed<T>) -> WriteFault {
        WriteFault::Memory
    }
}

/// Why a file wasn't read: one variant a cause.
#[derive(Clone, Copy, Debug, PartialEq, Eq)]
pub enum FileFault {
    /// The call failed, or there is no file of that name.
    Failed,
    /// The file is longer than the limit.
    TooLong,
    /// There was no memory.
    Memory,
}

impl fmt::Display for FileFault {
    fn fmt<W: fmt::Write>(&self, f: &mut fmt::Formatter<W>) -> fmt::Result {
        match self {
            FileFault::Failed => write!(f, "a read failed"),
            FileFault::TooLong => write!(f, "the file is too long"),
            FileFault::Memory => write!(f, "out of memory"),
        }
    }
}

impl Error for FileFault {}

impl From<Memory> for FileFault {
    ghost from_gives = { λ _ fault. fault ≡ file_memory };

    fn from(_error: Memory) -> FileFault {
        FileFault::Memory
    }
}

impl From<AllocError> for FileFault {
    ghost from_gives = { λ _ fault. fault ≡ file_memory };

    fn from(_error: AllocError) -> FileFault {
        FileFault::Memory
    }
}

impl<T: Drop> From<AllocFailed<T>> for FileFault {
    ghost from_gives = { λ _ fault. fault ≡ file_memory };

    fn from(_error: AllocFailed<T>) -> FileFault {
        FileFault::Memory
    }
}
