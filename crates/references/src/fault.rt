//! Why no reference was handed out.

ghost use Rattle.std.specs.Prelude.{◌≡◌};
ghost use Rattle.references.specs.declared.fault.IdFault.TheVariants.{Full as NoSerial, Memory as OutOfMemory};

use crate::ids::Full;
use std::alloc::{AllocError, AllocFailed};
use std::error::Error;
use std::fmt;
use wd_json::Memory;

/// Why no reference was handed out: one variant a cause.
#[derive(Clone, Copy, Debug, PartialEq, Eq)]
pub enum IdFault {
    /// Fewer serials are left than are wanted.
    Full,
    /// There was no memory.
    Memory,
}

impl fmt::Display for IdFault {
    fn fmt<W: fmt::Write>(&self, f: &mut fmt::Formatter<W>) -> fmt::Result {
        match self {
            IdFault::Full => write!(f, "no serial is left"),
            IdFault::Memory => write!(f, "out of memory"),
        }
    }
}

impl Error for IdFault {}

impl From<Full> for IdFault {
    ghost from_gives = { λ _ fault. fault ≡ NoSerial };

    fn from(_error: Full) -> IdFault {
        IdFault::Full
    }
}

impl From<Memory> for IdFault {
    ghost from_gives = { λ _ fault. fault ≡ OutOfMemory };

    fn from(_error: Memory) -> IdFault {
        IdFault::Memory
    }
}

impl From<AllocError> for IdFault {
    ghost from_gives = { λ _ fault. fault ≡ OutOfMemory };

    fn from(_error: AllocError) -> IdFault {
        IdFault::Memory
    }
}

impl<T: Drop> From<AllocFailed<T>> for IdFault {
    ghost from_gives = { λ _ fault. fault ≡ OutOfMemory };

    fn from(_error: AllocFailed<T>) -> IdFault {
        IdFault::Memory
    }
}
