//! Why a value gives no page.

ghost use Rattle.std.specs.Prelude.{◌≡◌};
ghost use Rattle.page_file.specs.declared.page_fault.PageFault.TheVariants.{Memory as OutOfMemory};

use crate::why::Why;
use std::alloc::{AllocError, AllocFailed};
use std::error::Error;
use std::fmt;
use wd_json::Memory;

/// Why a value gives no page.
#[derive(Clone, Copy, Debug, PartialEq, Eq)]
pub enum PageFault {
    /// The first thing that is wrong with it, and its place in the list at hand, counted from 0;
    /// 0 where there is no list.
    Bad { row: u32, why: Why },
    /// There was no memory.
    Memory,
}

impl fmt::Display for PageFault {
    fn fmt<W: fmt::Write>(&self, f: &mut fmt::Formatter<W>) -> fmt::Result {
        match self {
            PageFault::Bad { row, why } => write!(f, "{why} at {row}"),
            PageFault::Memory => write!(f, "out of memory"),
        }
    }
}

impl Error for PageFault {}

impl From<Memory> for PageFault {
    ghost from_gives = { λ _ fault. fault ≡ OutOfMemory };

    fn from(_error: Memory) -> PageFault {
        PageFault::Memory
    }
}

impl From<AllocError> for PageFault {
    ghost from_gives = { λ _ fault. fault ≡ OutOfMemory };

    fn from(_error: AllocError) -> PageFault {
        PageFault::Memory
    }
}

impl<T: Drop> From<AllocFailed<T>> for PageFault {
    ghost from_gives = { λ _ fault. fault ≡ OutOfMemory };

    fn from(_error: AllocFailed<T>) -> PageFault {
        PageFault::Memory
    }
}
