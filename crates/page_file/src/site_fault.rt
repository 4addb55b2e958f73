//! Why files give no site, and the line that tells it.

ghost use Rattle.std.specs.Prelude.{◌≡◌, Some};
ghost use Rattle.page_file.specs.declared.site_fault.SiteFault.TheVariants.{Memory as OutOfMemory};
ghost use Rattle.page_file.specs.FaultTexts.{fault_text};

use crate::why::Why;
use std::alloc::{AllocError, AllocFailed};
use std::error::Error;
use std::fmt;
use wd_json::{Memory, WdText};

/// Why the files give no site: one variant a cause. The name is always that of the file at hand.
#[derive(Debug, Drop)]
pub enum SiteFault {
    /// The file couldn't be read.
    Read(WdText),
    /// The file has more than 8,388,608 bytes, or with those that were read before it more than
    /// 33,554,432.
    TooLong(WdText),
    /// The first thing that is wrong with the file, and its place in the list at hand, counted from
    /// 0; 0 where there is no list.
    Bad { name: WdText, row: u32, why: Why },
    /// The file's page leads to an address that is neither a page's nor `about:blank`.
    Links(WdText),
    /// There was no memory.
    Memory,
}

impl fmt::Display for SiteFault {
    ghost output = { λ fault. Some (fault_text fault) };

    fn fmt<W: fmt::Write>(&self, f: &mut fmt::Formatter<W>) -> fmt::Result {
        match self {
            SiteFault::Read(_) => write!(f, "file fault"),
            SiteFault::TooLong(name) => {
                let name = name.as_str();
                write!(f, "{name}: too long")
            }
            SiteFault::Bad { name, row, why } => {
                let name = name.as_str();
                write!(f, "{name}: row {row}: {why}")
            }
            SiteFault::Links(name) => {
                let name = name.as_str();
                write!(f, "{name}: links")
            }
            SiteFault::Memory => write!(f, "out of memory"),
        }
    }
}

impl Error for SiteFault {}

impl From<Memory> for SiteFault {
    ghost from_gives = { λ _ fault. fault ≡ OutOfMemory };

    fn from(_error: Memory) -> SiteFault {
        SiteFault::Memory
    }
}

impl From<AllocError> for SiteFault {
    ghost from_gives = { λ _ fault. fault ≡ OutOfMemory };

    fn from(_error: AllocError) -> SiteFault {
        SiteFault::Memory
    }
}

impl<T: Drop> From<AllocFailed<T>> for SiteFault {
    ghost from_gives = { λ _ fault. fault ≡ OutOfMemory };

    fn from(_error: AllocFailed<T>) -> SiteFault {
        SiteFault::Memory
    }
}
