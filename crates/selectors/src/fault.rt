ghost use Rattle.std.specs.Prelude.{◌≡◌};
ghost use Rattle.selectors.specs.declared.fault.SelFault.TheVariants.{Memory as OutOfMemory};

use std::error::Error;
use std::fmt;
use wd_json::Memory;

/// Why a text gives no selector: one variant a cause.
#[derive(Clone, Copy, Debug, PartialEq, Eq)]
pub enum SelFault {
    /// The grammar has no selector for it.
    Invalid,
    /// There was no memory.
    Memory,
}

impl fmt::Display for SelFault {
    fn fmt<W: fmt::Write>(&self, f: &mut fmt::Formatter<W>) -> fmt::Result {
        match self {
            SelFault::Invalid => write!(f, "not a selector"),
            SelFault::Memory => write!(f, "out of memory"),
        }
    }
}

impl Error for SelFault {}

impl From<Memory> for SelFault {
    ghost from_gives = { λ _ fault. fault ≡ OutOfMemory };

    fn from(_error: Memory) -> SelFault {
        SelFault::Memory
    }
}
