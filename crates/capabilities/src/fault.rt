//! Why a request gives no session.

ghost use Rattle.std.specs.Prelude.{◌≡◌};
ghost use Rattle.capabilities.specs.declared.fault.CapFault.TheVariants.{Memory as OutOfMemory};

use std::error::Error;
use std::fmt;
use wd_json::{Memory, WdText};

/// Why a request gives no session: one variant a cause.
#[derive(Debug, Drop)]
pub enum CapFault {
    /// The name that is wrong, or the first of those that are.
    Invalid(WdText),
    /// All is valid, and this end matches none of what is asked for.
    NoMatch,
    /// There was no memory.
    Memory,
}

impl fmt::Display for CapFault {
    fn fmt<W: fmt::Write>(&self, f: &mut fmt::Formatter<W>) -> fmt::Result {
        match self {
            CapFault::Invalid(name) => write!(f, "invalid capability {}", name.as_str()),
            CapFault::NoMatch => write!(f, "no capabilities match"),
            CapFault::Memory => write!(f, "out of memory"),
        }
    }
}

impl Error for CapFault {}

impl From<Memory> for CapFault {
    ghost from_gives = { λ _ fault. fault ≡ OutOfMemory };

    fn from(_error: Memory) -> CapFault {
        CapFault::Memory
    }
}
