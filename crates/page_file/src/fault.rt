//! Why a value gives no list of effects.

ghost use Rattle.std.specs.Prelude.{◌≡◌};
ghost use Rattle.page_file.specs.declared.fault.EffectFault.TheVariants.{Memory as OutOfMemory};

use std::error::Error;
use std::fmt;
use wd_json::Memory;

/// Why a value gives no list of effects.
#[derive(Clone, Copy, Debug, PartialEq, Eq)]
pub enum EffectFault {
    /// It spells none.
    Form,
    /// There was no memory.
    Memory,
}

impl fmt::Display for EffectFault {
    fn fmt<W: fmt::Write>(&self, f: &mut fmt::Formatter<W>) -> fmt::Result {
        match self {
            EffectFault::Form => write!(f, "not a list of effects"),
            EffectFault::Memory => write!(f, "out of memory"),
        }
    }
}

impl Error for EffectFault {}

impl From<Memory> for EffectFault {
    ghost from_gives = { λ _ fault. fault ≡ OutOfMemory };

    fn from(_error: Memory) -> EffectFault {
        EffectFault::Memory
    }
}
