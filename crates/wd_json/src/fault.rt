//! Why a call gives nothing: a reason of its own, or no memory.

ghost use Rattle.std.specs.Prelude.{◌≡◌};
ghost use Rattle.wd_json.specs.declared.fault.Fault.TheVariants.{Memory as WithoutMemory};
ghost use Rattle.wd_json.specs.declared.fault.JsonFault.TheVariants.{Memory as OutOfMemory};

use crate::memory::Memory;
use std::alloc::{AllocError, AllocFailed};
use std::error::Error;
use std::fmt;

/// Why a call that refuses for one reason gives nothing.
#[derive(Clone, Copy, Debug, PartialEq, Eq)]
pub enum Fault<R> {
    /// It refuses, and this is why.
    Refused(R),
    /// There was no memory.
    Memory,
}

impl<R: fmt::Display> fmt::Display for Fault<R> {
    fn fmt<W: fmt::Write>(&self, f: &mut fmt::Formatter<W>) -> fmt::Result {
        match self {
            Fault::Refused(why) => write!(f, "{why}"),
            Fault::Memory => write!(f, "out of memory"),
        }
    }
}

impl<R: fmt::Debug + fmt::Display + Drop> Error for Fault<R> {}

impl<R> From<Memory> for Fault<R> {
    ghost from_gives = { λ _ fault. fault ≡ WithoutMemory };

    fn from(_error: Memory) -> Fault<R> {
        Fault::Memory
    }
}

impl<R> From<AllocError> for Fault<R> {
    ghost from_gives = { λ _ fault. fault ≡ WithoutMemory };

    fn from(_error: AllocError) -> Fault<R> {
        Fault::Memory
    }
}

impl<R, T: Drop> From<AllocFailed<T>> for Fault<R> {
    ghost from_gives = { λ _ fault. fault ≡ WithoutMemory };

    fn from(_error: AllocFailed<T>) -> Fault<R> {
        Fault::Memory
    }
}

/// Why a text gives no value: one variant a cause.
#[derive(Clone, Copy, Debug, PartialEq, Eq)]
pub enum JsonFault {
    /// `serde_json` reads no value from it.
    NotJson,
    /// A number in it isn't whole, or isn't within plus or minus 2^53 - 1.
    NotWhole,
    /// There was no memory.
    Memory,
}

impl fmt::Display for JsonFault {
    fn fmt<W: fmt::Write>(&self, f: &mut fmt::Formatter<W>) -> fmt::Result {
        match self {
            JsonFault::NotJson => write!(f, "not JSON"),
            JsonFault::NotWhole => write!(f, "a number that is not whole or out of range"),
            JsonFault::Memory => write!(f, "out of memory"),
        }
    }
}

impl Error for JsonFault {}

impl From<Memory> for JsonFault {
    ghost from_gives = { λ _ fault. fault ≡ OutOfMemory };

    fn from(_error: Memory) -> JsonFault {
        JsonFault::Memory
    }
}

impl From<AllocError> for JsonFault {
    ghost from_gives = { λ _ fault. fault ≡ OutOfMemory };

    fn from(_error: AllocError) -> JsonFault {
        JsonFault::Memory
    }
}

impl<T: Drop> From<AllocFailed<T>> for JsonFault {
    ghost from_gives = { λ _ fault. fault ≡ OutOfMemory };

    fn from(_error: AllocFailed<T>) -> JsonFault {
        JsonFault::Memory
    }
}
