//! Why a document refused a change.

ghost use Rattle.std.specs.Prelude.{◌≡◌};
ghost use Rattle.page_tree.specs.declared.fault.TreeFault.TheVariants.{Memory as OutOfMemory};

use std::alloc::{AllocError, AllocFailed};
use std::error::Error;
use std::fmt;
use wd_json::Memory;

/// Why a document refused a change: one variant a cause.
#[derive(Clone, Copy, Debug, PartialEq, Eq)]
pub enum TreeFault {
    /// Some node would stand deeper than 200.
    Depth,
    /// There are 50,000 nodes already.
    Nodes,
    /// The parent is the node or below it.
    Cycle,
    /// There was no memory. The document is spent.
    Memory,
}

impl fmt::Display for TreeFault {
    fn fmt<W: fmt::Write>(&self, f: &mut fmt::Formatter<W>) -> fmt::Result {
        match self {
            TreeFault::Depth => write!(f, "too deep"),
            TreeFault::Nodes => write!(f, "too many nodes"),
            TreeFault::Cycle => write!(f, "a node under itself"),
            TreeFault::Memory => write!(f, "out of memory"),
        }
    }
}

impl Error for TreeFault {}

impl From<Memory> for TreeFault {
    ghost from_gives = { λ _ fault. fault ≡ OutOfMemory };

    fn from(_error: Memory) -> TreeFault {
        TreeFault::Memory
    }
}

impl From<AllocError> for TreeFault {
    ghost from_gives = { λ _ fault. fault ≡ OutOfMemory };

    fn from(_error: AllocError) -> TreeFault {
        TreeFault::Memory
    }
}

impl<T: Drop> From<AllocFailed<T>> for TreeFault {
    ghost from_gives = { λ _ fault. fault ≡ OutOfMemory };

    fn from(_error: AllocFailed<T>) -> TreeFault {
        TreeFault::Memory
    }
}
