//! When effects take place, and how the timers that they make are numbered.

/// When effects take place, and the number of the first timer that they may make.
#[derive(Clone, Copy, Debug, PartialEq, Eq)]
pub struct At {
    /// In milliseconds, at most 2^62.
    pub now: u64,
    /// At most 2^62.
    pub first: u64,
}
