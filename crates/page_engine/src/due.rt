//! When a timer is due, and its number.

/// When a timer is due, and its number. Of two timers the one with the lesser moment runs first, and
/// at one moment the one with the lesser number.
#[derive(Clone, Copy, Debug, PartialEq, Eq)]
pub struct Due {
    /// In milliseconds, at most 2^62.
    pub moment: u64,
    pub number: u64,
}
