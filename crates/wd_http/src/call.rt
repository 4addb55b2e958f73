//! The calls on a connection that can fail.

/// A call on a connection that can fail.
#[derive(Clone, Copy, Debug, PartialEq, Eq)]
pub enum Call {
    Read,
    Write,
}
