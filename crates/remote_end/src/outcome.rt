//! What a row comes to at its command's start.

use crate::reply::Reply;

/// What a row comes to at its command's start.
#[derive(Drop)]
pub enum Outcome {
    /// A reply.
    Replied(Reply),
    /// A reply, and its session has ended.
    Ended(Reply),
    /// Its command waits in the session.
    Waits,
}
