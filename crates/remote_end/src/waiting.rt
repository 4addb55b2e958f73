//! What waits in a session: a find, or a reply that is about to be taken.

use crate::finds::Wanted;
use crate::reply::Reply;
use interaction::By;
use references::NodeName;
use wd_json::WdText;

/// A find, and how long it may look.
#[derive(Drop)]
pub struct FindWait {
    /// How many of the nodes it answers.
    pub wanted: Wanted,
    /// The node below which it looks; in the whole document where there is none.
    pub start: Option<NodeName>,
    /// How it looks.
    pub by: By,
    /// For what it looks.
    pub text: WdText,
    /// The end of its span, at most 2^62.
    pub until: u64,
}

/// What waits in a session.
#[derive(Drop)]
pub enum Waiting {
    /// A find that has given no node so far.
    Find(FindWait),
    /// A command that has ended with this reply. No session keeps it from one call to the next.
    Ended(Reply),
}
