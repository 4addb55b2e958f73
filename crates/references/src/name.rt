//! The name of a node across documents, and the entry that is kept of a reference.

use crate::kind::Kind;

/// The name of a node: the number of its document, which no other document of the run has, and the
/// node's number in it.
#[derive(Clone, Copy, Debug, PartialEq, Eq, Hash)]
pub struct NodeName {
    pub document: u64,
    pub node: u32,
}

/// What was handed out: a name under a kind, with the serial that it took. Two are compared by their
/// kinds and names alone.
#[derive(Clone, Copy, Debug)]
#[derive_where(PartialEq, Eq, Hash)]
pub struct Entry {
    pub kind: Kind,
    pub name: NodeName,
    #[derive_where(skip(EqHashOrd))]
    pub serial: u32,
}
