//! A node of a document, by its number.

ghost use Rattle.std.specs.Prelude.{◌≡◌, ◌<◌, ◌^◌};

use crate::list::WdList;
use std::marker::Model;

/// A node of a document, by its number. Contracts see the number.
#[derive(Clone, Copy, Debug, PartialEq, Eq, PartialOrd, Ord, Hash)]
pub struct NodeId(pub u32);

impl Model for NodeId {
    ghost use Rattle.std.specs.Prelude.{ℕ};

    ghost Value = { ℕ };

    ghost view = { λ n. n.0 };

    ghost inverse = { λ n. record { 0 = n } };
}

impl NodeId {
    /// The node with this number.
    pub fn of(number: u32) -> NodeId
        ensures { result ≡ number }
    {
        NodeId(number)
    }

    /// The node's number.
    pub fn number(self) -> u32
        ensures { result ≡ self }
    {
        self.0
    }

    /// The node's number, as a place in a list of rows.
    pub fn index(self) -> usize
        ensures same { result ≡ self }
        ensures small { result < 2 ^ 32 }
    {
        self.0 as usize
    }
}

/// Nodes in order.
pub type NodeList = WdList<NodeId>;
