//! What is wrong with a site or a page of it.

ghost use Rattle.std.specs.Prelude.{Some};
ghost use Rattle.page_file.specs.FaultTexts.{why_text};

use std::fmt;

/// What is wrong with a site or a page of it.
#[derive(Clone, Copy, Debug, PartialEq, Eq)]
pub enum Why {
    /// The file is no JSON text with whole numbers.
    Json,
    /// A member of the top object: its type, its range, an unknown one, or a list with too few or
    /// too many entries.
    Shape,
    /// An address of the site.
    Address,
    /// A node, its handlers apart.
    Node,
    /// A node stands deeper than 200.
    Depth,
    /// There are more than 50,000 nodes.
    Nodes,
    /// A node's handlers.
    Effect,
    /// A timer, or there are more than 1,000.
    Timer,
    /// A script.
    Script,
    /// A page with those of its frames has too many nodes.
    Weight,
}

impl fmt::Display for Why {
    ghost output = { λ why. Some (why_text why) };

    fn fmt<W: fmt::Write>(&self, f: &mut fmt::Formatter<W>) -> fmt::Result {
        match self {
            Why::Json => write!(f, "json"),
            Why::Shape => write!(f, "shape"),
            Why::Address => write!(f, "address"),
            Why::Node => write!(f, "node"),
            Why::Depth => write!(f, "depth"),
            Why::Nodes => write!(f, "nodes"),
            Why::Effect => write!(f, "effect"),
            Why::Timer => write!(f, "timer"),
            Why::Script => write!(f, "script"),
            Why::Weight => write!(f, "weight"),
        }
    }
}
