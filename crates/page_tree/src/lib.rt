//! The tree of a page: its elements, texts and shadow roots, where each stands and what it is. A
//! `Document` stands for its rows, by node number: the parents, the children, the shadow roots and
//! the contents, with the focus and the scroll offset. Every notion of place (path, document order,
//! connectedness, depth) is defined over these rows alone. The body is one list of nodes, each with
//! its own list of children.
#![tactic(auto)]

mod ancestors;
mod attributes;
mod content;
mod displayed;
mod document;
mod edits;
mod fault;
mod geometry;
mod node;
mod order;
mod shown;

pub use ancestors::MAX_DEPTH;
pub use document::Document;
pub use fault::TreeFault;
pub use geometry::{PixelBox, Point};
