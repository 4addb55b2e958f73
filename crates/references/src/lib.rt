//! Identifiers of sessions, windows, elements and shadow roots, and the references to nodes that a
//! session handed out. One node has one reference for the whole run, and one reference one node.
#![tactic(auto)]

mod all;
mod fault;
mod id;
mod ids;
mod keys;
mod kind;
mod known;
mod laws;
mod look;
mod name;

pub use fault::IdFault;
pub use id::{Id, IdList, id_text, one_id_for_text, serials_tell_apart};
pub use ids::{Full, Ids};
pub use keys::{element_key, shadow_key};
pub use kind::Kind;
pub use known::Known;
pub use laws::{entries_differ, lists_are_handed_out_whole, references_last};
pub use name::{Entry, NodeName};

#[cfg(test)]
mod tests;
