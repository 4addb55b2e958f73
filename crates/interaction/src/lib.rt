//! What a user of a page sees and looks for: the rendered text of an element, and the elements that
//! are found by a selector, by a link's text or by a tag.
#![tactic(auto)]

mod blocks;
mod by;
mod finding;
mod lines;
mod rendered;

pub use by::By;
pub use finding::find;
pub use rendered::rendered_text;

#[cfg(test)]
mod tests;
