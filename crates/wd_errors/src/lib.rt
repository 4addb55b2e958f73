//! The error codes of a reply: 28 kinds, each with one text and one HTTP status, which is a status
//! of the crate `http`. No call takes memory.
#![tactic(auto)]

mod code;
mod table;

pub use code::Code;
pub use table::{code_of, code_text, one_code_for_text, status};

#[cfg(test)]
mod tests;
