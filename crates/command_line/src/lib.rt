//! Reads the words of a command line, behind the command: options with a value each, and at most one positional.
//! It stands on `clap`, which reads the words, and on `wd_json` for texts.
#![tactic(auto)]

mod command;
mod found;
mod matches;
mod reading;
#[cfg(test)]
mod tests;

pub use matches::Matches;
pub use reading::{read, words_spell_one};
