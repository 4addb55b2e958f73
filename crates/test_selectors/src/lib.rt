//! What the grammar of selectors reads, prints and refuses, and what selectors name on two pages, as tests.
//! What is expected is worked out by hand from the rules in docs/PROFILE.md, never from the program.
#![tactic(auto)]

#[cfg(test)]
mod grammar;
#[cfg(test)]
mod named;
#[cfg(test)]
mod pages;
#[cfg(test)]
mod pieces;
#[cfg(test)]
mod shown;
#[cfg(test)]
mod spellings;
