//! The files of the worked site, files in memory by their names, and conversations with a remote end over that site in
//! which time passes: a find that waits is answered by one call, and begun and resumed with readings that come early and
//! late.
//! What is expected is worked out from the rules in docs/PROFILE.md, never from the program.
#![tactic(auto)]

mod named_files;
mod worked_site;

pub use named_files::{Named, in_memory};
pub use worked_site::{W_JSON, W_SITE};

#[cfg(test)]
mod remote;
#[cfg(test)]
mod resumes;
