//! The worked conversations, as tests of the whole server over files and lines in memory, and the real adapters where
//! the system refuses.
//! What is expected is worked out from the rules in docs/PROFILE.md, never from the program.
#![tactic(auto)]

#[cfg(test)]
mod conversation;
#[cfg(test)]
mod failing;
#[cfg(test)]
mod finds;
#[cfg(test)]
mod refusals;
#[cfg(test)]
mod refusing;
#[cfg(test)]
mod repeated;
#[cfg(test)]
mod session;
#[cfg(test)]
mod status;
#[cfg(test)]
mod std_files;
#[cfg(test)]
mod timeouts;
#[cfg(test)]
mod turns;
#[cfg(test)]
mod worked_site;
