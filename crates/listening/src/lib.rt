//! Runs of the server under `listen`, as tests: one machine over several connections, each call of the outside failing in
//! turn, a session cut in two at every place, the words, and the real line and clock.
//! What is expected is worked out from the rules in docs/PROFILE.md, never from the program.
#![tactic(auto)]

#[cfg(test)]
mod cut_line;
#[cfg(test)]
mod cuts;
#[cfg(test)]
mod exchanges;
#[cfg(test)]
mod failing;
#[cfg(test)]
mod one_machine;
#[cfg(test)]
mod printing;
#[cfg(test)]
mod real_clock;
#[cfg(test)]
mod real_line;
#[cfg(test)]
mod served;
#[cfg(test)]
mod words;
