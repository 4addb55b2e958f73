//! What changes of a document leave of it and which nodes are displayed, and what an opened page is after effects, events,
//! timers and prompts, as tests.
//! What is expected is worked out from the rules in docs/PROFILE.md, never from the program.
#![tactic(auto)]

#[cfg(test)]
mod asking;
#[cfg(test)]
mod attributes;
#[cfg(test)]
mod display;
#[cfg(test)]
mod dozen;
#[cfg(test)]
mod effects;
#[cfg(test)]
mod elements;
#[cfg(test)]
mod events;
#[cfg(test)]
mod fields;
#[cfg(test)]
mod first_pages;
#[cfg(test)]
mod insertions;
#[cfg(test)]
mod moves;
#[cfg(test)]
mod nine_nodes;
#[cfg(test)]
mod opening;
#[cfg(test)]
mod parents;
#[cfg(test)]
mod prompts;
#[cfg(test)]
mod timers;
#[cfg(test)]
mod twelve_nodes;
