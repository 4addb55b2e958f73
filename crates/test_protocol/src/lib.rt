//! The table of heads and of how they are cut, the bytes of responses, the files, lines, sinks and clocks in memory,
//! which capabilities a new session is given, and which route a request has, as tests.
//! What is expected is worked out from the rules in docs/PROFILE.md, never from the program.
#![tactic(auto)]

#[cfg(test)]
mod closing;
#[cfg(test)]
mod cuts;
#[cfg(test)]
mod framed;
#[cfg(test)]
mod heads;
#[cfg(test)]
mod invalid;
#[cfg(test)]
mod lengths;
#[cfg(test)]
mod long_heads;
#[cfg(test)]
mod matched;
#[cfg(test)]
mod new_session;
#[cfg(test)]
mod outside;
#[cfg(test)]
mod pieces;
#[cfg(test)]
mod responses;
#[cfg(test)]
mod routes;
#[cfg(test)]
mod timeouts;
