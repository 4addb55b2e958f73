//! Which effects values spell, and what is told of sites and pages, by `read_site` and by the whole server: each fault,
//! and each limit met and passed, as tests.
//! What is expected is worked out from the rules in docs/PROFILE.md, never from the program.
#![tactic(auto)]

#[cfg(test)]
mod effects;
#[cfg(test)]
mod heavy_sites;
#[cfg(test)]
mod page_faults;
#[cfg(test)]
mod site_faults;
#[cfg(test)]
mod sites;
#[cfg(test)]
mod told;
