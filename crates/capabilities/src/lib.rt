//! Capabilities of a new session (W3C WebDriver, 5 June 2018, section 7): which requests are valid,
//! which session they give, and the object that it is answered with. It stands on `wd_json` for
//! values and `wd_errors` for the one code of `read_timeouts`.
#![tactic(auto)]

mod behaviour;
mod capability;
mod echoing;
mod fault;
mod form;
mod matched;
mod members;
mod merge;
mod processing;
mod strategy;
mod table;
mod timeouts;
mod values;

pub use behaviour::Behaviour;
pub use echoing::echo;
pub use fault::CapFault;
pub use matched::{Matched, Offer};
pub use processing::process;
pub use strategy::Strategy;
pub use timeouts::{Timeouts, read_timeouts, timeouts_object};
