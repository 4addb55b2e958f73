//! The remote end: the command machine. Each request gets one reply, by one step from the state that the
//! requests before it left. A command that waits is a value in its session: it is begun, and resumed with readings
//! that may come early or late, and what it comes to doesn't depend on them. It stands on the endpoints, which say
//! what a request's path and method are, on the capabilities, references and page of each session, and on the clock
//! that is lent to it.
#![tactic(auto)]

mod advance;
mod built;
mod carrying;
mod elements;
mod evaluator;
mod finds;
mod going;
mod handing;
mod laws;
mod looks;
mod lookups;
mod meaning;
mod naming;
mod opening;
mod order;
mod outcome;
mod parameter;
mod remote;
mod reply;
mod resuming;
mod rows;
mod run;
mod session;
mod setting;
mod status;
mod step;
mod taken;
mod timeouts;
mod titles;
mod waiting;
mod windows;

pub use evaluator::Evaluator;
pub use laws::{
    advances_somewhere, advances_to_one, lookups_are_exact, plans_are_one, plans_are_there,
    resumes_are_one,
};
pub use naming::paths_name_sessions;
pub use remote::Remote;
pub use reply::{Reply, bad_reply};
pub use step::Step;
pub use taken::{Taken, TakenList};
