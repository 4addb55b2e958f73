//! The table of commands, and the route that a request asks for: a path fits the pattern of a row
//! segment by segment, and the row's method is the request's. Paths are looked up by `matchit`.
#![tactic(auto)]

mod command;
mod endpoints;
mod filled;
mod path;
mod route;
mod segments;
mod table;
mod variables;

pub use command::Command;
pub use endpoints::{Endpoints, one_answer_for_request};
pub use filled::has_variables;
pub use path::{SEGMENT, path_of};
pub use route::{Route, RouteFault};
pub use segments::{is_spelled, segment, session_stands_second};
pub use table::{COMMANDS, command_of, method_of, one_command_for_name, pattern_of};
