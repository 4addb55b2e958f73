//! The route of a request, and why there is none.

use crate::command::Command;
use wd_errors::Code;
use wd_json::{Fault, WdText};

/// What a request asks for: a command, and what stands in its path for each variable of the
/// command's pattern, percent-decoded. A variable that the pattern hasn't is `None`.
#[derive(Debug, Drop)]
pub struct Route {
    pub command: Command,
    /// The identifier of the session.
    pub session: Option<WdText>,
    /// The identifier of the element or of the shadow root.
    pub item: Option<WdText>,
    /// The name of the attribute, property, style or cookie.
    pub name: Option<WdText>,
}

/// Why a request has no route: the table has no such row, with the code `UnknownCommand` or `UnknownMethod`, or there
/// was no memory.
pub type RouteFault = Fault<Code>;
