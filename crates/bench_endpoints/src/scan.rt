//! The command of a request by going over the table row by row, to be timed against the router.

use endpoints::{COMMANDS, Command, method_of, pattern_of};

/// The first command of the table whose method and pattern the request has.
pub fn scan(method: &str, target: &str) -> Option<Command> {
    let path = match target.split_once('?') {
        Some((path, _)) => path,
        None => target,
    };
    COMMANDS.iter().copied().find(|c| method_of(*c).as_str() == method
        && fits(pattern_of(*c), path))
}

fn fits(pattern: &str, path: &str) -> bool {
    let mut segments = path.split('/');
    for part in pattern.split('/') {
        let Some(segment) = segments.next() else {
            return false;
        };
        let fitting = if part.starts_with('{') {
            !segment.is_empty()
        } else {
            part == segment
        };
        if !fitting {
            return false;
        }
    }
    segments.next().is_none()
}
