//! The open session that the path of a target names.

ghost use Rattle.std.specs.Prelude.{◌≡◌, ℕ, List, Some, codes};
ghost use Rattle.std.specs.List.{position};
ghost use Rattle.std.specs.Option.{option_map};
ghost use Rattle.endpoints.specs.Segments.{decoded};
ghost use Rattle.endpoints.specs.Route.{asked, IsRouteOf};
ghost use Rattle.endpoints.specs.declared.route.Route.{Route as AnyRoute};
ghost use Rattle.references.specs.Identifier.{is_text_of};
ghost use Rattle.remote_end.specs.declared.session.Session.{Session as AnySession};
ghost use Rattle.remote_end.specs.State.{session_named};
ghost use Rattle.remote_end.specs.Naming.{named_segment, number_named, session_of};

use crate::session::Session;
use endpoints::{is_spelled, segment};

/// The second segment of a path that begins with a slash and has the first segment `session`.
fn named_segment(target: &str) -> Option<&str>
    ensures { option_map (λ s. s.now) result ≡ named_segment (asked target.now) }
{
    if segment(target, 0) == Some("") && segment(target, 1) == Some("session") {
        segment(target, 2)
    } else {
        None
    }
}

/// Whether a segment, percent-decoded, is the session's identifier.
fn is_named(session: &Session, segment: &str) -> bool
    ensures { result ≡ is_text_of session.now.id (decoded segment.now) }
{
    let mut buffer = [0; 36];
    is_spelled(segment, session.id.text_in(&mut buffer))
}

/// Where the first open session stands whose identifier a segment is, percent-decoded.
fn place_named(sessions: &[Session], segment: &str) -> Option<usize>
    ensures { result ≡ position (λ (s : AnySession). is_text_of s.id (decoded segment.now)) sessions.now }
{
    sessions
        .iter()
        .position(|session| is_named(session, segment))
}

/// Its number.
fn number_named(sessions: &[Session], segment: &str) -> Option<u32>
    ensures { result ≡ number_named (Some segment.now) sessions.now }
{
    match place_named(sessions, segment) {
        Some(place) => Some(sessions[place].number),
        None => None,
    }
}

/// The number of the open session that a target's path names.
#[tactic(auto, unfolding(crate::specs::Naming::session_of))]
pub(crate) fn session_of(sessions: &[Session], target: &str) -> Option<u32>
    ensures { result ≡ session_of target.now sessions.now }
{
    match named_segment(target) {
        Some(segment) => number_named(sessions, segment),
        None => None,
    }
}

/// A law, to be cited: where the route of a request has a session's text, its path names the session with that
/// identifier, and no other.
pub fn paths_name_sessions()
    ensures { (method target text : List ℕ) (route : AnyRoute) (sessions : List AnySession) → IsRouteOf method target route → route.session ≡ Some text
        → session_of target sessions ≡ option_map (λ s. s.number) (session_named route.session sessions) }
{}
