//! The segments of a target's path.

ghost use Rattle.std.specs.Prelude.{◌≡◌, ℕ, List, [], ◌∷◌, Some, slice_get, codes};
ghost use Rattle.std.specs.Option.{option_map};
ghost use Rattle.std.specs.Str.{encode_utf8_all};
ghost use Rattle.endpoints.specs.declared.route.Route.{Route as AnyRoute};
ghost use Rattle.endpoints.specs.Path.{path_in, same_text};
ghost use Rattle.endpoints.specs.Route.{asked, IsRouteOf};
ghost use Rattle.endpoints.specs.Segments.{decoded};

use crate::variables::segment_at;

// The target up to its first `?`.
pub(crate) fn path_of_target(target: &str) -> &str
    ensures { result.now ≡ path_in target.now }
{
    match target.split_once('?') {
        Some((path, _)) => path,
        None => target,
    }
}

/// The segment of a target's path at that place, as it is written; `None` where there are fewer. Slashes part the
/// path, so the segment before a first slash is empty, and stands at 0. It takes no memory.
pub fn segment(target: &str, place: usize) -> Option<&str>
    ensures { option_map (λ s. s.now) result ≡ slice_get (asked target.now) place }
{
    segment_at(path_of_target(target), place)
}

/// Whether a segment, percent-decoded, is that text. It takes no memory.
pub fn is_spelled(segment: &str, text: &str) -> bool
    ensures { result ≡ same_text (decoded segment.now) text.now }
{
    let mut bytes = percent_encoding::percent_decode(segment.as_bytes());
    let mut rest = text.as_bytes();
    while let Some((first, after)) = rest.split_first() {
        if bytes.next() != Some(*first) {
            return false;
        }
        rest = after;
    }
    bytes.next().is_none()
}

/// A law, to be cited: where a request's route has a session's text, its path begins with a slash, the segment
/// `session`, and a segment that is that text, percent-decoded.
pub fn session_stands_second()
    ensures { (method target text : List ℕ) (route : AnyRoute) → IsRouteOf method target route → route.session ≡ Some text
        → (segment : List ℕ) × (rest : List (List ℕ)) × (asked target ≡ [] ∷ codes "session" ∷ segment ∷ rest) × (decoded segment ≡ encode_utf8_all text) }
{}
