//! What is done with an open user prompt, and the texts by which a capability names it.

ghost use Rattle.std.specs.Prelude.{◌≡◌};
ghost use Rattle.capabilities.specs.Behaviour.{behaviour_text, behaviour_with, behaviour_of};

use crate::values::as_text;
use wd_json::Json;

/// What is done with a user prompt that is open when a command comes (W3C WebDriver, section 18).
#[derive(Clone, Copy, Debug, PartialEq, Eq)]
pub enum Behaviour {
    /// It is dismissed, and the command goes on.
    Dismiss,
    /// It is accepted, and the command goes on.
    Accept,
    /// It is dismissed, and the command is refused.
    DismissNotify,
    /// It is accepted, and the command is refused.
    AcceptNotify,
    /// It stays, and the command is refused.
    Ignore,
}

const BEHAVIOURS: [Behaviour; 5] = [
    Behaviour::Dismiss,
    Behaviour::Accept,
    Behaviour::DismissNotify,
    Behaviour::AcceptNotify,
    Behaviour::Ignore,
];

/// As a capability names it.
pub fn text(behaviour: Behaviour) -> &'static str
    ensures { result.now ≡ behaviour_text behaviour }
{
    match behaviour {
        Behaviour::Dismiss => "dismiss",
        Behaviour::Accept => "accept",
        Behaviour::DismissNotify => "dismiss and notify",
        Behaviour::AcceptNotify => "accept and notify",
        Behaviour::Ignore => "ignore",
    }
}

fn with_text(text_of_one: &str) -> Option<Behaviour>
    ensures { result ≡ behaviour_with text_of_one.now }
{
    BEHAVIOURS
        .iter()
        .copied()
        .find(|behaviour| text(*behaviour) == text_of_one)
}

/// The behaviour that a value names.
pub fn as_behaviour(value: &Json) -> Option<Behaviour>
    ensures { result ≡ behaviour_of value.now }
{
    with_text(as_text(value)?)
}
