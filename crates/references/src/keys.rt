//! The names of the one member of a reference.

ghost use Rattle.std.specs.Prelude.{◌≡◌};
ghost use Rattle.std.specs.Str.{IsAscii};
ghost use Rattle.references.specs.Keys.{element_key, shadow_key};

/// The name of the one member of a reference to an element, the web element identifier (W3C WebDriver,
/// section 11).
#[tactic(auto, unfolding(crate::specs::Keys::element_key))]
pub fn element_key() -> &'static str
    ensures text { result.now ≡ element_key }
    ensures ascii { IsAscii result.now }
{
    "element-6066-11e4-a52e-4f735466cecf"
}

/// The name of the one member of a reference to a shadow root, the shadow root identifier (WebDriver Level 2,
/// section 11).
#[tactic(auto, unfolding(crate::specs::Keys::shadow_key))]
pub fn shadow_key() -> &'static str
    ensures text { result.now ≡ shadow_key }
    ensures ascii { IsAscii result.now }
{
    "shadow-6066-11e4-a52e-4f735466cecf"
}
