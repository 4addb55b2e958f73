//! Which moment of a page's loading a navigation waits for, and how a capability names it.

ghost use Rattle.std.specs.Prelude.{◌≡◌};
ghost use Rattle.capabilities.specs.Strategy.{strategy_text, strategy_with, strategy_of};

use crate::values::as_text;
use wd_json::Json;

/// Which moment of a page's loading a navigation waits for (W3C WebDriver, section 7,
/// `pageLoadStrategy`).
#[derive(Clone, Copy, Debug, PartialEq, Eq)]
pub enum Strategy {
    /// For none.
    None,
    /// Until the document can be interacted with.
    Eager,
    /// Until the page has loaded.
    Normal,
}

const STRATEGIES: [Strategy; 3] = [Strategy::None, Strategy::Eager, Strategy::Normal];

/// `none`, `eager` or `normal`.
pub fn text(strategy: Strategy) -> &'static str
    ensures { result.now ≡ strategy_text strategy }
{
    match strategy {
        Strategy::None => "none",
        Strategy::Eager => "eager",
        Strategy::Normal => "normal",
    }
}

fn with_text(text_of_one: &str) -> Option<Strategy>
    ensures { result ≡ strategy_with text_of_one.now }
{
    STRATEGIES
        .iter()
        .copied()
        .find(|strategy| text(*strategy) == text_of_one)
}

/// The strategy that a value names.
pub fn as_strategy(value: &Json) -> Option<Strategy>
    ensures { result ≡ strategy_of value.now }
{
    with_text(as_text(value)?)
}
