//! What a page asks of the world around it, and how many timers were made.

ghost use Rattle.std.specs.Prelude.{◌≡◌};
ghost use Rattle.page_engine.specs.Scene.{nothing_asked};

use crate::effect::Prompt;
use std::alloc::Global;
use wd_json::{TextList, WdText};

/// What a dispatch, a timer or a script asks of the world around the page, and how many timers it
/// made.
#[derive(Debug, Drop)]
pub struct Outcome {
    /// The address of the last navigation that was asked for.
    pub go: Option<WdText>,
    /// The addresses of the windows that were asked for, in order.
    pub opens: TextList,
    /// The first prompt that was asked for.
    pub prompt: Option<Prompt>,
    /// How many timers were made.
    pub made: u64,
}

impl Outcome {
    // Nothing is asked. It takes no memory.
    pub(crate) fn new(alloc: Global) -> Outcome
        ensures { result ≡ nothing_asked }
    {
        Outcome {
            go: None,
            opens: TextList::new(alloc),
            prompt: None,
            made: 0,
        }
    }
}
