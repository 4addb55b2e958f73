//! The effects of handlers, timers, scripts and prompts, and the prompts that they ask for.

use page_tree::PixelBox;
use wd_json::{WdList, WdText};

/// What a handler, a timer, a script or the answer to a prompt does: one row of the table of
/// effects each. Nodes are named by their numbers; an effect that names a node or a field that isn't
/// there changes nothing.
#[derive(Debug, Drop)]
pub enum Effect {
    /// The node loses its parent.
    Remove {
        node: u32,
    },
    /// The node goes to that place among the parent's children.
    Insert {
        node: u32,
        parent: u32,
        place: u32,
    },
    /// The attribute gets that value, or is taken away.
    Attr {
        node: u32,
        name: WdText,
        value: Option<WdText>,
    },
    /// The characters of a text.
    Text {
        node: u32,
        text: WdText,
    },
    /// The box of an element.
    Pixels {
        node: u32,
        pixels: Option<PixelBox>,
    },
    /// The layer of an element.
    Layer {
        node: u32,
        layer: i32,
    },
    /// Whether an element is hidden.
    Hidden {
        node: u32,
        hidden: bool,
    },
    /// The value of an element.
    Value {
        node: u32,
        text: WdText,
    },
    /// The checked state of an element.
    Checked {
        node: u32,
        checked: bool,
    },
    /// The focus moves to the node.
    Focus {
        node: u32,
    },
    /// Asks for a prompt, with the effects of accepting and of dismissing it.
    Prompt {
        kind: PromptKind,
        text: WdText,
        answer: WdText,
        accepted: EffectList,
        dismissed: EffectList,
    },
    /// Asks for a navigation to the address.
    Go {
        address: WdText,
    },
    /// Asks for a new window with the address.
    Open {
        address: WdText,
    },
    /// A timer that is due so many milliseconds later.
    After {
        ms: u64,
        effects: EffectList,
    },
}

/// Effects in order.
pub type EffectList = WdList<Effect>;

/// The kinds of user prompts (HTML Standard, "Simple dialogs").
#[derive(Clone, Copy, Debug, PartialEq, Eq)]
pub enum PromptKind {
    Alert,
    Confirm,
    Prompt,
}

/// A prompt that was asked for: its text, its default answer, and what accepting and dismissing it
/// does.
#[derive(Debug, Drop)]
pub struct Prompt {
    pub kind: PromptKind,
    pub text: WdText,
    pub answer: WdText,
    pub accepted: EffectList,
    pub dismissed: EffectList,
}
