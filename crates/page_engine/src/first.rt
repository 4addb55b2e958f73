//! The value and checked state that a node has when its page is opened.

use wd_json::WdText;

/// The value and the checked state that a node has when its page is opened.
#[derive(Debug, Drop)]
pub struct First {
    pub value: WdText,
    pub checked: bool,
}
