//! The printed form of a selector, compared, and texts that are none.

use selectors::{SelFault, parse, print};
use std::alloc::Global;
use std::process::Abort;
use std::test::Fail;
use wd_json::WdText;

/// The printed form of the selector that the text is, or `(invalid)`.
fn shown(alloc: Global, text: &str) -> Result<WdText, SelFault> {
    match parse(alloc, text) {
        Ok(selector) => Ok(print(alloc, &selector)?),
        Err(SelFault::Invalid) => Ok(WdText::of(alloc, "(invalid)")?),
        Err(fault) => Err(fault),
    }
}

/// Compares the printed form of each text with the expected one.
pub fn prints(rt: &impl Abort, alloc: Global, rows: &[(&str, &str)]) -> Result<(), Fail> {
    for row in rows {
        let (text, expected) = *row;
        assert_eq!(rt; shown(alloc, text)?.as_str(), expected, "{text}");
    }
    Ok(())
}

/// No text is a selector.
pub fn refuses(rt: &impl Abort, alloc: Global, texts: &[&str]) -> Result<(), Fail> {
    for text in texts {
        assert_eq!(rt; shown(alloc, text)?.as_str(), "(invalid)", "{text}");
    }
    Ok(())
}
