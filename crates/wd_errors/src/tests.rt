//! The statuses and texts of the codes, and texts that have none, as tests.

use crate::{Code, code_of, code_text, status};
use std::process::Abort;
use std::test::Fail;

fn expect_row(rt: &impl Abort, code: Code, number: u16, text: &str) {
    assert_eq!(rt; status(code), number, "{text}");
    assert_eq!(rt; code_text(code), text);
    assert!(rt; code_of(text) == Some(code), "{text}");
}

#[test]
fn codes_have_the_statuses_and_texts_of_the_standard(rt: HostRuntime) {
    let cases = [
        (
            Code::ElementClickIntercepted,
            400,
            "element click intercepted",
        ),
        (Code::InvalidSessionId, 404, "invalid session id"),
        (Code::StaleElementReference, 404, "stale element reference"),
        (Code::UnknownMethod, 405, "unknown method"),
        (Code::SessionNotCreated, 500, "session not created"),
        (Code::UnsupportedOperation, 500, "unsupported operation"),
    ];
    for (code, number, text) in cases {
        expect_row(&rt, code, number, text);
    }
}

#[test]
fn other_texts_have_no_code(rt: HostRuntime) {
    for text in ["", "no such", "Timeout", "timeout ", "no such elements"] {
        assert!(rt; code_of(text).is_none(), "{text}");
    }
}

#[test]
fn a_code_is_printed_as_its_text(rt: HostRuntime) -> Result<(), Fail> {
    let text = format!(in rt.alloc(); "{}", Code::JavascriptError)?;
    assert_eq!(rt; text.as_str(), "javascript error");
    Ok(())
}
