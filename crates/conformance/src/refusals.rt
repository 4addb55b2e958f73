//! Commands that aren't built, and parameters that are refused, in the order of the checks: as tests.

use crate::conversation::run;
use crate::turns::{
    ANY, BAD, FAILED, FIND, FIRST, INVALID, OK, OPENED, REFERENCE, Turn, UNSUPPORTED, converse,
    request, response,
};
use std::alloc::Global;
use std::test::Fail;

/// A request under the first session: its method, what follows the session in the path, and its body.
type Row = (&'static str, &'static str, &'static str);

/// The commands of an open session whose rows aren't built, each with parameters that pass. They go past
/// the check of their parameters, and no further.
const UNBUILT: &[Row] = &[
    ("POST", "url", r#"{"url":"http://none.test/"}"#),
    ("POST", "back", "{}"),
    ("POST", "forward", "{}"),
    ("POST", "refresh", "{}"),
    ("DELETE", "window", ""),
    ("POST", "window", r#"{"handle":"x"}"#),
    ("GET", "window/handles", ""),
    ("GET", "window/rect", ""),
    ("POST", "window/rect", r#"{"x":null,"width":1}"#),
    ("POST", "window/maximize", "{}"),
    ("POST", "window/fullscreen", "{}"),
    ("POST", "window/minimize", "{}"),
    ("POST", "frame", r#"{"id":65535}"#),
    ("POST", "frame/parent", "{}"),
    ("GET", "element/active", ""),
    (
        "GET",
        "element/00000000-0001-8002-8000-000100000002/selected",
        "",
    ),
    (
        "GET",
        "element/00000000-0001-8002-8000-000100000002/attribute/id",
        "",
    ),
    (
        "GET",
        "element/00000000-0001-8002-8000-000100000002/property/id",
        "",
    ),
    (
        "GET",
        "element/00000000-0001-8002-8000-000100000002/css/display",
        "",
    ),
    (
        "GET",
        "element/00000000-0001-8002-8000-000100000002/rect",
        "",
    ),
    (
        "GET",
        "element/00000000-0001-8002-8000-000100000002/enabled",
        "",
    ),
    (
        "GET",
        "element/00000000-0001-8002-8000-000100000002/displayed",
        "",
    ),
    (
        "POST",
        "element/00000000-0001-8002-8000-000100000002/click",
        "{}",
    ),
    (
        "POST",
        "element/00000000-0001-8002-8000-000100000002/clear",
        "{}",
    ),
    (
        "POST",
        "element/00000000-0001-8002-8000-000100000002/value",
        r#"{"text":""}"#,
    ),
    ("GET", "source", ""),
    ("POST", "execute/sync", r#"{"script":"","args":[]}"#),
    ("POST", "execute/async", r#"{"script":"","args":[]}"#),
    ("GET", "cookie", ""),
    ("POST", "cookie", "{}"),
    ("DELETE", "cookie", ""),
    ("GET", "cookie/a", ""),
    ("DELETE", "cookie/a", ""),
    ("POST", "actions", "{}"),
    ("DELETE", "actions", ""),
    ("POST", "alert/dismiss", "{}"),
    ("POST", "alert/accept", "{}"),
    ("GET", "alert/text", ""),
    ("POST", "alert/text", r#"{"text":"x"}"#),
    ("GET", "screenshot", ""),
    (
        "GET",
        "element/00000000-0001-8002-8000-000100000002/screenshot",
        "",
    ),
];

/// Requests whose bodies are refused.
const REFUSED: &[Row] = &[
    ("POST", "url", r#"{"url":"nope"}"#),
    ("POST", "url", r#"{"url":7}"#),
    ("POST", "back", "[]"),
    ("POST", "forward", ""),
    ("POST", "refresh", r#"{"a":1.5}"#),
    ("POST", "window", "{}"),
    ("POST", "window/rect", r#"{"x":2147483648}"#),
    ("POST", "window/rect", r#"{"y":-2147483649}"#),
    ("POST", "window/rect", r#"{"width":-1}"#),
    ("POST", "window/rect", r#"{"height":"1"}"#),
    ("POST", "window/maximize", "null"),
    ("POST", "window/fullscreen", "1"),
    ("POST", "window/minimize", r#""x""#),
    ("POST", "frame", "{}"),
    ("POST", "frame", r#"{"id":65536}"#),
    ("POST", "frame", r#"{"id":-1}"#),
    ("POST", "frame", r#"{"id":{}}"#),
    ("POST", "frame/parent", ""),
    ("POST", "elements", r#"{"using":"id","value":"a"}"#),
    (
        "POST",
        "element/00000000-0001-8002-8000-000100000002/element",
        r#"{"using":"tag name"}"#,
    ),
    (
        "POST",
        "element/00000000-0001-8002-8000-000100000002/elements",
        r#"{"value":"a"}"#,
    ),
    (
        "POST",
        "shadow/00000000-0001-8003-8000-000100000002/element",
        r#"{"using":"tag name","value":null}"#,
    ),
    (
        "POST",
        "shadow/00000000-0001-8003-8000-000100000002/elements",
        r#"{"using":"XPath","value":"a"}"#,
    ),
    (
        "POST",
        "element/00000000-0001-8002-8000-000100000002/click",
        "",
    ),
    (
        "POST",
        "element/00000000-0001-8002-8000-000100000002/clear",
        "[]",
    ),
    (
        "POST",
        "element/00000000-0001-8002-8000-000100000002/value",
        r#"{"text":["a"]}"#,
    ),
    ("POST", "execute/sync", r#"{"script":"","args":{}}"#),
    ("POST", "execute/sync", r#"{"script":""}"#),
    ("POST", "execute/async", r#"{"args":[]}"#),
    ("POST", "cookie", ""),
    ("POST", "actions", "[]"),
    ("POST", "alert/dismiss", ""),
    ("POST", "alert/accept", "{"),
    ("POST", "alert/text", r#"{"text":null}"#),
];

/// The bytes of these requests.
fn requests(alloc: Global, rows: &[Row]) -> Result<String, Fail> {
    let mut asked = String::new(alloc);
    for (method, rest, body) in rows {
        let target = format!(in alloc; "{FIRST}/{rest}")?;
        asked.push_str(request(alloc, method, target.as_str(), body)?.as_str())?;
    }
    Ok(asked)
}

/// The bytes of one response, so many times over.
fn responses(alloc: Global, count: usize, status: &str, body: &str) -> Result<String, Fail> {
    let mut expected = String::new(alloc);
    for _ in 0..count {
        expected.push_str(response(alloc, status, body)?.as_str())?;
    }
    Ok(expected)
}

#[test]
fn an_unbuilt_command_is_unsupported_once_its_parameters_pass(rt: HostRuntime) -> Result<(), Fail> {
    let alloc = rt.alloc();
    let mut asked = request(alloc, "POST", "/session", ANY)?;
    asked.push_str(requests(alloc, UNBUILT)?.as_str())?;
    asked.push_str(requests(alloc, REFUSED)?.as_str())?;
    let mut expected = response(alloc, OK, OPENED)?;
    expected.push_str(responses(alloc, 41, FAILED, UNSUPPORTED)?.as_str())?;
    expected.push_str(responses(alloc, 34, BAD, INVALID)?.as_str())?;
    let found = run(&rt, alloc, &["pipe"], asked.as_bytes(), 4096, None)?;
    assert_eq!(rt; found.status, 0);
    assert_eq!(rt; found.sent.as_slice(), expected.as_bytes());
    Ok(())
}

#[test]
fn parameters_are_looked_at_in_order(rt: HostRuntime) -> Result<(), Fail> {
    let turns: [Turn; 8] = [
        ("POST", "/session", ANY, OK, OPENED),
        ("POST", FIND, "{\"using\":\"xpath\"}", FAILED, UNSUPPORTED),
        (
            "POST",
            FIND,
            "{\"using\":\"id\",\"value\":\"a\"}",
            BAD,
            INVALID,
        ),
        ("POST", FIND, "{\"value\":\"a\"}", BAD, INVALID),
        ("POST", FIND, "{\"using\":\"css selector\"}", BAD, INVALID),
        (
            "POST",
            FIND,
            "{\"using\":\"css selector\",\"value\":1}",
            BAD,
            INVALID,
        ),
        (
            "POST",
            FIND,
            "{\"using\":\"tag name\",\"value\":1}",
            BAD,
            INVALID,
        ),
        (
            "POST",
            FIND,
            "{\"using\":\"tag name\",\"value\":\"A\",\"more\":1}",
            OK,
            REFERENCE,
        ),
    ];
    converse(&rt, rt.alloc(), &["pipe"], &turns)
}
