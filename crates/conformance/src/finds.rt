//! Conversations in which elements, lists, links and shadow roots are found, as tests.

use crate::turns::{
    ANY, BAD, FAILED, FIND, INVALID, NO_ELEMENT, NOT_FOUND, OK, OPENED, REFERENCE, Turn,
    UNSUPPORTED, converse, converse_over,
};
use crate::worked_site::{STALE, asked, clock, remote_over};
use std::test::Fail;
use timed::{W_JSON, W_SITE};

const FIND_ALL: &str = "/session/00000000-0001-8000-8000-000100000000/elements";

const FIRST_TEXT: &str =
    "/session/00000000-0001-8000-8000-000100000000/element/00000000-0001-8002-8000-000100000002/text";

const FIRST_SHADOW: &str =
    "/session/00000000-0001-8000-8000-000100000000/element/00000000-0001-8002-8000-000100000002/shadow";

const SECOND: &str =
    r#"{"value":{"element-6066-11e4-a52e-4f735466cecf":"00000000-0001-8002-8000-000100000003"}}"#;

const THIRD: &str =
    r#"{"value":{"element-6066-11e4-a52e-4f735466cecf":"00000000-0001-8002-8000-000100000004"}}"#;

const FOURTH: &str =
    r#"{"value":{"element-6066-11e4-a52e-4f735466cecf":"00000000-0001-8002-8000-000100000005"}}"#;

const ROOT: &str =
    r#"{"value":{"shadow-6066-11e4-a52e-4f735466cecf":"00000000-0001-8003-8000-000100000003"}}"#;

const NO_ROOT: &str =
    r#"{"value":{"error":"no such shadow root","message":"no such shadow root","stacktrace":""}}"#;

const DETACHED: &str =
    r#"{"value":{"error":"detached shadow root","message":"detached shadow root","stacktrace":""}}"#;

const NO_SELECTOR: &str =
    r#"{"value":{"error":"invalid selector","message":"invalid selector","stacktrace":""}}"#;

#[test]
fn selectors_find_on_the_worked_site(rt: HostRuntime) -> Result<(), Fail> {
    let turns: [Turn; 9] = [
        ("POST", "/session", ANY, OK, OPENED),
        (
            "POST",
            FIND,
            r#"{"using":"css selector","value":"[id=\"a\\31 b\"]"}"#,
            OK,
            REFERENCE,
        ),
        (
            "POST",
            FIND,
            r##"{"using":"css selector","value":"#\\31 x"}"##,
            OK,
            SECOND,
        ),
        (
            "POST",
            FIND,
            r#"{"using":"css selector","value":"nav > ul li"}"#,
            OK,
            THIRD,
        ),
        (
            "GET",
            "/session/00000000-0001-8000-8000-000100000000/element/00000000-0001-8002-8000-000100000004/name",
            "",
            OK,
            r#"{"value":"li"}"#,
        ),
        (
            "POST",
            FIND,
            r#"{"using":"css selector","value":"div >"}"#,
            BAD,
            NO_SELECTOR,
        ),
        (
            "POST",
            FIND,
            r#"{"using":"xpath","value":"//a"}"#,
            FAILED,
            UNSUPPORTED,
        ),
        (
            "POST",
            FIND,
            r#"{"using":"id","value":"a1b"}"#,
            BAD,
            INVALID,
        ),
        ("GET", FIRST_TEXT, "", OK, r#"{"value":"one two"}"#),
    ];
    let files = [("w.site", W_SITE), ("w.json", W_JSON)];
    converse_over(&rt, rt.alloc(), &["pipe", "w.site"], &files, &turns)
}

#[test]
fn a_shadow_tree_is_found_through_its_root_alone(rt: HostRuntime) -> Result<(), Fail> {
    let turns: [Turn; 8] = [
        ("POST", "/session", ANY, OK, OPENED),
        (
            "POST",
            FIND,
            r##"{"using":"css selector","value":"#under"}"##,
            OK,
            REFERENCE,
        ),
        ("GET", FIRST_SHADOW, "", OK, ROOT),
        (
            "POST",
            FIND,
            r##"{"using":"css selector","value":"#deep"}"##,
            NOT_FOUND,
            NO_ELEMENT,
        ),
        (
            "POST",
            "/session/00000000-0001-8000-8000-000100000000/shadow/00000000-0001-8003-8000-000100000003/element",
            r##"{"using":"css selector","value":"#deep"}"##,
            OK,
            THIRD,
        ),
        (
            "GET",
            "/session/00000000-0001-8000-8000-000100000000/element/00000000-0001-8003-8000-000100000003/text",
            "",
            NOT_FOUND,
            NO_ELEMENT,
        ),
        (
            "POST",
            FIND,
            r##"{"using":"css selector","value":"#over"}"##,
            OK,
            FOURTH,
        ),
        (
            "GET",
            "/session/00000000-0001-8000-8000-000100000000/element/00000000-0001-8002-8000-000100000005/shadow",
            "",
            NOT_FOUND,
            NO_ROOT,
        ),
    ];
    let files = [("w.site", W_SITE), ("w.json", W_JSON)];
    converse_over(&rt, rt.alloc(), &["pipe", "w.site"], &files, &turns)
}

#[test]
fn links_and_lists_are_found(rt: HostRuntime) -> Result<(), Fail> {
    let turns: [Turn; 9] = [
        ("POST", "/session", ANY, OK, OPENED),
        (
            "POST",
            FIND,
            r#"{"using":"link text","value":"again"}"#,
            OK,
            REFERENCE,
        ),
        (
            "POST",
            FIND,
            r#"{"using":"partial link text","value":"gai"}"#,
            OK,
            REFERENCE,
        ),
        (
            "POST",
            FIND,
            r#"{"using":"link text","value":"Again"}"#,
            NOT_FOUND,
            NO_ELEMENT,
        ),
        ("GET", FIRST_TEXT, "", OK, r#"{"value":"again"}"#),
        (
            "POST",
            FIND_ALL,
            r#"{"using":"css selector","value":"a, h1"}"#,
            OK,
            r#"{"value":[{"element-6066-11e4-a52e-4f735466cecf":"00000000-0001-8002-8000-000100000003"},{"element-6066-11e4-a52e-4f735466cecf":"00000000-0001-8002-8000-000100000002"}]}"#,
        ),
        (
            "POST",
            FIND_ALL,
            r#"{"using":"tag name","value":"table"}"#,
            OK,
            r#"{"value":[]}"#,
        ),
        (
            "POST",
            "/session/00000000-0001-8000-8000-000100000000/element/00000000-0001-8002-8000-000100000002/elements",
            r#"{"using":"css selector","value":"a"}"#,
            OK,
            r#"{"value":[]}"#,
        ),
        (
            "POST",
            "/session/00000000-0001-8000-8000-000100000000/shadow/00000000-0001-8002-8000-000100000002/elements",
            r#"{"using":"css selector","value":"a"}"#,
            NOT_FOUND,
            NO_ROOT,
        ),
    ];
    converse(&rt, rt.alloc(), &["pipe"], &turns)
}

/// A page whose host of a shadow tree goes at the moment 10.
const GOES: &str =
    r#"{"wdpage":1,"nodes":[{"tag":"html"},{"tag":"div","up":0},{"shadow":"open","up":1},{"tag":"p","up":2}],"timers":[{"at":10,"do":[["remove",1]]}]}"#;

#[test]
fn a_root_whose_host_goes_is_detached(rt: HostRuntime) -> Result<(), Fail> {
    let alloc = rt.alloc();
    let mut remote = remote_over(alloc, GOES)?;
    let mut clock = clock(alloc, &[0, 0, 0, 9, 10, 10])?;
    let below =
        "/session/00000000-0001-8000-8000-000100000000/shadow/00000000-0001-8003-8000-000100000003/element";
    let p = r#"{"using":"css selector","value":"p"}"#;
    let steps: [((&str, &str, &str), (u16, &str)); 6] = [
        (("POST", "/session", ANY), (200, OPENED)),
        (
            ("POST", FIND, r#"{"using":"tag name","value":"div"}"#),
            (200, REFERENCE),
        ),
        (("GET", FIRST_SHADOW, ""), (200, ROOT)),
        (("POST", below, p), (200, THIRD)),
        (("POST", below, p), (404, DETACHED)),
        (("GET", FIRST_TEXT, ""), (404, STALE)),
    ];
    for (ask, reply) in steps {
        asked(&rt, alloc, &mut remote, &mut clock, ask, reply)?;
    }
    Ok(())
}
