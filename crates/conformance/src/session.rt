//! Conversations that open, use and end sessions, up to the limit of sessions: as tests.

use crate::conversation::run;
use crate::turns::{
    ANY, BAD, FAILED, FIND, FIRST, INVALID, NO_ELEMENT, NO_SESSION, NOT_FOUND, NULL, OK, OPENED,
    REFERENCE, Turn, converse, request, response,
};
use std::test::Fail;

const CHROME: &str =
    "{\"value\":{\"capabilities\":{\"acceptInsecureCerts\":false,\"browserName\":\"chrome\",\"browserVersion\":\"1.0\",\"pageLoadStrategy\":\"normal\",\"platformName\":\"linux\",\"proxy\":{},\"setWindowRect\":true,\"strictFileInteractability\":false,\"timeouts\":{\"implicit\":0,\"pageLoad\":300000,\"script\":30000},\"unhandledPromptBehavior\":\"dismiss and notify\"},\"sessionId\":\"00000000-0001-8000-8000-000100000000\"}}";

const WAITS: &str =
    "{\"value\":{\"capabilities\":{\"acceptInsecureCerts\":false,\"browserName\":\"wdpage\",\"browserVersion\":\"1.0\",\"pageLoadStrategy\":\"normal\",\"platformName\":\"linux\",\"proxy\":{},\"setWindowRect\":true,\"strictFileInteractability\":false,\"timeouts\":{\"implicit\":7,\"pageLoad\":300000,\"script\":30000},\"unhandledPromptBehavior\":\"dismiss and notify\"},\"sessionId\":\"00000000-0001-8000-8000-000100000000\"}}";

const NOT_CREATED: &str =
    "{\"value\":{\"error\":\"session not created\",\"message\":\"session not created\",\"stacktrace\":\"\"}}";

const CHROMEDRIVER: &str =
    "{\"capabilities\":{\"firstMatch\":[{}],\"alwaysMatch\":{\"browserName\":\"chrome\",\"pageLoadStrategy\":\"normal\",\"goog:chromeOptions\":{\"extensions\":[],\"args\":[]}}}}";

const NAME: &str =
    "/session/00000000-0001-8000-8000-000100000000/element/00000000-0001-8002-8000-000100000002/name";

const TITLE: &str = "/session/00000000-0001-8000-8000-000100000000/title";

const URL: &str = "/session/00000000-0001-8000-8000-000100000000/url";

const WINDOW: &str = "/session/00000000-0001-8000-8000-000100000000/window";

const HANDLE: &str = "{\"value\":\"00000000-0001-8001-8000-000100000001\"}";

#[test]
fn an_element_is_found_named_and_gone_with_its_session(rt: HostRuntime) -> Result<(), Fail> {
    let turns: [Turn; 10] = [
        ("POST", "/session", ANY, OK, OPENED),
        ("GET", WINDOW, "", OK, HANDLE),
        ("GET", TITLE, "", OK, "{\"value\":\"Page\"}"),
        ("GET", URL, "", OK, "{\"value\":\"http://page.test/\"}"),
        (
            "POST",
            FIND,
            "{\"using\":\"tag name\",\"value\":\"a\"}",
            OK,
            REFERENCE,
        ),
        (
            "POST",
            FIND,
            "{\"using\":\"tag name\",\"value\":\"a\"}",
            OK,
            REFERENCE,
        ),
        ("GET", NAME, "", OK, "{\"value\":\"a\"}"),
        (
            "POST",
            FIND,
            "{\"using\":\"tag name\",\"value\":\"table\"}",
            NOT_FOUND,
            NO_ELEMENT,
        ),
        ("DELETE", FIRST, "", OK, NULL),
        ("GET", NAME, "", NOT_FOUND, NO_SESSION),
    ];
    converse(&rt, rt.alloc(), &["pipe"], &turns)
}

#[test]
fn a_named_browser_is_matched(rt: HostRuntime) -> Result<(), Fail> {
    let turns: [Turn; 1] = [("POST", "/session", CHROMEDRIVER, OK, CHROME)];
    converse(&rt, rt.alloc(), &["pipe", "--name", "chrome"], &turns)?;
    converse(&rt, rt.alloc(), &["pipe", "--name=chrome"], &turns)?;
    let turns: [Turn; 1] = [("POST", "/session", CHROMEDRIVER, FAILED, NOT_CREATED)];
    converse(&rt, rt.alloc(), &["pipe"], &turns)
}

#[test]
fn capabilities_are_processed(rt: HostRuntime) -> Result<(), Fail> {
    let turns: [Turn; 9] = [
        (
            "POST",
            "/session",
            "{\"capabilities\":{\"alwaysMatch\":{\"browserName\":\"wdpage\"},\"firstMatch\":[{\"browserName\":\"wdpage\"}]}}",
            BAD,
            INVALID,
        ),
        (
            "POST",
            "/session",
            "{\"capabilities\":{\"alwaysMatch\":{\"foo\":1}}}",
            BAD,
            INVALID,
        ),
        (
            "POST",
            "/session",
            "{\"capabilities\":{\"firstMatch\":[]}}",
            BAD,
            INVALID,
        ),
        ("POST", "/session", "{}", BAD, INVALID),
        ("POST", "/session", "[]", BAD, INVALID),
        (
            "POST",
            "/session",
            "{\"capabilities\":{\"alwaysMatch\":{\"setWindowRect\":false}}}",
            FAILED,
            NOT_CREATED,
        ),
        (
            "POST",
            "/session",
            "{\"capabilities\":{\"firstMatch\":[{\"browserName\":\"x\"},{\"timeouts\":{\"implicit\":7}}]}}",
            OK,
            WAITS,
        ),
        ("DELETE", FIRST, "", OK, NULL),
        ("DELETE", FIRST, "", NOT_FOUND, NO_SESSION),
    ];
    converse(&rt, rt.alloc(), &["pipe"], &turns)?;
    let turns: [Turn; 1] = [(
        "POST",
        "/session",
        "{\"capabilities\":{\"alwaysMatch\":{\"browserName\":null}}}",
        OK,
        OPENED,
    )];
    converse(&rt, rt.alloc(), &["pipe"], &turns)
}

#[test]
fn references_belong_to_their_session(rt: HostRuntime) -> Result<(), Fail> {
    let second =
        "{\"value\":{\"capabilities\":{\"acceptInsecureCerts\":false,\"browserName\":\"wdpage\",\"browserVersion\":\"1.0\",\"pageLoadStrategy\":\"normal\",\"platformName\":\"linux\",\"proxy\":{},\"setWindowRect\":true,\"strictFileInteractability\":false,\"timeouts\":{\"implicit\":0,\"pageLoad\":300000,\"script\":30000},\"unhandledPromptBehavior\":\"dismiss and notify\"},\"sessionId\":\"00000000-0001-8000-8000-000200000000\"}}";
    let turns: [Turn; 6] = [
        ("POST", "/session", ANY, OK, OPENED),
        (
            "POST",
            FIND,
            "{\"using\":\"tag name\",\"value\":\"h1\"}",
            OK,
            REFERENCE,
        ),
        (
            "GET",
            "/session/00000000-0001-8000-8000-000100000000/element/abc/name",
            "",
            NOT_FOUND,
            NO_ELEMENT,
        ),
        ("POST", "/session", ANY, OK, second),
        (
            "GET",
            "/session/00000000-0001-8000-8000-000200000000/element/00000000-0001-8002-8000-000100000002/name",
            "",
            NOT_FOUND,
            NO_ELEMENT,
        ),
        ("GET", NAME, "", OK, "{\"value\":\"h1\"}"),
    ];
    converse(&rt, rt.alloc(), &["pipe"], &turns)
}

#[test]
fn a_ninth_session_is_refused(rt: HostRuntime) -> Result<(), Fail> {
    let alloc = rt.alloc();
    let front =
        "{\"value\":{\"capabilities\":{\"acceptInsecureCerts\":false,\"browserName\":\"wdpage\",\"browserVersion\":\"1.0\",\"pageLoadStrategy\":\"normal\",\"platformName\":\"linux\",\"proxy\":{},\"setWindowRect\":true,\"strictFileInteractability\":false,\"timeouts\":{\"implicit\":0,\"pageLoad\":300000,\"script\":30000},\"unhandledPromptBehavior\":\"dismiss and notify\"},\"sessionId\":\"00000000-0001-8000-8000-000";
    let mut asked = String::new(alloc);
    let mut expected = String::new(alloc);
    for number in 1..9 {
        asked.push_str(request(alloc, "POST", "/session", ANY)?.as_str())?;
        let body = format!(in alloc; "{front}{number}00000000\"}}}}")?;
        expected.push_str(response(alloc, OK, body.as_str())?.as_str())?;
    }
    // the limit comes before the parameters
    asked.push_str(request(alloc, "POST", "/session", "{}")?.as_str())?;
    expected.push_str(response(alloc, FAILED, NOT_CREATED)?.as_str())?;
    asked.push_str(request(alloc, "GET", "/status", "")?.as_str())?;
    let full = "{\"value\":{\"message\":\"session limit reached\",\"ready\":false}}";
    expected.push_str(response(alloc, OK, full)?.as_str())?;
    let found = run(&rt, alloc, &["pipe"], asked.as_bytes(), 4096, None)?;
    assert_eq!(rt; found.sent.as_slice(), expected.as_bytes());
    Ok(())
}
