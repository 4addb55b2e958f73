//! The worked site under a clock that is given and under the whole server, as tests.

use crate::turns::{
    ANY, FIND, FIRST, NO_ELEMENT, NOT_FOUND, NULL, OK, OPENED, REFERENCE, Turn, converse_over,
};
use page_file::read_site;
use remote_end::Remote;
use std::alloc::Global;
use std::process::Abort;
use std::test::Fail;
use timed::{W_JSON, W_SITE, in_memory};
use wd_http::{ListClock, Request, TimeList};
use wd_json::{WdBytes, WdText, write};
use webdriverd::NoScripts;

pub const STALE: &str =
    r#"{"value":{"error":"stale element reference","message":"stale element reference","stacktrace":""}}"#;

const NAME: &str =
    "/session/00000000-0001-8000-8000-000100000000/element/00000000-0001-8002-8000-000100000002/name";

const TITLE: &str = "/session/00000000-0001-8000-8000-000100000000/title";

const URL: &str = "/session/00000000-0001-8000-8000-000100000000/url";

/// The remote end of the worked site, as run 1.
fn worked(alloc: Global) -> Result<Remote, Fail> {
    remote_over(alloc, W_JSON)
}

/// The remote end of a site of one page, as run 1.
pub fn remote_over(alloc: Global, page: &str) -> Result<Remote, Fail> {
    let mut files = in_memory(alloc, &[("w.site", W_SITE), ("w.json", page)], None)?;
    let site = read_site(alloc, &mut files, "w.site")?;
    Ok(Remote::new(alloc, site, WdText::of(alloc, "wdpage")?, 1)?)
}

/// A clock that gives these readings.
pub fn clock(alloc: Global, readings: &[u64]) -> Result<ListClock, Fail> {
    let mut numbers = TimeList::new(alloc);
    for reading in readings {
        numbers.push(*reading)?;
    }
    Ok(ListClock::new(numbers))
}

/// A request by its method, its target and its body.
pub fn request_of(alloc: Global, method: &str, target: &str, body: &str) -> Result<Request, Fail> {
    Ok(Request {
        method: WdText::of(alloc, method)?,
        target: WdText::of(alloc, target)?,
        close: false,
        body: WdBytes::of(alloc, body.as_bytes())?,
    })
}

/// Answers a request, and compares the reply.
pub fn asked(
    rt: &impl Abort,
    alloc: Global,
    remote: &mut Remote,
    clock: &mut ListClock,
    ask: (&str, &str, &str),
    reply: (u16, &str),
) -> Result<(), Fail> {
    let request = request_of(alloc, ask.0, ask.1, ask.2)?;
    assert!(rt; remote.is_ready());
    let found = remote.answer(&request, clock, &mut NoScripts)?;
    assert_eq!(rt; found.status, reply.0);
    let text = write(alloc, &found.body)?;
    assert_eq!(rt; text.as_slice(), reply.1.as_bytes());
    Ok(())
}

#[test]
fn what_comes_at_a_moment_is_found_then_and_is_stale_when_it_goes(
    rt: HostRuntime,
) -> Result<(), Fail> {
    let alloc = rt.alloc();
    let mut remote = worked(alloc)?;
    let mut clock = clock(alloc, &[0, 39, 40, 60])?;
    let em = r#"{"using":"tag name","value":"em"}"#;
    let steps: [((&str, &str, &str), (u16, &str)); 4] = [
        (("POST", "/session", ANY), (200, OPENED)),
        (("POST", FIND, em), (404, NO_ELEMENT)),
        (("POST", FIND, em), (200, REFERENCE)),
        (("GET", NAME, ""), (404, STALE)),
    ];
    for (ask, reply) in steps {
        asked(&rt, alloc, &mut remote, &mut clock, ask, reply)?;
    }
    Ok(())
}

/// The conversation of examples/site.http: no moment passes in it.
#[test]
fn the_worked_site_is_served(rt: HostRuntime) -> Result<(), Fail> {
    let alloc = rt.alloc();
    let turns: [Turn; 7] = [
        ("POST", "/session", ANY, OK, OPENED),
        ("GET", TITLE, "", OK, r#"{"value":""}"#),
        ("GET", URL, "", OK, r#"{"value":"http://w.test/"}"#),
        (
            "POST",
            FIND,
            r#"{"using":"tag name","value":"p"}"#,
            OK,
            REFERENCE,
        ),
        ("GET", NAME, "", OK, r#"{"value":"p"}"#),
        (
            "POST",
            FIND,
            r#"{"using":"tag name","value":"em"}"#,
            NOT_FOUND,
            NO_ELEMENT,
        ),
        ("DELETE", FIRST, "", OK, NULL),
    ];
    let files = [("w.site", W_SITE), ("w.json", W_JSON)];
    converse_over(&rt, alloc, &["pipe", "w.site"], &files, &turns)
}
