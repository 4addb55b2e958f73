//! Conversations as rows of requests and responses, and the texts that they share.

use crate::conversation::run_over;
use std::alloc::{AllocError, Global};
use std::process::Abort;
use std::test::Fail;
use timed::{Named, in_memory};

/// A request by its method, its target and its body, and the status, phrase and body of the response.
pub type Turn = (
    &'static str,
    &'static str,
    &'static str,
    &'static str,
    &'static str,
);

/// The bytes of a request. A body is sent with its length.
pub fn request(
    alloc: Global,
    method: &str,
    target: &str,
    body: &str,
) -> Result<String, AllocError> {
    let length = body.len();
    if method == "POST" {
        format!(in alloc;
            "{method} {target} HTTP/1.1\r\nHost: h\r\nContent-Length: {length}\r\n\r\n{body}"
        )
    } else {
        format!(in alloc; "{method} {target} HTTP/1.1\r\nHost: h\r\n\r\n")
    }
}

/// The bytes of a response with this status and phrase.
pub fn response(alloc: Global, status: &str, body: &str) -> Result<String, AllocError> {
    let length = body.len();
    format!(in alloc;
        "HTTP/1.1 {status}\r\nContent-Type: application/json; charset=utf-8\r\nCache-Control: no-cache\r\nContent-Length: {length}\r\n\r\n{body}"
    )
}

/// All of the requests on one connection, and all of the responses, where there are no files.
pub fn converse(
    rt: &impl Abort,
    alloc: Global,
    words: &[&str],
    turns: &[Turn],
) -> Result<(), Fail> {
    converse_over(rt, alloc, words, &[], turns)
}

/// All of the requests on one connection, and all of the responses, over these files.
pub fn converse_over(
    rt: &impl Abort,
    alloc: Global,
    words: &[&str],
    files: &[Named],
    turns: &[Turn],
) -> Result<(), Fail> {
    let mut asked = String::new(alloc);
    let mut expected = String::new(alloc);
    for (method, target, body, status, answer) in turns {
        asked.push_str(request(alloc, method, target, body)?.as_str())?;
        expected.push_str(response(alloc, status, answer)?.as_str())?;
    }
    let mut files = in_memory(alloc, files, None)?;
    let found = run_over(rt, alloc, words, &mut files, asked.as_bytes(), 4096, None)?;
    assert_eq!(rt; found.status, 0);
    assert_eq!(rt; found.sent.as_slice(), expected.as_bytes());
    assert_eq!(rt; found.taken, turns.len());
    Ok(())
}

pub const OK: &str = "200 OK";

pub const BAD: &str = "400 Bad Request";

pub const NOT_FOUND: &str = "404 Not Found";

pub const FAILED: &str = "500 Internal Server Error";

/// The first session and the second, and what New Session answers for the first where nothing is asked for.
pub const FIRST: &str = "/session/00000000-0001-8000-8000-000100000000";

pub const OPENED: &str =
    "{\"value\":{\"capabilities\":{\"acceptInsecureCerts\":false,\"browserName\":\"wdpage\",\"browserVersion\":\"1.0\",\"pageLoadStrategy\":\"normal\",\"platformName\":\"linux\",\"proxy\":{},\"setWindowRect\":true,\"strictFileInteractability\":false,\"timeouts\":{\"implicit\":0,\"pageLoad\":300000,\"script\":30000},\"unhandledPromptBehavior\":\"dismiss and notify\"},\"sessionId\":\"00000000-0001-8000-8000-000100000000\"}}";

pub const NULL: &str = "{\"value\":null}";

pub const REFERENCE: &str =
    "{\"value\":{\"element-6066-11e4-a52e-4f735466cecf\":\"00000000-0001-8002-8000-000100000002\"}}";

pub const NO_ELEMENT: &str =
    "{\"value\":{\"error\":\"no such element\",\"message\":\"no such element\",\"stacktrace\":\"\"}}";

pub const NO_SESSION: &str =
    "{\"value\":{\"error\":\"invalid session id\",\"message\":\"invalid session id\",\"stacktrace\":\"\"}}";

pub const INVALID: &str =
    "{\"value\":{\"error\":\"invalid argument\",\"message\":\"invalid argument\",\"stacktrace\":\"\"}}";

pub const UNSUPPORTED: &str =
    "{\"value\":{\"error\":\"unsupported operation\",\"message\":\"unsupported operation\",\"stacktrace\":\"\"}}";

pub const ANY: &str = "{\"capabilities\":{}}";

pub const FIND: &str = "/session/00000000-0001-8000-8000-000100000000/element";
