//! Status requests however they are cut, bodies and closings, and the words of `pipe`: as tests.

use crate::conversation::{answered, run};
use crate::repeated::repeated;
use std::test::Fail;

/// A status request, and the response to it.
pub const STATUS: &[u8] = b"GET /status HTTP/1.1\r\nHost: h\r\n\r\n";

pub const READY: &[u8] =
    b"HTTP/1.1 200 OK\r\nContent-Type: application/json; charset=utf-8\r\nCache-Control: no-cache\r\nContent-Length: 42\r\n\r\n{\"value\":{\"message\":\"ready\",\"ready\":true}}";

/// A known path with another method, and the response to it.
pub const POST_STATUS: &[u8] = b"POST /status HTTP/1.1\r\nHost: h\r\n\r\n";

pub const UNKNOWN_METHOD: &[u8] =
    b"HTTP/1.1 405 Method Not Allowed\r\nContent-Type: application/json; charset=utf-8\r\nCache-Control: no-cache\r\nContent-Length: 79\r\n\r\n{\"value\":{\"error\":\"unknown method\",\"message\":\"unknown method\",\"stacktrace\":\"\"}}";

/// An unknown path, and the response to it.
pub const STATU: &[u8] = b"GET /statu HTTP/1.1\r\nHost: h\r\n\r\n";

pub const UNKNOWN_COMMAND: &[u8] =
    b"HTTP/1.1 404 Not Found\r\nContent-Type: application/json; charset=utf-8\r\nCache-Control: no-cache\r\nContent-Length: 81\r\n\r\n{\"value\":{\"error\":\"unknown command\",\"message\":\"unknown command\",\"stacktrace\":\"\"}}";

/// The response to a body that is too long.
const BODY_TOO_LONG: &[u8] =
    b"HTTP/1.1 413 Payload Too Large\r\nContent-Type: application/json; charset=utf-8\r\nCache-Control: no-cache\r\nContent-Length: 80\r\nConnection: close\r\n\r\n{\"value\":{\"error\":\"invalid argument\",\"message\":\"body too long\",\"stacktrace\":\"\"}}";

/// The response to a command of a session that isn't open, and to a body that is no JSON object or names no
/// capabilities.
const NO_SESSION: &[u8] =
    b"HTTP/1.1 404 Not Found\r\nContent-Type: application/json; charset=utf-8\r\nCache-Control: no-cache\r\nContent-Length: 87\r\n\r\n{\"value\":{\"error\":\"invalid session id\",\"message\":\"invalid session id\",\"stacktrace\":\"\"}}";

const NO_OBJECT: &[u8] =
    b"HTTP/1.1 400 Bad Request\r\nContent-Type: application/json; charset=utf-8\r\nCache-Control: no-cache\r\nContent-Length: 83\r\n\r\n{\"value\":{\"error\":\"invalid argument\",\"message\":\"invalid argument\",\"stacktrace\":\"\"}}";

#[test]
fn a_request_is_answered_however_it_is_cut(rt: HostRuntime) -> Result<(), Fail> {
    let rows: [(&[u8], &[u8], usize); 8] = [
        (STATUS, READY, 1),
        (b"", b"", 0),
        (POST_STATUS, UNKNOWN_METHOD, 1),
        (STATU, UNKNOWN_COMMAND, 1),
        (b"DELETE /session/a HTTP/1.1\r\n\r\n", NO_SESSION, 1),
        (b"POST /session HTTP/1.1\r\n\r\n", NO_OBJECT, 1),
        (
            b"POST /session HTTP/1.1\r\nContent-Length: 6\r\n\r\n{\"a\":1",
            NO_OBJECT,
            1,
        ),
        (
            b"POST /session HTTP/1.1\r\nContent-Length: 7\r\n\r\n{\"a\":1}",
            NO_OBJECT,
            1,
        ),
    ];
    for (bytes, expected, taken) in rows {
        for most in [1, 2, 7, 100, 4096] {
            let run = answered(&rt, rt.alloc(), bytes, most)?;
            assert_eq!(rt; run.status, 0);
            assert_eq!(rt; run.sent.as_slice(), expected);
            assert_eq!(rt; run.taken, taken);
            assert_eq!(rt; run.printed.len(), 0);
        }
    }
    Ok(())
}

#[test]
fn a_body_too_long_ends_the_connection(rt: HostRuntime) -> Result<(), Fail> {
    let alloc = rt.alloc();
    let head = b"POST /a HTTP/1.1\r\nContent-Length: 4194305\r\n\r\n";
    let run = answered(&rt, alloc, head, 4096)?;
    assert_eq!(rt; run.sent.as_slice(), BODY_TOO_LONG);
    // two hundred digits
    let digits = repeated(
        alloc,
        b"POST /a HTTP/1.1\r\nContent-Length: ",
        b"9",
        200,
        b"\r\n\r\n",
    )?;
    let run = answered(&rt, alloc, digits.as_slice(), 4096)?;
    assert_eq!(rt; run.sent.as_slice(), BODY_TOO_LONG);
    // in the middle of a connection it comes after the earlier replies, and what follows isn't looked at
    let middle = repeated(alloc, STATUS, head, 1, STATUS)?;
    let run = answered(&rt, alloc, middle.as_slice(), 4096)?;
    let expected = repeated(alloc, READY, BODY_TOO_LONG, 1, b"")?;
    assert_eq!(rt; run.sent.as_slice(), expected.as_slice());
    assert_eq!(rt; run.taken, 1);
    Ok(())
}

#[test]
fn the_longest_body_is_read(rt: HostRuntime) -> Result<(), Fail> {
    let alloc = rt.alloc();
    let front = b"POST /a HTTP/1.1\r\nContent-Length: 4194304\r\n\r\n";
    // whole, and then cut off by the end of input
    let whole = repeated(alloc, front, b"x", 4_194_304, STATUS)?;
    let run = answered(&rt, alloc, whole.as_slice(), 4096)?;
    let expected = repeated(alloc, UNKNOWN_COMMAND, READY, 1, b"")?;
    assert_eq!(rt; run.sent.as_slice(), expected.as_slice());
    let short = repeated(alloc, front, b"x", 4_194_303, b"")?;
    let run = answered(&rt, alloc, short.as_slice(), 4096)?;
    assert_eq!(rt; run.sent.len(), 0);
    assert_eq!(rt; run.taken, 0);
    Ok(())
}

#[test]
fn a_request_that_closes_is_the_last(rt: HostRuntime) -> Result<(), Fail> {
    let alloc = rt.alloc();
    let bytes = b"GET /status HTTP/1.1\r\nConnection: close\r\n\r\nGET /status HTTP/1.1\r\n\r\n";
    let run = answered(&rt, alloc, bytes, 4096)?;
    let closing: &[u8] =
        b"HTTP/1.1 200 OK\r\nContent-Type: application/json; charset=utf-8\r\nCache-Control: no-cache\r\nContent-Length: 42\r\nConnection: close\r\n\r\n{\"value\":{\"message\":\"ready\",\"ready\":true}}";
    assert_eq!(rt; run.sent.as_slice(), closing);
    assert_eq!(rt; run.taken, 1);
    Ok(())
}

#[test]
fn bad_words_are_refused(rt: HostRuntime) -> Result<(), Fail> {
    let alloc = rt.alloc();
    let rows: [&[&str]; 13] = [
        &[],
        &["pip"],
        &["pipe", "pipe", "pipe"],
        &["listen"],
        &["--help"],
        &["pipe", "--name"],
        &["pipe", "--name="],
        &["pipe", "--name", ""],
        &["pipe", "--name", "-x"],
        &["pipe", "--name", "--"],
        &["pipe", "--port", "1"],
        &["--name", "a", "pipe"],
        &["pipe", "--name", "a", "--name", "b"],
    ];
    for words in rows {
        let run = run(&rt, alloc, words, STATUS, 3, None)?;
        assert_eq!(rt; run.status, 2);
        assert_eq!(rt; run.sent.len(), 0);
        assert_eq!(rt;
            run.printed.as_slice(),
            b"webdriverd: bad words\n".as_slice()
        );
    }
    Ok(())
}

#[test]
fn good_words_are_served(rt: HostRuntime) -> Result<(), Fail> {
    let alloc = rt.alloc();
    let rows: [&[&str]; 7] = [
        &["pipe"],
        &["pipe", "--"],
        &["pipe", "--name", "a"],
        &["pipe", "--name", "-"],
        &["pipe", "--name=a"],
        &["pipe", "--name=-x"],
        &["pipe", "--name=--name=ä"],
    ];
    for words in rows {
        let run = run(&rt, alloc, words, STATUS, 3, None)?;
        assert_eq!(rt; run.status, 0);
        assert_eq!(rt; run.sent.as_slice(), READY);
        assert_eq!(rt; run.printed.len(), 0);
    }
    Ok(())
}
