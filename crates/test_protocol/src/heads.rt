//! Head blocks, request lines, headers and codings, as tests.

use crate::framed::{Row, each};
use std::test::Fail;

const LINES_AND_BLOCKS: [Row; 12] = [
    // a plain head
    (
        b"GET /status HTTP/1.1\r\nHost: h\r\n\r\n",
        "GET /status false |More",
    ),
    // a line ends with LF alone too
    (
        b"GET /status HTTP/1.1\nHost: h\n\n",
        "GET /status false |More",
    ),
    // line ends may be mixed
    (
        b"GET /status HTTP/1.1\nHost: h\r\n\n",
        "GET /status false |More",
    ),
    // leading empty lines belong to the block
    (
        b"\r\n\n\r\nGET /status HTTP/1.1\r\n\r\n",
        "GET /status false |More",
    ),
    // no bytes
    (b"", "More"),
    // the empty line hasn't ended: cut between CR and LF
    (b"GET / HTTP/1.1\r\n\r", "More"),
    // no empty line yet
    (b"GET / HTTP/1.1\r\n", "More"),
    // CR CR LF is a line that isn't empty (its text is a CR), so the block hasn't ended
    (b"GET / HTTP/1.1\r\n\r\r\n", "More"),
    // now it has, and a lone CR is no header
    (b"GET / HTTP/1.1\r\n\r\r\n\r\n", "Head"),
    // nothing is refused before a whole block or 16,384 bytes
    (b"\0\0", "More"),
    // a whole block that is no head
    (b"\0\n\n", "Head"),
    // the empty line between belongs to the second block
    (
        b"GET /a HTTP/1.1\r\n\r\n\r\nGET /b HTTP/1.1\r\n\r\n",
        "GET /a false |GET /b false |More",
    ),
];

#[test]
fn lines_and_blocks(rt: HostRuntime) -> Result<(), Fail> {
    each(&rt, rt.alloc(), &LINES_AND_BLOCKS)
}

const REQUEST_LINES: [Row; 19] = [
    // a method is a token, kept as written
    (b"get /status HTTP/1.1\r\n\r\n", "get /status false |More"),
    // any token is a method
    (b"M-SEARCH /x HTTP/1.1\r\n\r\n", "M-SEARCH /x false |More"),
    // `(` is no token character
    (b"G(T / HTTP/1.1\r\n\r\n", "Head"),
    // no method
    (b" / HTTP/1.1\r\n\r\n", "Head"),
    // a space before the method
    (b" GET / HTTP/1.1\r\n\r\n", "Head"),
    // two spaces
    (b"GET  / HTTP/1.1\r\n\r\n", "Head"),
    // a tab in place of the space
    (b"GET\t/ HTTP/1.1\r\n\r\n", "Head"),
    // the target keeps its query
    (
        b"GET /status?a=1&b HTTP/1.1\r\n\r\n",
        "GET /status?a=1&b false |More",
    ),
    // a target needs no slash
    (b"GET status HTTP/1.1\r\n\r\n", "GET status false |More"),
    // likewise
    (b"OPTIONS * HTTP/1.1\r\n\r\n", "OPTIONS * false |More"),
    // likewise
    (
        b"GET http://h/status HTTP/1.1\r\n\r\n",
        "GET http://h/status false |More",
    ),
    // a target of UTF-8 beyond ASCII
    (b"GET /\xc3\xa9 HTTP/1.1\r\n\r\n", "GET /\u{e9} false |More"),
    // a target that isn't UTF-8
    (b"GET /\xff HTTP/1.1\r\n\r\n", "Head"),
    // NUL in the target
    (b"GET /\0 HTTP/1.1\r\n\r\n", "Head"),
    // DEL in the target
    (b"GET /a\x7f HTTP/1.1\r\n\r\n", "Head"),
    // no version
    (b"GET /status\r\n\r\n", "Head"),
    // only HTTP/1.0 and HTTP/1.1
    (b"GET /status HTTP/1.2\r\n\r\n", "Head"),
    // the version is in capitals
    (b"GET /status http/1.1\r\n\r\n", "Head"),
    // a space behind the version
    (b"GET / HTTP/1.1 \r\n\r\n", "Head"),
];

#[test]
fn request_lines(rt: HostRuntime) -> Result<(), Fail> {
    each(&rt, rt.alloc(), &REQUEST_LINES)
}

#[test]
fn headers(rt: HostRuntime) -> Result<(), Fail> {
    let rows: [Row; 9] = [
        // obsolete folding
        (b"GET / HTTP/1.1\r\nA: b\r\n c\r\n\r\n", "Head"),
        // a space before the colon
        (b"GET / HTTP/1.1\r\nHost : h\r\n\r\n", "Head"),
        // no colon
        (b"GET / HTTP/1.1\r\nHost\r\n\r\n", "Head"),
        // no name
        (b"GET / HTTP/1.1\r\n: h\r\n\r\n", "Head"),
        // values may be empty
        (
            b"GET / HTTP/1.1\r\nA:\r\nB: \t\r\n\r\n",
            "GET / false |More",
        ),
        // bytes 0x80 to 0xFF may stand in a value
        (b"GET / HTTP/1.1\r\nA: \xff\r\n\r\n", "GET / false |More"),
        // a control byte in a value
        (b"GET / HTTP/1.1\r\nA: \x01\r\n\r\n", "Head"),
        // a CR inside a value
        (b"GET / HTTP/1.1\r\nA: b\rc\r\n\r\n", "Head"),
        // no head, so no Coding
        (b"GET / HTTP/1.1\r\nTransfer-Encoding\r\n\r\n", "Head"),
    ];
    each(&rt, rt.alloc(), &rows)
}

#[test]
fn codings(rt: HostRuntime) -> Result<(), Fail> {
    let rows: [Row; 4] = [
        // any coding, also identity
        (
            b"POST / HTTP/1.1\r\nTransfer-Encoding: identity\r\n\r\n",
            "Coding",
        ),
        // also an empty one, on any method, by its name in any case
        (b"GET / HTTP/1.1\r\ntransfer-encoding:\r\n\r\n", "Coding"),
        // Coding before Length
        (
            b"POST / HTTP/1.1\r\nContent-Length: x\r\nTransfer-Encoding: chunked\r\n\r\n",
            "Coding",
        ),
        // Coding before BodyLong
        (
            b"POST / HTTP/1.1\r\nContent-Length: 4194305\r\nTransfer-Encoding: chunked\r\n\r\n",
            "Coding",
        ),
    ];
    each(&rt, rt.alloc(), &rows)
}
