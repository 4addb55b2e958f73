//! Heads as long as may be or longer, as a test.

use crate::framed::framed_with_repeats;
use std::test::Fail;

/// Bytes of which a part stands several times: what stands before it, the part, how often, and what follows.
type LongRow = (
    &'static [u8],
    &'static [u8],
    usize,
    &'static [u8],
    &'static str,
);

const LONG_HEADS: [LongRow; 15] = [
    // empty lines, fewer than 16,384 bytes
    (b"", b"\n", 16383, b"", "More"),
    // 16,384 bytes of empty lines hold no whole block
    (b"", b"\n", 16384, b"", "HeadLong"),
    // 16,383 bytes without an end
    (b"", b"a", 16383, b"", "More"),
    // 16,384 bytes without an end
    (b"", b"a", 16384, b"", "HeadLong"),
    // a block of exactly 16,384 bytes is good
    (
        b"GET / HTTP/1.1\r\nA: ",
        b"x",
        16361,
        b"\r\n\r\n",
        "GET / false |More",
    ),
    // a block of 16,385 bytes: the first 16,384 hold no whole one
    (
        b"GET / HTTP/1.1\r\nA: ",
        b"x",
        16362,
        b"\r\n\r\n",
        "HeadLong",
    ),
    // leading empty lines count: 16,366 + 18 = 16,384
    (
        b"",
        b"\r\n",
        8183,
        b"GET / HTTP/1.1\r\n\r\n",
        "GET / false |More",
    ),
    // 16,368 + 18 = 16,386
    (b"", b"\r\n", 8184, b"GET / HTTP/1.1\r\n\r\n", "HeadLong"),
    // the 16,384 bytes are counted from the first byte not taken
    (
        b"GET /a HTTP/1.1\r\n\r\n",
        b"a",
        16384,
        b"",
        "GET /a false |HeadLong",
    ),
    // 64 headers
    (
        b"GET / HTTP/1.1\r\n",
        b"a: b\r\n",
        64,
        b"\r\n",
        "GET / false |More",
    ),
    // 65 headers
    (b"GET / HTTP/1.1\r\n", b"a: b\r\n", 65, b"\r\n", "Head"),
    // 65 headers: Head comes before Coding
    (
        b"GET / HTTP/1.1\r\nTransfer-Encoding: chunked\r\n",
        b"a: b\r\n",
        64,
        b"\r\n",
        "Head",
    ),
    // 64 headers, one of them Transfer-Encoding
    (
        b"GET / HTTP/1.1\r\nTransfer-Encoding: chunked\r\n",
        b"a: b\r\n",
        63,
        b"\r\n",
        "Coding",
    ),
    // 200 digits that write 0
    (
        b"POST /a HTTP/1.1\r\nContent-Length: ",
        b"0",
        200,
        b"\r\n\r\n",
        "POST /a false |More",
    ),
    // 200 digits, without overflow
    (
        b"POST /a HTTP/1.1\r\nContent-Length: ",
        b"9",
        200,
        b"\r\n\r\n",
        "BodyLong",
    ),
];

#[test]
fn long_heads(rt: HostRuntime) -> Result<(), Fail> {
    for (front, part, times, rest, expected) in LONG_HEADS {
        let found = framed_with_repeats(&rt, rt.alloc(), front, part, times, rest)?;
        assert_eq!(rt; found.as_str(), expected);
    }
    Ok(())
}
