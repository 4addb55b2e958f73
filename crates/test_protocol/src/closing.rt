//! Whether a request closes its connection, as a test.

use crate::framed::{Row, each};
use std::test::Fail;

const CLOSING: [Row; 12] = [
    // HTTP/1.0
    (b"GET / HTTP/1.0\r\n\r\n", "GET / true |More"),
    // HTTP/1.0 closes in any case
    (
        b"GET / HTTP/1.0\r\nConnection: keep-alive\r\n\r\n",
        "GET / true |More",
    ),
    // no word `close`
    (
        b"GET / HTTP/1.1\r\nConnection: keep-alive\r\n\r\n",
        "GET / false |More",
    ),
    // the word
    (
        b"GET / HTTP/1.1\r\nConnection: close\r\n\r\n",
        "GET / true |More",
    ),
    // one of the words, in any case
    (
        b"GET / HTTP/1.1\r\nConnection: a, CLOSE\r\n\r\n",
        "GET / true |More",
    ),
    // empty words, and spaces and tabs around
    (
        b"GET / HTTP/1.1\r\nconnection: ,\t cLoSe \t,,b\r\n\r\n",
        "GET / true |More",
    ),
    // every header of the name counts
    (
        b"GET / HTTP/1.1\r\nConnection: keep-alive\r\nConnection: close\r\n\r\n",
        "GET / true |More",
    ),
    // words are parted by commas alone
    (
        b"GET / HTTP/1.1\r\nConnection: close;x\r\n\r\n",
        "GET / false |More",
    ),
    // likewise
    (
        b"GET / HTTP/1.1\r\nConnection: x close\r\n\r\n",
        "GET / false |More",
    ),
    // other words
    (
        b"GET / HTTP/1.1\r\nConnection: closed, clos\r\n\r\n",
        "GET / false |More",
    ),
    // another header
    (
        b"GET / HTTP/1.1\r\nX-Connection: close\r\n\r\n",
        "GET / false |More",
    ),
    // a Framer goes on; that a server doesn't is the loop's rule
    (
        b"GET /a HTTP/1.1\r\nConnection: close\r\n\r\nGET /b HTTP/1.1\r\n\r\n",
        "GET /a true |GET /b false |More",
    ),
];

#[test]
fn closing(rt: HostRuntime) -> Result<(), Fail> {
    each(&rt, rt.alloc(), &CLOSING)
}
