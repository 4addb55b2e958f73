//! The lengths of bodies that `Content-Length` gives, as a test.

use crate::framed::{Row, each};
use std::test::Fail;

const LENGTHS: [Row; 22] = [
    // exactly five bytes belong to the first
    (
        b"POST /a HTTP/1.1\r\nContent-Length: 5\r\n\r\n12345GET /b HTTP/1.1\r\n\r\n",
        "POST /a false 12345|GET /b false |More",
    ),
    // the body isn't whole
    (b"POST /a HTTP/1.1\r\nContent-Length: 5\r\n\r\n1234", "More"),
    // tabs and spaces around, name in any case
    (
        b"POST /a HTTP/1.1\r\nCONTENT-LENGTH:\t\t5 \t\r\n\r\n12345",
        "POST /a false 12345|More",
    ),
    // leading zeros are allowed
    (
        b"POST /a HTTP/1.1\r\nContent-Length: 0005\r\n\r\n12345",
        "POST /a false 12345|More",
    ),
    // an empty body
    (
        b"POST /a HTTP/1.1\r\nContent-Length: 0\r\n\r\n",
        "POST /a false |More",
    ),
    // 2^64 + 1 isn't taken for 1
    (
        b"POST /a HTTP/1.1\r\nContent-Length: 18446744073709551617\r\n\r\n1",
        "BodyLong",
    ),
    // an empty value
    (b"POST /a HTTP/1.1\r\nContent-Length:\r\n\r\n", "Length"),
    // a sign
    (
        b"POST /a HTTP/1.1\r\nContent-Length: +5\r\n\r\n12345",
        "Length",
    ),
    // a blank inside
    (
        b"POST /a HTTP/1.1\r\nContent-Length: 5 5\r\n\r\n12345",
        "Length",
    ),
    // a list
    (
        b"POST /a HTTP/1.1\r\nContent-Length: 5,5\r\n\r\n12345",
        "Length",
    ),
    // digits alone
    (
        b"POST /a HTTP/1.1\r\nContent-Length: 0x5\r\n\r\n12345",
        "Length",
    ),
    // a digit beyond ASCII
    (
        b"POST /a HTTP/1.1\r\nContent-Length: \xd9\xa5\r\n\r\n12345",
        "Length",
    ),
    // two of them, though equal
    (
        b"POST /a HTTP/1.1\r\nContent-Length: 1\r\nContent-Length: 1\r\n\r\nx",
        "Length",
    ),
    // two of them, before BodyLong, on GET too
    (
        b"GET /a HTTP/1.1\r\nContent-Length: 9999999\r\ncontent-length: 1\r\n\r\n",
        "Length",
    ),
    // the longest body, still to come
    (
        b"POST /a HTTP/1.1\r\nContent-Length: 4194304\r\n\r\n",
        "More",
    ),
    // one more, as soon as the head is whole
    (
        b"POST /a HTTP/1.1\r\nContent-Length: 4194305\r\n\r\n",
        "BodyLong",
    ),
    // a body on GET is read
    (
        b"GET /a HTTP/1.1\r\nContent-Length: 3\r\n\r\nabc",
        "GET /a false abc|More",
    ),
    // and on DELETE
    (
        b"DELETE /a HTTP/1.1\r\nContent-Length: 3\r\n\r\nabcGET /b HTTP/1.1\r\n\r\n",
        "DELETE /a false abc|GET /b false |More",
    ),
    // without Content-Length the body is empty; `{}` stays unread
    (b"POST /a HTTP/1.1\r\n\r\n{}", "POST /a false |More"),
    // Expect is ignored
    (
        b"POST /a HTTP/1.1\r\nExpect: 100-continue\r\nContent-Length: 2\r\n\r\n{}",
        "POST /a false {}|More",
    ),
    // a longer name is another name
    (
        b"POST /a HTTP/1.1\r\nX-Content-Length: 9\r\nContent-Length: 2\r\n\r\n{}",
        "POST /a false {}|More",
    ),
    // a body of line ends is a body
    (
        b"POST /a HTTP/1.1\r\nContent-Length: 4\r\n\r\n\r\n\r\nGET /b HTTP/1.1\r\n\r\n",
        "POST /a false \r\n\r\n|GET /b false |More",
    ),
];

#[test]
fn lengths(rt: HostRuntime) -> Result<(), Fail> {
    each(&rt, rt.alloc(), &LENGTHS)
}
