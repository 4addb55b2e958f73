//! The bytes of a response, as a test.

use std::test::Fail;
use wd_http::{BadHead, response_bytes};
use wd_json::WdBytes;

#[test]
fn a_response_is_its_lines_and_its_body(rt: HostRuntime) -> Result<(), Fail> {
    let alloc = rt.alloc();
    let body = WdBytes::of(alloc, b"{\"value\":null}")?;
    let bytes = response_bytes(alloc, 200, &body, false)?;
    assert_eq!(rt;
        bytes.as_slice(),
        b"HTTP/1.1 200 OK\r\n\
        Content-Type: application/json; charset=utf-8\r\n\
        Cache-Control: no-cache\r\n\
        Content-Length: 14\r\n\r\n{\"value\":null}"
            .as_slice()
    );
    let kind = BadHead::HeadLong;
    let body = WdBytes::of(alloc, kind.message().as_bytes())?;
    let bytes = response_bytes(alloc, kind.status(), &body, true)?;
    assert_eq!(rt;
        bytes.as_slice(),
        b"HTTP/1.1 431 Request Header Fields Too Large\r\n\
        Content-Type: application/json; charset=utf-8\r\n\
        Cache-Control: no-cache\r\n\
        Content-Length: 13\r\nConnection: close\r\n\r\nhead too long"
            .as_slice()
    );
    Ok(())
}
