//! A framer that is fed pieces in which requests end midway, as a test.

ghost use Rattle.std.specs.Prelude.{◌≡◌, false, OnOk};

use std::test::Fail;
use wd_http::{BadHead, Framer, Next};
use wd_json::Memory;

/// What is answered after one more piece.
fn answer(framer: &mut Framer, piece: &[u8]) -> Result<Next, Memory>
    requires { framer.old.spent ≡ false }
    ensures { OnOk result (framer.new.spent ≡ false) }
{
    framer.feed(piece)?;
    framer.next()
}

fn is_more(next: &Next) -> bool {
    matches!(next, Next::More)
}

fn is_bad(next: &Next, expected: BadHead) -> bool {
    match next {
        Next::Bad(kind) => *kind == expected,
        _ => false,
    }
}

fn is_request(next: &Next, method: &str, target: &str, close: bool, body: &[u8]) -> bool {
    match next {
        Next::Request(request) => {
            request.method.as_str() == method
                && request.target.as_str() == target
                && request.close == close
                && request.body.as_slice() == body
        }
        _ => false,
    }
}

#[test]
fn requests_come_out_of_pieces(rt: HostRuntime) -> Result<(), Fail> {
    let mut framer = Framer::new(rt.alloc());
    let next = answer(
        &mut framer,
        b"\r\nPOST /session HTTP/1.1\r\ncontent-length:\t4 \r\n\r",
    )?;
    assert!(rt; is_more(&next));
    let next = answer(&mut framer, b"\nbod")?;
    assert!(rt; is_more(&next));
    let next = answer(
        &mut framer,
        b"yGET /status?x HTTP/1.1\nConnection: a, CLOSE\n\n\0\n\n",
    )?;
    assert!(rt; is_request(&next, "POST", "/session", false, b"body"));
    let next = answer(&mut framer, b"")?;
    assert!(rt; is_request(&next, "GET", "/status?x", true, b""));
    let next = answer(&mut framer, b"")?;
    assert!(rt; is_bad(&next, BadHead::Head));
    let next = answer(&mut framer, b"GET / HTTP/1.1\n\n")?;
    assert!(rt; is_bad(&next, BadHead::Head));
    assert!(rt; !framer.spent());
    Ok(())
}
