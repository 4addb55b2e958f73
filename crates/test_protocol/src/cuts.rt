//! A request that is heard at every cut, as a test.

use crate::framed::framed_in_two;
use std::test::Fail;

/// A status request.
const STATUS: &[u8] = b"GET /status HTTP/1.1\r\nHost: h\r\n\r\n";

#[test]
fn a_request_is_heard_at_every_cut(rt: HostRuntime) -> Result<(), Fail> {
    for cut in 0..STATUS.len() {
        let answers = framed_in_two(&rt, rt.alloc(), STATUS, cut)?;
        assert_eq!(rt; answers.as_str(), "GET /status false |", "cut at {cut}");
    }
    let answers = framed_in_two(&rt, rt.alloc(), STATUS, STATUS.len())?;
    assert_eq!(rt; answers.as_str(), "GET /status false |More");
    Ok(())
}
