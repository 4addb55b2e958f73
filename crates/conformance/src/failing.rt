//! Each call of the line failing in turn under `pipe`, and what was sent before: as tests.

use crate::conversation::run;
use crate::repeated::repeated;
use crate::status::{POST_STATUS, READY, STATU, STATUS, UNKNOWN_COMMAND, UNKNOWN_METHOD};
use std::alloc::Global;
use std::process::Abort;
use std::test::Fail;

/// A request and the response to it.
type Exchange = (&'static [u8], &'static [u8]);

/// How many bytes are sent, and the status, where the call with the number `failing` fails: the connection is
/// asked for first, then a piece is read, and the responses to the requests that are then whole are written.
fn sent_before(exchanges: &[Exchange], most: usize, failing: u64) -> (u8, usize) {
    let mut calls = 1u64;
    if failing == 1 {
        return (5, 0);
    }
    let mut total = 0usize;
    for (request, _) in exchanges {
        total = total.saturating_add(request.len());
    }
    let mut read = 0usize;
    let mut sent = 0usize;
    for _ in 0..10_000 {
        calls = calls.saturating_add(1);
        if calls == failing {
            return (0, sent);
        }
        let before = read;
        read = read.saturating_add(most).min(total);
        let mut end = 0usize;
        for (request, response) in exchanges {
            end = end.saturating_add(request.len());
            if before < end && end <= read {
                let mut left = response.len();
                for _ in 0..10_000 {
                    if left == 0 {
                        break;
                    }
                    calls = calls.saturating_add(1);
                    if calls == failing {
                        return (0, sent);
                    }
                    sent = sent.saturating_add(most.min(left));
                    left = left.saturating_sub(most);
                }
            }
        }
        if before == read {
            break;
        }
    }
    (0, sent)
}

/// Each of the first calls failing in turn, and what was sent then.
fn each_fails(
    rt: &impl Abort,
    alloc: Global,
    exchanges: &[Exchange],
    most: usize,
    calls: u64,
) -> Result<(), Fail> {
    let mut bytes = Vec::new(alloc);
    let mut responses = Vec::new(alloc);
    for (request, response) in exchanges {
        bytes.extend_from_slice(request)?;
        responses.extend_from_slice(response)?;
    }
    for failing in 1..calls {
        let found = run(rt, alloc, &["pipe"], bytes.as_slice(), most, Some(failing))?;
        let (status, sent) = sent_before(exchanges, most, failing);
        assert!(rt; sent <= responses.len());
        assert_eq!(rt; found.status, status, "call {failing}");
        assert_eq!(rt; found.sent.as_slice(), &responses[..sent], "call {failing}");
    }
    Ok(())
}

#[test]
fn each_call_fails_in_turn(rt: HostRuntime) -> Result<(), Fail> {
    let alloc = rt.alloc();
    let one: [Exchange; 1] = [(STATUS, READY)];
    let two: [Exchange; 2] = [(STATUS, READY), (STATUS, READY)];
    let refused: [Exchange; 2] = [(POST_STATUS, UNKNOWN_METHOD), (STATU, UNKNOWN_COMMAND)];
    each_fails(&rt, alloc, &[], 1, 5)?;
    each_fails(&rt, alloc, &one, 1, 200)?;
    each_fails(&rt, alloc, &two, 1, 400)?;
    each_fails(&rt, alloc, &two, 100, 12)?;
    each_fails(&rt, alloc, &refused, 1, 400)?;
    each_fails(&rt, alloc, &refused, 4096, 8)
}

/// The first bytes, at most so many.
fn front(bytes: &[u8], most: usize) -> &[u8] {
    if most < bytes.len() {
        &bytes[..most]
    } else {
        bytes
    }
}

#[test]
fn the_fourth_write_fails(rt: HostRuntime) -> Result<(), Fail> {
    let alloc = rt.alloc();
    let bytes = repeated(alloc, b"", STATUS, 2, b"")?;
    // the calls: the connection, a read of all 66 bytes, and writes of 100, 53, 100 and 53 bytes
    let found = run(&rt, alloc, &["pipe"], bytes.as_slice(), 100, Some(6))?;
    let responses = repeated(alloc, b"", READY, 2, b"")?;
    assert_eq!(rt; responses.len(), 306);
    assert_eq!(rt; found.sent.as_slice(), front(responses.as_slice(), 253));
    assert_eq!(rt; found.status, 0);
    assert_eq!(rt; found.taken, 2);
    Ok(())
}

#[test]
fn a_line_that_gives_no_connection_is_a_fault(rt: HostRuntime) -> Result<(), Fail> {
    let found = run(&rt, rt.alloc(), &["pipe"], STATUS, 4096, Some(1))?;
    assert_eq!(rt; found.status, 5);
    assert_eq!(rt; found.sent.len(), 0);
    assert_eq!(rt; found.taken, 0);
    assert_eq!(rt;
        found.printed.as_slice(),
        b"webdriverd: line fault\n".as_slice()
    );
    Ok(())
}
