//! Each call of the line failing in turn under `listen`, as a test.

use crate::exchanges::{Exchange, STATU, STATUS};
use crate::served::{Failing, NOTHING_FAILS, served};
use std::alloc::Global;
use std::process::Abort;
use std::test::Fail;

/// The calls of a line that were made, and the number of the one that fails.
#[derive(Drop)]
struct Count {
    calls: u64,
    failing: u64,
}

/// Whether the next call fails.
fn fails(count: &mut Count) -> bool {
    count.calls = count.calls.saturating_add(1);
    count.calls == count.failing
}

/// Sends a response in pieces of at most `most` bytes. Whether all of it was sent.
fn sends(
    count: &mut Count,
    response: &[u8],
    most: usize,
    sent: &mut Vec<u8>,
) -> Result<bool, Fail> {
    for piece in response.chunks(most.max(1)) {
        if fails(count) {
            return Ok(false);
        }
        sent.extend_from_slice(piece)?;
    }
    Ok(true)
}

/// Serves a connection: a piece is read, and the responses to the requests that are then whole are sent.
fn serves(
    count: &mut Count,
    exchanges: &[Exchange],
    most: usize,
    sent: &mut Vec<u8>,
) -> Result<(), Fail> {
    let mut total = 0usize;
    for (request, _) in exchanges {
        total = total.saturating_add(request.len());
    }
    let mut read = 0usize;
    for _ in 0..10_000 {
        if fails(count) {
            return Ok(());
        }
        let before = read;
        read = read.saturating_add(most).min(total);
        let mut end = 0usize;
        for (request, response) in exchanges {
            end = end.saturating_add(request.len());
            if before < end && end <= read && !sends(count, response, most, sent)? {
                return Ok(());
            }
        }
        if before == read {
            return Ok(());
        }
    }
    Ok(())
}

/// The status, and what is sent, where the call of the line with the number `failing` fails: the port is opened, and each
/// connection is asked for and served.
fn expected(
    alloc: Global,
    connections: &[&[Exchange]],
    most: usize,
    failing: u64,
) -> Result<(u8, Vec<u8>), Fail> {
    let mut count = Count { calls: 0, failing };
    let mut sent = Vec::new(alloc);
    if fails(&mut count) {
        return Ok((5, sent));
    }
    for exchanges in connections {
        if fails(&mut count) {
            return Ok((5, sent));
        }
        serves(&mut count, exchanges, most, &mut sent)?;
    }
    Ok((0, sent))
}

/// What is printed: that the port stands open, and that the line failed.
fn printed(status: u8, failing: u64) -> &'static [u8] {
    if failing == 1 {
        b"webdriverd: line fault\n"
    } else if status == 5 {
        b"listening on port 80\nwebdriverd: line fault\n"
    } else {
        b"listening on port 80\n"
    }
}

const WORDS: [&str; 6] = ["listen", "--port", "80", "--connections", "2", "w.site"];

const CONNECTIONS: [&[Exchange]; 2] = [&[STATUS], &[STATU, STATUS]];

/// Each of the first calls of the line fails in turn.
fn each_fails(rt: &impl Abort, alloc: Global, most: usize, calls: u64) -> Result<(), Fail> {
    assert!(rt; 0 < most);
    for failing in 1..calls {
        let found = served(
            rt,
            alloc,
            &WORDS,
            &CONNECTIONS,
            most,
            Failing {
                line: failing,
                ..NOTHING_FAILS
            },
        )?;
        let (status, sent) = expected(alloc, &CONNECTIONS, most, failing)?;
        assert_eq!(rt; found.status, status, "call {failing}");
        assert_eq!(rt; found.sent.as_slice(), sent.as_slice(), "call {failing}");
        assert_eq!(rt;
            found.printed.as_slice(),
            printed(status, failing),
            "call {failing}"
        );
    }
    Ok(())
}

#[test]
fn each_call_of_the_line_fails_in_turn(rt: HostRuntime) -> Result<(), Fail> {
    each_fails(&rt, rt.alloc(), 1, 620)?;
    each_fails(&rt, rt.alloc(), 100, 20)?;
    each_fails(&rt, rt.alloc(), 4096, 14)
}
