//! A session that lasts from one connection to the next, as a test.

use crate::exchanges::{DELETE, Exchange, FIND, GONE, NAME, OPEN, STATUS};
use crate::served::{NOTHING_FAILS, responses, served};
use std::test::Fail;

/// `listen` for so many connections.
const WORDS: [(&str, usize, usize); 4] = [("1", 1, 2), ("2", 2, 4), ("3", 3, 6), ("4", 3, 6)];

/// A session is opened on the first connection, used on the second and ended on the third.
const CONNECTIONS: [&[Exchange]; 3] = [&[OPEN, FIND], &[STATUS, NAME], &[DELETE, GONE]];

#[test]
fn a_session_lasts_from_one_connection_to_the_next(rt: HostRuntime) -> Result<(), Fail> {
    let alloc = rt.alloc();
    for (connections, expected, taken) in WORDS {
        let words = [
            "listen",
            "--port",
            "80",
            "--connections",
            connections,
            "w.site",
        ];
        let found = served(&rt, alloc, &words, &CONNECTIONS, 4096, NOTHING_FAILS)?;
        assert_eq!(rt; found.status, 0);
        assert!(rt; expected <= CONNECTIONS.len());
        let wanted = responses(alloc, &CONNECTIONS[..expected])?;
        assert_eq!(rt; found.sent.as_slice(), wanted.as_slice());
        assert_eq!(rt; found.taken, taken);
        assert_eq!(rt;
            found.printed.as_slice(),
            b"listening on port 80\n".as_slice()
        );
    }
    Ok(())
}

#[test]
fn no_connection_comes(rt: HostRuntime) -> Result<(), Fail> {
    let words = ["listen", "--port", "80", "--connections", "5", "w.site"];
    let found = served(&rt, rt.alloc(), &words, &[], 4096, NOTHING_FAILS)?;
    assert_eq!(rt; found.status, 0);
    assert_eq!(rt; found.sent.len(), 0);
    assert_eq!(rt;
        found.printed.as_slice(),
        b"listening on port 80\n".as_slice()
    );
    Ok(())
}
