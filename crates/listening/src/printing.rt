//! A sink whose writes fail while a line is printed, and files whose reads fail: as tests.

use crate::exchanges::{Exchange, STATUS};
use crate::served::{Failing, NOTHING_FAILS, Outcome, served};
use std::alloc::Global;
use std::process::Abort;
use std::test::Fail;

const CONNECTIONS: [&[Exchange]; 1] = [&[STATUS]];

const LISTEN: [&str; 6] = ["listen", "--port", "80", "--connections", "1", "w.site"];

/// A run in which writes of the sink move four bytes, and that one of them fails.
fn printed(rt: &impl Abort, alloc: Global, words: &[&str], sink: u64) -> Result<Outcome, Fail> {
    served(
        rt,
        alloc,
        words,
        &CONNECTIONS,
        4,
        Failing {
            sink,
            ..NOTHING_FAILS
        },
    )
}

#[test]
fn a_listening_line_that_is_cut_off_ends_the_run(rt: HostRuntime) -> Result<(), Fail> {
    let line: &[u8] = b"listening on port 80\n";
    // six writes print it
    for (sink, whole) in [(1, 0), (2, 4), (3, 8), (4, 12), (5, 16), (6, 20)] {
        let found = printed(&rt, rt.alloc(), &LISTEN, sink)?;
        assert_eq!(rt; found.status, 7);
        assert!(rt; whole <= line.len());
        assert_eq!(rt; found.printed.as_slice(), &line[..whole]);
        assert_eq!(rt; found.sent.len(), 0);
    }
    let found = printed(&rt, rt.alloc(), &LISTEN, 7)?;
    assert_eq!(rt; found.status, 0);
    assert_eq!(rt; found.sent.as_slice(), STATUS.1);
    Ok(())
}

#[test]
fn what_failed_before_stays_the_status(rt: HostRuntime) -> Result<(), Fail> {
    let rows: [(&[&str], u8, usize); 3] = [
        (&["listen"], 2, 22),
        (&["pipe", "none.site"], 4, 23),
        (
            &["listen", "--port", "1", "--connections", "1", "none.site"],
            4,
            23,
        ),
    ];
    for (words, status, bytes) in rows {
        let found = printed(&rt, rt.alloc(), words, 0)?;
        assert_eq!(rt; (found.status, found.printed.len()), (status, bytes));
        let found = printed(&rt, rt.alloc(), words, 2)?;
        assert_eq!(rt; (found.status, found.printed.len()), (status, 4));
        assert_eq!(rt; found.sent.len(), 0);
    }
    Ok(())
}

#[test]
fn each_read_of_a_file_fails_in_turn(rt: HostRuntime) -> Result<(), Fail> {
    let pipe: &[&str] = &["pipe", "w.site"];
    for words in [pipe, LISTEN.as_slice()] {
        for file in [1, 2] {
            let found = served(
                &rt,
                rt.alloc(),
                words,
                &CONNECTIONS,
                4096,
                Failing {
                    file,
                    ..NOTHING_FAILS
                },
            )?;
            assert_eq!(rt; found.status, 4);
            assert_eq!(rt;
                found.printed.as_slice(),
                b"webdriverd: file fault\n".as_slice()
            );
            assert_eq!(rt; found.sent.len(), 0);
        }
    }
    Ok(())
}
