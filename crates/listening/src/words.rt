//! The words of the command line: which forms are served and which are refused, as tests.

use crate::exchanges::{Exchange, STATUS};
use crate::served::{NOTHING_FAILS, served};
use std::alloc::Global;
use std::process::Abort;
use std::test::Fail;

const CONNECTIONS: [&[Exchange]; 1] = [&[STATUS]];

/// Each form ends with this status, and prints this.
fn told(
    rt: &impl Abort,
    alloc: Global,
    rows: &[&[&str]],
    status: u8,
    printed: &[u8],
) -> Result<(), Fail> {
    for words in rows {
        let found = served(rt, alloc, words, &CONNECTIONS, 4096, NOTHING_FAILS)?;
        assert_eq!(rt; found.status, status);
        assert_eq!(rt; found.printed.as_slice(), printed);
        let sent: &[u8] = if status == 0 { STATUS.1 } else { b"" };
        assert_eq!(rt; found.sent.as_slice(), sent);
    }
    Ok(())
}

const BAD: [&[&str]; 19] = [
    &["listen", "--port", "0", "--connections", "1", "w.site"],
    &["listen", "--port", "+5", "--connections", "1", "w.site"],
    &["listen", "--port", "65536", "--connections", "1", "w.site"],
    &[
        "listen",
        "--port",
        "00000000080",
        "--connections",
        "1",
        "w.site",
    ],
    &["listen", "--port", "", "--connections", "1", "w.site"],
    &["listen", "--port=", "--connections", "1", "w.site"],
    &["listen", "--port", "8 0", "--connections", "1", "w.site"],
    &["listen", "--port", "80", "--connections", "0", "w.site"],
    &[
        "listen",
        "--port",
        "80",
        "--connections",
        "1000001",
        "w.site",
    ],
    &["listen", "--port", "80", "--connections", "1"],
    &[
        "listen",
        "--port",
        "80",
        "--connections",
        "1",
        "w.site",
        "w.site",
    ],
    &["listen", "--port", "80", "w.site"],
    &["listen", "--connections", "1", "w.site"],
    &[
        "listen",
        "--port",
        "80",
        "--port",
        "81",
        "--connections",
        "1",
        "w.site",
    ],
    &[
        "listen",
        "--port",
        "80",
        "--connections",
        "1",
        "--record",
        "r",
        "w.site",
    ],
    &["listen", "--port", "80", "--connections", "1", "-x.site"],
    &[
        "listen",
        "--port",
        "80",
        "--connections",
        "1",
        "w.site",
        "--name",
    ],
    &["pipe", "--port", "1"],
    &["pipe", "--name", "a", "--name", "b", "w.site"],
];

#[test]
fn other_forms_are_bad_words(rt: HostRuntime) -> Result<(), Fail> {
    told(&rt, rt.alloc(), &BAD, 2, b"webdriverd: bad words\n")
}

#[test]
fn stated_forms_in_any_order(rt: HostRuntime) -> Result<(), Fail> {
    let listen: [&[&str]; 5] = [
        &["listen", "--port", "80", "--connections", "1", "w.site"],
        &["listen", "w.site", "--connections=1", "--port=80"],
        &[
            "listen",
            "--port",
            "0000000080",
            "--connections",
            "1000000",
            "w.site",
        ],
        &[
            "listen",
            "--name",
            "a",
            "--port",
            "80",
            "w.site",
            "--connections",
            "1",
        ],
        &[
            "listen",
            "--port",
            "80",
            "--connections",
            "1",
            "--",
            "w.site",
        ],
    ];
    told(&rt, rt.alloc(), &listen, 0, b"listening on port 80\n")?;
    let pipe: [&[&str]; 4] = [
        &["pipe", "--name=a", "w.site"],
        &["pipe", "w.site", "--name", "a"],
        &["pipe", "--"],
        &["pipe", "--name=--", "--", "w.site"],
    ];
    told(&rt, rt.alloc(), &pipe, 0, b"")
}

#[test]
fn a_word_behind_two_dashes_is_a_site(rt: HostRuntime) -> Result<(), Fail> {
    let rows: [&[&str]; 3] = [
        &["pipe", "--", "-x.site"],
        &["pipe", "none.site"],
        &["pipe", "--name", "a", "--", "--name"],
    ];
    told(&rt, rt.alloc(), &rows, 4, b"webdriverd: file fault\n")
}
