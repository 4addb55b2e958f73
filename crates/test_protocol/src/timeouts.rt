//! Timeouts that are read, written and refused, as tests.

use capabilities::{Timeouts, read_timeouts, timeouts_object};
use std::test::Fail;
use wd_errors::Code;
use wd_json::{read, write};

const BASE: Timeouts = Timeouts {
    script: 1,
    page_load: 2,
    implicit: 3,
};

#[test]
fn timeouts_are_read_and_written(rt: HostRuntime) -> Result<(), Fail> {
    let cases = [
        ("{}", r#"{"implicit":3,"pageLoad":2,"script":1}"#),
        (
            r#"{"pageLoad":0,"PageLoad":null}"#,
            r#"{"implicit":3,"pageLoad":0,"script":1}"#,
        ),
        (
            r#"{"script":9007199254740991,"implicit":5}"#,
            r#"{"implicit":5,"pageLoad":2,"script":9007199254740991}"#,
        ),
    ];
    for (given, expected) in cases {
        let timeouts = read_timeouts(&read(rt.alloc(), given.as_bytes())?, BASE)
            .ok()
            .ok_or("refused")?;
        let text = write(rt.alloc(), &timeouts_object(rt.alloc(), timeouts)?)?;
        assert_eq!(rt; text.as_slice(), expected.as_bytes(), "{given}");
    }
    Ok(())
}

#[test]
fn other_timeouts_are_refused(rt: HostRuntime) -> Result<(), Fail> {
    for given in [
        "[]",
        "null",
        "1",
        r#"{"script":null}"#,
        r#"{"pageLoad":"1"}"#,
        r#"{"implicit":-1}"#,
    ] {
        let answer = read_timeouts(&read(rt.alloc(), given.as_bytes())?, BASE);
        assert!(rt; answer == Err(Code::InvalidArgument), "{given}");
    }
    Ok(())
}
