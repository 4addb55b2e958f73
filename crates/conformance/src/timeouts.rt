//! A conversation that reads and sets timeouts, all at once or not at all: as a test.

use crate::turns::{
    ANY, BAD, FIRST, INVALID, NO_SESSION, NOT_FOUND, NULL, OK, OPENED, Turn, converse,
};
use std::test::Fail;

const TIMEOUTS: &str = "/session/00000000-0001-8000-8000-000100000000/timeouts";

const DEFAULTS: &str = r#"{"value":{"implicit":0,"pageLoad":300000,"script":30000}}"#;

const CHANGED: &str = r#"{"value":{"implicit":7,"pageLoad":300000,"script":1}}"#;

const GREATEST: &str = r#"{"value":{"implicit":7,"pageLoad":9007199254740991,"script":1}}"#;

#[test]
fn timeouts_are_set_all_at_once_or_not_at_all(rt: HostRuntime) -> Result<(), Fail> {
    let turns: [Turn; 15] = [
        // the session is looked at before the parameters
        (
            "POST",
            TIMEOUTS,
            r#"{"script":null}"#,
            NOT_FOUND,
            NO_SESSION,
        ),
        ("POST", "/session", ANY, OK, OPENED),
        ("GET", TIMEOUTS, "", OK, DEFAULTS),
        ("POST", TIMEOUTS, r#"{"implicit":7,"script":1}"#, OK, NULL),
        ("GET", TIMEOUTS, "", OK, CHANGED),
        (
            "POST",
            TIMEOUTS,
            r#"{"script":5,"implicit":-1}"#,
            BAD,
            INVALID,
        ),
        (
            "POST",
            TIMEOUTS,
            r#"{"script":5,"pageLoad":null}"#,
            BAD,
            INVALID,
        ),
        (
            "POST",
            TIMEOUTS,
            r#"{"script":9007199254740992}"#,
            BAD,
            INVALID,
        ),
        ("POST", TIMEOUTS, "", BAD, INVALID),
        ("GET", TIMEOUTS, "", OK, CHANGED),
        (
            "POST",
            TIMEOUTS,
            r#"{"pageLoad":9007199254740991,"other":"x"}"#,
            OK,
            NULL,
        ),
        ("POST", TIMEOUTS, "{}", OK, NULL),
        ("GET", TIMEOUTS, "", OK, GREATEST),
        ("DELETE", FIRST, "", OK, NULL),
        ("GET", TIMEOUTS, "", NOT_FOUND, NO_SESSION),
    ];
    converse(&rt, rt.alloc(), &["pipe"], &turns)
}
