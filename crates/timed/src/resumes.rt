//! Finds that wait and are resumed, early and late, as tests.

use crate::remote::{answered, answered_at, begun, compared, opened, request_of, resumed};
use remote_end::{Remote, Step, Taken};
use std::alloc::Global;
use std::process::Abort;
use std::test::Fail;

/// New Session with a time for which finds wait.
const PATIENT: &str = r#"{"capabilities":{"alwaysMatch":{"timeouts":{"implicit":100}}}}"#;

const SHORT: &str = r#"{"capabilities":{"alwaysMatch":{"timeouts":{"implicit":39}}}}"#;

const FIND: &str = "/session/00000000-0001-8000-8000-000100000000/element";

/// The element that the page has from moment 40 to moment 60.
const LATE: &str = r##"{"using":"css selector","value":"#late"}"##;

const NAME: &str =
    "/session/00000000-0001-8000-8000-000100000000/element/00000000-0001-8002-8000-000100000002/name";

const REFERENCE: &str =
    r#"{"value":{"element-6066-11e4-a52e-4f735466cecf":"00000000-0001-8002-8000-000100000002"}}"#;

const NO_ELEMENT: &str =
    r#"{"value":{"error":"no such element","message":"no such element","stacktrace":""}}"#;

const STALE: &str =
    r#"{"value":{"error":"stale element reference","message":"stale element reference","stacktrace":""}}"#;

/// Compares what was taken with three readings.
fn took(rt: &impl Abort, remote: &Remote, readings: [u64; 3]) {
    assert!(rt; !remote.spent());
    let taken = remote.taken().as_slice();
    assert_eq!(rt; taken.len(), 3);
    for at in 0..3 {
        assert!(rt; taken[at] == Taken::Reading(readings[at]));
    }
}

/// In a new run, a find of what comes at moment 40 ends with that reply at that moment.
fn finds_late(
    rt: &impl Abort,
    alloc: Global,
    capabilities: &str,
    expected: (u16, &str),
    moment: u64,
) -> Result<(), Fail> {
    let mut remote = opened(rt, alloc, capabilities)?;
    let find = request_of(alloc, "POST", FIND, LATE)?;
    let reply = answered(rt, &mut remote, &find)?;
    compared(rt, alloc, &reply, expected)?;
    took(rt, &remote, [0, 0, moment]);
    Ok(())
}

#[test]
fn a_find_waits_for_what_comes_within_its_span(rt: HostRuntime) -> Result<(), Fail> {
    let alloc = rt.alloc();
    finds_late(&rt, alloc, PATIENT, (200, REFERENCE), 40)?;
    finds_late(&rt, alloc, SHORT, (404, NO_ELEMENT), 39)
}

/// It waits in the first session until that moment.
fn waits(rt: &impl Abort, step: &Step, moment: u64) {
    match step {
        Step::Wait { session, until } => {
            assert_eq!(rt; *session, 1);
            assert_eq!(rt; *until, moment);
        }
        Step::Reply(_) => assert!(rt; false),
    }
}

/// It has ended with that reply.
fn ended(rt: &impl Abort, alloc: Global, step: &Step, expected: (u16, &str)) -> Result<(), Fail> {
    match step {
        Step::Reply(reply) => compared(rt, alloc, reply, expected),
        Step::Wait { .. } => {
            assert!(rt; false);
            Ok(())
        }
    }
}

/// The name of the first node that was handed out is answered so, at that moment.
fn named(
    rt: &impl Abort,
    alloc: Global,
    remote: &mut Remote,
    moment: u64,
    expected: (u16, &str),
) -> Result<(), Fail> {
    let name = request_of(alloc, "GET", NAME, "")?;
    let reply = answered_at(rt, alloc, remote, &name, moment)?;
    compared(rt, alloc, &reply, expected)
}

/// The same find is begun and resumed: early readings change nothing, and a late one isn't the moment at which it ends.
#[test]
fn a_find_is_resumed_early_and_late(rt: HostRuntime) -> Result<(), Fail> {
    let alloc = rt.alloc();
    let mut remote = opened(&rt, alloc, PATIENT)?;
    let find = request_of(alloc, "POST", FIND, LATE)?;
    let first = begun(&rt, &mut remote, &find, 0)?;
    waits(&rt, &first, 40);
    for reading in [5, 39] {
        let early = resumed(&rt, &mut remote, reading)?;
        waits(&rt, &early, 40);
    }
    let late = resumed(&rt, &mut remote, 90_000)?;
    ended(&rt, alloc, &late, (200, REFERENCE))?;
    took(&rt, &remote, [0, 0, 90_000]);
    named(&rt, alloc, &mut remote, 50, (200, r#"{"value":"em"}"#))?;
    named(&rt, alloc, &mut remote, 60, (404, STALE))
}
