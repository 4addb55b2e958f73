//! Capabilities that are matched or aren't, each read and merged, as tests.

use crate::new_session::{DEFAULT, changed, expect_no_match, expect_session};
use std::test::Fail;

const OF_CLIENTS: [(&str, &str); 7] = [
    (
        r#"{"capabilities":{"firstMatch":[{}],"alwaysMatch":{"browserName":"chrome","pageLoadStrategy":"normal","goog:chromeOptions":{"extensions":[],"args":[]}}}}"#,
        "{}",
    ),
    (
        r#"{"capabilities":{"alwaysMatch":{"acceptInsecureCerts":true,"timeouts":{"implicit":0,"pageLoad":300000,"script":60000},"unhandledPromptBehavior":"ignore"}}}"#,
        r#"{"acceptInsecureCerts":true,"timeouts":{"implicit":0,"pageLoad":300000,"script":60000},"unhandledPromptBehavior":"ignore"}"#,
    ),
    (
        r#"{"capabilities":{"alwaysMatch":{"browserName":"chrome","strictFileInteractability":true,"webSocketUrl:x":true},"firstMatch":[{}]},"desiredCapabilities":{"browserName":"chrome"}}"#,
        r#"{"strictFileInteractability":true}"#,
    ),
    (r#"{"capabilities":{}}"#, "{}"),
    (r#"{"capabilities":{"alwaysMatch":{}}}"#, "{}"),
    (r#"{"capabilities":{"firstMatch":[{}]}}"#, "{}"),
    (r#"{"capabilities":{"requiredCapabilities":1}}"#, "{}"),
];

#[test]
fn clients_get_sessions(rt: HostRuntime) -> Result<(), Fail> {
    assert_eq!(rt; changed(rt.alloc(), "{}")?.as_slice(), DEFAULT.as_bytes());
    for (parameters, expected) in OF_CLIENTS {
        expect_session(&rt, rt.alloc(), parameters, expected)?;
    }
    Ok(())
}

const EACH: [(&str, &str); 18] = [
    (
        r#"{"capabilities":{"alwaysMatch":{"browserName":null}}}"#,
        "{}",
    ),
    (
        r#"{"capabilities":{"alwaysMatch":{"browserVersion":"1.0"}}}"#,
        "{}",
    ),
    (
        r#"{"capabilities":{"alwaysMatch":{"platformName":"linux"}}}"#,
        "{}",
    ),
    (
        r#"{"capabilities":{"alwaysMatch":{"setWindowRect":true}}}"#,
        "{}",
    ),
    (
        r#"{"capabilities":{"alwaysMatch":{"acceptInsecureCerts":true}}}"#,
        r#"{"acceptInsecureCerts":true}"#,
    ),
    (
        r#"{"capabilities":{"alwaysMatch":{"pageLoadStrategy":"none"}}}"#,
        r#"{"pageLoadStrategy":"none"}"#,
    ),
    (
        r#"{"capabilities":{"alwaysMatch":{"pageLoadStrategy":"eager"}}}"#,
        r#"{"pageLoadStrategy":"eager"}"#,
    ),
    (
        r#"{"capabilities":{"alwaysMatch":{"proxy":{"proxyType":"manual","socksVersion":5}}}}"#,
        r#"{"proxy":{"proxyType":"manual","socksVersion":5}}"#,
    ),
    (
        r#"{"capabilities":{"alwaysMatch":{"proxy":{"noProxy":[null]}}}}"#,
        r#"{"proxy":{"noProxy":[null]}}"#,
    ),
    (r#"{"capabilities":{"alwaysMatch":{"timeouts":{}}}}"#, "{}"),
    (
        r#"{"capabilities":{"alwaysMatch":{"timeouts":{"script":0}}}}"#,
        r#"{"timeouts":{"implicit":0,"pageLoad":300000,"script":0}}"#,
    ),
    (
        r#"{"capabilities":{"alwaysMatch":{"timeouts":{"implicit":9007199254740991,"more":-1}}}}"#,
        r#"{"timeouts":{"implicit":9007199254740991,"pageLoad":300000,"script":30000}}"#,
    ),
    (
        r#"{"capabilities":{"alwaysMatch":{"unhandledPromptBehavior":"dismiss"}}}"#,
        r#"{"unhandledPromptBehavior":"dismiss"}"#,
    ),
    (
        r#"{"capabilities":{"alwaysMatch":{"unhandledPromptBehavior":"accept"}}}"#,
        r#"{"unhandledPromptBehavior":"accept"}"#,
    ),
    (
        r#"{"capabilities":{"alwaysMatch":{"unhandledPromptBehavior":"accept and notify"}}}"#,
        r#"{"unhandledPromptBehavior":"accept and notify"}"#,
    ),
    (
        r#"{"capabilities":{"alwaysMatch":{"unhandledPromptBehavior":"dismiss and notify"}}}"#,
        "{}",
    ),
    (r#"{"capabilities":{"alwaysMatch":{"a:b":[1,null]}}}"#, "{}"),
    (r#"{"capabilities":{"alwaysMatch":{":":0}}}"#, "{}"),
];

#[test]
fn each_capability_is_read(rt: HostRuntime) -> Result<(), Fail> {
    for (parameters, expected) in EACH {
        expect_session(&rt, rt.alloc(), parameters, expected)?;
    }
    Ok(())
}

const MERGES: [(&str, &str); 5] = [
    (
        r#"{"capabilities":{"firstMatch":[{"pageLoadStrategy":"eager"},{"pageLoadStrategy":"none"}]}}"#,
        r#"{"pageLoadStrategy":"eager"}"#,
    ),
    (
        r#"{"capabilities":{"firstMatch":[{"browserName":"x"},{"timeouts":{"implicit":7}}]}}"#,
        r#"{"timeouts":{"implicit":7,"pageLoad":300000,"script":30000}}"#,
    ),
    (
        r#"{"capabilities":{"alwaysMatch":{"acceptInsecureCerts":true},"firstMatch":[{"platformName":"mac"},{"strictFileInteractability":true}]}}"#,
        r#"{"acceptInsecureCerts":true,"strictFileInteractability":true}"#,
    ),
    (
        r#"{"capabilities":{"alwaysMatch":{"pageLoadStrategy":null},"firstMatch":[{"pageLoadStrategy":"none"}]}}"#,
        r#"{"pageLoadStrategy":"none"}"#,
    ),
    (
        r#"{"capabilities":{"alwaysMatch":{"pageLoadStrategy":"none"},"firstMatch":[{"pageLoadStrategy":null}]}}"#,
        r#"{"pageLoadStrategy":"none"}"#,
    ),
];

#[test]
fn the_first_merge_that_matches_is_taken(rt: HostRuntime) -> Result<(), Fail> {
    for (parameters, expected) in MERGES {
        expect_session(&rt, rt.alloc(), parameters, expected)?;
    }
    Ok(())
}

const UNMATCHED: [(&str, &str); 8] = [
    (
        "firefox",
        r#"{"capabilities":{"alwaysMatch":{"browserName":"chrome"}}}"#,
    ),
    (
        "chrome",
        r#"{"capabilities":{"alwaysMatch":{"browserName":"Chrome"}}}"#,
    ),
    (
        "chrome",
        r#"{"capabilities":{"alwaysMatch":{"browserVersion":"1"}}}"#,
    ),
    (
        "chrome",
        r#"{"capabilities":{"alwaysMatch":{"platformName":"windows"}}}"#,
    ),
    (
        "chrome",
        r#"{"capabilities":{"alwaysMatch":{"setWindowRect":false}}}"#,
    ),
    (
        "chrome",
        r#"{"capabilities":{"firstMatch":[{"browserName":"x"},{"platformName":"mac"}]}}"#,
    ),
    (
        "chrome",
        r#"{"capabilities":{"alwaysMatch":{"setWindowRect":false},"firstMatch":[{},{"browserName":"chrome"}]}}"#,
    ),
    (
        "wdpage",
        r#"{"capabilities":{"firstMatch":[{}],"alwaysMatch":{"browserName":"chrome","pageLoadStrategy":"normal","goog:chromeOptions":{"extensions":[],"args":[]}}}}"#,
    ),
];

#[test]
fn what_this_end_has_not_is_not_matched(rt: HostRuntime) -> Result<(), Fail> {
    for (name, parameters) in UNMATCHED {
        expect_no_match(&rt, rt.alloc(), name, parameters)?;
    }
    Ok(())
}
