//! Capabilities that are refused, by their form or by the first wrong name, as tests.

use crate::new_session::expect_invalid;
use std::test::Fail;

const FORMS: [(&str, &str); 12] = [
    (r#"[]"#, r#"capabilities"#),
    ("{}", r#"capabilities"#),
    (r#"{"capabilities":null}"#, r#"capabilities"#),
    (r#"{"capabilities":[]}"#, r#"capabilities"#),
    (r#"{"capabilities":{"alwaysMatch":null}}"#, r#"alwaysMatch"#),
    (r#"{"capabilities":{"alwaysMatch":[]}}"#, r#"alwaysMatch"#),
    (r#"{"capabilities":{"firstMatch":null}}"#, r#"firstMatch"#),
    (r#"{"capabilities":{"firstMatch":[]}}"#, r#"firstMatch"#),
    (r#"{"capabilities":{"firstMatch":{}}}"#, r#"firstMatch"#),
    (r#"{"capabilities":{"firstMatch":[{},1]}}"#, r#"firstMatch"#),
    (
        r#"{"capabilities":{"alwaysMatch":1,"firstMatch":2}}"#,
        r#"alwaysMatch"#,
    ),
    (
        r#"{"capabilities":{"alwaysMatch":{"foo":1},"firstMatch":[]}}"#,
        r#"firstMatch"#,
    ),
];

#[test]
fn forms_come_before_names(rt: HostRuntime) -> Result<(), Fail> {
    for (parameters, expected) in FORMS {
        expect_invalid(&rt, rt.alloc(), parameters, expected)?;
    }
    Ok(())
}

const NAMES: [(&str, &str); 25] = [
    (r#"{"capabilities":{"alwaysMatch":{"foo":1}}}"#, r#"foo"#),
    (r#"{"capabilities":{"alwaysMatch":{"":1}}}"#, r#""#),
    (
        r#"{"capabilities":{"alwaysMatch":{"browserNam\u00e9":""}}}"#,
        r#"browserNamé"#,
    ),
    (
        r#"{"capabilities":{"alwaysMatch":{"browserName":1}}}"#,
        r#"browserName"#,
    ),
    (
        r#"{"capabilities":{"alwaysMatch":{"proxy":1,"browserName":2}}}"#,
        r#"browserName"#,
    ),
    (
        r#"{"capabilities":{"alwaysMatch":{"acceptInsecureCerts":0}}}"#,
        r#"acceptInsecureCerts"#,
    ),
    (
        r#"{"capabilities":{"alwaysMatch":{"strictFileInteractability":"true"}}}"#,
        r#"strictFileInteractability"#,
    ),
    (
        r#"{"capabilities":{"alwaysMatch":{"setWindowRect":"true"}}}"#,
        r#"setWindowRect"#,
    ),
    (
        r#"{"capabilities":{"alwaysMatch":{"browserVersion":1}}}"#,
        r#"browserVersion"#,
    ),
    (
        r#"{"capabilities":{"alwaysMatch":{"platformName":true}}}"#,
        r#"platformName"#,
    ),
    (
        r#"{"capabilities":{"alwaysMatch":{"pageLoadStrategy":"Normal"}}}"#,
        r#"pageLoadStrategy"#,
    ),
    (
        r#"{"capabilities":{"alwaysMatch":{"proxy":{"proxyType":"socks"}}}}"#,
        r#"proxy"#,
    ),
    (
        r#"{"capabilities":{"alwaysMatch":{"proxy":{"proxyType":null}}}}"#,
        r#"proxy"#,
    ),
    (
        r#"{"capabilities":{"alwaysMatch":{"proxy":[]}}}"#,
        r#"proxy"#,
    ),
    (
        r#"{"capabilities":{"alwaysMatch":{"timeouts":{"implicit":null}}}}"#,
        r#"timeouts"#,
    ),
    (
        r#"{"capabilities":{"alwaysMatch":{"timeouts":{"script":-1}}}}"#,
        r#"timeouts"#,
    ),
    (
        r#"{"capabilities":{"alwaysMatch":{"timeouts":5}}}"#,
        r#"timeouts"#,
    ),
    (
        r#"{"capabilities":{"alwaysMatch":{"unhandledPromptBehavior":"notify"}}}"#,
        r#"unhandledPromptBehavior"#,
    ),
    (
        r#"{"capabilities":{"alwaysMatch":{"unhandledPromptBehavior":{"alert":null}}}}"#,
        r#"unhandledPromptBehavior"#,
    ),
    (
        r#"{"capabilities":{"firstMatch":[{},{"platformName":true}]}}"#,
        r#"platformName"#,
    ),
    (
        r#"{"capabilities":{"alwaysMatch":{"timeouts":1},"firstMatch":[{"browserName":1}]}}"#,
        r#"timeouts"#,
    ),
    (
        r#"{"capabilities":{"alwaysMatch":{"browserName":"chrome"},"firstMatch":[{"browserName":"chrome"}]}}"#,
        r#"browserName"#,
    ),
    (
        r#"{"capabilities":{"alwaysMatch":{"browserName":"chrome"},"firstMatch":[{},{"browserName":"x"}]}}"#,
        r#"browserName"#,
    ),
    (
        r#"{"capabilities":{"alwaysMatch":{"x:y":1},"firstMatch":[{"x:y":1}]}}"#,
        r#"x:y"#,
    ),
    (
        r#"{"capabilities":{"alwaysMatch":{"browserName":"chrome"},"firstMatch":[{"browserName":"chrome"},{"setWindowRect":1}]}}"#,
        r#"setWindowRect"#,
    ),
];

#[test]
fn the_first_wrong_name_is_told(rt: HostRuntime) -> Result<(), Fail> {
    for (parameters, expected) in NAMES {
        expect_invalid(&rt, rt.alloc(), parameters, expected)?;
    }
    Ok(())
}
