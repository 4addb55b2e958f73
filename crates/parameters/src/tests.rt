//! Which bodies commands take and refuse, by the kinds of their parameters, as tests.

use crate::{ParamFault, read_parameters};
use endpoints::{Command, Route};
use std::alloc::Global;
use std::process::Abort;
use std::test::Fail;
use wd_errors::Code;
use wd_json::{JsonReader, WdBytes, write};

// The command's parameters, written again.
fn parameters(alloc: Global, command: Command, body: &str) -> Result<WdBytes, ParamFault> {
    let route = Route {
        command,
        session: None,
        item: None,
        name: None,
    };
    let body = WdBytes::of(alloc, body.as_bytes())?;
    let json = read_parameters(alloc, &mut JsonReader::new(alloc), &route, &body)?;
    Ok(write(alloc, &json)?)
}

fn pass(rt: &impl Abort, alloc: Global, command: Command, bodies: &[&str]) -> Result<(), Fail> {
    for body in bodies {
        let written = parameters(alloc, command, body)?;
        assert_eq!(rt; written.as_slice(), body.as_bytes(), "{body}");
    }
    Ok(())
}

fn fail(rt: &impl Abort, alloc: Global, command: Command, code: Code, bodies: &[&str]) {
    for body in bodies {
        match parameters(alloc, command, body) {
            Ok(_) => assert!(rt; false, "passed: {body}"),
            Err(found) => assert_eq!(rt; found, ParamFault::Refused(code), "{body}"),
        }
    }
}

fn expect(
    rt: &impl Abort,
    alloc: Global,
    command: Command,
    good: &[&str],
    bad: &[&str],
) -> Result<(), Fail> {
    pass(rt, alloc, command, good)?;
    fail(rt, alloc, command, Code::InvalidArgument, bad);
    Ok(())
}

#[test]
fn texts_lists_and_addresses(rt: HostRuntime) -> Result<(), Fail> {
    let cases: [(Command, &[&str], &[&str]); 4] = [
        (
            Command::SwitchToWindow,
            &[
                r#"{"handle":"w"}"#,
                r#"{"handle":""}"#,
                r#"{"a":[1],"handle":"é"}"#,
            ],
            &[
                "{}",
                r#"{"handle":null}"#,
                r#"{"handle":1}"#,
                r#"{"Handle":"w"}"#,
            ],
        ),
        (
            Command::ElementSendKeys,
            &[
                r#"{"text":"ab"}"#,
                r#"{"text":""}"#,
                r#"{"text":"a","value":["a"]}"#,
            ],
            &["{}", r#"{"text":["a"]}"#, r#"{"value":"a"}"#],
        ),
        (
            Command::ExecuteScript,
            &[
                r#"{"args":[],"script":""}"#,
                r#"{"args":[1,null],"script":"x"}"#,
                r#"{"args":[[]],"more":1,"script":"x"}"#,
            ],
            &[
                r#"{"script":"x"}"#,
                r#"{"args":null,"script":"x"}"#,
                r#"{"args":{},"script":"x"}"#,
                r#"{"args":[]}"#,
            ],
        ),
        (
            Command::NavigateTo,
            &[
                r#"{"url":"http://a/"}"#,
                r#"{"url":"about:blank"}"#,
                r#"{"url":"data:,x"}"#,
            ],
            &[
                "{}",
                r#"{"url":""}"#,
                r#"{"url":"a/b"}"#,
                r#"{"url":"http://"}"#,
                r#"{"url":"http://a:b/"}"#,
                r#"{"url":7}"#,
            ],
        ),
    ];
    for (command, good, bad) in cases {
        expect(&rt, rt.alloc(), command, good, bad)?;
    }
    Ok(())
}

#[test]
fn numbers_and_frames(rt: HostRuntime) -> Result<(), Fail> {
    let cases: [(Command, &[&str], &[&str]); 4] = [
        (
            Command::SwitchToFrame,
            &[
                r#"{"id":null}"#,
                r#"{"id":0}"#,
                r#"{"id":65535}"#,
                r#"{"id":{"element-6066-11e4-a52e-4f735466cecf":"","x":1}}"#,
            ],
            &[
                "{}",
                r#"{"id":-1}"#,
                r#"{"id":65536}"#,
                r#"{"id":"0"}"#,
                r#"{"id":{}}"#,
                r#"{"id":{"element-6066-11e4-a52e-4f735466cecf":1}}"#,
                r#"{"id":{"shadow-6066-11e4-a52e-4f735466cecf":"a"}}"#,
            ],
        ),
        (
            Command::SetWindowRect,
            &[
                "{}",
                r#"{"x":null,"y":-2147483648}"#,
                r#"{"x":2147483647,"y":0}"#,
            ],
            &[
                r#"{"x":2147483648}"#,
                r#"{"y":-2147483649}"#,
                r#"{"x":"1"}"#,
                r#"{"x":0,"y":true}"#,
            ],
        ),
        (
            Command::SetWindowRect,
            &[
                r#"{"height":null,"width":0}"#,
                r#"{"height":2147483647}"#,
                r#"{"height":0,"width":null,"x":1}"#,
            ],
            &[
                r#"{"width":-1}"#,
                r#"{"height":2147483648}"#,
                r#"{"height":[],"width":1}"#,
            ],
        ),
        (
            Command::SetTimeouts,
            &[
                "{}",
                r#"{"implicit":0,"pageLoad":9007199254740991}"#,
                r#"{"other":null,"script":1}"#,
            ],
            &[
                r#"{"implicit":-1}"#,
                r#"{"pageLoad":null}"#,
                r#"{"implicit":1,"script":"1"}"#,
            ],
        ),
    ];
    for (command, good, bad) in cases {
        expect(&rt, rt.alloc(), command, good, bad)?;
    }
    Ok(())
}

#[test]
fn ways_to_find(rt: HostRuntime) -> Result<(), Fail> {
    let commands = [
        Command::FindElement,
        Command::FindElements,
        Command::FindElementFromElement,
        Command::FindElementsFromElement,
        Command::FindElementFromShadowRoot,
        Command::FindElementsFromShadowRoot,
    ];
    let good = [
        r#"{"using":"css selector","value":"a"}"#,
        r#"{"using":"link text","value":""}"#,
        r#"{"using":"partial link text","value":"a"}"#,
        r#"{"using":"tag name","value":"*"}"#,
    ];
    let bad = [
        "{}",
        r#"{"using":"id","value":"a"}"#,
        r#"{"using":"id"}"#,
        r#"{"using":"XPath"}"#,
        r#"{"using":1,"value":"a"}"#,
        r#"{"using":"tag name"}"#,
        r#"{"using":"tag name","value":1}"#,
        r#"{"value":"a"}"#,
    ];
    for command in commands {
        expect(&rt, rt.alloc(), command, &good, &bad)?;
        let unsupported = [r#"{"using":"xpath","value":"a"}"#, r#"{"using":"xpath"}"#];
        fail(
            &rt,
            rt.alloc(),
            command,
            Code::UnsupportedOperation,
            &unsupported,
        );
    }
    Ok(())
}

#[test]
fn bodies_and_commands(rt: HostRuntime) -> Result<(), Fail> {
    let no_objects = [
        "",
        "null",
        "[]",
        "{",
        r#"{"a":1.0}"#,
        r#"{"a":9007199254740992}"#,
    ];
    for command in [
        Command::Refresh,
        Command::NewSession,
        Command::PerformActions,
    ] {
        expect(
            &rt,
            rt.alloc(),
            command,
            &["{}", r#"{"a":{"b":[]}}"#],
            &no_objects,
        )?;
    }
    fail(
        &rt,
        rt.alloc(),
        Command::AddCookie,
        Code::InvalidArgument,
        &no_objects,
    );
    fail(
        &rt,
        rt.alloc(),
        Command::AddCookie,
        Code::UnsupportedOperation,
        &["{}"],
    );
    for command in [
        Command::GetAllCookies,
        Command::DeleteAllCookies,
        Command::GetNamedCookie,
        Command::DeleteCookie,
        Command::TakeScreenshot,
        Command::TakeElementScreenshot,
    ] {
        fail(
            &rt,
            rt.alloc(),
            command,
            Code::UnsupportedOperation,
            &["", "{}"],
        );
    }
    for command in [Command::GetTitle, Command::Status, Command::DeleteSession] {
        let written = parameters(rt.alloc(), command, "no JSON")?;
        assert_eq!(rt; written.as_slice(), b"{}".as_slice());
    }
    Ok(())
}

#[test]
fn a_fault_is_printed(rt: HostRuntime) -> Result<(), Fail> {
    let fault = ParamFault::Refused(Code::InvalidArgument);
    let text = format!(in rt.alloc(); "{}, {}", fault, ParamFault::Memory)?;
    assert_eq!(rt; text.as_str(), "invalid argument, out of memory");
    Ok(())
}
