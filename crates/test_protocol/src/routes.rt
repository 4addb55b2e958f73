//! The route of each command, written out and read back, and of requests that have none.

use endpoints::{
    COMMANDS, Command, Endpoints, Route, RouteFault, command_of, has_variables, is_spelled,
    method_of, path_of, pattern_of, segment,
};
use std::alloc::Global;
use std::process::Abort;
use std::test::Fail;
use wd_errors::Code;
use wd_json::{Memory, WdText};

const METHODS: [&str; 6] = [
    "GET",
    "POST",
    "DELETE",
    "get",
    "HEAD",
    "AN-EXTENSION-METHOD",
];

const UNKNOWN_COMMAND: RouteFault = RouteFault::Refused(Code::UnknownCommand);

const UNKNOWN_METHOD: RouteFault = RouteFault::Refused(Code::UnknownMethod);

fn variable(
    alloc: Global,
    pattern: &str,
    variable: &str,
    text: &str,
) -> Result<Option<WdText>, Memory> {
    if pattern.contains(variable) {
        return Ok(Some(WdText::of(alloc, text)?));
    }
    Ok(None)
}

// A route of the command with texts that have to be escaped.
fn route_to(alloc: Global, command: Command) -> Result<Route, Memory> {
    let pattern = pattern_of(command);
    Ok(Route {
        command,
        session: variable(alloc, pattern, "{session}", "a/b%c")?,
        item: variable(alloc, pattern, "{item}", "é ?x")?,
        name: variable(alloc, pattern, "{name}", "active")?,
    })
}

fn path_to(rt: &impl Abort, alloc: Global, route: &Route) -> Result<WdText, Memory> {
    assert!(rt; has_variables(route));
    path_of(alloc, route)
}

fn same_text(a: &Option<WdText>, b: &Option<WdText>) -> bool {
    match (a, b) {
        (Some(a), Some(b)) => a.as_str() == b.as_str(),
        (None, None) => true,
        _ => false,
    }
}

fn same_route(a: &Route, b: &Route) -> bool {
    a.command == b.command
        && same_text(&a.session, &b.session)
        && same_text(&a.item, &b.item)
        && same_text(&a.name, &b.name)
}

fn answer(endpoints: &Endpoints, method: &str, target: &str) -> Result<Command, RouteFault> {
    Ok(endpoints.resolve(method, target)?.command)
}

// Whether a row of the table has this path and this method.
fn has_row(pattern: &str, method: &str) -> bool {
    COMMANDS.iter().any(|c| pattern_of(*c) == pattern && method_of(*c).as_str() == method)
}

// Every other method of the path is unknown.
fn expect_methods(rt: &impl Abort, endpoints: &Endpoints, pattern: &str, path: &str) {
    for method in METHODS {
        if !has_row(pattern, method) {
            let found = answer(endpoints, method, path);
            assert!(rt; found == Err(UNKNOWN_METHOD), "{method} {path}");
        }
    }
}

fn expect_back(
    rt: &impl Abort,
    alloc: Global,
    endpoints: &Endpoints,
    command: Command,
) -> Result<(), RouteFault> {
    let route = route_to(alloc, command)?;
    let path = path_to(rt, alloc, &route)?;
    let back = endpoints.resolve(method_of(command).as_str(), path.as_str())?;
    assert!(rt; same_route(&route, &back));
    expect_methods(rt, endpoints, pattern_of(command), path.as_str());
    Ok(())
}

#[test]
fn each_command_is_read_back(rt: HostRuntime) -> Result<(), Fail> {
    let endpoints = Endpoints::new(rt.alloc())?;
    for command in COMMANDS {
        expect_back(&rt, rt.alloc(), &endpoints, command)?;
    }
    Ok(())
}

fn expect(
    rt: &impl Abort,
    endpoints: &Endpoints,
    method: &str,
    target: &str,
    expected: Result<Command, RouteFault>,
) {
    let found = answer(endpoints, method, target);
    assert!(rt; found == expected, "{method} {target}");
}

#[test]
fn paths_fit_by_segments(rt: HostRuntime) -> Result<(), Fail> {
    let endpoints = Endpoints::new(rt.alloc())?;
    for target in [
        "",
        "*",
        "/",
        "status",
        "/statu",
        "/status/",
        "//status",
        "/%73tatus",
        "/status#x",
        "http://h/status",
        "/session/",
        "/session//url",
        "/session/S/element/x",
        "/session/S/element//text",
        "/session/%ff/url",
        "/session/S/element/%ff/text",
        "/session/S/cookie/%80",
    ] {
        for method in METHODS {
            expect(&rt, &endpoints, method, target, Err(UNKNOWN_COMMAND));
        }
    }
    Ok(())
}

#[test]
fn methods_are_compared_last(rt: HostRuntime) -> Result<(), Fail> {
    let endpoints = Endpoints::new(rt.alloc())?;
    for (method, target, expected) in [
        ("GET", "/status", Ok(Command::Status)),
        ("GET", "/status?x=/y", Ok(Command::Status)),
        ("POST", "/status", Err(UNKNOWN_METHOD)),
        ("get", "/status", Err(UNKNOWN_METHOD)),
        (
            "GET",
            "/session/S/element/active",
            Ok(Command::GetActiveElement),
        ),
        ("POST", "/session/S/element/active", Err(UNKNOWN_METHOD)),
        (
            "GET",
            "/session/S/element/active/text",
            Ok(Command::GetElementText),
        ),
        ("DELETE", "/session/a%2Fb", Ok(Command::DeleteSession)),
        ("DELETE", "/session/%zz", Ok(Command::DeleteSession)),
    ] {
        expect(&rt, &endpoints, method, target, expected);
    }
    Ok(())
}

#[test]
fn identifiers_stand_written_out(rt: HostRuntime) -> Result<(), Fail> {
    let alloc = rt.alloc();
    let identifier = "00000000-0001-8000-8000-000100000000";
    let route = Route {
        command: Command::FindElement,
        session: Some(WdText::of(alloc, identifier)?),
        item: None,
        name: None,
    };
    let path = path_to(&rt, alloc, &route)?;
    assert_eq!(rt;
        path.as_str(),
        "/session/00000000-0001-8000-8000-000100000000/element"
    );
    Ok(())
}

#[test]
fn segments_are_compared_decoded(rt: HostRuntime) {
    let target = "/session/%61b%2d1/url?/x";
    assert!(rt; segment(target, 0) == Some(""));
    assert!(rt; segment(target, 2).is_some_and(|named| is_spelled(named, "ab-1")));
    assert!(rt; segment(target, 4).is_none());
    assert!(rt; !is_spelled("AB-1", "ab-1"));
    assert!(rt; !is_spelled("ab-1", "ab-12"));
    assert!(rt; !is_spelled("ab-12", "ab-1"));
}

#[test]
fn names_are_compared_whole(rt: HostRuntime) {
    assert!(rt; command_of("GetElementCssValue") == Some(Command::GetElementCssValue));
    assert!(rt; command_of("Get").is_none());
    assert!(rt; command_of("status").is_none());
    assert!(rt; command_of("FindElement") == Some(Command::FindElement));
}

#[test]
fn faults_are_printed_as_their_codes(rt: HostRuntime) -> Result<(), Fail> {
    let text = format!(in rt.alloc(); "{UNKNOWN_METHOD}, {}", RouteFault::Memory)?;
    assert_eq!(rt; text.as_str(), "unknown method, out of memory");
    Ok(())
}
