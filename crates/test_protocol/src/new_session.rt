//! What capabilities are answered with, compared with what is expected.

use capabilities::{CapFault, Offer, echo, process};
use std::alloc::Global;
use std::process::Abort;
use std::test::Fail;
use wd_json::{Json, WdBytes, WdText, copy, read, write};

/// The answer to a client that asks for nothing.
pub const DEFAULT: &str =
    r#"{"acceptInsecureCerts":false,"browserName":"chrome","browserVersion":"1.0","pageLoadStrategy":"normal","platformName":"linux","proxy":{},"setWindowRect":true,"strictFileInteractability":false,"timeouts":{"implicit":0,"pageLoad":300000,"script":30000},"unhandledPromptBehavior":"dismiss and notify"}"#;

#[derive(Drop)]
enum Outcome {
    Session(WdBytes),
    Invalid(WdText),
    NoMatch,
}

/// What these parameters are answered with: the text of the echo, or why there is none.
fn answer_to(alloc: Global, name: &str, parameters: &str) -> Result<Outcome, Fail> {
    let parameters = read(alloc, parameters.as_bytes())?;
    let offer = Offer {
        name: WdText::of(alloc, name)?,
    };
    match process(alloc, &parameters, &offer) {
        Ok(matched) => {
            let answer = echo(alloc, &matched, &offer)?;
            Ok(Outcome::Session(write(alloc, &answer)?))
        }
        Err(CapFault::Invalid(name)) => Ok(Outcome::Invalid(name)),
        Err(CapFault::NoMatch) => Ok(Outcome::NoMatch),
        Err(CapFault::Memory) => Err(Fail::new("out of memory")),
    }
}

/// The default answer with these members in place of its own.
pub fn changed(alloc: Global, changes: &str) -> Result<WdBytes, Fail> {
    let mut answer = match read(alloc, DEFAULT.as_bytes())? {
        Json::Object(map) => map,
        _ => return Err(Fail::new("no object")),
    };
    if let Json::Object(map) = read(alloc, changes.as_bytes())? {
        for (name, value) in map.as_slice() {
            answer.put(name.copy(alloc)?, copy(alloc, value)?)?;
        }
    }
    Ok(write(alloc, &Json::Object(answer))?)
}

pub fn expect_session(
    rt: &impl Abort,
    alloc: Global,
    parameters: &str,
    changes: &str,
) -> Result<(), Fail> {
    let expected = changed(alloc, changes)?;
    match answer_to(alloc, "chrome", parameters)? {
        Outcome::Session(text) => assert_eq!(rt;
            text.as_slice(),
            expected.as_slice(),
            "{parameters}"
        ),
        _ => assert!(rt; false, "no session: {parameters}"),
    }
    Ok(())
}

pub fn expect_invalid(
    rt: &impl Abort,
    alloc: Global,
    parameters: &str,
    wrong: &str,
) -> Result<(), Fail> {
    match answer_to(alloc, "chrome", parameters)? {
        Outcome::Invalid(name) => assert_eq!(rt; name.as_str(), wrong, "{parameters}"),
        _ => assert!(rt; false, "not invalid: {parameters}"),
    }
    Ok(())
}

pub fn expect_no_match(
    rt: &impl Abort,
    alloc: Global,
    name: &str,
    parameters: &str,
) -> Result<(), Fail> {
    match answer_to(alloc, name, parameters)? {
        Outcome::NoMatch => Ok(()),
        _ => {
            assert!(rt; false, "matched or invalid: {parameters}");
            Ok(())
        }
    }
}
