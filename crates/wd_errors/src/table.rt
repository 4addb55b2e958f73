//! The status and text of each error code, and the code of a text.

ghost use Rattle.std.specs.Prelude.{◌≡◌, ◌≢◌, IfSome, IfNone};
ghost use Rattle.wd_errors.specs.Codes.{row_of};
ghost use Rattle.wd_errors.specs.declared.code.Code.{Code as AnyCode};

use crate::code::Code;
use http::StatusCode;

// Every code.
const ALL: [Code; 28] = [
    Code::ElementClickIntercepted,
    Code::ElementNotInteractable,
    Code::InsecureCertificate,
    Code::InvalidArgument,
    Code::InvalidCookieDomain,
    Code::InvalidElementState,
    Code::InvalidSelector,
    Code::InvalidSessionId,
    Code::NoSuchAlert,
    Code::NoSuchCookie,
    Code::NoSuchElement,
    Code::NoSuchFrame,
    Code::NoSuchWindow,
    Code::NoSuchShadowRoot,
    Code::StaleElementReference,
    Code::DetachedShadowRoot,
    Code::UnknownCommand,
    Code::UnknownMethod,
    Code::JavascriptError,
    Code::MoveTargetOutOfBounds,
    Code::ScriptTimeout,
    Code::SessionNotCreated,
    Code::Timeout,
    Code::UnableToSetCookie,
    Code::UnableToCaptureScreen,
    Code::UnexpectedAlertOpen,
    Code::UnknownError,
    Code::UnsupportedOperation,
];

// The status of a reply with this code.
fn status_code(code: Code) -> StatusCode
    ensures { result ≡ (row_of code).status }
{
    match code {
        Code::ElementClickIntercepted
        | Code::ElementNotInteractable
        | Code::InsecureCertificate
        | Code::InvalidArgument
        | Code::InvalidCookieDomain
        | Code::InvalidElementState
        | Code::InvalidSelector => StatusCode::BAD_REQUEST,
        Code::InvalidSessionId
        | Code::NoSuchAlert
        | Code::NoSuchCookie
        | Code::NoSuchElement
        | Code::NoSuchFrame
        | Code::NoSuchWindow
        | Code::NoSuchShadowRoot
        | Code::StaleElementReference
        | Code::DetachedShadowRoot
        | Code::UnknownCommand => StatusCode::NOT_FOUND,
        Code::UnknownMethod => StatusCode::METHOD_NOT_ALLOWED,
        Code::JavascriptError
        | Code::MoveTargetOutOfBounds
        | Code::ScriptTimeout
        | Code::SessionNotCreated
        | Code::Timeout
        | Code::UnableToSetCookie
        | Code::UnableToCaptureScreen
        | Code::UnexpectedAlertOpen
        | Code::UnknownError
        | Code::UnsupportedOperation => StatusCode::INTERNAL_SERVER_ERROR,
    }
}

/// The HTTP status of a reply with this code: 400, 404, 405 or 500.
pub fn status(code: Code) -> u16
    ensures { result ≡ (row_of code).status }
{
    status_code(code).as_u16()
}

/// What a reply calls the code, in its member `error`: lower case words.
pub fn code_text(code: Code) -> &'static str
    ensures { result.now ≡ (row_of code).text }
{
    match code {
        Code::ElementClickIntercepted => "element click intercepted",
        Code::ElementNotInteractable => "element not interactable",
        Code::InsecureCertificate => "insecure certificate",
        Code::InvalidArgument => "invalid argument",
        Code::InvalidCookieDomain => "invalid cookie domain",
        Code::InvalidElementState => "invalid element state",
        Code::InvalidSelector => "invalid selector",
        Code::InvalidSessionId => "invalid session id",
        Code::NoSuchAlert => "no such alert",
        Code::NoSuchCookie => "no such cookie",
        Code::NoSuchElement => "no such element",
        Code::NoSuchFrame => "no such frame",
        Code::NoSuchWindow => "no such window",
        Code::NoSuchShadowRoot => "no such shadow root",
        Code::StaleElementReference => "stale element reference",
        Code::DetachedShadowRoot => "detached shadow root",
        Code::UnknownCommand => "unknown command",
        Code::UnknownMethod => "unknown method",
        Code::JavascriptError => "javascript error",
        Code::MoveTargetOutOfBounds => "move target out of bounds",
        Code::ScriptTimeout => "script timeout",
        Code::SessionNotCreated => "session not created",
        Code::Timeout => "timeout",
        Code::UnableToSetCookie => "unable to set cookie",
        Code::UnableToCaptureScreen => "unable to capture screen",
        Code::UnexpectedAlertOpen => "unexpected alert open",
        Code::UnknownError => "unknown error",
        Code::UnsupportedOperation => "unsupported operation",
    }
}

/// The code with this text; `None` exactly where no code has it. Texts are compared whole, with
/// regard to case.
pub fn code_of(text: &str) -> Option<Code>
    ensures found { IfSome result (λ code. (row_of code).text ≡ text.now) }
    ensures none { IfNone result ((code : AnyCode) → (row_of code).text ≢ text.now) }
{
    ALL.iter().copied().find(|code| code_text(*code) == text)
}

/// A law, to be cited: no two codes have one text, so `code_of` reads what `code_text` writes.
pub fn one_code_for_text()
    ensures { (a b : AnyCode) → (row_of a).text ≡ (row_of b).text → a ≡ b }
{}
