//! The error codes of replies.

ghost use Rattle.std.specs.Prelude.{Some};
ghost use Rattle.wd_errors.specs.Codes.{row_of};

use crate::table::code_text;
use std::fmt;

/// An error code: what a reply calls the reason for which a command failed (W3C Recommendation
/// WebDriver of 5 June 2018, section 6.6, "Handling Errors"; the two of shadow roots are of Level 2).
#[derive(Clone, Copy, Debug, PartialEq, Eq)]
pub enum Code {
    /// The point to be clicked shows another element.
    ElementClickIntercepted,
    /// The element can't be reached by pointer or keyboard.
    ElementNotInteractable,
    /// The page came with a certificate that is not trusted.
    InsecureCertificate,
    /// An argument is missing or malformed.
    InvalidArgument,
    /// A cookie was to be set for another domain than that of the document.
    InvalidCookieDomain,
    /// The element is not in a state in which the command could be completed.
    InvalidElementState,
    /// The selector is malformed.
    InvalidSelector,
    /// There is no open session with this identifier.
    InvalidSessionId,
    /// No prompt is open.
    NoSuchAlert,
    /// The document has no cookie with this name.
    NoSuchCookie,
    /// No element was found.
    NoSuchElement,
    /// No frame was found.
    NoSuchFrame,
    /// No window was found, or the current one is closed.
    NoSuchWindow,
    /// The element has no shadow root, or none was found.
    NoSuchShadowRoot,
    /// The element that is referred to is no longer connected to the document.
    StaleElementReference,
    /// The shadow root that is referred to is no longer connected to the document.
    DetachedShadowRoot,
    /// No command has this path.
    UnknownCommand,
    /// Commands have this path, and none of them this method.
    UnknownMethod,
    /// A script threw.
    JavascriptError,
    /// The pointer was to leave the viewport.
    MoveTargetOutOfBounds,
    /// A script took longer than its timeout.
    ScriptTimeout,
    /// A new session could not be made.
    SessionNotCreated,
    /// An operation took longer than its timeout.
    Timeout,
    /// A cookie could not be set.
    UnableToSetCookie,
    /// A picture of the screen could not be made.
    UnableToCaptureScreen,
    /// A prompt is open that the command did not expect.
    UnexpectedAlertOpen,
    /// Something failed that has no other code.
    UnknownError,
    /// The command is known, and this end does not support it.
    UnsupportedOperation,
}

/// A code is printed as its text.
impl fmt::Display for Code {
    ghost output = { λ code. Some (row_of code).text };

    fn fmt<W: fmt::Write>(&self, f: &mut fmt::Formatter<W>) -> fmt::Result {
        f.write_str(code_text(*self))
    }
}
