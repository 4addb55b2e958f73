//! The table of commands: the name, the method and the path of each, and who has a name.

ghost use Rattle.std.specs.Prelude.{◌≡◌, ◌≢◌, IfSome, IfNone};
ghost use Rattle.endpoints.specs.declared.command.Command.{Command as AnyCommand};
ghost use Rattle.endpoints.specs.Shown.{shown};
ghost use Rattle.endpoints.specs.Table.{row_of, get as get_row, post as post_row, delete as delete_row};

use crate::command::Command::{self, *};
use Verb::*;
use http::Method;

/// Every command, in the order of the table.
pub const COMMANDS: [Command; 58] = [
    NewSession,
    DeleteSession,
    Status,
    GetTimeouts,
    SetTimeouts,
    NavigateTo,
    GetCurrentUrl,
    Back,
    Forward,
    Refresh,
    GetTitle,
    GetWindowHandle,
    CloseWindow,
    SwitchToWindow,
    GetWindowHandles,
    GetWindowRect,
    SetWindowRect,
    MaximizeWindow,
    FullscreenWindow,
    MinimizeWindow,
    SwitchToFrame,
    SwitchToParentFrame,
    GetActiveElement,
    FindElement,
    FindElements,
    FindElementFromElement,
    FindElementsFromElement,
    FindElementFromShadowRoot,
    FindElementsFromShadowRoot,
    GetElementShadowRoot,
    IsElementSelected,
    GetElementAttribute,
    GetElementProperty,
    GetElementCssValue,
    GetElementText,
    GetElementTagName,
    GetElementRect,
    IsElementEnabled,
    IsElementDisplayed,
    ElementClick,
    ElementClear,
    ElementSendKeys,
    GetPageSource,
    ExecuteScript,
    ExecuteAsyncScript,
    GetAllCookies,
    AddCookie,
    DeleteAllCookies,
    GetNamedCookie,
    DeleteCookie,
    PerformActions,
    ReleaseActions,
    DismissAlert,
    AcceptAlert,
    GetAlertText,
    SendAlertText,
    TakeScreenshot,
    TakeElementScreenshot,
];

/// The methods of the table.
#[derive(Clone, Copy)]
pub enum Verb {
    Get,
    Post,
    Delete,
}

// A row of the table: a name, a method and a path.
#[derive(Drop)]
struct Row(&'static str, Verb, &'static str);

fn get(name: &'static str, path: &'static str) -> Row
    ensures { shown result ≡ get_row name.now path.now }
{
    Row(name, Get, path)
}

fn post(name: &'static str, path: &'static str) -> Row
    ensures { shown result ≡ post_row name.now path.now }
{
    Row(name, Post, path)
}

fn delete(name: &'static str, path: &'static str) -> Row
    ensures { shown result ≡ delete_row name.now path.now }
{
    Row(name, Delete, path)
}

// The table.
fn row_for(command: Command) -> Row
    ensures { shown result ≡ row_of command }
{
    match command {
        NewSession => post("NewSession", "/session"),
        DeleteSession => delete("DeleteSession", "/session/{session}"),
        Status => get("Status", "/status"),
        GetTimeouts => get("GetTimeouts", "/session/{session}/timeouts"),
        SetTimeouts => post("SetTimeouts", "/session/{session}/timeouts"),
        NavigateTo => post("NavigateTo", "/session/{session}/url"),
        GetCurrentUrl => get("GetCurrentUrl", "/session/{session}/url"),
        Back => post("Back", "/session/{session}/back"),
        Forward => post("Forward", "/session/{session}/forward"),
        Refresh => post("Refresh", "/session/{session}/refresh"),
        GetTitle => get("GetTitle", "/session/{session}/title"),
        GetWindowHandle => get("GetWindowHandle", "/session/{session}/window"),
        CloseWindow => delete("CloseWindow", "/session/{session}/window"),
        SwitchToWindow => post("SwitchToWindow", "/session/{session}/window"),
        GetWindowHandles => get("GetWindowHandles", "/session/{session}/window/handles"),
        GetWindowRect => get("GetWindowRect", "/session/{session}/window/rect"),
        SetWindowRect => post("SetWindowRect", "/session/{session}/window/rect"),
        MaximizeWindow => post("MaximizeWindow", "/session/{session}/window/maximize"),
        FullscreenWindow => post("FullscreenWindow", "/session/{session}/window/fullscreen"),
        MinimizeWindow => post("MinimizeWindow", "/session/{session}/window/minimize"),
        SwitchToFrame => post("SwitchToFrame", "/session/{session}/frame"),
        SwitchToParentFrame => post("SwitchToParentFrame", "/session/{session}/frame/parent"),
        GetActiveElement => get("GetActiveElement", "/session/{session}/element/active"),
        FindElement => post("FindElement", "/session/{session}/element"),
        FindElements => post("FindElements", "/session/{session}/elements"),
        FindElementFromElement => post(
            "FindElementFromElement",
            "/session/{session}/element/{item}/element",
        ),
        FindElementsFromElement => post(
            "FindElementsFromElement",
            "/session/{session}/element/{item}/elements",
        ),
        FindElementFromShadowRoot => post(
            "FindElementFromShadowRoot",
            "/session/{session}/shadow/{item}/element",
        ),
        FindElementsFromShadowRoot => post(
            "FindElementsFromShadowRoot",
            "/session/{session}/shadow/{item}/elements",
        ),
        GetElementShadowRoot => get(
            "GetElementShadowRoot",
            "/session/{session}/element/{item}/shadow",
        ),
        IsElementSelected => get(
            "IsElementSelected",
            "/session/{session}/element/{item}/selected",
        ),
        GetElementAttribute => get(
            "GetElementAttribute",
            "/session/{session}/element/{item}/attribute/{name}",
        ),
        GetElementProperty => get(
            "GetElementProperty",
            "/session/{session}/element/{item}/property/{name}",
        ),
        GetElementCssValue => get(
            "GetElementCssValue",
            "/session/{session}/element/{item}/css/{name}",
        ),
        GetElementText => get("GetElementText", "/session/{session}/element/{item}/text"),
        GetElementTagName => get(
            "GetElementTagName",
            "/session/{session}/element/{item}/name",
        ),
        GetElementRect => get("GetElementRect", "/session/{session}/element/{item}/rect"),
        IsElementEnabled => get(
            "IsElementEnabled",
            "/session/{session}/element/{item}/enabled",
        ),
        IsElementDisplayed => get(
            "IsElementDisplayed",
            "/session/{session}/element/{item}/displayed",
        ),
        ElementClick => post("ElementClick", "/session/{session}/element/{item}/click"),
        ElementClear => post("ElementClear", "/session/{session}/element/{item}/clear"),
        ElementSendKeys => post("ElementSendKeys", "/session/{session}/element/{item}/value"),
        GetPageSource => get("GetPageSource", "/session/{session}/source"),
        ExecuteScript => post("ExecuteScript", "/session/{session}/execute/sync"),
        ExecuteAsyncScript => post("ExecuteAsyncScript", "/session/{session}/execute/async"),
        GetAllCookies => get("GetAllCookies", "/session/{session}/cookie"),
        AddCookie => post("AddCookie", "/session/{session}/cookie"),
        DeleteAllCookies => delete("DeleteAllCookies", "/session/{session}/cookie"),
        GetNamedCookie => get("GetNamedCookie", "/session/{session}/cookie/{name}"),
        DeleteCookie => delete("DeleteCookie", "/session/{session}/cookie/{name}"),
        PerformActions => post("PerformActions", "/session/{session}/actions"),
        ReleaseActions => delete("ReleaseActions", "/session/{session}/actions"),
        DismissAlert => post("DismissAlert", "/session/{session}/alert/dismiss"),
        AcceptAlert => post("AcceptAlert", "/session/{session}/alert/accept"),
        GetAlertText => get("GetAlertText", "/session/{session}/alert/text"),
        SendAlertText => post("SendAlertText", "/session/{session}/alert/text"),
        TakeScreenshot => get("TakeScreenshot", "/session/{session}/screenshot"),
        TakeElementScreenshot => get(
            "TakeElementScreenshot",
            "/session/{session}/element/{item}/screenshot",
        ),
    }
}

/// The method of a request for this command: `GET`, `POST` or `DELETE`. It takes no memory.
pub fn method_of(command: Command) -> Method
    ensures { result ≡ (row_of command).method }
{
    match row_for(command).1 {
        Get => Method::GET,
        Post => Method::POST,
        Delete => Method::DELETE,
    }
}

/// The path of a command, with its variables in braces: `{session}`, `{item}` and `{name}`.
pub fn pattern_of(command: Command) -> &'static str
    ensures { result.now ≡ (row_of command).path }
{
    row_for(command).2
}

pub(crate) fn name_of(command: Command) -> &'static str
    ensures { result.now ≡ (row_of command).name }
{
    row_for(command).0
}

/// The command with this name, as `NewSession`; `None` exactly where no command has it. Names are
/// compared whole, with regard to case.
pub fn command_of(name: &str) -> Option<Command>
    ensures found { IfSome result (λ command. (row_of command).name ≡ name.now) }
    ensures none { IfNone result ((command : AnyCommand) → (row_of command).name ≢ name.now) }
{
    COMMANDS.iter().copied().find(|c| name_of(*c) == name)
}

/// A law, to be cited: no two commands have one name.
pub fn one_command_for_name()
    ensures { (a b : AnyCommand) → (row_of a).name ≡ (row_of b).name → a ≡ b }
{}
