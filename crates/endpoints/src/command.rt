//! The commands of the protocol.

use crate::table::name_of;
use std::fmt;

/// A command of the protocol: one row of the table of commands. The names are those of the W3C
/// Recommendation WebDriver of 5 June 2018, section 6.5, written as one word; the three of shadow
/// roots are of Level 2.
#[derive(Clone, Copy, PartialEq, Eq)]
pub enum Command {
    /// `POST /session`. Makes a session.
    NewSession,
    /// `DELETE /session/{session}`. Ends the session.
    DeleteSession,
    /// `GET /status`. Tells whether a further session can be made.
    Status,
    /// `GET /session/{session}/timeouts`. The timeouts of the session.
    GetTimeouts,
    /// `POST /session/{session}/timeouts`. Sets timeouts of the session.
    SetTimeouts,
    /// `POST /session/{session}/url`. Opens an address in the current window.
    NavigateTo,
    /// `GET /session/{session}/url`. The address of the top document.
    GetCurrentUrl,
    /// `POST /session/{session}/back`. Goes one step back in the history.
    Back,
    /// `POST /session/{session}/forward`. Goes one step forward in the history.
    Forward,
    /// `POST /session/{session}/refresh`. Loads the page once more.
    Refresh,
    /// `GET /session/{session}/title`. The title of the top document.
    GetTitle,
    /// `GET /session/{session}/window`. The handle of the current window.
    GetWindowHandle,
    /// `DELETE /session/{session}/window`. Closes the current window.
    CloseWindow,
    /// `POST /session/{session}/window`. Makes another window the current one.
    SwitchToWindow,
    /// `GET /session/{session}/window/handles`. The handles of all windows.
    GetWindowHandles,
    /// `GET /session/{session}/window/rect`. Place and size of the window.
    GetWindowRect,
    /// `POST /session/{session}/window/rect`. Sets place and size of the window.
    SetWindowRect,
    /// `POST /session/{session}/window/maximize`. Makes the window as large as the screen.
    MaximizeWindow,
    /// `POST /session/{session}/window/fullscreen`. Shows the window alone on the screen.
    FullscreenWindow,
    /// `POST /session/{session}/window/minimize`. Hides the window.
    MinimizeWindow,
    /// `POST /session/{session}/frame`. Makes a frame the current context.
    SwitchToFrame,
    /// `POST /session/{session}/frame/parent`. Makes the parent the current context.
    SwitchToParentFrame,
    /// `GET /session/{session}/element/active`. The element that has the focus.
    GetActiveElement,
    /// `POST /session/{session}/element`. The first element that matches.
    FindElement,
    /// `POST /session/{session}/elements`. All elements that match.
    FindElements,
    /// `POST /session/{session}/element/{item}/element`. The first match under an element.
    FindElementFromElement,
    /// `POST /session/{session}/element/{item}/elements`. All matches under an element.
    FindElementsFromElement,
    /// `POST /session/{session}/shadow/{item}/element`. The first match under a shadow root.
    FindElementFromShadowRoot,
    /// `POST /session/{session}/shadow/{item}/elements`. All matches under a shadow root.
    FindElementsFromShadowRoot,
    /// `GET /session/{session}/element/{item}/shadow`. The shadow root of an element.
    GetElementShadowRoot,
    /// `GET /session/{session}/element/{item}/selected`. Whether it is checked or selected.
    IsElementSelected,
    /// `GET /session/{session}/element/{item}/attribute/{name}`. The value of an attribute.
    GetElementAttribute,
    /// `GET /session/{session}/element/{item}/property/{name}`. The value of a property.
    GetElementProperty,
    /// `GET /session/{session}/element/{item}/css/{name}`. The computed value of a style.
    GetElementCssValue,
    /// `GET /session/{session}/element/{item}/text`. The text as it is rendered.
    GetElementText,
    /// `GET /session/{session}/element/{item}/name`. The tag of the element.
    GetElementTagName,
    /// `GET /session/{session}/element/{item}/rect`. Place and size of the element.
    GetElementRect,
    /// `GET /session/{session}/element/{item}/enabled`. Whether it is not disabled.
    IsElementEnabled,
    /// `GET /session/{session}/element/{item}/displayed`. Whether it is shown.
    IsElementDisplayed,
    /// `POST /session/{session}/element/{item}/click`. Clicks the element.
    ElementClick,
    /// `POST /session/{session}/element/{item}/clear`. Empties the element.
    ElementClear,
    /// `POST /session/{session}/element/{item}/value`. Types into the element.
    ElementSendKeys,
    /// `GET /session/{session}/source`. The source of the current document.
    GetPageSource,
    /// `POST /session/{session}/execute/sync`. Runs a script to its end.
    ExecuteScript,
    /// `POST /session/{session}/execute/async`. Runs a script until it calls back.
    ExecuteAsyncScript,
    /// `GET /session/{session}/cookie`. All cookies of the document.
    GetAllCookies,
    /// `POST /session/{session}/cookie`. Adds a cookie.
    AddCookie,
    /// `DELETE /session/{session}/cookie`. Deletes all cookies of the document.
    DeleteAllCookies,
    /// `GET /session/{session}/cookie/{name}`. The cookie with this name.
    GetNamedCookie,
    /// `DELETE /session/{session}/cookie/{name}`. Deletes the cookie with this name.
    DeleteCookie,
    /// `POST /session/{session}/actions`. Plays a list of input actions.
    PerformActions,
    /// `DELETE /session/{session}/actions`. Releases all keys and buttons.
    ReleaseActions,
    /// `POST /session/{session}/alert/dismiss`. Dismisses the prompt.
    DismissAlert,
    /// `POST /session/{session}/alert/accept`. Accepts the prompt.
    AcceptAlert,
    /// `GET /session/{session}/alert/text`. The text of the prompt.
    GetAlertText,
    /// `POST /session/{session}/alert/text`. Types into the prompt.
    SendAlertText,
    /// `GET /session/{session}/screenshot`. A picture of the page.
    TakeScreenshot,
    /// `GET /session/{session}/element/{item}/screenshot`. A picture of the element.
    TakeElementScreenshot,
}

/// Prints the command's name.
impl fmt::Debug for Command {
    fn fmt<W: fmt::Write>(&self, f: &mut fmt::Formatter<W>) -> fmt::Result {
        f.write_str(name_of(*self))
    }
}
