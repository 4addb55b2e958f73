//! The parameters that each command looks at, and the commands that this end doesn't have.

ghost use Rattle.std.specs.Prelude.{◌≡◌};
ghost use Rattle.parameters.specs.Table.{row_of, is_unsupported as unsupported};

use crate::parameter::Parameter;
use endpoints::Command;

/// The parameters that a command looks at, in the order in which it looks.
pub fn row(command: Command) -> &'static [Parameter]
    ensures { result.now ≡ row_of command }
{
    match command {
        Command::SetTimeouts => &[
            Parameter::ScriptTimeout,
            Parameter::PageLoadTimeout,
            Parameter::ImplicitTimeout,
        ],
        Command::NavigateTo => &[Parameter::Url],
        Command::SwitchToWindow => &[Parameter::Handle],
        Command::SetWindowRect => &[
            Parameter::X,
            Parameter::Y,
            Parameter::Width,
            Parameter::Height,
        ],
        Command::SwitchToFrame => &[Parameter::Id],
        Command::FindElement
        | Command::FindElements
        | Command::FindElementFromElement
        | Command::FindElementsFromElement
        | Command::FindElementFromShadowRoot
        | Command::FindElementsFromShadowRoot => &[Parameter::Using, Parameter::Value],
        Command::ElementSendKeys => &[Parameter::Text],
        Command::ExecuteScript | Command::ExecuteAsyncScript => {
            &[Parameter::Script, Parameter::Args]
        }
        Command::SendAlertText => &[Parameter::Text],
        _ => &[],
    }
}

/// Whether this end has no such command: those of cookies and of screenshots.
pub fn is_unsupported(command: Command) -> bool
    ensures { result ≡ unsupported command }
{
    match command {
        Command::GetAllCookies
        | Command::AddCookie
        | Command::DeleteAllCookies
        | Command::GetNamedCookie
        | Command::DeleteCookie
        | Command::TakeScreenshot
        | Command::TakeElementScreenshot => true,
        _ => false,
    }
}
