//! The capabilities that this end knows, with their names.

ghost use Rattle.std.specs.Prelude.{◌≡◌};
ghost use Rattle.capabilities.specs.Table.{row_of, capability_with};

/// The capabilities that this end knows, in the order of their names' bytes.
#[derive(Clone, Copy, Debug, PartialEq, Eq)]
pub enum Capability {
    AcceptInsecureCerts,
    BrowserName,
    BrowserVersion,
    PageLoadStrategy,
    PlatformName,
    Proxy,
    SetWindowRect,
    StrictFileInteractability,
    Timeouts,
    UnhandledPromptBehavior,
}

pub const CAPABILITIES: [Capability; 10] = [
    Capability::AcceptInsecureCerts,
    Capability::BrowserName,
    Capability::BrowserVersion,
    Capability::PageLoadStrategy,
    Capability::PlatformName,
    Capability::Proxy,
    Capability::SetWindowRect,
    Capability::StrictFileInteractability,
    Capability::Timeouts,
    Capability::UnhandledPromptBehavior,
];

pub fn name(capability: Capability) -> &'static str
    ensures { result.now ≡ (row_of capability).name }
{
    match capability {
        Capability::AcceptInsecureCerts => "acceptInsecureCerts",
        Capability::BrowserName => "browserName",
        Capability::BrowserVersion => "browserVersion",
        Capability::PageLoadStrategy => "pageLoadStrategy",
        Capability::PlatformName => "platformName",
        Capability::Proxy => "proxy",
        Capability::SetWindowRect => "setWindowRect",
        Capability::StrictFileInteractability => "strictFileInteractability",
        Capability::Timeouts => "timeouts",
        Capability::UnhandledPromptBehavior => "unhandledPromptBehavior",
    }
}

#[tactic(auto, unfolding(crate::specs::Table::capability_with))]
pub fn with_name(name_of_one: &str) -> Option<Capability>
    ensures { result ≡ capability_with name_of_one.now }
{
    CAPABILITIES
        .iter()
        .copied()
        .find(|capability| name(*capability) == name_of_one)
}
