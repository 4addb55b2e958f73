//! Of each capability: which values are valid, and which of them this end matches.

ghost use Rattle.std.specs.Prelude.{◌≡◌};
ghost use Rattle.capabilities.specs.Values.{text_passes};
ghost use Rattle.capabilities.specs.Table.{row_of, is_this, is_proxy_type as names_proxy, has_proxy_type as fits_proxy, is_proxy as proxy_value, has_colon as colon_stands_in, is_valid as valid_member, is_match as matching_member};

use crate::behaviour::as_behaviour;
use crate::capability::{Capability, with_name};
use crate::matched::Offer;
use crate::strategy::as_strategy;
use crate::timeouts::{DEFAULT, as_timeouts};
use crate::values::{Member, as_bool, as_object, as_text, find_value};
use wd_json::Json;

fn is_text(value: &Json, text: &str) -> bool
    ensures { result ≡ is_this text.now value.now }
{
    match as_text(value) {
        Some(given) => given == text,
        None => false,
    }
}

fn is_proxy_type(text: &str) -> bool
    ensures { result ≡ names_proxy text.now }
{
    text == "pac"
        || text == "direct"
        || text == "autodetect"
        || text == "system"
        || text == "manual"
}

fn names_proxy_type(value: &Json) -> bool
    ensures { result ≡ text_passes names_proxy value.now }
{
    match as_text(value) {
        Some(text) => is_proxy_type(text),
        None => false,
    }
}

fn has_proxy_type(members: &[Member]) -> bool
    ensures { result ≡ fits_proxy members.now }
{
    match find_value(members, "proxyType") {
        Some(value) => names_proxy_type(value),
        None => true,
    }
}

// An object whose `proxyType`, if it is there, is one of five texts.
fn is_proxy(value: &Json) -> bool
    ensures { result ≡ proxy_value value.now }
{
    match as_object(value) {
        Some(members) => has_proxy_type(members),
        None => false,
    }
}

// The column of valid values.
fn is_valid_at(capability: Capability, value: &Json) -> bool
    ensures { result ≡ (row_of capability).is_valid value.now }
{
    match capability {
        Capability::AcceptInsecureCerts => as_bool(value).is_some(),
        Capability::BrowserName => as_text(value).is_some(),
        Capability::BrowserVersion => as_text(value).is_some(),
        Capability::PageLoadStrategy => as_strategy(value).is_some(),
        Capability::PlatformName => as_text(value).is_some(),
        Capability::Proxy => is_proxy(value),
        Capability::SetWindowRect => as_bool(value).is_some(),
        Capability::StrictFileInteractability => as_bool(value).is_some(),
        Capability::Timeouts => as_timeouts(value, DEFAULT).is_some(),
        Capability::UnhandledPromptBehavior => as_behaviour(value).is_some(),
    }
}

// The column of what is matched.
fn is_match_at(capability: Capability, offer: &Offer, value: &Json) -> bool
    ensures { result ≡ (row_of capability).matches offer.now.name value.now }
{
    match capability {
        Capability::BrowserName => is_text(value, offer.name.as_str()),
        Capability::BrowserVersion => is_text(value, "1.0"),
        Capability::PlatformName => is_text(value, "linux"),
        Capability::SetWindowRect => as_bool(value).unwrap_or(false),
        _ => true,
    }
}

fn has_colon(name: &str) -> bool
    ensures { result ≡ colon_stands_in name.now }
{
    name.as_bytes().iter().any(|b| *b == b':')
}

/// Whether a name is allowed and its value is.
#[tactic(auto, unfolding(crate::specs::Table::is_valid))]
pub fn is_valid(member: &Member) -> bool
    ensures { result ≡ valid_member member.now }
{
    let name = member.0.as_str();
    match with_name(name) {
        Some(capability) => is_valid_at(capability, &member.1),
        None => has_colon(name),
    }
}

/// Whether a session of this end has what a member asks for.
#[tactic(auto, unfolding(crate::specs::Table::is_match))]
pub fn is_match(offer: &Offer, member: &Member) -> bool
    ensures { result ≡ matching_member offer.now.name member.now }
{
    match with_name(member.0.as_str()) {
        Some(capability) => is_match_at(capability, offer, &member.1),
        None => true,
    }
}
