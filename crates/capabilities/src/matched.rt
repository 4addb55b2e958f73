//! What this end offers, and what a session was asked for.

use crate::behaviour::Behaviour;
use crate::strategy::Strategy;
use crate::timeouts::Timeouts;
use wd_json::{Json, WdText};

/// What this end offers: a browser of this name.
#[derive(Debug, Drop)]
pub struct Offer {
    pub name: WdText,
}

/// What a session was asked for, with the default for what it wasn't asked for
/// (W3C WebDriver, section 7).
#[derive(Debug, Drop)]
pub struct Matched {
    /// `acceptInsecureCerts`; false by default.
    pub insecure: bool,
    /// `pageLoadStrategy`; `normal` by default.
    pub strategy: Strategy,
    /// `proxy` as it was given; an empty object by default.
    pub proxy: Json,
    /// `strictFileInteractability`; false by default.
    pub strict: bool,
    /// `timeouts`; by default 30000 for scripts, 300000 for page loads and 0 for finds.
    pub timeouts: Timeouts,
    /// `unhandledPromptBehavior`; `dismiss and notify` by default.
    pub behaviour: Behaviour,
}
