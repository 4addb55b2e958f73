//! What a merge of `alwaysMatch` and one first match asks for, with defaults for the rest.

ghost use Rattle.std.specs.Prelude.{◌≡◌, IfOk, [], false, unwrap_or};
ghost use Rattle.std.specs.Option.{option_copied};
ghost use Rattle.capabilities.specs.Values.{value_of, bool_of};
ghost use Rattle.capabilities.specs.Strategy.{strategy_of};
ghost use Rattle.capabilities.specs.Behaviour.{behaviour_of};
ghost use Rattle.capabilities.specs.Timeouts.{timeouts_of, default_timeouts};
ghost use Rattle.capabilities.specs.Choice.{merge};
ghost use Rattle.capabilities.specs.Processed.{read_at, proxy_at, matched_of};

use crate::behaviour::{Behaviour, as_behaviour};
use crate::matched::Matched;
use crate::members::given_value;
use crate::strategy::{Strategy, as_strategy};
use crate::timeouts::{DEFAULT, Timeouts, as_timeouts};
use crate::values::{Member, as_bool};
use std::alloc::Global;
use wd_json::{Json, JsonMap, Memory, copy};

// What a merge has under a name.
fn merged_value<'a>(always: &'a [Member], first: &'a [Member], name: &str) -> Option<&'a Json>
    ensures { option_copied result ≡ value_of name.now (merge always.now first.now) }
{
    match given_value(always, name) {
        Some(value) => Some(value),
        None => given_value(first, name),
    }
}

fn flag(always: &[Member], first: &[Member], name: &str) -> bool
    ensures { result ≡ read_at bool_of false name.now (merge always.now first.now) }
{
    match merged_value(always, first, name) {
        Some(value) => as_bool(value).unwrap_or(false),
        None => false,
    }
}

fn strategy(always: &[Member], first: &[Member], name: &str) -> Strategy
    ensures { result ≡ read_at strategy_of Strategy.Normal name.now (merge always.now first.now) }
{
    match merged_value(always, first, name) {
        Some(value) => as_strategy(value).unwrap_or(Strategy::Normal),
        None => Strategy::Normal,
    }
}

fn timeouts(always: &[Member], first: &[Member], name: &str) -> Timeouts
    ensures { result ≡ read_at timeouts_of default_timeouts name.now (merge always.now first.now) }
{
    match merged_value(always, first, name) {
        Some(value) => as_timeouts(value, DEFAULT).unwrap_or(DEFAULT),
        None => DEFAULT,
    }
}

fn behaviour(always: &[Member], first: &[Member], name: &str) -> Behaviour
    ensures { result ≡ read_at behaviour_of Behaviour.DismissNotify name.now (merge always.now first.now) }
{
    match merged_value(always, first, name) {
        Some(value) => as_behaviour(value).unwrap_or(Behaviour::DismissNotify),
        None => Behaviour::DismissNotify,
    }
}

fn proxy(alloc: Global, always: &[Member], first: &[Member], name: &str) -> Result<Json, Memory>
    ensures { IfOk result (λ v. v ≡ proxy_at name.now (merge always.now first.now)) }
{
    match merged_value(always, first, name) {
        Some(value) => copy(alloc, value),
        None => Ok(Json::Object(JsonMap::new(alloc))),
    }
}

/// What the merge of two objects asks for. `Memory` where there is no memory for its proxy.
pub fn read(alloc: Global, always: &[Member], first: &[Member]) -> Result<Matched, Memory>
    ensures { IfOk result (λ matched. matched ≡ matched_of (merge always.now first.now)) }
{
    let proxy = proxy(alloc, always, first, "proxy")?;
    Ok(Matched {
        insecure: flag(always, first, "acceptInsecureCerts"),
        strategy: strategy(always, first, "pageLoadStrategy"),
        proxy,
        strict: flag(always, first, "strictFileInteractability"),
        timeouts: timeouts(always, first, "timeouts"),
        behaviour: behaviour(always, first, "unhandledPromptBehavior"),
    })
}
