//! The object of capabilities that New Session answers.

ghost use Rattle.std.specs.Prelude.{◌≡◌, true, IfOk};
ghost use Rattle.std.specs.Str.{IsAscii};
ghost use Rattle.wd_json.specs.Json.{data_of};
ghost use Rattle.wd_json.specs.Whole.{is_whole};
ghost use Rattle.capabilities.specs.Table.{row_of};
ghost use Rattle.capabilities.specs.Timeouts.{AreInRange};
ghost use Rattle.capabilities.specs.Echo.{echoed};
ghost use Rattle.wd_json.specs.declared.value.Json.TheVariants.{Object as AnObject, Text as AText};

use crate::capability::{CAPABILITIES, Capability, name};
use crate::matched::{Matched, Offer};
use crate::timeouts::timeouts_object;
use crate::{behaviour, strategy};
use std::alloc::Global;
use wd_json::{Json, JsonMap, Memory, WdText, copy};

fn text(alloc: Global, characters: &str) -> Result<Json, Memory>
    requires { IsAscii characters.now }
    ensures { IfOk result (λ v. v ≡ AText characters.now) }
{
    Ok(Json::Text(WdText::of(alloc, characters)?))
}

// The column of what is answered.
fn echoed_at(
    alloc: Global,
    capability: Capability,
    matched: &Matched,
    offer: &Offer,
) -> Result<Json, Memory>
    requires { AreInRange matched.now.timeouts }
    ensures { IfOk result (λ v. v ≡ (row_of capability).echoed offer.now.name matched.now) }
{
    match capability {
        Capability::AcceptInsecureCerts => Ok(Json::Bool(matched.insecure)),
        Capability::BrowserName => Ok(Json::Text(offer.name.copy(alloc)?)),
        Capability::BrowserVersion => text(alloc, "1.0"),
        Capability::PageLoadStrategy => text(alloc, strategy::text(matched.strategy)),
        Capability::PlatformName => text(alloc, "linux"),
        Capability::Proxy => copy(alloc, &matched.proxy),
        Capability::SetWindowRect => Ok(Json::Bool(true)),
        Capability::StrictFileInteractability => Ok(Json::Bool(matched.strict)),
        Capability::Timeouts => timeouts_object(alloc, matched.timeouts),
        Capability::UnhandledPromptBehavior => text(alloc, behaviour::text(matched.behaviour)),
    }
}

/// The object of capabilities that New Session answers (W3C WebDriver, section 8.1), with the
/// members in the order of their names' bytes: what the session was asked for, the offer's name,
/// version `1.0`, platform `linux`, and true for `setWindowRect`. Names with a colon aren't in it.
/// `Memory` where there is no memory for it.
pub fn echo(alloc: Global, matched: &Matched, offer: &Offer) -> Result<Json, Memory>
    requires { AreInRange matched.now.timeouts }
    ensures members { IfOk result (λ value. value ≡ AnObject (echoed offer.now.name matched.now)) }

    // Where the proxy's numbers are whole, all are.
    ensures whole { is_whole (data_of matched.now.proxy) ≡ true
        → IfOk result (λ value. is_whole (data_of value) ≡ true) }
{
    let mut members = Vec::with_capacity(alloc, CAPABILITIES.len())?;
    for capability in &CAPABILITIES {
        let key = WdText::of(alloc, name(*capability))?;
        members.push((key, echoed_at(alloc, *capability, matched, offer)?))?;
    }
    Ok(Json::Object(JsonMap::from_sorted(members)))
}
