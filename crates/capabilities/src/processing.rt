//! The first match of capabilities, or why there is none: all are validated before any is merged.

ghost use Rattle.std.specs.Prelude.{◌≡◌, Ok, true, map, IfOk, IfErr};
ghost use Rattle.std.specs.List.{find, list_all};
ghost use Rattle.std.specs.Option.{option_copied};
ghost use Rattle.std.specs.Str.{IsAscii};
ghost use Rattle.wd_json.specs.Json.{data_of};
ghost use Rattle.wd_json.specs.Whole.{is_whole};
ghost use Rattle.capabilities.specs.Values.{members_of};
ghost use Rattle.capabilities.specs.Table.{is_match};
ghost use Rattle.capabilities.specs.Timeouts.{AreInRange};
ghost use Rattle.capabilities.specs.Choice.{first_of, wrong_in, doubled_in, wrong_name as wrong_name_of, merge};
ghost use Rattle.capabilities.specs.Processed.{processed, answer_of, IsCause, NamesPart};

use crate::fault::CapFault;
use crate::form::{always_of, capabilities_of, firsts_of};
use crate::matched::{Matched, Offer};
use crate::members::{all_match, doubled_name, wrong_name};
use crate::merge::read;
use crate::values::{Member, members};
use std::alloc::Global;
use wd_json::{Json, JsonMap, WdText};

// The first wrong name of these objects.
fn wrong_of(objects: &[Json]) -> Option<&WdText>
    ensures { option_copied result ≡ first_of (λ v. wrong_in (members_of v)) objects.now }
{
    for object in objects {
        if let Some(name) = wrong_name(members(object)) {
            return Some(name);
        }
    }
    None
}

// The first name of a first match that stands in the rest too.
fn doubled_of<'a>(always: &[Member], firsts: &'a [Json]) -> Option<&'a WdText>
    ensures { option_copied result ≡ first_of (λ v. doubled_in always.now (members_of v)) firsts.now }
{
    for first in firsts {
        if let Some(name) = doubled_name(always, members(first)) {
            return Some(name);
        }
    }
    None
}

// All objects are validated before any is merged.
fn first_wrong<'a>(always: &'a [Member], firsts: &'a [Json]) -> Option<&'a WdText>
    ensures { option_copied result ≡ wrong_name_of always.now (map members_of firsts.now) }
{
    if let Some(name) = wrong_name(always) {
        return Some(name);
    }
    match wrong_of(firsts) {
        Some(name) => Some(name),
        None => doubled_of(always, firsts),
    }
}

// The first match whose merge this end matches.
fn choose<'a>(offer: &Offer, always: &[Member], firsts: &'a [Json]) -> Option<&'a Json>
    ensures { option_copied result
        ≡ find (λ v. list_all (is_match offer.now.name) (merge always.now (members_of v))) firsts.now }
{
    for first in firsts {
        if all_match(offer, always) && all_match(offer, members(first)) {
            return Some(first);
        }
    }
    None
}

fn answer(
    alloc: Global,
    offer: &Offer,
    always: &[Member],
    firsts: &[Json],
) -> Result<Matched, CapFault>
    ensures ok { IfOk result (λ matched.
        answer_of offer.now.name always.now (map members_of firsts.now) ≡ Ok matched) }
    ensures cause { IfErr result (IsCause (answer_of offer.now.name always.now (map members_of firsts.now))) }
{
    if let Some(name) = first_wrong(always, firsts) {
        return Err(CapFault::Invalid(name.copy(alloc)?));
    }
    match choose(offer, always, firsts) {
        Some(first) => Ok(read(alloc, always, members(first))?),
        None => Err(CapFault::NoMatch),
    }
}

// The error that names a part of the request.
fn invalid(alloc: Global, part: &str) -> CapFault
    requires { IsAscii part.now }
    ensures { NamesPart part.now result }
{
    match WdText::of(alloc, part) {
        Ok(name) => CapFault::Invalid(name),
        Err(_) => CapFault::Memory,
    }
}

/// Validates and matches the capabilities of a request for a session (W3C WebDriver, section 7.2,
/// "process capabilities"), by the definition `processed`.
///
/// `Invalid` carries the first that is wrong, in this order: `capabilities` where that isn't an
/// object, `alwaysMatch` where that is neither absent nor an object, `firstMatch` where that is
/// neither absent nor a list of one object or more; then the names of each object, those of
/// `alwaysMatch` before those of each first match, in the order of their bytes, where the value
/// isn't valid; then, first match by first match, a name that stands in `alwaysMatch` too. Members
/// with the value null are left out before all this. `NoMatch` exactly where all of it is valid and
/// no merge of `alwaysMatch` with a first match is matched. `Memory` where there is no memory for
/// the answer.
pub fn process(alloc: Global, parameters: &Json, offer: &Offer) -> Result<Matched, CapFault>
    ensures ok { IfOk result (λ matched. processed offer.now.name parameters.now ≡ Ok matched) }
    ensures cause { IfErr result (IsCause (processed offer.now.name parameters.now)) }
    ensures range { IfOk result (λ matched. AreInRange matched.timeouts) }

    // Where the numbers of the parameters are whole, so are those of the proxy.
    ensures whole { is_whole (data_of parameters.now) ≡ true
        → IfOk result (λ matched. is_whole (data_of matched.proxy) ≡ true) }
{
    let Some(capabilities) = capabilities_of(parameters) else {
        return Err(invalid(alloc, "capabilities"));
    };
    let Some(always) = always_of(capabilities) else {
        return Err(invalid(alloc, "alwaysMatch"));
    };
    let absent = [Json::Object(JsonMap::new(alloc))];
    let Some(firsts) = firsts_of(capabilities, &absent) else {
        return Err(invalid(alloc, "firstMatch"));
    };
    answer(alloc, offer, always, firsts)
}
