//! Reading: a value from its text, or why there is none.

ghost use Rattle.std.specs.Prelude.{◌≡◌, true, false, IfOk, IfErr, MatchOption, MatchResult};
ghost use Rattle.serde_json.specs.Find.{of_integer};
ghost use Rattle.serde_json.specs.View.{view, number_view, items_view, members_view};
ghost use Rattle.wd_json.specs.Json.{data_of, items_data, members_data};
ghost use Rattle.wd_json.specs.Whole.{is_whole_number, is_whole, items_are_whole, members_are_whole, ReadsAs, IsCause, IsRefusal};
ghost use Rattle.serde_json.specs.Data.{array, object};
ghost use Rattle.wd_json.specs.declared.value.Json.{Json as JsonValue};

use crate::fault::JsonFault;
use crate::integer::MAX_WHOLE;
use crate::list::WdList;
use crate::map::WdMap;
use crate::text::WdText;
use crate::tokens::of_tokens;
use crate::value::{Json, JsonList, JsonMap};
use json::Scratch;
use serde_json::{Map, Number, Value};
use std::alloc::Global;

/// The value that the bytes are the text of, by `serde_json`'s own definition (RFC 8259, UTF-8, at
/// most 127 lists and objects in one another; of members with one name the last counts).
///
/// `NotJson` exactly where `serde_json` reads no value, and `NotWhole` exactly where it reads one
/// with a number that isn't whole or isn't within plus or minus 2^53 - 1: `1.0`, `1e2` and `-0`
/// aren't whole. `Memory` where there is no memory for the value.
pub fn read(alloc: Global, bytes: &[u8]) -> Result<Json, JsonFault>
    ensures reads { IfOk result (λ json. ReadsAs bytes.now (data_of json)) }
    ensures whole { IfOk result (λ json. is_whole (data_of json) ≡ true) }
    ensures cause { IfErr result (IsCause bytes.now) }

    // A value that the bytes are the text of is read, unless there is no memory.
    ensures only { (value : JsonValue) → ReadsAs bytes.now (data_of value) → is_whole (data_of value) ≡ true
        → MatchResult result (λ json. json ≡ value) (λ fault. fault ≡ JsonFault.Memory) }
{
    JsonReader::new(alloc).read(alloc, bytes)
}

/// Reads values one after another, each as `read` does. The room that reading needs, 16 KiB and as much as
/// the longest text so far, is kept from one to the next.
#[derive(Drop)]
pub struct JsonReader {
    scratch: Scratch,
}

impl JsonReader {
    /// One that has read nothing.
    pub fn new(alloc: Global) -> JsonReader {
        JsonReader {
            scratch: Scratch::new(alloc),
        }
    }

    /// What `read` answers of these bytes, whatever was read before.
    pub fn read(&mut self, alloc: Global, bytes: &[u8]) -> Result<Json, JsonFault>
        ensures reads { IfOk result (λ json. ReadsAs bytes.now (data_of json)) }
        ensures whole { IfOk result (λ json. is_whole (data_of json) ≡ true) }
        ensures cause { IfErr result (IsCause bytes.now) }

        // A value that the bytes are the text of is read, unless there is no memory.
        ensures only { (value : JsonValue) → ReadsAs bytes.now (data_of value) → is_whole (data_of value) ≡ true
            → MatchResult result (λ json. json ≡ value) (λ fault. fault ≡ JsonFault.Memory) }
    {
        parse(alloc, &mut self.scratch, bytes)
    }
}

fn parse(alloc: Global, scratch: &mut Scratch, bytes: &[u8]) -> Result<Json, JsonFault>
    ensures reads { IfOk result (λ json. ReadsAs bytes.now (data_of json)) }
    ensures whole { IfOk result (λ json. is_whole (data_of json) ≡ true) }
    ensures cause { IfErr result (IsCause bytes.now) }
{
    match of_tokens(alloc, scratch, bytes) {
        Some(json) => Ok(json),
        None => judged(alloc, bytes),
    }
}

// The value, by way of `serde_json`'s own, or why there is none.
fn judged(alloc: Global, bytes: &[u8]) -> Result<Json, JsonFault>
    ensures reads { IfOk result (λ json. ReadsAs bytes.now (data_of json)) }
    ensures whole { IfOk result (λ json. is_whole (data_of json) ≡ true) }
    ensures cause { IfErr result (IsCause bytes.now) }
{
    match Value::from_slice(alloc, bytes) {
        Ok(value) => of_value(alloc, &value),
        Err(error) => {
            if error.is_memory() {
                Err(JsonFault::Memory)
            } else {
                Err(JsonFault::NotJson)
            }
        }
    }
}

#[cycle(of_value)]
fn of_value(alloc: Global, value: &Value) -> Result<Json, JsonFault>
    ensures same { IfOk result (λ json. data_of json ≡ view value.now) }
    ensures whole { IfOk result (λ json. is_whole (view value.now) ≡ true) }
    ensures cause { IfErr result (IsRefusal (view value.now)) }
{
    match value {
        Value::Null => Ok(Json::Null),
        Value::Bool(b) => Ok(Json::Bool(*b)),
        Value::Number(n) => match whole(n) {
            Some(n) => Ok(Json::Int(n)),
            None => Err(JsonFault::NotWhole),
        },
        Value::String(s) => Ok(Json::Text(WdText::of(alloc, s.as_str())?)),
        Value::Array(items) => Ok(Json::List(of_items(alloc, items)?)),
        Value::Object(members) => Ok(Json::Object(of_members(alloc, members)?)),
    }
}

#[cycle(of_value)]
fn of_items(alloc: Global, items: &Vec<Value>) -> Result<JsonList, JsonFault>
    ensures same { IfOk result (λ list. items_data list ≡ items_view items.now.items) }
    ensures whole { IfOk result (λ list. items_are_whole (items_view items.now.items) ≡ true) }
    ensures cause { IfErr result (IsRefusal (array (items_view items.now.items))) }
{
    let mut list = Vec::with_capacity(alloc, items.len())?;
    for item in items {
        list.push(of_value(alloc, item)?)?;
    }
    Ok(WdList::from_vec(list))
}

#[cycle(of_value)]
fn of_members(alloc: Global, members: &Map<String, Value>) -> Result<JsonMap, JsonFault>
    ensures same { IfOk result (λ map. members_data map ≡ members_view members.now.entries) }
    ensures whole { IfOk result (λ map. members_are_whole (members_view members.now.entries) ≡ true) }
    ensures cause { IfErr result (IsRefusal (object (members_view members.now.entries))) }
{
    let mut entries = Vec::with_capacity(alloc, members.len())?;
    for (key, member) in members.iter() {
        let name = WdText::of(alloc, key.as_str())?;
        entries.push((name, of_value(alloc, member)?))?;
    }
    Ok(WdMap::from_sorted(entries))
}

// The number, if it is whole and in range.
fn whole(number: &Number) -> Option<i64>
    ensures { MatchOption result (is_whole_number (number_view number.now) ≡ false)
        (λ n. (number_view number.now ≡ of_integer n) × (is_whole_number (number_view number.now) ≡ true)) }
{
    match number.as_i64() {
        Some(n) if -MAX_WHOLE <= n && n <= MAX_WHOLE => Some(n),
        _ => None,
    }
}
