//! Values as compact text, written token by token.

ghost use Rattle.std.specs.Prelude.{◌≡◌, ◌++◌, Some, ◌≤◌, IfOk, OnOk, true};
ghost use Rattle.json.specs.Tree.{json_tokens};
ghost use Rattle.serde_json.specs.Data.{array, object, number, no_members, depth};
ghost use Rattle.serde_json.specs.Find.{of_integer};
ghost use Rattle.serde_json.specs.Read.{of_json, of_items, of_members, max_depth};
ghost use Rattle.serde_json.specs.Written.{compact_text, outline, items_outline, members_outline};
ghost use Rattle.wd_json.specs.Json.{data_of, items_data, members_data};
ghost use Rattle.wd_json.specs.Keys.{keys_rise, items_rise, members_rise};
ghost use Rattle.wd_json.specs.Whole.{ReadsAs};

use crate::bytes::WdBytes;
use crate::memory::Memory;
use crate::value::{Json, JsonList, JsonMap};
use json::Writer;
use std::alloc::{AllocError, Global};

/// The compact text: no spaces, and an object's members in the order of their names' UTF-8 bytes.
/// `read` reads it back, up to the depth that it reads. `Memory` where there is no memory for it.
pub fn write(alloc: Global, value: &Json) -> Result<WdBytes, Memory>
    ensures text { IfOk result (λ bytes. bytes ≡ compact_text (data_of value.now)) }
    ensures reads_back { IfOk result (λ bytes. depth (data_of value.now) ≤ max_depth
        → ReadsAs bytes (data_of value.now)) }
    ensures order { OnOk result (keys_rise (data_of value.now) ≡ true) }
{
    let mut out = Writer::new(Vec::with_capacity(alloc, 128)?);
    put_value(value, &mut out)?;
    Ok(WdBytes::from_vec(out.into_inner()))
}

#[cycle(put_value)]
fn put_value(value: &Json, out: &mut Writer) -> Result<(), AllocError>
    ensures ok { OnOk result (out.new.tokens ≡ out.old.tokens ++ json_tokens (outline (data_of value.now))) }
    ensures reads { OnOk result (of_json (outline (data_of value.now)) ≡ Some (data_of value.now)) }
    ensures before { out.new.before ≡ out.old.before }
    ensures order { OnOk result (keys_rise (data_of value.now) ≡ true) }
{
    match value {
        Json::Null => out.null(),
        Json::Bool(b) => out.boolean(*b),
        Json::Int(n) => put_integer(*n, out),
        Json::Text(text) => out.string(text.as_str()),
        Json::List(list) => put_items(list, out),
        Json::Object(map) => put_members(map, out),
    }
}

/// An `i64` is read back from its digits.
fn put_integer(n: i64, out: &mut Writer) -> Result<(), AllocError>
    ensures ok { OnOk result (out.new.tokens ≡ out.old.tokens ++ json_tokens (outline (number (of_integer n)))) }
    ensures reads { of_json (outline (number (of_integer n))) ≡ Some (number (of_integer n)) }
    ensures before { out.new.before ≡ out.old.before }
{
    out.i64(n)
}

#[cycle(put_value)]
fn put_items(list: &JsonList, out: &mut Writer) -> Result<(), AllocError>
    ensures ok { OnOk result (out.new.tokens ≡ out.old.tokens ++ json_tokens (outline (array (items_data list.now)))) }
    ensures reads { OnOk result (of_items (items_outline (items_data list.now)) ≡ Some (items_data list.now)) }
    ensures before { out.new.before ≡ out.old.before }
    ensures order { OnOk result (items_rise (items_data list.now) ≡ true) }
{
    out.begin_array()?;
    for item in list.as_slice() {
        put_value(item, out)?;
    }
    out.end_array()
}

#[cycle(put_value)]
fn put_members(map: &JsonMap, out: &mut Writer) -> Result<(), AllocError>
    ensures ok { OnOk result (out.new.tokens ≡ out.old.tokens ++ json_tokens (outline (object (members_data map.now)))) }
    ensures reads { OnOk result (of_members (members_outline (members_data map.now)) no_members ≡ Some (members_data map.now)) }
    ensures before { out.new.before ≡ out.old.before }
    ensures order { OnOk result (members_rise (members_data map.now) ≡ true) }
{
    out.begin_object()?;
    for (key, value) in map.as_slice() {
        out.key(key.as_str())?;
        put_value(value, out)?;
    }
    out.end_object()
}
