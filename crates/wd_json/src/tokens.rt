//! A value made token by token.

ghost use Rattle.std.specs.Prelude.{◌≡◌, ◌<◌, Some, length, true, IfSome, OnSome};
ghost use Rattle.json.specs.Json.{value, items, members};
ghost use Rattle.serde_json.specs.Data.{no_members};
ghost use Rattle.serde_json.specs.Read.{of_json, of_items, of_members, converted};
ghost use Rattle.wd_json.specs.Json.{data_of, items_data, members_data};
ghost use Rattle.wd_json.specs.Whole.{is_whole, items_are_whole, members_are_whole, ReadsAs};

use crate::integer::integer;
use crate::list::WdList;
use crate::text::WdText;
use crate::value::{Json, JsonList, JsonMap};
use json::{Reader, Scratch, Token};
use std::alloc::Global;
use std::str;

/// How many lists and objects may stand in one another.
const MAX_DEPTH: usize = 127;

/// The most members of an object that is read here: each new one moves those that go after it.
const MOST_MEMBERS: usize = 64;

/// The value that the bytes are the text of, made token by token, where its numbers are whole and
/// no object has many members. `None` says nothing of the bytes.
pub fn of_tokens(alloc: Global, scratch: &mut Scratch, bytes: &[u8]) -> Option<Json>
    ensures reads { IfSome result (λ json. ReadsAs bytes.now (data_of json)) }
    ensures whole { IfSome result (λ json. is_whole (data_of json) ≡ true) }
{
    let text = str::from_utf8(bytes).ok()?;
    let mut reader = Reader::new(text, scratch).ok()?;
    let json = value(alloc, &mut reader, MAX_DEPTH)?;
    if reader.next().is_some() {
        return None;
    }
    Some(json)
}

#[cycle(value)]
fn value(alloc: Global, reader: &mut Reader<'_>, depth: usize) -> Option<Json>
    ensures reads { IfSome result (λ json. converted of_json (value depth reader.old) ≡ Some (data_of json, reader.new)) }
    ensures whole { IfSome result (λ json. is_whole (data_of json) ≡ true) }
    ensures shorter { OnSome result (length reader.new < length reader.old) }
{
    match reader.next()? {
        Token::Null => Some(Json::Null),
        Token::Bool(b) => Some(Json::Bool(b)),
        Token::Number(text) => Some(Json::Int(integer(text)?)),
        Token::String(text) => Some(Json::Text(WdText::of(alloc, text).ok()?)),
        Token::BeginArray if 0 < depth => Some(Json::List(items(alloc, reader, depth - 1)?)),
        Token::BeginObject if 0 < depth => Some(Json::Object(members(alloc, reader, depth - 1)?)),
        _ => None,
    }
}

#[cycle(value)]
fn items(alloc: Global, reader: &mut Reader<'_>, depth: usize) -> Option<JsonList>
    ensures reads { IfSome result (λ list. converted of_items (items (value depth) (length reader.old) reader.old) ≡ Some (items_data list, reader.new)) }
    ensures whole { IfSome result (λ list. items_are_whole (items_data list) ≡ true) }
    ensures shorter { OnSome result (length reader.new < length reader.old) }
{
    let mut list = Vec::new(alloc);
    'items: while !reader.take_end_array() {
        let item = value(alloc, reader, depth)?;
        list.push(item).ok()?;
    }
    list.shrink_to_fit();
    Some(WdList::from_vec(list))
}

#[cycle(value)]
fn members(alloc: Global, reader: &mut Reader<'_>, depth: usize) -> Option<JsonMap>
    ensures reads { IfSome result (λ map. converted (λ ms. of_members ms no_members) (members (value depth) (length reader.old) reader.old) ≡ Some (members_data map, reader.new)) }
    ensures whole { IfSome result (λ map. members_are_whole (members_data map) ≡ true) }
    ensures shorter { OnSome result (length reader.new < length reader.old) }
{
    let mut map = JsonMap::new(alloc);
    'members: while let Some(name) = reader.next_key().ok()? {
        if map.len() == MOST_MEMBERS {
            return None;
        }
        let key = WdText::of(alloc, name).ok()?;
        let member = value(alloc, reader, depth)?;
        map.put(key, member).ok()?;
    }
    map.shrink();
    Some(map)
}
