//! The effects without lists inside, by the rows that spell them.

ghost use Rattle.std.specs.Prelude.{◌≡◌, IfOk, IfSome, true};
ghost use Rattle.std.specs.Option.{option_map};
ghost use Rattle.page_engine.specs.Fitting.{fits_at};
ghost use Rattle.page_engine.specs.declared.place.Place.{Place};
ghost use Rattle.page_file.specs.Spelled.{one_node, node_and, one_text, insert_row, attr_row, set_at, plain_row};
ghost use Rattle.page_file.specs.Values.{text_of, optional_text_of};
ghost use Rattle.page_file.specs.Words.{row_of};

use crate::values::{as_bool, as_list, as_number, as_optional_box, as_text, as_within};
use crate::word::{Word, as_word};
use page_engine::Effect;
use std::alloc::Global;
use wd_json::{Json, Memory, WdText};

/// The list that begins with a word: the word, and the values after it.
pub fn as_row(value: &Json) -> Option<(Word, &[Json])>
    ensures { option_map (λ row. (row.0, row.1.now)) result ≡ row_of value.now }
{
    match as_list(value)? {
        [head, rest @ ..] => Some((as_word(head)?, rest)),
        _ => None,
    }
}

/// A copy of the text that a value is.
pub fn text(alloc: Global, value: &Json) -> Result<Option<WdText>, Memory>
    ensures { IfOk result (λ t. t ≡ text_of value.now) }
{
    match value {
        Json::Text(text) => Ok(Some(text.copy(alloc)?)),
        _ => Ok(None),
    }
}

// A copy of a text, or null.
fn optional_text(alloc: Global, value: &Json) -> Result<Option<Option<WdText>>, Memory>
    ensures { IfOk result (λ text. text ≡ optional_text_of value.now) }
{
    match value {
        Json::Null => Ok(Some(None)),
        _ => Ok(text(alloc, value)?.map(|text| Some(text))),
    }
}

// One node.
fn one_node(values: &[Json]) -> Option<u32>
    ensures { result ≡ one_node values.now }
{
    match values {
        [node] => as_number(node),
        _ => None,
    }
}

// A node, and one value more.
fn node_and(values: &[Json]) -> Option<(u32, &Json)>
    ensures { option_map (λ p. (p.0, p.1.now)) result ≡ node_and values.now }
{
    match values {
        [node, value] => Some((as_number(node)?, value)),
        _ => None,
    }
}

// One text.
fn one_text(alloc: Global, values: &[Json]) -> Result<Option<WdText>, Memory>
    ensures { IfOk result (λ t. t ≡ one_text values.now) }
{
    match values {
        [value] => text(alloc, value),
        _ => Ok(None),
    }
}

fn insert(values: &[Json]) -> Option<Effect>
    ensures row { result ≡ insert_row values.now }
    ensures fits { (place : Place) → IfSome result (λ e. fits_at e place ≡ true) }
{
    let [node, parent, place] = values else {
        return None;
    };
    Some(Effect::Insert {
        node: as_number(node)?,
        parent: as_number(parent)?,
        place: as_number(place)?,
    })
}

fn attr(alloc: Global, values: &[Json]) -> Result<Option<Effect>, Memory>
    ensures row { IfOk result (λ e. e ≡ attr_row values.now) }
    ensures fits { (place : Place) → IfOk result (λ e. IfSome e (λ e. fits_at e place ≡ true)) }
{
    let [node, name, value] = values else {
        return Ok(None);
    };
    let (Some(node), Some(name)) = (as_number(node), as_text(name)) else {
        return Ok(None);
    };
    let Some(value) = optional_text(alloc, value)? else {
        return Ok(None);
    };
    let name = name.copy(alloc)?;
    Ok(Some(Effect::Attr { node, name, value }))
}

// What is set at a node.
fn set_at(alloc: Global, word: Word, node: u32, value: &Json) -> Result<Option<Effect>, Memory>
    ensures row { IfOk result (λ e. e ≡ set_at word node value.now) }
    ensures fits { (place : Place) → IfOk result (λ e. IfSome e (λ e. fits_at e place ≡ true)) }
{
    match word {
        Word::Text => Ok(text(alloc, value)?.map(|text| Effect::Text { node, text })),
        Word::Pixels => Ok(as_optional_box(value).map(|pixels| Effect::Pixels { node, pixels })),
        Word::Layer => Ok(as_within(value, 1000).map(|layer| Effect::Layer { node, layer })),
        Word::Hidden => Ok(as_bool(value).map(|hidden| Effect::Hidden { node, hidden })),
        Word::Value => Ok(text(alloc, value)?.map(|text| Effect::Value { node, text })),
        Word::Checked => Ok(as_bool(value).map(|checked| Effect::Checked { node, checked })),
        _ => Ok(None),
    }
}

/// An effect without lists inside.
pub fn plain_effect(alloc: Global, word: Word, values: &[Json]) -> Result<Option<Effect>, Memory>
    ensures row { IfOk result (λ e. e ≡ plain_row word values.now) }
    ensures fits { (place : Place) → IfOk result (λ e. IfSome e (λ e. fits_at e place ≡ true)) }
{
    match word {
        Word::Remove => Ok(one_node(values).map(|node| Effect::Remove { node })),
        Word::Insert => Ok(insert(values)),
        Word::Attr => attr(alloc, values),
        Word::Focus => Ok(one_node(values).map(|node| Effect::Focus { node })),
        Word::Go => Ok(one_text(alloc, values)?.map(|address| Effect::Go { address })),
        Word::Open => Ok(one_text(alloc, values)?.map(|address| Effect::Open { address })),
        Word::Prompt | Word::After => Ok(None),
        _ => match node_and(values) {
            Some((node, value)) => set_at(alloc, word, node, value),
            None => Ok(None),
        },
    }
}
