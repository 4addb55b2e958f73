//! The attributes of an element that a value spells.

ghost use Rattle.std.specs.Prelude.{◌≡◌, IfOk, IfSome, true};
ghost use Rattle.page_engine.specs.Nodes.{are_attributes};
ghost use Rattle.page_file.specs.NodeValues.{attribute_of, attributes_of, attributes_in};

use crate::each::{Spelling, each};
use crate::names::is_attribute_name;
use page_engine::AttrList;
use std::alloc::Global;
use wd_json::{Json, JsonMap, Memory, WdText};

struct OneAttribute;

impl Spelling for OneAttribute {
    type Value = (WdText, Json);

    type Item = (WdText, WdText);

    ghost spelled = { attribute_of };

    ghost fits = { λ _. true };

    fn read(alloc: Global, member: &(WdText, Json)) -> Result<Option<(WdText, WdText)>, Memory> {
        match &member.1 {
            Json::Text(text) if is_attribute_name(&member.0) => {
                let name = member.0.copy(alloc)?;
                Ok(Some((name, text.copy(alloc)?)))
            }
            _ => Ok(None),
        }
    }
}

fn attributes_of(alloc: Global, value: &Json) -> Result<Option<AttrList>, Memory>
    ensures same { IfOk result (λ a. a ≡ attributes_of value.now) }
    ensures good { IfOk result (λ a. IfSome a (λ a. are_attributes a ≡ true)) }
{
    match value {
        Json::Object(members) => each::<OneAttribute>(alloc, members.as_slice()),
        _ => Ok(None),
    }
}

/// The attributes among an element's members, in the order of their names; none where there is no
/// such member. `None` where they aren't an object of names and texts.
pub fn attributes(alloc: Global, members: &JsonMap) -> Result<Option<AttrList>, Memory>
    ensures same { IfOk result (λ a. a ≡ attributes_in members.now) }
    ensures good { IfOk result (λ a. IfSome a (λ a. are_attributes a ≡ true)) }
{
    match members.get("attrs") {
        Some(value) => attributes_of(alloc, value),
        None => Ok(Some(AttrList::new(alloc))),
    }
}
