//! One reader for all lists: each value is read, and there is no list where one spells nothing.

ghost use Rattle.std.specs.Prelude.{◌≡◌, Option, Bool, IfOk, IfSome, true};
ghost use Rattle.std.specs.List.{list_all};
ghost use Rattle.std.specs.Option.{option_and_then};
ghost use Rattle.page_file.specs.Members.{each_of};
ghost use Rattle.page_file.specs.Values.{list_of};

use crate::values::as_list;
use std::alloc::Global;
use wd_json::{Json, Memory, WdList};

/// What a value of some kind spells, and what is so of whatever is spelled.
pub trait Spelling {
    type Value;

    type Item: Drop;

    ghost spelled: { Self.Value → Option Self.Item };

    ghost fits: { Self.Item → Bool };

    /// What the value spells; `None` where it spells nothing.
    fn read(alloc: Global, value: &Self::Value) -> Result<Option<Self::Item>, Memory>
        ensures same { IfOk result (λ item. item ≡ spelled value.now) }
        ensures fits { IfOk result (λ item. IfSome item (λ item. fits item ≡ true)) };
}

/// What the values spell, each in its turn; `None` where one of them spells nothing.
pub fn each<S: Spelling>(
    alloc: Global,
    values: &[S::Value],
) -> Result<Option<WdList<S::Item>>, Memory>
    ensures same { IfOk result (λ items. items ≡ each_of S.spelled values.now) }
    ensures fit { IfOk result (λ items. IfSome items (λ items. list_all S.fits items ≡ true)) }
{
    let mut items = Vec::with_capacity(alloc, values.len())?;
    for value in values {
        let Some(item) = S::read(alloc, value)? else {
            return Ok(None);
        };
        items.push(item)?;
    }
    Ok(Some(WdList::from_vec(items)))
}

/// What the values of a list spell; `None` where the value is no list, or one in it spells nothing.
pub fn list<S: Spelling<Value = Json>>(
    alloc: Global,
    value: &Json,
) -> Result<Option<WdList<S::Item>>, Memory>
    ensures same { IfOk result (λ items. items ≡ option_and_then (each_of S.spelled) (list_of value.now)) }
    ensures fit { IfOk result (λ items. IfSome items (λ items. list_all S.fits items ≡ true)) }
{
    match as_list(value) {
        Some(values) => each::<S>(alloc, values),
        None => Ok(None),
    }
}
