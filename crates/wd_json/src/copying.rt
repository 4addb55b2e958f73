//! Equal copies of values.

ghost use Rattle.std.specs.Prelude.{◌≡◌, IfOk};

use crate::list::WdList;
use crate::map::WdMap;
use crate::memory::Memory;
use crate::value::{Json, JsonList, JsonMap};
use std::alloc::Global;

/// An equal value. `Memory` where there is no memory for it.
#[cycle(copy)]
pub fn copy(alloc: Global, value: &Json) -> Result<Json, Memory>
    ensures { IfOk result (λ copied. copied ≡ value.now) }
{
    match value {
        Json::Null => Ok(Json::Null),
        Json::Bool(b) => Ok(Json::Bool(*b)),
        Json::Int(n) => Ok(Json::Int(*n)),
        Json::Text(text) => Ok(Json::Text(text.copy(alloc)?)),
        Json::List(list) => Ok(Json::List(copy_list(alloc, list)?)),
        Json::Object(map) => Ok(Json::Object(copy_map(alloc, map)?)),
    }
}

#[cycle(copy)]
fn copy_list(alloc: Global, list: &JsonList) -> Result<JsonList, Memory>
    ensures { IfOk result (λ copied. copied ≡ list.now) }
{
    let mut copied = Vec::with_capacity(alloc, list.len())?;
    for item in list.as_slice() {
        copied.push(copy(alloc, item)?)?;
    }
    Ok(WdList::from_vec(copied))
}

#[cycle(copy)]
fn copy_map(alloc: Global, map: &JsonMap) -> Result<JsonMap, Memory>
    ensures { IfOk result (λ copied. copied ≡ map.now) }
{
    let mut copied = Vec::with_capacity(alloc, map.len())?;
    for (key, value) in map.as_slice() {
        copied.push((key.copy(alloc)?, copy(alloc, value)?))?;
    }
    Ok(WdMap::from_sorted(copied))
}
