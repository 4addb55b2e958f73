//! One answer to a script that a value spells.

ghost use Rattle.std.specs.Prelude.{◌≡◌, IfOk, IfSome, Some, true, false, codes};
ghost use Rattle.std.specs.Option.{option_and_then};
ghost use Rattle.page_engine.specs.Books.{is_end};
ghost use Rattle.page_engine.specs.Fitting.{anywhere, fit_at};
ghost use Rattle.page_file.specs.Members.{optional};
ghost use Rattle.page_file.specs.Values.{bool_of, number_of};
ghost use Rattle.wd_json.specs.Keys.{get};
ghost use Rattle.page_file.specs.Scripts.{end_of, ends_in, script_effects_in, entry_in, entry_of};

use crate::cells::cells;
use crate::members::has_only;
use crate::reading::effects;
use crate::values::{as_bool, as_number};
use page_engine::{BookEntry, EffectList};
use std::alloc::Global;
use wd_json::{Json, JsonMap, Memory};

// Milliseconds from 0 to 2^40, or null for never.
fn end_of(value: &Json) -> Option<Option<u64>>
    ensures same { result ≡ end_of value.now }
    ensures within { IfSome result (λ end. is_end end ≡ true) }
{
    match value {
        Json::Null => Some(None),
        Json::Int(n) if 0 <= *n && *n <= 1_099_511_627_776 => Some(Some(*n as u64)),
        _ => None,
    }
}

fn root(members: &JsonMap) -> Option<u32>
    ensures { result ≡ option_and_then number_of (get (codes "root") members.now) }
{
    as_number(members.get("root")?)
}

fn thrown(members: &JsonMap) -> Option<bool>
    ensures { result ≡ optional false bool_of (get (codes "thrown") members.now) }
{
    match members.get("thrown") {
        Some(value) => as_bool(value),
        None => Some(false),
    }
}

fn after(members: &JsonMap) -> Option<Option<u64>>
    ensures same { result ≡ optional (Some 0) end_of (get (codes "after") members.now) }
    ensures within { IfSome result (λ end. is_end end ≡ true) }
{
    match members.get("after") {
        Some(value) => end_of(value),
        None => Some(Some(0)),
    }
}

// The root, whether it is thrown, and after how many milliseconds.
type Ends = (u32, bool, Option<u64>);

fn ends(members: &JsonMap) -> Option<Ends>
    ensures same { result ≡ ends_in members.now }
    ensures within { IfSome result (λ ends. is_end ends.2 ≡ true) }
{
    let root = root(members)?;
    let thrown = thrown(members)?;
    Some((root, thrown, after(members)?))
}

fn script_effects(alloc: Global, members: &JsonMap) -> Result<Option<EffectList>, Memory>
    ensures same { IfOk result (λ es. es ≡ script_effects_in members.now) }
    ensures fit { IfOk result (λ es. IfSome es (λ es. fit_at anywhere es ≡ true)) }
{
    match members.get("effects") {
        Some(value) => effects(alloc, value),
        None => Ok(Some(EffectList::new(alloc))),
    }
}

fn entry_in(alloc: Global, members: &JsonMap) -> Result<Option<BookEntry>, Memory>
    ensures same { IfOk result (λ e. e ≡ entry_in members.now) }
    ensures ends { IfOk result (λ e. IfSome e (λ e. is_end e.after ≡ true)) }
    ensures fit { IfOk result (λ e. IfSome e (λ e. fit_at anywhere e.effects ≡ true)) }
{
    if !has_only(
        &["script", "cells", "root", "thrown", "after", "effects"],
        members,
    ) {
        return Ok(None);
    }
    let Some((root, thrown, after)) = ends(members) else {
        return Ok(None);
    };
    let (Some(Json::Text(script)), Some(values)) = (members.get("script"), members.get("cells"))
    else {
        return Ok(None);
    };
    let script = script.copy(alloc)?;
    let Some(cells) = cells(alloc, values)? else {
        return Ok(None);
    };
    let Some(effects) = script_effects(alloc, members)? else {
        return Ok(None);
    };
    Ok(Some(BookEntry {
        script,
        cells,
        root,
        thrown,
        after,
        effects,
    }))
}

/// The answer to a script that the value spells: its members have their types, and there is no
/// other. Its effects stand where they may, and it ends within 2^40 milliseconds or never.
pub fn entry(alloc: Global, value: &Json) -> Result<Option<BookEntry>, Memory>
    ensures same { IfOk result (λ e. e ≡ entry_of value.now) }
    ensures ends { IfOk result (λ e. IfSome e (λ e. is_end e.after ≡ true)) }
    ensures fit { IfOk result (λ e. IfSome e (λ e. fit_at anywhere e.effects ≡ true)) }
{
    match value {
        Json::Object(members) => entry_in(alloc, members),
        _ => Ok(None),
    }
}
