//! The timers that a list of values spells.

ghost use Rattle.std.specs.Prelude.{◌≡◌, ◌≤◌, IfOk, IfErr, IfSome, Ok, true, length};
ghost use Rattle.page_engine.specs.Pages.{is_timer};
ghost use Rattle.page_file.specs.Rows.{rows, IsFaultOf, IsNextFault};
ghost use Rattle.page_file.specs.Timers.{timer_in, timer_of, next_timer};

use crate::members::has_only;
use crate::page_fault::PageFault;
use crate::reading::timed_effects;
use crate::values::as_wait;
use crate::why::Why;
use page_engine::{TimerDef, TimerList};
use std::alloc::Global;
use wd_json::{Json, JsonMap, Memory, WdList};

/// A page has at most so many timers.
const MAX_TIMERS: usize = 1000;

// The timer that an object's members spell.
fn timer_in(alloc: Global, members: &JsonMap) -> Result<Option<TimerDef>, Memory>
    ensures same { IfOk result (λ t. t ≡ timer_in members.now) }
    ensures good { IfOk result (λ t. IfSome t (λ t. is_timer t ≡ true)) }
{
    if !has_only(&["at", "do"], members) {
        return Ok(None);
    }
    let (Some(at), Some(effects)) = (members.get("at"), members.get("do")) else {
        return Ok(None);
    };
    let Some(at) = as_wait(at) else {
        return Ok(None);
    };
    let Some(effects) = timed_effects(alloc, effects)? else {
        return Ok(None);
    };
    Ok(Some(TimerDef { at, effects }))
}

fn timer(alloc: Global, value: &Json) -> Result<Option<TimerDef>, Memory>
    ensures same { IfOk result (λ t. t ≡ timer_of value.now) }
    ensures good { IfOk result (λ t. IfSome t (λ t. is_timer t ≡ true)) }
{
    match value {
        Json::Object(members) => timer_in(alloc, members),
        _ => Ok(None),
    }
}

// The next timer, after these.
fn next_timer(alloc: Global, timers: &[TimerDef], value: &Json) -> Result<TimerDef, PageFault>
    requires { length timers.now ≤ 1000 }
    ensures next { IfOk result (λ timer. next_timer timers.now value.now ≡ Ok timer) }
    ensures fault { IfErr result (IsNextFault timers.now (next_timer timers.now value.now)) }
{
    match timer(alloc, value)? {
        Some(timer) if timers.len() < MAX_TIMERS => Ok(timer),
        _ => Err(PageFault::Bad {
            row: timers.len() as u32,
            why: Why::Timer,
        }),
    }
}

/// The timers that the values spell.
///
/// `Bad` with `Timer` and the place of the first value that spells none, or of the 1,001st where
/// none before it is at fault.
pub fn read_timers(alloc: Global, values: &[Json]) -> Result<TimerList, PageFault>
    ensures read { IfOk result (λ timers. rows next_timer values.now ≡ Ok timers) }
    ensures cause { IfErr result (IsFaultOf (rows next_timer values.now)) }
{
    let mut timers = Vec::new(alloc);
    for value in values {
        let timer = next_timer(alloc, &timers, value)?;
        timers.push(timer)?;
    }
    Ok(WdList::from_vec(timers))
}
