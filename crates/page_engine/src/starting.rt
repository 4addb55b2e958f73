//! The timers that a page starts with, as pending ones.

ghost use Rattle.std.specs.Prelude.{◌≡◌, ◌≤◌, ◌+◌, [], length, IfOk, if◌then◌else◌};
ghost use Rattle.waits.specs.Moments.{last_moment};
ghost use Rattle.page_engine.specs.Opening.{with_timers};
ghost use Rattle.page_engine.specs.Pages.{max_timers};

use crate::copying::copy_effects;
use crate::page_def::TimerList;
use crate::timers::Timers;
use std::alloc::Global;
use waits::plus;
use wd_json::Memory;

/// The timers that a page starts with, numbered from `first`.
pub fn pending(alloc: Global, timers: &TimerList, moment: u64, first: u64) -> Result<Timers, Memory>
    requires moment { moment ≤ last_moment }
    requires numbers { first ≤ last_moment }
    requires few { length timers.now ≤ max_timers }
    ensures { IfOk result (λ pending. pending ≡ with_timers moment first timers.now []) }
{
    let mut pending = Timers::new(alloc);
    let mut number = first;
    for timer in timers.as_slice() {
        let effects = copy_effects(alloc, &timer.effects)?;
        pending.insert((plus(moment, timer.at), number), effects)?;
        number += 1;
    }
    Ok(pending)
}
