//! The next moment of a waiting command, and what is done at it.

ghost use Rattle.std.specs.Prelude.{◌≡◌, ◌<◌, ◌≤◌, ◌+◌, Some, None, false, IfOk, IsTrue, OnOk, length};
ghost use Rattle.waits.specs.Moments.{last_moment};
ghost use Rattle.remote_end.specs.FindSpans.{soonest};
ghost use Rattle.remote_end.specs.State.{IsWhole};
ghost use Rattle.remote_end.specs.Waits.{next_moment, StepsAt, StepsIn, StepsGoing, FindSteps, FindFits, FitsOrEnded, IsGoing, left_of, left_in, next_in};

use crate::advance::advance;
use crate::finds::nodes_reply;
use crate::looks::{goes_on, look};
use crate::session::Session;
use crate::setting::Setting;
use crate::waiting::{FindWait, Waiting};
use page_engine::Page;
use selectors::SelFault;
use std::alloc::Global;
use std::marker::Model;
use waits::Activity;
use wd_json::Memory;

/// Of a moment and the moments at which timers of a page are due, the least.
fn soonest(page: &Page, until: u64) -> u64
    requires { page.now.spent ≡ false }
    ensures { result ≡ soonest until page.now.pending }
{
    match page.next_due() {
        Some(due) => due.moment.min(until),
        None => until,
    }
}

/// The next moment of the command that waits in a session; `None` where it has ended.
pub(crate) fn next_moment(session: &Session) -> Option<u64>
    requires { IsWhole session.now }
    ensures { result ≡ next_moment session.now }
{
    match &session.waiting {
        Some(Waiting::Find(find)) => Some(soonest(&session.page, find.until)),
        Some(Waiting::Ended(_)) => None,
        None => None,
    }
}

/// A find is looked at again, at its next moment.
fn find_at(
    alloc: Global,
    setting: &Setting,
    session: &mut Session,
    find: FindWait,
    moment: u64,
) -> Result<(), Memory>
    requires whole { IsWhole session.old }
    requires idle { session.old.waiting ≡ None }
    requires fits { FindFits find session.old.page session.old.at }
    requires next { moment ≡ soonest find.until session.old.page.pending }
    ensures step { OnOk result (FindSteps setting.now find session.old moment session.new) }
    ensures going { OnOk result (IsGoing session.new) }
    ensures fewer { OnOk result (left_of session.new < length session.old.page.pending + 1) }
{
    advance(setting, session, moment)?;
    let nodes = match look(alloc, session.page.document(), &find) {
        Ok(nodes) => nodes,
        Err(SelFault::Memory) => return Err(Memory),
        Err(SelFault::Invalid) => unreachable!(),
    };
    if goes_on(&nodes, moment, &find) {
        session.waiting = Some(Waiting::Find(find));
    } else {
        let reply = nodes_reply(alloc, session, find.wanted, &nodes)?;
        session.waiting = Some(Waiting::Ended(reply));
    }
    Ok(())
}

/// What waited in a session is carried on at its next moment.
fn waited_at(
    alloc: Global,
    setting: &Setting,
    session: &mut Session,
    waiting: Waiting,
    moment: u64,
) -> Result<(), Memory>
    requires whole { IsWhole session.old }
    requires idle { session.old.waiting ≡ None }
    requires fits { FitsOrEnded (Some waiting) session.old.page session.old.at }
    requires next { next_in (Some waiting) session.old ≡ Some moment }
    ensures step { OnOk result (StepsIn setting.now (Some waiting) session.old moment session.new) }
    ensures going { OnOk result (IsGoing session.new) }
    ensures fewer { OnOk result (left_of session.new < left_in (Some waiting) session.old.page) }
{
    match waiting {
        Waiting::Find(find) => find_at(alloc, setting, session, find, moment),
        Waiting::Ended(_) => unreachable!(),
    }
}

/// The command that waits in a session is carried on at its next moment.
fn step_at(
    alloc: Global,
    setting: &Setting,
    session: &mut Session,
    moment: u64,
) -> Result<(), Memory>
    requires going { IsGoing session.old }
    requires next { next_moment session.old ≡ Some moment }
    ensures step { OnOk result (StepsAt setting.now session.old moment session.new) }
    ensures going { OnOk result (IsGoing session.new) }
    ensures fewer { OnOk result (left_of session.new < left_of session.old) }
{
    match session.waiting.take() {
        Some(waiting) => waited_at(alloc, setting, session, waiting, moment),
        None => unreachable!(),
    }
}

/// A session whose command goes on, in its setting, with what its steps take memory from.
#[derive(Drop)]
pub(crate) struct Going<'a> {
    pub(crate) alloc: Global,
    pub(crate) setting: &'a Setting,
    pub(crate) session: Session,
}

impl<'a> Model for Going<'a> {
    ghost use Rattle.remote_end.specs.declared.session.Session.{Session};
    ghost use Rattle.remote_end.specs.declared.setting.Setting.{Setting};
    ghost use Rattle.std.specs.Coded.{codes};
    ghost use Rattle.page_engine.specs.contracts.effect.Effect as effect;
    ghost use Rattle.wd_json.specs.contracts.value.Json as json;

    ghost Value = { Setting × Session };

    ghost coded = { Prim.hlevel (codes, json.the_row.coded, effect.the_row.coded) };

    ghost view = { λ going. (going.setting.now, going.session) };
}

impl<'a> Activity for Going<'a> {
    ghost next_of = { λ going. next_moment going.1 };

    ghost step = { StepsGoing };

    ghost left = { λ going. left_of going.1 };

    ghost whole = { λ going. IsGoing going.1 };

    fn next(&self) -> Option<u64> {
        next_moment(&self.session)
    }

    fn at(&mut self, moment: u64) -> Result<(), Memory> {
        step_at(self.alloc, self.setting, &mut self.session, moment)
    }
}
