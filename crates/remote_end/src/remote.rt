//! The remote end: requests begun, resumed and answered, one step for each.

ghost use Rattle.std.specs.Prelude.{◌≡◌, ◌↔◌, ◌<◌, ◌≤◌, ◌^◌, ◌∷◌, ◌++◌, [], ℕ, false, true, Some, Ok, IsTrue, IsSome, IfSome, IfOk, OnOk, OnErr, length};
ghost use Rattle.remote_end.specs.Carried.{HasStatus};
ghost use Rattle.remote_end.specs.Step.{Begins, Resumes, IsFree};
ghost use Rattle.remote_end.specs.Meaning.{target_bytes};
ghost use Rattle.remote_end.specs.Naming.{session_of};
ghost use Rattle.remote_end.specs.Waits.{busy_of};
ghost use Rattle.remote_end.specs.declared.taken.Taken.TheVariants.{Reading};
ghost use Rattle.remote_end.specs.Standing.{initial, IsReady};
ghost use Rattle.remote_end.specs.Outside.{outside};
ghost use Rattle.remote_end.specs.Runs.{Answers};
ghost use Rattle.page_engine.specs.Sites.{IsLawfulSite};
ghost use Rattle.wd_http.specs.Sent.{is_status};

use crate::evaluator::Evaluator;
use crate::naming::session_of;
use crate::reply::Reply;
use crate::resuming::{busy, resume};
use crate::run::begin;
use crate::session::Session;
use crate::setting::Setting;
use crate::step::Step;
use crate::taken::{Taken, TakenList};
use capabilities::Offer;
use endpoints::Endpoints;
use page_engine::Site;
use std::alloc::Global;
use std::marker::Model;
use wd_http::{Clock, Request};
use wd_json::{JsonReader, Memory, WdText};

/// A remote end: its site, its setting, its open sessions, and what it took of the outside. Contracts see
/// the state of the command machine, what was taken, and whether it is spent.
#[derive(Drop)]
pub struct Remote {
    alloc: Global,
    endpoints: Endpoints,
    reader: JsonReader,
    setting: Setting,
    next: u32,
    sessions: Vec<Session>,
    taken: TakenList,
    spent: bool,
}

impl Model for Remote {
    ghost use Rattle.std.specs.Prelude.{◌≡◌, ◌↔◌, ◌<◌, ◌^◌, false};
    ghost use Rattle.remote_end.specs.Standing.{Standing, AreSound};
    ghost use Rattle.std.specs.Coded.{codes};
    ghost use Rattle.page_engine.specs.Sites.{IsLawfulSite};
    ghost use Rattle.page_engine.specs.contracts.effect.Effect as effect;
    ghost use Rattle.wd_json.specs.contracts.value.Json as json;

    ghost Value = { Standing };

    ghost coded = { Prim.hlevel (codes, json.the_row.coded, effect.the_row.coded) };

    ghost view = { λ r. record {
      setting = r.setting;
      state = record { next = r.next; sessions = r.sessions.items };
      taken = r.taken;
      spent = r.spent;
    } };

    ghost invariant = { λ r. IsLawfulSite r.setting.site × (r.setting.run < 2 ^ 48) × (r.spent ≡ false → AreSound r.next r.sessions.items) };
}

impl Remote {
    /// A remote end without sessions, over the pages of a site. `name` is the name of its browser, and `run` the
    /// number of the run, below 2^48. `Memory` where there is no memory for it.
    pub fn new(alloc: Global, site: Site, name: WdText, run: u64) -> Result<Remote, Memory>
        requires lawful { IsLawfulSite site }
        requires run_small { run < 2 ^ 48 }
        ensures { IfOk result (λ remote. remote ≡ initial site name run) }
    {
        Ok(Remote {
            alloc,
            endpoints: Endpoints::new(alloc)?,
            reader: JsonReader::new(alloc),
            setting: Setting {
                site,
                offer: Offer { name },
                run,
            },
            next: 1,
            sessions: Vec::new(alloc),
            taken: TakenList::new(alloc),
            spent: false,
        })
    }

    /// Whether it is spent: a call that wanted memory and had none left it half done. No other call may be
    /// made then.
    pub fn spent(&self) -> bool
        ensures { result ≡ self.now.spent }
    {
        self.spent
    }

    /// Whether a request may be answered: it isn't spent, and no command waits. It takes no memory.
    pub fn is_ready(&self) -> bool
        ensures { IsTrue result ↔ IsReady self.now }
    {
        !self.spent
            && self
                .sessions
                .iter()
                .all(|session| session.waiting.is_none())
    }

    /// What was taken of the outside, in order: each reading of the clock.
    pub fn taken(&self) -> &TakenList
        requires { self.now.spent ≡ false }
        ensures { result.now ≡ self.now.taken }
    {
        &self.taken
    }

    /// How many sessions are open.
    pub fn sessions(&self) -> u32
        requires { self.now.spent ≡ false }
        ensures { result ≡ length self.now.state.sessions }
    {
        self.sessions.len() as u32
    }

    /// The next moment of the session with that number, where a command of it waits. It takes no memory.
    pub fn busy(&self, session: u32) -> Option<u64>
        requires { self.now.spent ≡ false }
        ensures { result ≡ busy_of session self.now.state.sessions }
    {
        busy(&self.sessions, session)
    }

    /// The number of the open session that a request's path names, whether or not the path has an endpoint: its
    /// first segment is `session`, and its second one, percent-decoded, is the session's identifier. `None` exactly
    /// where it names no open session. It takes no memory.
    pub fn session_of(&self, request: &Request) -> Option<u32>
        requires { self.now.spent ≡ false }
        ensures { result ≡ session_of (target_bytes request.now) self.now.state.sessions }
    {
        session_of(&self.sessions, request.target.as_str())
    }

    /// Whether a request may be begun: exactly where no command waits in the session that its path names. It takes no
    /// memory.
    pub fn is_free(&self, request: &Request) -> bool
        requires { self.now.spent ≡ false }
        ensures { IsTrue result ↔ IsFree self.now.state request.now }
    {
        match self.session_of(request) {
            Some(session) => self.busy(session).is_none(),
            None => true,
        }
    }

    /// Begins a request with a reading: the reply, or until when the command waits in its session. It waits exactly
    /// where its next moment is later than its start. `is_free` says whether it may be begun. After `Memory` the
    /// remote end is spent.
    pub fn begin<E: Evaluator>(
        &mut self,
        request: &Request,
        now: u64,
        evaluator: &mut E,
    ) -> Result<Step, Memory>
        requires alive { self.old.spent ≡ false }
        requires free { IsFree self.old.state request.now }
        ensures begins { IfOk result (Begins self.old.setting self.old.state request.now now self.new.state) }
        ensures kept { OnOk result (self.new ≡ record self.old { state = self.new.state; taken = self.old.taken ++ Reading now ∷ [] }) }
        ensures status { IfOk result HasStatus }
        ensures evaluator { evaluator.new ≡ evaluator.old }
        ensures memory { OnErr result (self.new.spent ≡ true) }
    {
        let _ = evaluator;
        self.spent = true;
        self.taken.push(Taken::Reading(now))?;
        let step = begin(
            self.alloc,
            &self.endpoints,
            &mut self.reader,
            &self.setting,
            &mut self.next,
            &mut self.sessions,
            request,
            now,
        )?;
        self.spent = false;
        Ok(step)
    }

    /// Carries the command that waits in a session to a reading that reaches its next moment, and keeps the reading.
    fn carry_on(&mut self, session: u32, now: u64) -> Result<Step, Memory>
        requires alive { self.old.spent ≡ false }
        requires busy { IfSome (busy_of session self.old.state.sessions) (λ until. until ≤ now) × IsSome (busy_of session self.old.state.sessions) }
        ensures resumes { IfOk result (Resumes self.old.setting self.old.state session now self.new.state) }
        ensures kept { OnOk result (self.new ≡ record self.old { state = self.new.state; taken = self.old.taken ++ Reading now ∷ [] }) }
        ensures status { IfOk result HasStatus }
        ensures memory { OnErr result (self.new.spent ≡ true) }
    {
        self.spent = true;
        self.taken.push(Taken::Reading(now))?;
        let step = resume(self.alloc, &self.setting, &mut self.sessions, session, now)?;
        self.spent = false;
        Ok(step)
    }

    /// Resumes the command that waits in a session: all its next moments that are at most the reading are handled, in
    /// order. With a reading before the next moment nothing changes, and the reading isn't kept.
    pub fn resume(&mut self, session: u32, now: u64) -> Result<Step, Memory>
        requires alive { self.old.spent ≡ false }
        requires busy { IsSome (busy_of session self.old.state.sessions) }
        ensures resumes { (until : ℕ) → busy_of session self.old.state.sessions ≡ Some until → until ≤ now → IfOk result (Resumes self.old.setting self.old.state session now self.new.state) }
        ensures kept { (until : ℕ) → busy_of session self.old.state.sessions ≡ Some until → until ≤ now → OnOk result (self.new ≡ record self.old { state = self.new.state; taken = self.old.taken ++ Reading now ∷ [] }) }
        ensures early { (until : ℕ) → busy_of session self.old.state.sessions ≡ Some until → now < until → (result ≡ Ok (Step.Wait session until)) × (self.new ≡ self.old) }
        ensures status { IfOk result HasStatus }
        ensures memory { OnErr result (self.new.spent ≡ true) }
    {
        match self.busy(session) {
            Some(until) => {
                if now < until {
                    Ok(Step::Wait { session, until })
                } else {
                    let step = self.carry_on(session, now)?;
                    Ok(step)
                }
            }
            None => unreachable!(),
        }
    }

    /// Answers a request: one step of the command machine. It reads the clock once, also for a request that
    /// is refused, and rests while the command waits. After `Memory` the remote end is spent.
    pub fn answer<C: Clock, E: Evaluator>(
        &mut self,
        request: &Request,
        clock: &mut C,
        evaluator: &mut E,
    ) -> Result<Reply, Memory>
        requires { IsReady self.old }
        ensures answers { IfOk result (Answers (outside C.now_gives C.rest_gives) (clock.old, evaluator.old) (clock.new, evaluator.new) self.old self.new request.now) }
        ensures status { IfOk result (λ reply. IsTrue (is_status reply.status)) }
        ensures memory { OnErr result (self.new.spent ≡ true) }
    {
        let reading = clock.now();
        let mut step = self.begin(request, reading, evaluator)?;
        'rests: loop {
            match step {
                Step::Reply(reply) => return Ok(reply),
                Step::Wait { session, until } => {
                    let reading = clock.rest_until(until);
                    step = self.resume(session, reading)?;
                }
            }
        }
    }
}
