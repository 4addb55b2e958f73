//! An open page, and what effects, events, timers and closed prompts do to it.

ghost use Rattle.std.specs.Prelude.{◌≡◌, ◌+◌, ◌≤◌, ◌<◌, [], true, false, length, IfOk, OnOk, OnErr};
ghost use Rattle.waits.specs.Moments.{last_moment};
ghost use Rattle.page_engine.specs.Closing.{prompt_closed};
ghost use Rattle.page_engine.specs.Scene.{scene_in};

use crate::at::At;
use crate::copying::copied_handlers;
use crate::dispatch::{add_line, dispatch};
use crate::due::Due;
use crate::effect::{EffectList, Prompt};
use crate::effects::run_effects;
use crate::event::Event;
use crate::first::First;
use crate::lines::closing_line;
use crate::nodes::document_of;
use crate::outcome::Outcome;
use crate::page_def::{HandlerList, PageDef};
use crate::parts::Parts;
use crate::place::{ANSWERING, ANYWHERE, TIMED};
use crate::starting::pending;
use crate::timers::Timers;
use crate::values::{firsts, start};
use page_tree::Document;
use std::alloc::Global;
use std::marker::Model;
use wd_json::{Memory, TextList, WdText};

/// A page that is open: its document, its log and its pending timers. Contracts see the document's
/// rows, the log, the timers in the order in which they run, the handlers of each node, the first
/// values and states, the address, and whether the page is spent.
///
/// Moments are whole milliseconds, at most 2^62. The timers that a call makes are numbered from its
/// argument `first`, which is at most 2^62, and so is `first` with how many were made. A call on
/// `&mut self` that answers `Memory` leaves the page spent; from then on only `spent` and `law` may be
/// called.
#[derive(Drop)]
pub struct Page {
    parts: Parts,
    handlers: Vec<HandlerList>,
    firsts: Vec<First>,
    address: WdText,
    spent: bool,
}

impl Model for Page {
    ghost use Rattle.std.specs.Prelude.{◌≡◌, false};
    ghost use Rattle.std.specs.Coded.{codes};
    ghost use Rattle.page_engine.specs.Scene.{PageState};
    ghost use Rattle.page_engine.specs.contracts.effect.Effect as effect;

    ghost Value = { PageState };

    ghost coded = { Prim.hlevel (codes, effect.the_row.coded) };

    ghost view = { λ p. record { rows = p.parts.document.rows; log = p.parts.log; pending = p.parts.pending; handlers = p.handlers.items; firsts = p.firsts.items; address = p.address; spent = p.spent } };

    ghost invariant = { λ p. p.spent ≡ false → p.parts.document.spent ≡ false };
}

impl Page {
    ghost use Rattle.page_engine.specs.Closing.{prompt_closed};
    ghost use Rattle.page_engine.specs.Dispatch.{dispatched, due_run};
    ghost use Rattle.page_engine.specs.Effects.{effects_on};
    ghost use Rattle.page_engine.specs.Fitting.{anywhere};
    ghost use Rattle.page_engine.specs.Kinds.{is_event};
    ghost use Rattle.page_engine.specs.Opened.{opened};
    ghost use Rattle.page_engine.specs.Pages.{IsLawfulPage};
    ghost use Rattle.page_engine.specs.Scene.{scene_of, page_after};
    ghost use Rattle.page_engine.specs.Timers.{AreInOrder, first_due};

    /// Opens a page at a moment. Its rows are those that the definition spells, with the first value
    /// and checked state of each element: of an input its attribute `value`; of a textarea, and of an
    /// element whose `contenteditable` is empty or `true`, all texts that children reach from it; and
    /// checked where `checked` or `selected` stands. Its timers are numbered from `first`; with
    /// `timed`, as where a timer opens the page, it has none. `Memory` where there is none for it. It
    /// goes over the definition once, and over a text once for each such element that it is in (HTML
    /// Standard, "the input element", "the textarea element", "contenteditable").
    pub fn open(
        alloc: Global,
        def: &PageDef,
        moment: u64,
        first: u64,
        timed: bool,
    ) -> Result<Page, Memory>
        requires lawful { IsLawfulPage def.now }
        requires moment { moment ≤ last_moment }
        requires numbers { first ≤ last_moment }
        ensures { IfOk result (λ page. page ≡ opened def.now moment first timed) }
    {
        let mut document = document_of(alloc, &def.nodes)?;
        let firsts = firsts(alloc, &document)?;
        start(&mut document, &firsts)?;
        let pending = if timed {
            Timers::new(alloc)
        } else {
            pending(alloc, &def.timers, moment, first)?
        };
        let handlers = copied_handlers(alloc, &def.nodes)?;
        let address = def.address.copy(alloc)?;
        Ok(Page::of(alloc, document, pending, handlers, firsts, address))
    }

    // A page that nothing has happened to, with its document, its timers, the handlers of each node,
    // and the first value and state of each node. It takes no memory.
    pub(crate) fn of(
        alloc: Global,
        document: Document,
        pending: Timers,
        handlers: Vec<HandlerList>,
        firsts: Vec<First>,
        address: WdText,
    ) -> Page
        requires { document.spent ≡ false }
        ensures { result ≡ record { rows = document.rows; log = []; pending = pending; handlers = handlers.items; firsts = firsts.items; address = address; spent = false } }
    {
        Page {
            parts: Parts {
                alloc,
                document,
                log: TextList::new(alloc),
                pending,
            },
            handlers,
            firsts,
            address,
            spent: false,
        }
    }

    /// Whether a call has answered `Memory`. It has no condition.
    pub fn spent(&self) -> bool
        ensures { result ≡ self.now.spent }
    {
        self.spent
    }

    /// The page's document. It takes no memory.
    pub fn document(&self) -> &Document
        requires { self.now.spent ≡ false }
        ensures { result.now ≡ record { rows = self.now.rows; spent = false } }
    {
        &self.parts.document
    }

    /// The lines of the events that were dispatched, the first 10,000 of them. It takes no memory.
    pub fn log(&self) -> &TextList
        requires { self.now.spent ≡ false }
        ensures { result.now ≡ self.now.log }
    {
        &self.parts.log
    }

    /// When the next timer is due, and its number, which is the first in the order in which they run;
    /// `None` exactly where none is pending. It takes no memory.
    pub fn next_due(&self) -> Option<Due>
        requires { self.now.spent ≡ false }
        ensures due { result ≡ first_due self.now.pending }
        ensures order { AreInOrder self.now.pending }
    {
        self.parts.pending.law();
        self.parts.pending.first_due()
    }

    /// The effects of a script, in order. `Memory` where there is no memory for them.
    pub fn apply(&mut self, effects: &EffectList, now: u64, first: u64) -> Result<Outcome, Memory>
        requires alive { self.old.spent ≡ false }
        requires moment { now ≤ last_moment }
        requires numbers { first ≤ last_moment }
        ensures page { OnOk result (self.new ≡ page_after self.old (effects_on (record { now = now; first = first }) anywhere (scene_of self.old) effects.now)) }
        ensures outcome { IfOk result (λ outcome. outcome ≡ (effects_on (record { now = now; first = first }) anywhere (scene_of self.old) effects.now).asked) }
        ensures made { IfOk result (λ outcome. first + outcome.made ≤ last_moment) }
        ensures err { OnErr result (self.new.spent ≡ true) }
    {
        let mut asked = Outcome::new(self.parts.alloc);
        let at = At { now, first };
        if run_effects(&mut self.parts, &mut asked, at, ANYWHERE, effects).is_err() {
            self.spent = true;
            return Err(Memory);
        }
        Ok(asked)
    }

    /// Dispatches an event: its line is added to the log, and the handlers on its path run, which is
    /// the target and all nodes above it, through hosts; of focus and blur the target alone.
    /// `Memory` where there is no memory for it. It costs the path and the effects (DOM Standard,
    /// "Dispatching events").
    pub fn dispatch(&mut self, event: &Event, now: u64, first: u64) -> Result<Outcome, Memory>
        requires alive { self.old.spent ≡ false }
        requires moment { now ≤ last_moment }
        requires numbers { first ≤ last_moment }
        requires kind { is_event event.now ≡ true }
        ensures page { OnOk result (self.new ≡ page_after self.old (dispatched self.old.handlers (record { now = now; first = first }) event.now (scene_of self.old))) }
        ensures outcome { IfOk result (λ outcome. outcome ≡ (dispatched self.old.handlers (record { now = now; first = first }) event.now (scene_of self.old)).asked) }
        ensures made { IfOk result (λ outcome. first + outcome.made ≤ last_moment) }
        ensures err { OnErr result (self.new.spent ≡ true) }
    {
        let mut asked = Outcome::new(self.parts.alloc);
        let at = At { now, first };
        if dispatch(&mut self.parts, &mut asked, &self.handlers, at, event).is_err() {
            self.spent = true;
            return Err(Memory);
        }
        Ok(asked)
    }

    /// Runs the timer that is the least by its due moment and its number, of equal ones the one that
    /// was made first, and takes it away. It makes no timer. `Memory` where there is no memory for its
    /// effects.
    pub fn run_due(&mut self, now: u64) -> Result<Outcome, Memory>
        requires alive { self.old.spent ≡ false }
        requires moment { now ≤ last_moment }
        requires some { 0 < length self.old.pending }
        ensures page { OnOk result (self.new ≡ page_after self.old (due_run now (scene_of self.old) self.old.pending)) }
        ensures outcome { IfOk result (λ outcome. outcome ≡ (due_run now (scene_of self.old) self.old.pending).asked) }
        ensures made { IfOk result (λ outcome. outcome.made ≡ 0) }
        ensures order { AreInOrder self.old.pending }
        ensures err { OnErr result (self.new.spent ≡ true) }
    {
        let mut asked = Outcome::new(self.parts.alloc);
        let at = At { now, first: 0 };
        self.parts.pending.law();
        if let Some((_, effects)) = self.parts.pending.pop_first() {
            if run_effects(&mut self.parts, &mut asked, at, TIMED, &effects).is_err() {
                self.spent = true;
                return Err(Memory);
            }
        }
        Ok(asked)
    }

    /// A law: the pending timers stand in the order in which they run, by the due moment and at one
    /// moment by the number. It has no condition.
    pub fn law(&self)
        ensures { AreInOrder self.now.pending }
    {
        self.parts.pending.law();
    }

    /// Closes a prompt that this page opened at a moment: the line `accept` with its answer, or
    /// `dismiss`, is added to the log, and then the effects of that list take place. It makes no timer
    /// and asks for no prompt. `Memory` where there is no memory for it. It costs the effects (HTML
    /// Standard, "Simple dialogs").
    pub fn close_prompt(
        &mut self,
        prompt: &Prompt,
        accepted: bool,
        now: u64,
    ) -> Result<Outcome, Memory>
        requires alive { self.old.spent ≡ false }
        requires moment { now ≤ last_moment }
        ensures page { OnOk result (self.new ≡ page_after self.old (prompt_closed now prompt.now accepted (scene_of self.old))) }
        ensures outcome { IfOk result (λ outcome. outcome ≡ (prompt_closed now prompt.now accepted (scene_of self.old)).asked) }
        ensures made { IfOk result (λ outcome. outcome.made ≡ 0) }
        ensures err { OnErr result (self.new.spent ≡ true) }
    {
        let mut asked = Outcome::new(self.parts.alloc);
        if close(&mut self.parts, &mut asked, prompt, accepted, now).is_err() {
            self.spent = true;
            return Err(Memory);
        }
        Ok(asked)
    }
}

/// The line of the answer, and then its effects.
fn close(
    parts: &mut Parts,
    asked: &mut Outcome,
    prompt: &Prompt,
    accepted: bool,
    now: u64,
) -> Result<(), Memory>
    requires alive { parts.old.document.spent ≡ false }
    requires moment { now ≤ last_moment }
    ensures ok { OnOk result (scene_in parts.new asked.new ≡ prompt_closed now prompt.now accepted (scene_in parts.old asked.old)) }
    ensures alive { OnOk result (parts.new.document.spent ≡ false) }
{
    let text = closing_line(parts.alloc, prompt, accepted)?;
    add_line(&mut parts.log, text)?;
    let at = At { now, first: 0 };
    if accepted {
        run_effects(parts, asked, at, ANSWERING, &prompt.accepted)
    } else {
        run_effects(parts, asked, at, ANSWERING, &prompt.dismissed)
    }
}
