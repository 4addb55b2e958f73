//! A session advanced to a moment: the timers of its page that are due by then run.

ghost use Rattle.std.specs.Prelude.{◌≡◌, ◌≤◌, Some, false, OnOk};
ghost use Rattle.page_engine.specs.Timers.{AreInOrder, first_due};
ghost use Rattle.waits.specs.Moments.{last_moment};
ghost use Rattle.remote_end.specs.Advance.{PageAdvances, Advanced, due_at};
ghost use Rattle.remote_end.specs.Moments.{start_of};
ghost use Rattle.remote_end.specs.State.{IsWhole};

use crate::session::Session;
use crate::setting::Setting;
use page_engine::Page;
use waits::LAST_MOMENT;
use wd_json::Memory;

/// When the next timer is due; `None` where none is due by then.
fn due_by(page: &Page, to: u64) -> Option<u64>
    requires { page.now.spent ≡ false }
    ensures due { result ≡ due_at to (first_due page.now.pending) }
    ensures order { AreInOrder page.now.pending }
{
    match page.next_due() {
        Some(due) => {
            if due.moment <= to {
                Some(due.moment)
            } else {
                None
            }
        }
        None => None,
    }
}

/// Runs the timers that are due by then, one after another. Where they lead is for the setting to say: so far what
/// they ask of the world around the page does nothing.
fn run_timers(setting: &Setting, page: &mut Page, reached: u64, to: u64) -> Result<(), Memory>
    requires alive { page.old.spent ≡ false }
    requires onwards { reached ≤ to }
    requires moment { to ≤ last_moment }
    ensures runs { OnOk result (PageAdvances setting.now to page.old reached page.new) }
    ensures alive { OnOk result (page.new.spent ≡ false) }
    ensures address { OnOk result (page.new.address ≡ page.old.address) }
{
    let _ = setting;
    let mut reached = reached;
    while let Some(due) = due_by(page, to) {
        reached = due.max(reached);
        drop(page.run_due(reached)?);
    }
    Ok(())
}

/// Advances a session to a moment, and runs its page's timers that are due by then. `Memory` where there is
/// no memory for what they do. It costs these timers and their effects.
pub(crate) fn advance(setting: &Setting, session: &mut Session, to: u64) -> Result<(), Memory>
    requires whole { IsWhole session.old }
    requires onwards { session.old.at ≤ to }
    requires moment { to ≤ last_moment }
    ensures advanced { OnOk result (Advanced setting.now session.old to session.new) }
    ensures whole { OnOk result (IsWhole session.new) }
{
    run_timers(setting, &mut session.page, session.at, to)?;
    session.at = to;
    Ok(())
}

/// The moment at which a command of a session starts that is begun with a reading.
pub(crate) fn start_of(session: &Session, reading: u64) -> u64
    ensures start { result ≡ start_of (Some session.now) reading }
    ensures within { result ≤ last_moment }
    ensures onwards { session.now.at ≤ last_moment → session.now.at ≤ result }
{
    session.at.max(reading).min(LAST_MOMENT)
}
