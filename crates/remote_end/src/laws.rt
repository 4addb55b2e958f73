//! Laws of lookups, of advancing pages, and of commands that wait.

ghost use Rattle.remote_end.specs.Laws.{LookupsAreExact, AdvancesSomewhere, AdvancesToOne};
ghost use Rattle.remote_end.specs.Resumed.{PlansAreOne, PlansAreThere, ResumesAreOne};

/// A law: a text that a command looks up as an element is answered `no such element` exactly if its session
/// never handed it out as an element's reference, and `stale element reference` exactly if it did and the node
/// isn't connected to the current document; as a shadow root it is answered `no such shadow root` and `detached
/// shadow root` so. Else its node is found. So it is never both, and never neither.
pub fn lookups_are_exact()
    ensures { LookupsAreExact }
{}

/// A law: from a page, a moment that is reached and a later one, advancing leads to one page. So a step of the
/// command machine is one.
pub fn advances_to_one()
    ensures { AdvancesToOne }
{}

/// A law: and it leads to one. Timers that run start none, so advancing comes to its end.
pub fn advances_somewhere()
    ensures { AdvancesSomewhere }
{}

/// A law: however a command that waits is resumed, early, late or both, it is as if it had been resumed once, with
/// the greatest of the readings. So what it comes to doesn't depend on who resumes it, or when.
pub fn resumes_are_one()
    ensures { ResumesAreOne }
{}

/// A law: a command that waits has one plan. So its reply, what it leaves and its next moments are settled when it
/// begins, by the page alone.
pub fn plans_are_one()
    ensures { PlansAreOne }
{}

/// A law: and it has one, in each session that a remote end keeps between two calls. So what is said of each plan of a
/// command that waits is said of the one that it has.
pub fn plans_are_there()
    ensures { PlansAreThere }
{}
