//! What is true of every step and every run of the command machine, and of every pipe. Nothing here is called: each function
//! is a law, which follows from the contracts below alone.
#![tactic(auto)]

ghost use Rattle.laws.specs.Errors.{ErrorsKeep};
ghost use Rattle.laws.specs.Lawful.{StatesAreLawful};
ghost use Rattle.laws.specs.Lookups.{LookupsAreExactInRuns};
ghost use Rattle.laws.specs.OnePipe.{PipesAreOne};
ghost use Rattle.laws.specs.OneRun.{RunsAreOne};
ghost use Rattle.laws.specs.OneStep.{StepsToOne};
ghost use Rattle.laws.specs.Replied.{AreReplied};

use remote_end::Evaluator;
use wd_http::Line;

/// A law: from a state in which no command waits, a step of the machine leads to one reply and one state, by the request
/// and the calls that were made of the outside. So what a request gets is no choice of the remote end's.
pub fn steps_to_one()
    ensures { StepsToOne }
{}

/// A law: each state that a run of the machine reaches is lawful. The references of each session were issued in order,
/// with identifiers of its run and its number; the sessions' numbers rise, so no two have one; there are at most 8; none
/// has reached a moment after the last; and no command waits.
pub fn states_are_lawful()
    ensures { StatesAreLawful }
{}

/// A law: in a lawful state a command that ends in an error ends no session, opens none and hands nothing out, and changes
/// nothing of its own session but that it has advanced. So it is of the commands that are carried out today.
pub fn errors_keep()
    ensures { ErrorsKeep }
{}

/// A law: two runs with the same requests, each under a virtual clock that begins at the same moment, have the same calls
/// and replies, and lead to one state. So what is sent under `pipe` is a function of the site, the browser's name and the
/// requests that the bytes spell.
pub fn runs_are_one<E: Evaluator>()
    ensures { RunsAreOne E }
{}

/// A law: two pipes over one site, with one name of the browser, whose lines tell and give the same bytes, send the same
/// bytes, where no call on their connections fails, and leave the machine in one state. So the bytes sent are a function of
/// the site, the name and the bytes that come, and how they are cut doesn't occur in it.
pub fn pipes_are_one<L: Line, M: Line, E: Evaluator>()
    ensures { PipesAreOne E L.makes M.makes }
{}

/// A law: each reference that an open session handed out stood in an earlier reply of the run, alone or in a list. So what
/// a lookup calls handed out is what was answered.
pub fn are_replied()
    ensures { AreReplied }
{}

/// A law: in each state that a run reaches, a text that a command looks up as an element's is answered `no such element`
/// exactly if its session never handed it out as one, and `stale element reference` exactly if it did and the node isn't
/// connected to the current document; so it is of shadow roots with their codes.
pub fn lookups_are_exact_in_runs()
    ensures { LookupsAreExactInRuns }
{}
