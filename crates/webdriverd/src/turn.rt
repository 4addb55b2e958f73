//! One turn: a connection asked for, served and hung up.

ghost use Rattle.std.specs.Prelude.{◌≡◌, ◌≤◌, IfOk, OnOk, OnErr};
ghost use Rattle.remote_end.specs.Outside.{outside};
ghost use Rattle.remote_end.specs.Standing.{IsReady};
ghost use Rattle.webdriverd.specs.Attended.{CameTo, RefusedBy};
ghost use Rattle.webdriverd.specs.Serving.{Calls, Visits};

use crate::serve::serve;
use remote_end::{Evaluator, Remote};
use std::alloc::Global;
use wd_http::{Clock, Failed, Line};
use wd_json::Memory;

/// What came of asking for a connection.
#[derive(Clone, Copy)]
pub(crate) enum Came {
    /// One came; it was served and hung up.
    Served,
    /// There is no further one.
    NoneCame,
    /// The line failed to give one.
    Refused,
}

/// Asks for a connection, serves it to its end and hangs it up. A read or write that fails in it ends it, and nothing else.
pub(crate) fn serve_next<L: Line, C: Clock, E: Evaluator>(
    alloc: Global,
    line: &mut L,
    remote: &mut Remote,
    clock: &mut C,
    evaluator: &mut E,
) -> Result<Came, Memory>
    requires { IsReady remote.old }
    ensures came { IfOk result (CameTo (outside C.now_gives C.rest_gives) (clock.old, evaluator.old) (clock.new, evaluator.new) remote.old remote.new
        L.makes line.old line.new L.tells (L.talk line.old) (L.talk line.new)) }
    ensures visits { OnErr result (Calls L.makes line.old line.new (Visits 1)) }
    ensures ready { OnOk result (IsReady remote.new) }
    ensures refusals { IfOk result (RefusedBy (L.refusals line.old) (L.refusals line.new)) }
    ensures kept { OnErr result (L.refusals line.new ≡ L.refusals line.old) }
{
    match line.next() {
        Err(Failed) => Ok(Came::Refused),
        Ok(false) => Ok(Came::NoneCame),
        Ok(true) => {
            let served = serve(alloc, line, remote, clock, evaluator);
            line.hang_up();
            match served {
                Ok(()) => Ok(Came::Served),
                Err(Memory) => Err(Memory),
            }
        }
    }
}
