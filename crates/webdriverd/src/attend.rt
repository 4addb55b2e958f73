//! Connections served one after another, up to so many.

ghost use Rattle.std.specs.Prelude.{◌≡◌, IsTrue, IfOk, OnOk, OnErr};
ghost use Rattle.remote_end.specs.Outside.{outside};
ghost use Rattle.remote_end.specs.Standing.{IsReady};
ghost use Rattle.webdriverd.specs.Attended.{Attended, LeftBy, RefusedBy};
ghost use Rattle.webdriverd.specs.Serving.{AtMost, Calls};

use crate::turn::{Came, serve_next};
use remote_end::{Evaluator, Remote};
use std::alloc::Global;
use wd_http::{Clock, Line};
use wd_json::Memory;

/// Serves so many connections, one after another, or until there is no further one. Says what came of asking for the
/// last one.
pub(crate) fn attend<L: Line, C: Clock, E: Evaluator>(
    alloc: Global,
    connections: u32,
    line: &mut L,
    remote: &mut Remote,
    clock: &mut C,
    evaluator: &mut E,
) -> Result<Came, Memory>
    requires { IsReady remote.old }
    ensures attended { OnOk result (Attended (outside C.now_gives C.rest_gives) (clock.old, evaluator.old) (clock.new, evaluator.new) remote.old remote.new
        L.makes line.old line.new L.tells (L.talk line.old) (L.talk line.new) connections) }
    ensures most { Calls L.makes line.old line.new (AtMost connections) }
    ensures left { IsTrue L.tells → IfOk result (LeftBy connections (L.talk line.old).coming (L.talk line.new).coming) }
    ensures ready { OnOk result (IsReady remote.new) }
    ensures refusals { IfOk result (RefusedBy (L.refusals line.old) (L.refusals line.new)) }
    ensures kept { OnErr result (L.refusals line.new ≡ L.refusals line.old) }
{
    let mut served = 0;
    while served < connections {
        match serve_next(alloc, line, remote, clock, evaluator)? {
            Came::Served => served += 1,
            Came::NoneCame => return Ok(Came::NoneCame),
            Came::Refused => return Ok(Came::Refused),
        }
    }
    Ok(Came::Served)
}
