//! The server under `listen`: it opens the port, prints so and serves its connections.

ghost use Rattle.std.specs.Prelude.{◌≡◌, ◌≢◌, ◌+◌, ◌<◌, ◌^◌, ◌⊎◌, ◌++◌, true, false, None, IsTrue, IsSome, IfOk, IfSome, drop, is_some, string_bytes};
ghost use Rattle.std.specs.List.{All};
ghost use Rattle.std.specs.Str.{chars};
ghost use Rattle.page_engine.specs.Sites.{IsLawfulSite};
ghost use Rattle.remote_end.specs.Outside.{outside};
ghost use Rattle.remote_end.specs.Standing.{IsReady};
ghost use Rattle.wd_http.specs.Causes.{Rose};
ghost use Rattle.webdriverd.specs.Attended.{Attended, LeftBy, RefusedBy};
ghost use Rattle.webdriverd.specs.Headline.{ServesListen};
ghost use Rattle.webdriverd.specs.Printed.{IsCutOff, PrintsBy, listening_line};
ghost use Rattle.webdriverd.specs.Serving.{AtMost, AtMostOpened, Calls, IsUnasked};

use crate::attend::attend;
use crate::ended::Ended;
use crate::pipe::remote_of;
use crate::print::print;
use crate::turn::Came;
use page_engine::Site;
use remote_end::{Evaluator, Remote};
use std::alloc::{AllocError, Global};
use wd_http::{Clock, Line, Sink};
use wd_json::Memory;

/// The line that is printed once the port stands open.
fn listening_line(alloc: Global, port: u16) -> Result<String, AllocError>
    ensures { IfOk result (λ line. string_bytes line ≡ listening_line port) }
{
    format!(in alloc; "listening on port {port}\n")
}

/// Prints that line. Says whether all of it was printed.
fn announce<K: Sink>(alloc: Global, port: u16, out: &mut K) -> Result<bool, Memory>
    ensures told { IsTrue K.tells → IfOk result (PrintsBy (K.written out.old) (K.written out.new)
        (K.faults out.old) (K.faults out.new) (listening_line port)) }
    ensures kept { IfOk result (λ whole. whole ≡ true → K.faults out.new ≡ K.faults out.old) }
    ensures rose { IfOk result (λ whole. whole ≡ false → Rose (K.faults out.old) (K.faults out.new)) }
{
    let line = listening_line(alloc, port)?;
    print(out, line.as_str())
}

/// How a run ends after a want of memory, or before a connection is asked for.
fn ends_early(status: u8) -> Ended
    ensures status { result.status ≡ status }
    ensures remote { result.remote ≡ None }
{
    Ended {
        status,
        remote: None,
    }
}

/// Serves the connections of the port that stands open.
fn attend_to_end<L: Line, C: Clock, E: Evaluator>(
    alloc: Global,
    connections: u32,
    mut remote: Remote,
    line: &mut L,
    clock: &mut C,
    evaluator: &mut E,
) -> Ended
    requires { IsReady remote }
    ensures attended { IfSome result.remote (λ left. Attended (outside C.now_gives C.rest_gives) (clock.old, evaluator.old) (clock.new, evaluator.new) remote left
        L.makes line.old line.new L.tells (L.talk line.old) (L.talk line.new) connections) }
    ensures most { Calls L.makes line.old line.new (AtMost connections) }
    ensures served { result.status ≡ 0 → IsTrue L.tells → (L.talk line.new).coming ≡ drop connections (L.talk line.old).coming }
    ensures left { (result.status ≡ 6) ⊎ IsSome result.remote }
    ensures ready { IfSome result.remote IsReady }
    ensures line_fault { result.status ≡ 5 → L.refusals line.new ≡ L.refusals line.old + 1 }
    ensures line_kept { result.status ≢ 5 → L.refusals line.new ≡ L.refusals line.old }
    ensures statuses { (result.status ≡ 0) ⊎ (result.status ≡ 5) ⊎ (result.status ≡ 6) }
{
    match attend(alloc, connections, line, &mut remote, clock, evaluator) {
        Ok(Came::Served) => Ended {
            status: 0,
            remote: Some(remote),
        },
        Ok(Came::NoneCame) => Ended {
            status: 0,
            remote: Some(remote),
        },
        Ok(Came::Refused) => Ended {
            status: 5,
            remote: Some(remote),
        },
        Err(Memory) => ends_early(6),
    }
}

/// Listens at a port, prints that it does, and serves so many of its connections over a site, or until it has no more, for
/// a browser of that name.
pub(crate) fn listen<L: Line, C: Clock, E: Evaluator, K: Sink>(
    alloc: Global,
    site: Site,
    name: &str,
    run: u64,
    port: u16,
    connections: u32,
    line: &mut L,
    clock: &mut C,
    evaluator: &mut E,
    out: &mut K,
) -> Ended
    requires lawful { IsLawfulSite site }
    requires run_small { run < 2 ^ 48 }
    ensures headline { IfSome result.remote (ServesListen site (chars name.now) run port connections C.now_gives C.rest_gives clock.old clock.new
        L.makes line.old line.new L.tells (L.talk line.old) (L.talk line.new) evaluator.old evaluator.new) }
    ensures calls { Calls L.makes line.old line.new (AtMostOpened port connections) }
    ensures served { result.status ≡ 0 → IsTrue L.tells → (L.talk line.new).coming ≡ drop connections (L.talk line.old).coming }
    ensures left { result.status ≡ 0 → IsSome result.remote }
    ensures unasked { result.remote ≡ None → (result.status ≡ 6) ⊎ Calls L.makes line.old line.new (All IsUnasked) }
    ensures ready { IfSome result.remote IsReady }
    ensures line_fault { result.status ≡ 5 → L.refusals line.new ≡ L.refusals line.old + 1 }
    ensures line_kept { result.status ≢ 5 → L.refusals line.new ≡ L.refusals line.old }
    ensures statuses { (result.status ≡ 0) ⊎ (result.status ≡ 5) ⊎ (result.status ≡ 6) ⊎ (result.status ≡ 7) }
    ensures announced { result.status ≢ 6 → IsSome result.remote → IsTrue K.tells → K.written out.new ≡ K.written out.old ++ listening_line port }
    ensures sink_kept { result.status ≢ 6 → IsSome result.remote → K.faults out.new ≡ K.faults out.old }
    ensures quiet { result.status ≡ 5 → result.remote ≡ None → out.new ≡ out.old }
    ensures cut_off { result.status ≡ 7 → IsTrue K.tells → IsCutOff (K.written out.old) (K.written out.new) (K.faults out.old) (K.faults out.new) (listening_line port) }
    ensures sink_fault { result.status ≡ 7 → Rose (K.faults out.old) (K.faults out.new) }
    ensures none_left { result.status ≡ 7 → result.remote ≡ None }
    ensures clock_kept { result.status ≡ 7 → clock.new ≡ clock.old }
{
    let Ok(remote) = remote_of(alloc, site, name, run) else {
        return ends_early(6);
    };
    if line.open(port).is_err() {
        return ends_early(5);
    }
    match announce(alloc, port, out) {
        Ok(true) => attend_to_end(alloc, connections, remote, line, clock, evaluator),
        Ok(false) => ends_early(7),
        Err(Memory) => ends_early(6),
    }
}
