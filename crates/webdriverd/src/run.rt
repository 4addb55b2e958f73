//! A run of the server over a site, as the words ask: over a pipe or listening.

ghost use Rattle.std.specs.Prelude.{◌≡◌, ◌≢◌, ◌+◌, ◌<◌, ◌^◌, ◌⊎◌, Some, None, false, IsTrue, IsSome, IfSome, drop, is_some};
ghost use Rattle.std.specs.List.{All};
ghost use Rattle.std.specs.Str.{chars};
ghost use Rattle.page_engine.specs.Sites.{IsLawfulSite};
ghost use Rattle.remote_end.specs.Standing.{IsReady};
ghost use Rattle.wd_http.specs.Causes.{Rose};
ghost use Rattle.webdriverd.specs.Headline.{Serves};
ghost use Rattle.webdriverd.specs.Printed.{IsCutOffLine, announced};
ghost use Rattle.webdriverd.specs.Serving.{Allowed, Calls, IsUnasked};
ghost use Rattle.webdriverd.specs.Words.{listens, most_of};

use crate::asked::How;
use crate::ended::Ended;
use crate::listen::listen;
use crate::pipe::pipe;
use page_engine::Site;
use remote_end::Evaluator;
use std::alloc::Global;
use wd_http::{Clock, Line, Sink};

/// Serves connections that come so, over a site, for a browser of that name.
pub(crate) fn run_as<L: Line, C: Clock, E: Evaluator, K: Sink>(
    alloc: Global,
    how: How,
    site: Site,
    name: &str,
    run: u64,
    line: &mut L,
    clock: &mut C,
    evaluator: &mut E,
    out: &mut K,
) -> Ended
    requires lawful { IsLawfulSite site }
    requires run_small { run < 2 ^ 48 }
    ensures headline { IfSome result.remote (Serves how site (chars name.now) run C.now_gives C.rest_gives clock.old clock.new
        L.makes line.old line.new L.tells (L.talk line.old) (L.talk line.new) evaluator.old evaluator.new) }
    ensures calls { Calls L.makes line.old line.new (Allowed (Some how)) }
    ensures served { result.status ≡ 0 → IsTrue L.tells → (L.talk line.new).coming ≡ drop (most_of (Some how)) (L.talk line.old).coming }
    ensures left { result.status ≡ 0 → IsSome result.remote }
    ensures piped { listens (Some how) ≡ false → (result.status ≡ 6) ⊎ IsSome result.remote }
    ensures unasked { result.remote ≡ None → (result.status ≡ 6) ⊎ Calls L.makes line.old line.new (All IsUnasked) }
    ensures ready { IfSome result.remote IsReady }
    ensures line_fault { result.status ≡ 5 → L.refusals line.new ≡ L.refusals line.old + 1 }
    ensures line_kept { result.status ≢ 5 → L.refusals line.new ≡ L.refusals line.old }
    ensures statuses { (result.status ≡ 0) ⊎ (result.status ≡ 5) ⊎ (result.status ≡ 6) ⊎ ((result.status ≡ 7) × IsTrue (listens (Some how))) }
    ensures announced { (result.status ≡ 0) ⊎ (result.status ≡ 5) → IsTrue K.tells → K.written out.new ≡ announced (Some how) (is_some result.remote) (K.written out.old) }
    ensures sink_kept { (result.status ≡ 0) ⊎ (result.status ≡ 5) → K.faults out.new ≡ K.faults out.old }
    ensures quiet { listens (Some how) ≡ false → out.new ≡ out.old }
    ensures cut_off { result.status ≡ 7 → IsTrue K.tells → IsCutOffLine (Some how) (K.written out.old) (K.written out.new) (K.faults out.old) (K.faults out.new) }
    ensures sink_fault { result.status ≡ 7 → Rose (K.faults out.old) (K.faults out.new) }
    ensures none_left { result.status ≡ 7 → result.remote ≡ None }
    ensures clock { (listens (Some how) ≡ false) ⊎ (result.status ≡ 7) → clock.new ≡ clock.old }
{
    match how {
        How::Pipe => pipe(alloc, site, name, line, evaluator),
        How::Listen { port, connections } => listen(
            alloc,
            site,
            name,
            run,
            port,
            connections,
            line,
            clock,
            evaluator,
            out,
        ),
    }
}
