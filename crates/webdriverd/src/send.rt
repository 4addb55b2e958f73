//! All bytes of a response handed to the line, and a request answered so.

ghost use Rattle.std.specs.Prelude.{◌≡◌, ◌≤◌, ◌+◌, IsTrue, IfOk, OnOk, OnErr, true, false};
ghost use Rattle.std.specs.List.{All};
ghost use Rattle.wd_http.specs.Sent.{is_status};
ghost use Rattle.remote_end.specs.Standing.{IsReady};
ghost use Rattle.webdriverd.specs.Sent.{response_to};
ghost use Rattle.webdriverd.specs.Service.{SentOn, Replies};
ghost use Rattle.webdriverd.specs.Serving.{Handing, IsWithin, Calls};
ghost use Rattle.remote_end.specs.Outside.{outside};

use remote_end::{Evaluator, Remote, Reply};
use std::alloc::Global;
use wd_http::{Clock, Line, Request, WriteFault, response_bytes};
use wd_json::{Memory, WdBytes, write};

/// Sends all bytes, or as many as the line takes before it fails. Says whether all were sent. The line is
/// handed all of them, and what a write didn't take is handed over again.
pub(crate) fn send<L: Line>(line: &mut L, bytes: &[u8]) -> Result<bool, Memory>
    ensures handed { Calls L.makes line.old line.new (Handing bytes.now) }
    ensures told { IsTrue L.tells → IfOk result (SentOn (L.talk line.old) (L.talk line.new) bytes.now) }
    ensures sent { IfOk result (λ whole. whole ≡ true → L.faults line.new ≡ L.faults line.old) }
    ensures cause { IfOk result (λ whole. whole ≡ false → L.faults line.new ≡ L.faults line.old + 1) }
    ensures memory { OnErr result (L.faults line.new ≡ L.faults line.old) }
    ensures faults { L.faults line.old ≤ L.faults line.new }
    ensures refusals { L.refusals line.new ≡ L.refusals line.old }
{
    let mut at = 0;
    while at < bytes.len() {
        match line.write(&bytes[at..]) {
            Ok(taken) => at += taken,
            Err(WriteFault::Failed) => return Ok(false),
            Err(WriteFault::Memory) => return Err(Memory),
        }
    }
    Ok(true)
}

/// The response that carries a reply.
#[tactic(auto, unfolding(crate::specs::Sent::response_to))]
pub(crate) fn reply_bytes(alloc: Global, reply: Reply, close: bool) -> Result<WdBytes, Memory>
    requires { IsTrue (is_status reply.status) }
    ensures { IfOk result (λ bytes. bytes ≡ response_to reply close) }
{
    let body = write(alloc, &reply.body)?;
    Ok(response_bytes(alloc, reply.status, &body, close)?)
}

/// Answers a request and sends the response. Says whether all of it was sent.
pub(crate) fn reply<L: Line, C: Clock, E: Evaluator>(
    alloc: Global,
    line: &mut L,
    remote: &mut Remote,
    clock: &mut C,
    evaluator: &mut E,
    request: &Request,
    close: bool,
) -> Result<bool, Memory>
    requires { IsReady remote.old }
    ensures replies { IfOk result (Replies (outside C.now_gives C.rest_gives) (clock.old, evaluator.old) (clock.new, evaluator.new) remote.old remote.new
        L.makes line.old line.new L.tells (L.talk line.old) (L.talk line.new) request.now close) }
    ensures within { Calls L.makes line.old line.new (All IsWithin) }
    ensures ready { OnOk result (IsReady remote.new) }
    ensures faults { L.faults line.old ≤ L.faults line.new }
    ensures refusals { L.refusals line.new ≡ L.refusals line.old }
{
    let reply = remote.answer(request, clock, evaluator)?;
    let bytes = reply_bytes(alloc, reply, close)?;
    let whole = send(line, bytes.as_slice())?;
    Ok(whole)
}
