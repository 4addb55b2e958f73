//! What stands in front of bytes.
ghost use Rattle.std.specs.Prelude.{IfOk, IfSome};
ghost use Rattle.wd_http.specs.declared.front.Front.TheVariants.{More};
ghost use Rattle.wd_http.specs.Front.{FrontIs};
ghost use Rattle.wd_http.specs.SearchedHead.{IsSeen, BlockFound};
ghost use Rattle.wd_http.specs.Known.{IsKnown, HeadIsKnown};

use crate::head::{Head, head_of};
use crate::mark::{Mark, find_end};
use crate::request::{BadHead, Request};
use std::alloc::Global;
use wd_json::{Memory, WdBytes};

/// The most bytes of a head block.
const HEAD_LIMIT: usize = 16_384;

/// A head that was read, whose body is still to come.
#[derive(Drop)]
pub(crate) struct Waiting {
    request: Request,
    block: usize,
    body: usize,
}

/// What stands in front of bytes: a request with its length; a head whose body isn't whole yet;
/// no whole head yet, with how far it was looked for; or a bad head.
#[derive(Drop)]
pub(crate) enum Front {
    Whole(Request, usize),
    Body(Waiting),
    More(usize, Mark),
    Bad(BadHead),
}

/// Looks at the front of bytes, of which the first `seen` hold no end of a head block.
pub(crate) fn front_of(
    alloc: Global,
    unread: &[u8],
    seen: usize,
    mark: Mark,
    head: Option<Waiting>,
) -> Result<Front, Memory>
    requires seen { IsSeen unread.now seen mark }
    requires head { HeadIsKnown unread.now head }
    ensures { IfOk result (FrontIs unread.now) }
{
    if let Some(waiting) = head {
        return front_with_body(alloc, unread, waiting);
    }
    match find_block(unread, seen, mark) {
        Ok(block) => match head_of(alloc, &unread[..block])? {
            Head::Good(request, body) => front_with_body(
                alloc,
                unread,
                Waiting {
                    request,
                    block,
                    body,
                },
            ),
            Head::Bad(kind) => Ok(Front::Bad(kind)),
        },
        Err((HEAD_LIMIT, _)) => Ok(Front::Bad(BadHead::HeadLong)),
        Err((seen, mark)) => Ok(Front::More(seen, mark)),
    }
}

/// How far a head was looked for that isn't whole yet; `None` where anything else stands in front.
pub(crate) fn waits(unread: &[u8], seen: usize, mark: Mark) -> Option<(usize, Mark)>
    requires { IsSeen unread.now seen mark }
    ensures { IfSome result (λ found. FrontIs unread.now (More found.0 found.1)) }
{
    match find_block(unread, seen, mark) {
        Err((HEAD_LIMIT, _)) => None,
        Err((seen, mark)) => Some((seen, mark)),
        Ok(_) => None,
    }
}

/// Takes the body of a head, if it is whole.
fn front_with_body(alloc: Global, unread: &[u8], waiting: Waiting) -> Result<Front, Memory>
    requires { IsKnown unread.now waiting }
    ensures { IfOk result (FrontIs unread.now) }
{
    let end = waiting.block + waiting.body;
    if unread.len() < end {
        return Ok(Front::Body(waiting));
    }
    let body = WdBytes::of(alloc, &unread[waiting.block..end])?;
    let mut request = waiting.request;
    request.body = body;
    Ok(Front::Whole(request, end))
}

/// The length of the head block in front, or how far it was looked for.
fn find_block(unread: &[u8], seen: usize, mark: Mark) -> Result<usize, (usize, Mark)>
    requires { IsSeen unread.now seen mark }
    ensures { BlockFound unread.now result }
{
    let limit = unread.len().min(HEAD_LIMIT);
    match find_end(&unread[seen..limit], mark) {
        Ok(more) => Ok(seen + more),
        Err(mark) => Err((limit, mark)),
    }
}
