//! A remote end over the worked site, and its requests begun, resumed and answered.

use crate::{W_JSON, W_SITE, in_memory};
use page_file::read_site;
use remote_end::{Evaluator, Remote, Reply, Step};
use std::alloc::Global;
use std::process::Abort;
use std::test::Fail;
use wd_http::{ListClock, Request, TimeList, VirtualClock};
use wd_json::{WdBytes, WdText, write};

#[derive(Drop)]
pub struct NoScripts;

impl Evaluator for NoScripts {}

/// The remote end of the worked site, as run 1.
fn worked(alloc: Global) -> Result<Remote, Fail> {
    let mut files = in_memory(alloc, &[("w.site", W_SITE), ("w.json", W_JSON)], None)?;
    let site = read_site(alloc, &mut files, "w.site")?;
    Ok(Remote::new(alloc, site, WdText::of(alloc, "wdpage")?, 1)?)
}

/// A request by its method, its target and its body.
pub fn request_of(alloc: Global, method: &str, target: &str, body: &str) -> Result<Request, Fail> {
    Ok(Request {
        method: WdText::of(alloc, method)?,
        target: WdText::of(alloc, target)?,
        close: false,
        body: WdBytes::of(alloc, body.as_bytes())?,
    })
}

/// Answers a request under a clock that stands at 0 and rests.
pub fn answered(rt: &impl Abort, remote: &mut Remote, request: &Request) -> Result<Reply, Fail> {
    assert!(rt; remote.is_ready());
    Ok(remote.answer(request, &mut VirtualClock::new(), &mut NoScripts)?)
}

/// Answers a request at a reading.
pub fn answered_at(
    rt: &impl Abort,
    alloc: Global,
    remote: &mut Remote,
    request: &Request,
    reading: u64,
) -> Result<Reply, Fail> {
    let mut numbers = TimeList::new(alloc);
    numbers.push(reading)?;
    assert!(rt; remote.is_ready());
    Ok(remote.answer(request, &mut ListClock::new(numbers), &mut NoScripts)?)
}

/// Begins a request of the first session.
pub fn begun(
    rt: &impl Abort,
    remote: &mut Remote,
    request: &Request,
    now: u64,
) -> Result<Step, Fail> {
    assert!(rt; !remote.spent());
    assert!(rt; remote.session_of(request) == Some(1));
    assert!(rt; remote.is_free(request));
    Ok(remote.begin(request, now, &mut NoScripts)?)
}

/// Resumes the first session's command, which waits.
pub fn resumed(rt: &impl Abort, remote: &mut Remote, now: u64) -> Result<Step, Fail> {
    assert!(rt; !remote.spent());
    assert!(rt; remote.busy(1).is_some());
    Ok(remote.resume(1, now)?)
}

/// A session on the worked site, by what New Session is asked for.
pub fn opened(rt: &impl Abort, alloc: Global, capabilities: &str) -> Result<Remote, Fail> {
    let mut remote = worked(alloc)?;
    let open = request_of(alloc, "POST", "/session", capabilities)?;
    let reply = answered(rt, &mut remote, &open)?;
    assert_eq!(rt; reply.status, 200);
    assert!(rt; !remote.spent());
    assert_eq!(rt; remote.sessions(), 1);
    Ok(remote)
}

/// Compares a reply with its status and body.
pub fn compared(
    rt: &impl Abort,
    alloc: Global,
    reply: &Reply,
    expected: (u16, &str),
) -> Result<(), Fail> {
    assert_eq!(rt; reply.status, expected.0);
    let text = write(alloc, &reply.body)?;
    assert_eq!(rt; text.as_slice(), expected.1.as_bytes());
    Ok(())
}
