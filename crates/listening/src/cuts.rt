//! Conversations under `pipe` cut in two at every place, as tests.

use crate::cut_line::CutLine;
use crate::exchanges::{DELETE, Exchange, FIND, NAME, OPEN, STATUS};
use crate::served::responses;
use std::alloc::Global;
use std::process::Abort;
use std::test::Fail;
use timed::{W_JSON, W_SITE, in_memory};
use wd_http::{CallList, MemorySink, VirtualClock};
use wd_json::WdText;
use webdriverd::{NoScripts, webdriverd};

/// The requests of exchanges.
fn requests(alloc: Global, exchanges: &[Exchange]) -> Result<Vec<u8>, Fail> {
    let mut bytes = Vec::new(alloc);
    for (request, _) in exchanges {
        bytes.extend_from_slice(request)?;
    }
    Ok(bytes)
}

/// What `pipe` sends to these bytes over the worked site, cut in two there.
fn sent(alloc: Global, exchanges: &[Exchange], cut: usize, most: usize) -> Result<Vec<u8>, Fail> {
    let mut words = Vec::new(alloc);
    words.push(WdText::of(alloc, "pipe")?)?;
    words.push(WdText::of(alloc, "w.site")?)?;
    let mut line = CutLine::new(alloc, requests(alloc, exchanges)?, cut, most);
    drop(webdriverd(
        alloc,
        &words,
        1,
        &mut in_memory(alloc, &[("w.site", W_SITE), ("w.json", W_JSON)], None)?,
        &mut line,
        &mut VirtualClock::new(),
        &mut NoScripts,
        &mut MemorySink::new(alloc, CallList::new(alloc), 1),
    ));
    Ok(Vec::from_slice(alloc, line.sent())?)
}

/// Cuts a conversation in two at every place.
fn cut(rt: &impl Abort, alloc: Global, exchanges: &[Exchange], most: usize) -> Result<(), Fail> {
    let whole = requests(alloc, exchanges)?.len();
    let expected = responses(alloc, &[exchanges])?;
    for place in 0..whole {
        let found = sent(alloc, exchanges, place, most)?;
        assert_eq!(rt; found.as_slice(), expected.as_slice(), "cut at {place}");
    }
    Ok(())
}

#[test]
fn a_session_is_answered_alike_at_every_cut(rt: HostRuntime) -> Result<(), Fail> {
    for most in [1, 7, 4096] {
        cut(&rt, rt.alloc(), &[OPEN, FIND, NAME, DELETE], most)?;
    }
    Ok(())
}

#[test]
fn a_status_request_is_answered_alike_at_every_cut(rt: HostRuntime) -> Result<(), Fail> {
    for most in [1, 2, 4096] {
        cut(&rt, rt.alloc(), &[STATUS], most)?;
    }
    Ok(())
}
