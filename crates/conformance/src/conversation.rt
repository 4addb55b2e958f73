//! Runs of the server over one connection in memory, and what each left.

use std::alloc::Global;
use std::process::Abort;
use std::test::Fail;
use timed::in_memory;
use wd_http::{BytesList, CallList, ListClock, MemoryFiles, MemoryLine, MemorySink, TimeList};
use wd_json::{WdBytes, WdText};
use webdriverd::{Ended, NoScripts, webdriverd};

/// What a run of the server left: its status, the bytes that were sent on the connections in order, how many
/// readings were taken, and what was printed.
#[derive(Drop)]
pub struct Outcome {
    pub status: u8,
    pub sent: Vec<u8>,
    pub taken: usize,
    pub printed: Vec<u8>,
}

/// How many readings were taken, by a remote end that isn't spent.
fn readings(rt: &impl Abort, ended: &Ended) -> usize {
    match &ended.remote {
        Some(remote) => {
            assert!(rt; !remote.spent());
            remote.taken().len()
        }
        None => 0,
    }
}

/// The status of a run, and how many readings were taken.
fn ended(
    rt: &impl Abort,
    alloc: Global,
    words: &[WdText],
    files: &mut MemoryFiles,
    line: &mut MemoryLine,
    out: &mut MemorySink,
) -> (u8, usize) {
    let ended = webdriverd(
        alloc,
        words,
        7,
        files,
        line,
        &mut ListClock::new(TimeList::new(alloc)),
        &mut NoScripts,
        out,
    );
    (ended.status, readings(rt, &ended))
}

/// As `run_over`, where there are no files.
pub fn run(
    rt: &impl Abort,
    alloc: Global,
    words: &[&str],
    bytes: &[u8],
    most: usize,
    failing: Option<u64>,
) -> Result<Outcome, Fail> {
    let mut files = in_memory(alloc, &[], None)?;
    run_over(rt, alloc, words, &mut files, bytes, most, failing)
}

/// Runs the server with these words over these files on one connection on which these bytes come. A read or a write moves at
/// most `most` bytes, and the call of the line with the number `failing` fails.
pub fn run_over(
    rt: &impl Abort,
    alloc: Global,
    words: &[&str],
    files: &mut MemoryFiles,
    bytes: &[u8],
    most: usize,
    failing: Option<u64>,
) -> Result<Outcome, Fail> {
    assert!(rt; 0 < most);
    let mut texts = Vec::new(alloc);
    for word in words {
        texts.push(WdText::of(alloc, word)?)?;
    }
    let mut connections = BytesList::new(alloc);
    connections.push(WdBytes::of(alloc, bytes)?)?;
    let mut fails = CallList::new(alloc);
    if let Some(number) = failing {
        fails.push(number)?;
    }
    let mut line = MemoryLine::new(alloc, connections, fails, most);
    let mut out = MemorySink::new(alloc, CallList::new(alloc), most);
    let (status, taken) = ended(rt, alloc, &texts, files, &mut line, &mut out);
    let mut sent = Vec::new(alloc);
    for place in 0..line.sent().len() {
        sent.extend_from_slice(line.sent().at(place).as_slice())?;
    }
    Ok(Outcome {
        status,
        sent,
        taken,
        printed: Vec::from_slice(alloc, out.written().as_slice())?,
    })
}

/// What is sent back to these bytes, where nothing fails.
pub fn answered(
    rt: &impl Abort,
    alloc: Global,
    bytes: &[u8],
    most: usize,
) -> Result<Outcome, Fail> {
    run(rt, alloc, &["pipe"], bytes, most, None)
}
