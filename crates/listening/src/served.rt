//! Runs of the server over connections in memory, with calls that fail, and what each left.

use crate::exchanges::Exchange;
use std::alloc::Global;
use std::process::Abort;
use std::test::Fail;
use timed::{W_JSON, W_SITE, in_memory};
use wd_http::{BytesList, CallList, MemoryFiles, MemoryLine, MemorySink, VirtualClock};
use wd_json::{WdBytes, WdText};
use webdriverd::{Ended, NoScripts, webdriverd};

/// The number of the call that fails of the line, of the files and of the sink; of none where it is 0.
#[derive(Clone, Copy)]
pub struct Failing {
    pub line: u64,
    pub file: u64,
    pub sink: u64,
}

pub const NOTHING_FAILS: Failing = Failing {
    line: 0,
    file: 0,
    sink: 0,
};

/// What a run of the server left: its status, the bytes that were sent on all connections in order, how many readings
/// were taken, and what was printed.
#[derive(Drop)]
pub struct Outcome {
    pub status: u8,
    pub sent: Vec<u8>,
    pub taken: usize,
    pub printed: Vec<u8>,
}

fn calls(alloc: Global, failing: u64) -> Result<CallList, Fail> {
    let mut fails = CallList::new(alloc);
    if failing > 0 {
        fails.push(failing)?;
    }
    Ok(fails)
}

/// The requests of each connection.
fn requests(alloc: Global, connections: &[&[Exchange]]) -> Result<BytesList, Fail> {
    let mut list = BytesList::new(alloc);
    for exchanges in connections {
        let mut bytes = Vec::new(alloc);
        for (request, _) in *exchanges {
            bytes.extend_from_slice(request)?;
        }
        list.push(WdBytes::of(alloc, bytes.as_slice())?)?;
    }
    Ok(list)
}

/// How many readings were taken, by a remote end that isn't spent.
fn readings(rt: &impl Abort, ended: &Ended) -> usize {
    match &ended.remote {
        Some(remote) => {
            assert!(rt; !remote.spent());
            remote.taken().len()
        }
        None => 0,
    }
}

/// The status of a run, and how many readings were taken.
fn ended(
    rt: &impl Abort,
    alloc: Global,
    words: &[WdText],
    files: &mut MemoryFiles,
    line: &mut MemoryLine,
    out: &mut MemorySink,
) -> (u8, usize) {
    let ended = webdriverd(
        alloc,
        words,
        1,
        files,
        line,
        &mut VirtualClock::new(),
        &mut NoScripts,
        out,
    );
    (ended.status, readings(rt, &ended))
}

/// Runs the server with these words as run 1 over the files of the worked site. On each connection the requests of its
/// exchanges come. Reads and writes move at most `most` bytes.
pub fn served(
    rt: &impl Abort,
    alloc: Global,
    words: &[&str],
    connections: &[&[Exchange]],
    most: usize,
    failing: Failing,
) -> Result<Outcome, Fail> {
    assert!(rt; 0 < most);
    let mut texts = Vec::new(alloc);
    for word in words {
        texts.push(WdText::of(alloc, word)?)?;
    }
    let file = if failing.file > 0 {
        Some(failing.file)
    } else {
        None
    };
    let mut files = in_memory(alloc, &[("w.site", W_SITE), ("w.json", W_JSON)], file)?;
    let mut line = MemoryLine::new(
        alloc,
        requests(alloc, connections)?,
        calls(alloc, failing.line)?,
        most,
    );
    let mut out = MemorySink::new(alloc, calls(alloc, failing.sink)?, most);
    let (status, taken) = ended(rt, alloc, &texts, &mut files, &mut line, &mut out);
    let mut sent = Vec::new(alloc);
    for place in 0..line.sent().len() {
        sent.extend_from_slice(line.sent().at(place).as_slice())?;
    }
    Ok(Outcome {
        status,
        sent,
        taken,
        printed: Vec::from_slice(alloc, out.written().as_slice())?,
    })
}

/// The responses of the exchanges of all connections.
pub fn responses(alloc: Global, connections: &[&[Exchange]]) -> Result<Vec<u8>, Fail> {
    let mut bytes = Vec::new(alloc);
    for exchanges in connections {
        for (_, response) in *exchanges {
            bytes.extend_from_slice(response)?;
        }
    }
    Ok(bytes)
}
