//! What a run of the server tells of files in memory: its status and what it printed.

use std::alloc::Global;
use std::test::Fail;
use timed::{Named, in_memory};
use wd_http::{BytesList, CallList, ListClock, MemoryFiles, MemoryLine, MemorySink, TimeList};
use wd_json::WdText;
use webdriverd::{NoScripts, webdriverd};

/// The status of a run over these files, and what it printed. No connection comes.
fn ended(alloc: Global, words: &[WdText], files: &mut MemoryFiles, out: &mut MemorySink) -> u8 {
    webdriverd(
        alloc,
        words,
        7,
        files,
        &mut MemoryLine::new(alloc, BytesList::new(alloc), CallList::new(alloc), 4096),
        &mut ListClock::new(TimeList::new(alloc)),
        &mut NoScripts,
        out,
    )
    .status
}

/// What a run with these words over these files told: its status, a space, and what was printed.
pub fn told(
    alloc: Global,
    words: &[&str],
    files: &[Named],
    failing: Option<u64>,
) -> Result<String, Fail> {
    let mut texts = Vec::new(alloc);
    for word in words {
        texts.push(WdText::of(alloc, word)?)?;
    }
    let mut files = in_memory(alloc, files, failing)?;
    let mut out = MemorySink::new(alloc, CallList::new(alloc), 4096);
    let status = ended(alloc, &texts, &mut files, &mut out);
    let printed = String::from_utf8_lossy(alloc, out.written().as_slice())?;
    Ok(format!(in alloc; "{status} {printed}")?)
}
