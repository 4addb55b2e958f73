//! Lines, sinks, files and clocks in memory, with calls that fail, as tests.

use std::alloc::Global;
use std::process::Abort;
use std::test::Fail;
use wd_http::{
    BytesList, Clock, Failed, FileFault, FileList, Files, Line, ListClock, MemoryFiles, MemoryLine,
    MemorySink, Sink, VirtualClock, WriteFault,
};
use wd_json::{Memory, WdBytes, WdList, WdText};

fn one_number(alloc: Global, number: u64) -> Result<WdList<u64>, Memory> {
    let mut list = WdList::new(alloc);
    list.push(number)?;
    Ok(list)
}

/// A line on which `ab` and then `c` come, one byte at a time, and one of whose calls fails.
fn line(alloc: Global, fails: u64) -> Result<MemoryLine, Memory> {
    let mut connections = BytesList::new(alloc);
    connections.push(WdBytes::of(alloc, b"ab")?)?;
    connections.push(WdBytes::of(alloc, b"c")?)?;
    Ok(MemoryLine::new(alloc, connections, one_number(alloc, fails)?, 1))
}

fn reads(rt: &impl Abort, line: &mut MemoryLine, expected: &[u8]) {
    let mut buffer = [0u8; 4];
    match line.read(&mut buffer) {
        Ok(n) => assert_eq!(rt; &buffer[..n], expected),
        Err(Failed) => assert_eq!(rt; expected, b"failed".as_slice()),
    }
}

#[test]
fn a_line_moves_one_byte_and_fails_once(rt: HostRuntime) -> Result<(), Fail> {
    let mut line = line(rt.alloc(), 4)?;
    line.open(80)?;
    let comes = line.next()?;
    assert!(rt; comes);
    let cases: [&[u8]; 4] = [b"a", b"failed", b"b", b""];
    for expected in cases {
        reads(&rt, &mut line, expected);
    }
    Ok(())
}

#[test]
fn a_line_keeps_what_was_sent(rt: HostRuntime) -> Result<(), Fail> {
    let mut line = line(rt.alloc(), 0)?;
    for pieces in [b"xy", b"yz"] {
        line.next()?;
        line.write(pieces)?;
        line.write(b"")?;
    }
    line.hang_up();
    let comes = line.next()?;
    assert!(rt; !comes);
    let sent = line.sent();
    assert_eq!(rt; sent.len(), 2);
    assert_eq!(rt; sent.at(1).as_slice(), b"y".as_slice());
    Ok(())
}

#[test]
fn a_sink_takes_two_bytes_and_fails_once(rt: HostRuntime) -> Result<(), Fail> {
    let mut sink = MemorySink::new(rt.alloc(), one_number(rt.alloc(), 2)?, 2);
    let taken = sink.write(b"abc")?;
    assert_eq!(rt; taken, 2);
    let failed = sink.write(b"c");
    assert!(rt; matches!(failed, Err(WriteFault::Failed)));
    sink.write(b"c")?;
    assert_eq!(rt; sink.written().as_slice(), b"abc".as_slice());
    Ok(())
}

/// Files in which a name stands twice, and whose third call fails.
fn files(alloc: Global) -> Result<MemoryFiles, Memory> {
    let mut list = FileList::new(alloc);
    list.push((WdText::of(alloc, "é")?, WdBytes::of(alloc, b"1")?))?;
    list.push((WdText::of(alloc, "é")?, WdBytes::of(alloc, b"22")?))?;
    Ok(MemoryFiles::new(alloc, list, one_number(alloc, 3)?))
}

fn refuses(rt: &impl Abort, files: &mut MemoryFiles, name: &str, limit: u64, expected: FileFault) {
    match files.read(name, limit) {
        Ok(_) => assert!(rt; false, "it was read"),
        Err(fault) => assert_eq!(rt; fault, expected),
    }
}

#[test]
fn reads_of_files_are_refused(rt: HostRuntime) -> Result<(), Fail> {
    let mut files = files(rt.alloc())?;
    for (name, limit, expected) in [
        ("é", 1, FileFault::TooLong),
        ("b", 9, FileFault::Failed),
        ("é", 2, FileFault::Failed),
    ] {
        refuses(&rt, &mut files, name, limit, expected);
    }
    Ok(())
}

#[test]
fn the_last_file_of_a_name_counts(rt: HostRuntime) -> Result<(), Fail> {
    let mut files = files(rt.alloc())?;
    let bytes = files.read("é", 2)?;
    assert_eq!(rt; bytes.as_slice(), b"22".as_slice());
    files.write("é", &WdBytes::of(rt.alloc(), b"x")?)?;
    assert_eq!(rt; files.files().len(), 3);
    Ok(())
}

#[test]
fn clocks_rest(rt: HostRuntime) -> Result<(), Fail> {
    let mut clock = VirtualClock::new();
    for (until, expected) in [(5, 5), (3, 5)] {
        assert_eq!(rt; clock.rest_until(until), expected);
        assert_eq!(rt; clock.now(), expected);
    }
    let mut listed = ListClock::new(one_number(rt.alloc(), 3)?);
    for (until, expected) in [(1, 3), (4, 4), (2, 3)] {
        assert_eq!(rt; listed.rest_until(until), expected);
    }
    assert_eq!(rt; listed.now(), 3);
    Ok(())
}
