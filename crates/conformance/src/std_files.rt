//! Files of the system written, and read to their limits, as a test.

use std::alloc::Global;
use std::fs;
use std::process::Abort;
use std::test::Fail;
use wd_http::{FileFault, Files, WriteFault};
use wd_json::WdBytes;
use webdriverd::{FileSystem, RuntimeFiles, StdFiles};

/// What a read answered: its bytes, or its fault.
fn read<'a, S: FileSystem>(
    files: &mut StdFiles<'a, S>,
    name: &str,
    limit: u64,
) -> Result<usize, FileFault> {
    let bytes = files.read(name, limit)?;
    Ok(bytes.len())
}

#[test]
fn a_file_is_written_and_read_to_its_limit(rt: HostRuntime) -> Result<(), Fail> {
    let alloc = rt.alloc();
    let system = RuntimeFiles::new(&rt);
    let mut files = StdFiles::new(alloc, &system);
    let bytes = WdBytes::of(alloc, b"five\n")?;
    files.write("a.json", &bytes)?;
    assert_eq!(rt; fs::read_to_string(&rt, "a.json")?.as_str(), "five\n");
    assert_eq!(rt; files.read("a.json", 5)?.as_slice(), b"five\n".as_slice());
    assert_eq!(rt; read(&mut files, "a.json", u64::MAX), Ok(5));
    assert_eq!(rt; read(&mut files, "a.json", 4), Err(FileFault::TooLong));
    assert_eq!(rt; read(&mut files, "a.json", 0), Err(FileFault::TooLong));
    assert_eq!(rt; read(&mut files, "none.json", 5), Err(FileFault::Failed));
    Ok(())
}
