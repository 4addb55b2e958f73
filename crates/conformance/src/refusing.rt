//! The real adapters over readers, writers and files that refuse each call, as tests.

ghost use Rattle.std.specs.Prelude.{None};

use std::alloc::Global;
use std::io;
use std::io::{ErrorKind, Read, Write};
use std::process::Abort;
use std::test::Fail;
use wd_http::{Failed, FileFault, Files, Line, Sink, WriteFault};
use wd_json::WdBytes;
use webdriverd::{FileSystem, PipeLine, StdFiles, StreamSink};

/// A reader and a writer that refuse each call with an error of this kind.
#[derive(Clone, Copy, Drop)]
struct Refusing {
    kind: ErrorKind,
}

impl Read for Refusing {
    fn read(&mut self, _buf: &mut [u8]) -> io::Result<usize> {
        Err(self.kind.into())
    }
}

impl Write for Refusing {
    fn write(&mut self, _buf: &[u8]) -> io::Result<usize> {
        Err(self.kind.into())
    }

    fn flush(&mut self) -> io::Result<()> {
        Err(self.kind.into())
    }
}

/// A file system that refuses to open and to write.
impl FileSystem for Refusing {
    type File = Refusing;

    ghost holds = { λ _ _. None };

    ghost wrote = { λ _ _ _. Unit {0} };

    fn open(&self, _name: &str) -> io::Result<Refusing> {
        Err(self.kind.into())
    }

    fn write(&self, _name: &str, _bytes: &[u8]) -> io::Result<()> {
        Err(self.kind.into())
    }
}

/// A file system whose files are opened and can't be read.
#[derive(Drop)]
struct Unreadable {
    file: Refusing,
}

impl FileSystem for Unreadable {
    type File = Refusing;

    ghost holds = { λ _ _. None };

    ghost wrote = { λ _ _ _. Unit {0} };

    fn open(&self, _name: &str) -> io::Result<Refusing> {
        Ok(self.file)
    }

    fn write(&self, _name: &str, _bytes: &[u8]) -> io::Result<()> {
        Ok(())
    }
}

/// What a read of a file answers where the file system is this one.
fn read_by<S: FileSystem>(alloc: Global, system: &S) -> Result<usize, FileFault> {
    let mut files = StdFiles::new(alloc, system);
    let bytes = files.read("a", 5)?;
    Ok(bytes.len())
}

#[test]
fn want_of_memory_in_the_system_is_told_apart(rt: HostRuntime) -> Result<(), Fail> {
    let none = Refusing {
        kind: ErrorKind::OutOfMemory,
    };
    let broken = Refusing {
        kind: ErrorKind::BrokenPipe,
    };
    assert_eq!(rt;
        PipeLine::new(none, none).write(b"a"),
        Err(WriteFault::Memory)
    );
    assert_eq!(rt;
        PipeLine::new(broken, broken).write(b"a"),
        Err(WriteFault::Failed)
    );
    assert_eq!(rt; StreamSink::new(none).write(b"a"), Err(WriteFault::Memory));
    assert_eq!(rt;
        StreamSink::new(broken).write(b"a"),
        Err(WriteFault::Failed)
    );
    assert_eq!(rt; PipeLine::new(none, none).read(&mut [0; 4]), Err(Failed));
    Ok(())
}

#[test]
fn so_it_is_with_files(rt: HostRuntime) -> Result<(), Fail> {
    let alloc = rt.alloc();
    let none = Refusing {
        kind: ErrorKind::OutOfMemory,
    };
    let lost = Refusing {
        kind: ErrorKind::NotFound,
    };
    assert_eq!(rt; read_by(alloc, &none), Err(FileFault::Memory));
    assert_eq!(rt; read_by(alloc, &lost), Err(FileFault::Failed));
    assert_eq!(rt;
        read_by(alloc, &Unreadable { file: none }),
        Err(FileFault::Memory)
    );
    assert_eq!(rt;
        read_by(alloc, &Unreadable { file: lost }),
        Err(FileFault::Failed)
    );
    let bytes = WdBytes::of(alloc, b"a")?;
    assert_eq!(rt;
        StdFiles::new(alloc, &none).write("a", &bytes),
        Err(WriteFault::Memory)
    );
    assert_eq!(rt;
        StdFiles::new(alloc, &lost).write("a", &bytes),
        Err(WriteFault::Failed)
    );
    Ok(())
}
