//! Where files are opened and written by their paths, and the files of a runtime.

ghost use Rattle.std.specs.Prelude.{◌≡◌, ℕ, List, Option, Some, None, IfOk, IfSome, OnOk};

use std::io::Read;
use std::{fs, io};

/// Where files are opened and written by their paths. One that knows shows what a file holds, and what
/// was written.
pub trait FileSystem {
    /// A file that is open for reading.
    type File: Read + Drop;

    /// The bytes of the file of that name, where they are known.
    ghost holds: { Self → List ℕ → Option (List ℕ) };

    /// That a file of that name was written with these bytes.
    ghost wrote: { Self → List ℕ → List ℕ → Type 0 };

    /// The file of that name, which gives its bytes from the first one on. It fails by the system's own
    /// errors, as where there is no such file.
    fn open(&self, name: &str) -> io::Result<Self::File>
        ensures { IfOk result (λ file. IfSome (holds self.now name.now) (λ bytes. Self.File.remaining file ≡ Some bytes)) };

    /// Writes a file of that name, in place of the one there was. It fails by the system's own errors.
    fn write(&self, name: &str, bytes: &[u8]) -> io::Result<()>
        ensures { OnOk result (wrote self.now name.now bytes.now) };
}

/// The files of a runtime, the relative paths from the current directory. Nothing is known of what they hold.
#[derive(Drop)]
pub struct RuntimeFiles<'a, R: fs::Files> {
    runtime: &'a R,
}

impl<'a, R: fs::Files> RuntimeFiles<'a, R> {
    /// The files of this runtime.
    pub fn new(runtime: &'a R) -> RuntimeFiles<'a, R>
        ensures { result.runtime.now ≡ runtime.now }
    {
        RuntimeFiles { runtime }
    }
}

impl<'a, R: fs::Files> FileSystem for RuntimeFiles<'a, R> {
    type File = R::File;

    ghost holds = { λ _ _. None };

    ghost wrote = { λ _ _ _. Unit {0} };

    fn open(&self, name: &str) -> io::Result<R::File> {
        fs::open(self.runtime, name)
    }

    fn write(&self, name: &str, bytes: &[u8]) -> io::Result<()> {
        fs::write(self.runtime, name, bytes)
    }
}
