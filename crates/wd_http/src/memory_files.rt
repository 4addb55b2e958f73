//! Files in memory, of which some calls fail.

ghost use Rattle.std.specs.Prelude.{◌≡◌, ◌≤◌, true, IfOk, length};
ghost use Rattle.std.specs.Option.{option_copied};
ghost use Rattle.wd_http.specs.Causes.{HasReadCause, HasWriteCause};
ghost use Rattle.wd_http.specs.Files.{IsOneMore, file_at, ReadsFile, Takes, WritesFile};
ghost use Rattle.wd_http.specs.FilesState.{filed_of, ReadsCounted, WritesCounted};

use crate::call_count::CallCount;
use crate::fault::{FileFault, WriteFault};
use crate::files::Files;
use crate::lists::{CallList, FileList};
use std::alloc::Global;
use std::marker::Model;
use wd_json::{Memory, WdBytes, WdText};

/// Files in memory. The calls of `read` and `write` are numbered together from 1, and those whose
/// numbers stand in a list fail. Contracts see the files, the calls, and how many bytes the last
/// read took.
#[derive(Drop)]
pub struct MemoryFiles {
    alloc: Global,
    files: FileList,
    calls: CallCount,
    took: u64,
}

impl Model for MemoryFiles {
    ghost use Rattle.wd_http.specs.FilesState.{FilesState};

    ghost Value = { FilesState };

    ghost view = { λ m. record { files = m.files; calls = m.calls; took = m.took } };
}

impl MemoryFiles {
    /// These files; the calls whose numbers stand in `fails` fail. It takes no memory.
    pub fn new(alloc: Global, files: FileList, fails: CallList) -> MemoryFiles
        ensures { result ≡ filed_of files fails }
    {
        MemoryFiles {
            alloc,
            files,
            calls: CallCount::new(fails),
            took: 0,
        }
    }

    /// The files as they are now: each write stands at the end, and of a name that stands twice the
    /// last entry counts.
    pub fn files(&self) -> &FileList
        ensures { result.now ≡ self.now.files }
    {
        &self.files
    }
}

// The bytes of the last entry of that name.
fn last_of<'a>(files: &'a FileList, name: &str) -> Option<&'a WdBytes>
    ensures { option_copied result ≡ file_at name.now files.now }
{
    let mut found = None;
    for file in files.as_slice() {
        if file.0.as_str() == name {
            found = Some(&file.1);
        }
    }
    found
}

impl Files for MemoryFiles {
    ghost tells = { true };

    ghost files = { λ m. m.files };

    ghost faults = { λ m. m.calls.faults };

    ghost made = { λ m. m.calls.made };

    ghost took = { λ m. m.took };

    /// It fails exactly where the number of the call stands in the list, or there is no file of
    /// that name. It goes over all files. A call that would have a number past 2^64 − 1 answers
    /// `Memory`.
    fn read(&mut self, name: &str, limit: u64) -> Result<WdBytes, FileFault>
        ensures bound { IfOk result (λ bytes. length bytes ≤ limit) }
        ensures takes { Takes self.new.took limit result }
        ensures told { ReadsFile self.old.files name.now limit result }
        ensures same { self.new.files ≡ self.old.files }
        ensures made { IsOneMore self.old.calls.made self.new.calls.made result }
        ensures cause { HasReadCause self.old.calls.faults self.new.calls.faults result }
        ensures exact { ReadsCounted self.old self.new name.now limit result }
    {
        if !self.calls.is_left() {
            return Err(FileFault::Memory);
        }
        if self.calls.fails() {
            return Err(FileFault::Failed);
        }
        let Some(bytes) = last_of(&self.files, name) else {
            self.calls.fault();
            return Err(FileFault::Failed);
        };
        self.took = bytes.len() as u64;
        if self.took > limit {
            return Err(FileFault::TooLong);
        }
        Ok(WdBytes::of(self.alloc, bytes.as_slice())?)
    }

    /// It fails exactly where the number of the call stands in the list. After `Memory` the files
    /// are as they were; so it is for a call that would have a number past 2^64 − 1.
    fn write(&mut self, name: &str, bytes: &WdBytes) -> Result<(), WriteFault>
        ensures told { WritesFile self.old.files self.new.files name.now bytes.now result }
        ensures cause { HasWriteCause self.old.calls.faults self.new.calls.faults result }
        ensures exact { WritesCounted self.old self.new result }
    {
        if !self.calls.is_left() {
            return Err(WriteFault::Memory);
        }
        if self.calls.fails() {
            return Err(WriteFault::Failed);
        }
        let name = WdText::of(self.alloc, name)?;
        let bytes = WdBytes::of(self.alloc, bytes.as_slice())?;
        self.files.push((name, bytes))?;
        Ok(())
    }
}
