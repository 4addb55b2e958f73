//! Files in memory by their names and texts.

ghost use Rattle.std.specs.Prelude.{◌≡◌, map, IfOk};
ghost use Rattle.std.specs.Str.{chars};
ghost use Rattle.wd_http.specs.FilesState.{filed_of};
ghost use Rattle.timed.specs.NamedFiles.{number_in};

use std::alloc::Global;
use wd_http::{CallList, FileList, MemoryFiles};
use wd_json::{Memory, WdBytes, WdText};

/// The name of a file and its text.
pub type Named<'a> = (&'a str, &'a str);

/// A file as the entry of a list.
fn entry(alloc: Global, file: &Named) -> Result<(WdText, WdBytes), Memory>
    ensures { IfOk result (λ entry. entry ≡ (chars file.now.0.now, file.now.1.now)) }
{
    let name = WdText::of(alloc, file.0)?;
    let bytes = WdBytes::of(alloc, file.1.as_bytes())?;
    Ok((name, bytes))
}

/// The files as a list.
fn listed(alloc: Global, files: &[Named]) -> Result<FileList, Memory>
    ensures { IfOk result (λ list. list ≡ map (λ file. (chars file.0.now, file.1.now)) files.now) }
{
    let mut list = FileList::new(alloc);
    for file in files {
        list.push(entry(alloc, file)?)?;
    }
    Ok(list)
}

/// The number, where there is one, as a list.
fn number_in(alloc: Global, number: Option<u64>) -> Result<CallList, Memory>
    ensures { IfOk result (λ list. list ≡ number_in number) }
{
    let mut list = CallList::new(alloc);
    if let Some(number) = number {
        list.push(number)?;
    }
    Ok(list)
}

/// These files in memory. The call with the number `failing` fails.
pub fn in_memory(
    alloc: Global,
    files: &[Named],
    failing: Option<u64>,
) -> Result<MemoryFiles, Memory>
    ensures { IfOk result (λ made. made ≡ filed_of (map (λ file. (chars file.0.now, file.1.now)) files.now) (number_in failing)) }
{
    let list = listed(alloc, files)?;
    let fails = number_in(alloc, failing)?;
    Ok(MemoryFiles::new(alloc, list, fails))
}
