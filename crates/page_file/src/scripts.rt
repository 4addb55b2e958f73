//! The answers to scripts that a list of values spells.

ghost use Rattle.std.specs.Prelude.{◌≡◌, ◌++◌, ◌∷◌, [], IfOk, IfErr, Ok};
ghost use Rattle.page_file.specs.Rows.{rows, IsFaultOf, IsNextFault};
ghost use Rattle.page_file.specs.Scripts.{next_script, script};
ghost use Rattle.page_file.specs.Seen.{HasKeys};

use crate::book::is_entry;
use crate::entry::entry;
use crate::page_fault::PageFault;
use crate::seen::note;
use crate::why::Why;
use page_engine::{Book, BookEntry};
use std::alloc::Global;
use std::collections::BTreeSet;
use wd_json::{Json, Memory, WdList};

// A place as it is told; one of 2^32 or more is told as want of memory.
fn row_of(place: usize) -> Result<u32, Memory>
    ensures { IfOk result (λ row. row ≡ place) }
{
    if place < 4_294_967_296 {
        Ok(place as u32)
    } else {
        Err(Memory)
    }
}

// The next answer, after these, whose scripts were seen.
fn next_script(
    alloc: Global,
    entries: &[BookEntry],
    seen: &mut BTreeSet<String>,
    value: &Json,
) -> Result<BookEntry, PageFault>
    requires { HasKeys script seen.old entries.now }
    ensures next { IfOk result (λ entry. next_script entries.now value.now ≡ Ok entry) }
    ensures seen { IfOk result (λ entry. HasKeys script seen.new (entries.now ++ entry ∷ [])) }
    ensures fault { IfErr result (IsNextFault entries.now (next_script entries.now value.now)) }
{
    let row = row_of(entries.len())?;
    let bad = PageFault::Bad {
        row,
        why: Why::Script,
    };
    let Some(entry) = entry(alloc, value)? else {
        return Err(bad);
    };
    if !is_entry(alloc, &entry)? {
        return Err(bad);
    }
    if !note(alloc, seen, &entry.script)? {
        return Err(bad);
    }
    Ok(entry)
}

/// A page's answers to scripts, as the values spell them.
///
/// `Bad` with `Script` and the place of the first value that spells none, or that has the text of an
/// earlier one. A place of 2^32 or more is told as want of memory.
pub fn read_scripts(alloc: Global, values: &[Json]) -> Result<Book, PageFault>
    ensures read { IfOk result (λ book. rows next_script values.now ≡ Ok book) }
    ensures cause { IfErr result (IsFaultOf (rows next_script values.now)) }
{
    let mut seen = BTreeSet::new(alloc);
    let mut entries = Vec::new(alloc);
    for value in values {
        let entry = next_script(alloc, &entries, &mut seen, value)?;
        entries.push(entry)?;
    }
    Ok(WdList::from_vec(entries))
}
