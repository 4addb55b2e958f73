//! The entries of a site's listing that a list of values spells.

ghost use Rattle.std.specs.Prelude.{◌≡◌, ◌≤◌, ◌∷◌, ◌++◌, [], Ok, IfOk, IfErr, IfSome, length};
ghost use Rattle.page_engine.specs.Sites.{address_named};
ghost use Rattle.page_file.specs.Index.{IsIndexOf};
ghost use Rattle.page_file.specs.Listings.{address_of, entry_of, next_entry, IsPlain};
ghost use Rattle.page_file.specs.Rows.{rows, IsFaultOf, IsNextFault};

use crate::listing::{Entry, EntryList};
use crate::page_fault::PageFault;
use crate::places::{Places, add};
use crate::values::{as_list, as_text};
use crate::why::Why;
use std::alloc::Global;
use std::collections::HashMap;
use url::{ParseError, Url};
use wd_json::{Json, Memory, WdList, WdText};

/// The URL's own text as an address, unless it has a fragment or is `about:blank`.
pub fn own_address(alloc: Global, text: &str) -> Result<Option<WdText>, Memory>
    ensures same { IfOk result (λ a. a ≡ address_named text.now) }
    ensures plain { IfOk result (λ a. IfSome a IsPlain) }
{
    match Url::parse(alloc, text) {
        Ok(url) => {
            let address = url.as_str();
            if url.fragment().is_some() || address == "about:blank" {
                return Ok(None);
            }
            Ok(Some(WdText::of(alloc, address)?))
        }
        Err(ParseError::OutOfMemory) => Err(Memory),
        Err(ParseError::Overflow) => Err(Memory),
        Err(_) => Ok(None),
    }
}

// The address that a value names.
fn address(alloc: Global, value: &Json) -> Result<Option<WdText>, Memory>
    ensures same { IfOk result (λ a. a ≡ address_of value.now) }
    ensures plain { IfOk result (λ a. IfSome a IsPlain) }
{
    match as_text(value) {
        Some(text) => own_address(alloc, text.as_str()),
        None => Ok(None),
    }
}

fn entry(alloc: Global, value: &Json) -> Result<Option<Entry>, Memory>
    ensures same { IfOk result (λ e. e ≡ entry_of value.now) }
    ensures plain { IfOk result (λ e. IfSome e (λ e. IsPlain e.address)) }
{
    let Some([named, Json::Text(file)]) = as_list(value) else {
        return Ok(None);
    };
    let Some(address) = address(alloc, named)? else {
        return Ok(None);
    };
    let file = file.copy(alloc)?;
    Ok(Some(Entry { address, file }))
}

// The next entry, after these.
fn next_entry(
    alloc: Global,
    entries: &[Entry],
    places: &mut Places,
    value: &Json,
) -> Result<Entry, PageFault>
    requires few { length entries.now ≤ 1000 }
    requires index { IsIndexOf entries.now places.old }
    ensures next { IfOk result (λ e. next_entry entries.now value.now ≡ Ok e) }
    ensures index { IfOk result (λ e. IsIndexOf (entries.now ++ e ∷ []) places.new) }
    ensures fault { IfErr result (IsNextFault entries.now (next_entry entries.now value.now)) }
{
    let row = entries.len() as u32;
    let bad = PageFault::Bad {
        row,
        why: Why::Address,
    };
    let Some(entry) = entry(alloc, value)? else {
        return Err(bad);
    };
    if !add(places, alloc, entry.address.as_str(), row)? {
        return Err(bad);
    }
    Ok(entry)
}

/// The entries that the values spell, and their places by address.
///
/// `Bad` with the first value that spells no entry, or one whose address an earlier one has.
pub fn read_entries(alloc: Global, values: &[Json]) -> Result<(EntryList, Places), PageFault>
    requires { length values.now ≤ 1000 }
    ensures entries { IfOk result (λ p. rows next_entry values.now ≡ Ok p.0) }
    ensures index { IfOk result (λ p. IsIndexOf p.0 p.1) }
    ensures cause { IfErr result (IsFaultOf (rows next_entry values.now)) }
{
    let mut entries = Vec::new(alloc);
    let mut places = HashMap::new(alloc);
    for value in values {
        let entry = next_entry(alloc, &entries, &mut places, value)?;
        entries.push(entry)?;
    }
    Ok((WdList::from_vec(entries), places))
}
