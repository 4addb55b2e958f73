//! The listing that the value of a site's file spells.

ghost use Rattle.std.specs.Prelude.{◌≡◌, ◌≤◌, Ok, IfOk, IfErr, IfSome, length};
ghost use Rattle.std.specs.Option.{option_map, option_and_then};
ghost use Rattle.page_file.specs.Index.{IsIndexOf};
ghost use Rattle.page_file.specs.Listings.{top_in, top_of, start_at, listing_of};
ghost use Rattle.page_file.specs.Members.{object_of};
ghost use Rattle.page_file.specs.Rows.{IsFaultOf};

use crate::entries::{own_address, read_entries};
use crate::listing::{Entry, Listing};
use crate::members::{has_only, is_version};
use crate::page_fault::PageFault;
use crate::places::{Places, place_of};
use crate::values::{as_list, as_text};
use crate::why::Why;
use std::alloc::Global;
use wd_json::{Json, Memory, WdText};

// The text of the start, and the values of the entries, of which there may be none or too many.
fn top_in(value: &Json) -> Option<(&WdText, &[Json])>
    ensures { option_map (λ t. (t.0.now, t.1.now)) result ≡ option_and_then top_in (object_of value.now) }
{
    let Json::Object(members) = value else {
        return None;
    };
    if !has_only(&["pages", "start", "wdsite"], members) || !is_version("wdsite", members) {
        return None;
    }
    let start = as_text(members.get("start")?)?;
    Some((start, as_list(members.get("pages")?)?))
}

fn top(value: &Json) -> Option<(&WdText, &[Json])>
    ensures same { option_map (λ t. (t.0.now, t.1.now)) result ≡ top_of value.now }
    ensures few { IfSome result (λ t. length t.1.now ≤ 1000) }
{
    let (start, values) = top_in(value)?;
    if values.is_empty() || values.len() > 1000 {
        None
    } else {
        Some((start, values))
    }
}

// The place of the page that the text names.
fn start_place(
    alloc: Global,
    entries: &[Entry],
    places: &Places,
    text: &WdText,
) -> Result<Option<u32>, Memory>
    requires { IsIndexOf entries.now places.now }
    ensures { IfOk result (λ place. place ≡ start_at entries.now text.now) }
{
    let _ = entries;
    match own_address(alloc, text.as_str())? {
        Some(address) => Ok(place_of(places, address.as_str())),
        None => Ok(None),
    }
}

/// The listing that the value of a site's file spells, and the places of its pages by address.
///
/// `Bad` with the first thing that is wrong: `Shape` at row 0 for the top object; else `Address` at the first
/// entry that isn't an address and a file's name, or whose address an earlier one has; else `Address` at the
/// number of pages where the start is none of them.
pub fn read_listing(alloc: Global, value: &Json) -> Result<(Listing, Places), PageFault>
    ensures listing { IfOk result (λ p. listing_of value.now ≡ Ok p.0) }
    ensures index { IfOk result (λ p. IsIndexOf p.0.entries p.1) }
    ensures cause { IfErr result (IsFaultOf (listing_of value.now)) }
{
    let Some((text, values)) = top(value) else {
        return Err(PageFault::Bad {
            row: 0,
            why: Why::Shape,
        });
    };
    let (entries, places) = read_entries(alloc, values)?;
    match start_place(alloc, entries.as_slice(), &places, text)? {
        Some(start) => Ok((Listing { start, entries }, places)),
        None => Err(PageFault::Bad {
            row: values.len() as u32,
            why: Why::Address,
        }),
    }
}
