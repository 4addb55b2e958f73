//! The site that files spell.

ghost use Rattle.std.specs.Prelude.{◌≡◌, ◌≤◌, ◌<◌, ◌+◌, All, Some, IsTrue, IfOk, IfErr, OnOk, length, map, slice_get};
ghost use Rattle.std.specs.Option.{option_map};
ghost use Rattle.std.specs.Str.{chars};
ghost use Rattle.page_engine.specs.Links.{AreLinked};
ghost use Rattle.page_engine.specs.Pages.{IsLawfulPage};
ghost use Rattle.page_engine.specs.Sites.{IsLawfulSite};
ghost use Rattle.page_file.specs.SiteFiles.{files_limit, IsSiteOf, AreGoodFiles, IsFirstFault, IsEntryFault, IsPagesFault, IsReadCause};

use crate::links::loads;
use crate::listing::Entry;
use crate::pages::Pages;
use crate::read_file::{read_listing_file, read_page_file};
use crate::site_fault::SiteFault;
use crate::weights::first_heavy;
use crate::why::Why;
use page_engine::{PageList, Site};
use std::alloc::Global;
use wd_http::Files;
use wd_json::{Memory, WdList, WdText};

// The name of the file of the entry at that place.
fn file_of(alloc: Global, entries: &[Entry], place: usize) -> Result<WdText, Memory>
    requires { place < length entries.now }
    ensures { IfOk result (λ name. option_map (λ entry. entry.file) (slice_get entries.now place) ≡ Some name) }
{
    entries[place].file.copy(alloc)
}

// Looks at the links of all pages, and then at their weight.
fn check_pages(alloc: Global, entries: &[Entry], pages: &Pages) -> Result<(), SiteFault>
    requires few { All (λ page. length page.nodes ≤ 50000) pages.now }
    requires same { length pages.now ≡ length entries.now }
    ensures linked { OnOk result (AreLinked pages.now) }
    ensures fault { IfErr result (IsPagesFault entries.now pages.now) }
{
    let loads = match loads(alloc, pages)? {
        Ok(loads) => loads,
        Err(place) => return Err(SiteFault::Links(file_of(alloc, entries, place)?)),
    };
    match first_heavy(alloc, loads.as_slice())? {
        Some(place) => Err(SiteFault::Bad {
            name: file_of(alloc, entries, place)?,
            row: 0,
            why: Why::Weight,
        }),
        None => Ok(()),
    }
}

// The pages that the files of these entries spell, each file read and checked before the next.
fn read_pages<F: Files>(
    alloc: Global,
    files: &mut F,
    entries: &[Entry],
    total: &mut u64,
) -> Result<PageList, SiteFault>
    requires { total.old ≤ files_limit }
    ensures pages { IfOk result (λ pages. IsTrue F.tells → AreGoodFiles (F.files files.old) total.old entries.now pages) }
    ensures lawful { IfOk result (λ pages. All IsLawfulPage pages) }
    ensures addresses { IfOk result (λ pages. map (λ page. page.address) pages ≡ map (λ entry. entry.address) entries.now) }
    ensures fault { IfErr result (λ fault. IsTrue F.tells → IsEntryFault (F.files files.old) total.old entries.now fault) }
    ensures made { IfOk result (λ pages. F.made files.new ≡ F.made files.old + length pages) }
    ensures kept { OnOk result (F.faults files.new ≡ F.faults files.old) }
    ensures cause { IfErr result (IsReadCause (F.faults files.old) (F.faults files.new)) }
    ensures same { IsTrue F.tells → F.files files.new ≡ F.files files.old }
{
    let mut pages = Vec::new(alloc);
    for entry in entries {
        let page = read_page_file(alloc, files, entry, total)?;
        pages.push(page)?;
    }
    Ok(WdList::from_vec(pages))
}

/// The site that the files spell: the file of that name lists its pages, and each of them has a file
/// of its own (the page format). Files are read in the order of the list, one read an entry, and
/// each page is checked before the next is read. Then come the links of all pages in their order, and
/// last their weight. A read that fails is the last one; nothing else raises the files' count of
/// faults.
///
/// The first thing that is wrong is told with the name of the file at hand. `Read` where the file
/// couldn't be read, which raised the files' count of faults. `TooLong` where it has more than
/// 8,388,608 bytes, or more than 33,554,432 with those that were read before it, a file counted
/// once for each of its reads. `Bad` where it is no JSON text with whole numbers, or its value is no
/// listing or no page, and, when all files passed and all links lead to pages, where a page with
/// those of its frames has more than 100,000 nodes. `Links` where all files passed and the page
/// leads to an address that is neither a page's nor `about:blank`. `Memory` where there is no memory.
pub fn read_site<F: Files>(alloc: Global, files: &mut F, name: &str) -> Result<Site, SiteFault>
    ensures site { IfOk result (λ site. IsTrue F.tells → IsSiteOf (F.files files.old) (chars name.now) site) }
    ensures lawful { IfOk result IsLawfulSite }
    ensures fault { IfErr result (λ fault. IsTrue F.tells → IsFirstFault (F.files files.old) (chars name.now) fault) }
    ensures made { IfOk result (λ site. F.made files.new ≡ F.made files.old + 1 + length site.pages) }
    ensures kept { OnOk result (F.faults files.new ≡ F.faults files.old) }
    ensures cause { IfErr result (IsReadCause (F.faults files.old) (F.faults files.new)) }
    ensures same { IsTrue F.tells → F.files files.new ≡ F.files files.old }
{
    let own = WdText::of(alloc, name)?;
    let mut total = 0;
    let (listing, places) = read_listing_file(alloc, files, &own, &mut total)?;
    let entries = listing.entries.as_slice();
    let pages = Pages::new(read_pages(alloc, files, entries, &mut total)?, places);
    check_pages(alloc, entries, &pages)?;
    Ok(Site {
        start: listing.start,
        pages: pages.into_list(),
    })
}
