//! The pages of a site, found by their addresses, and the built-in site.

ghost use Rattle.std.specs.Prelude.{◌≡◌, ◌<◌, length, IfSome, IfOk};
ghost use Rattle.std.specs.Str.{chars};
ghost use Rattle.page_engine.specs.BuiltIn.{built_in_site};
ghost use Rattle.page_engine.specs.Sites.{IsLawfulSite, page_at};

use crate::built_in::built_in_page;
use crate::page_def::PageDef;
use std::alloc::Global;
use wd_json::{Memory, WdList};

/// The pages of a site. The start page is the one at the place `start`.
#[derive(Debug, Drop)]
pub struct Site {
    pub start: u32,
    pub pages: PageList,
}

/// Pages by their places.
pub type PageList = WdList<PageDef>;

impl Site {
    /// The built-in site: the one page of a session that is given no site. `Memory` where there is
    /// none for it.
    pub fn built_in(alloc: Global) -> Result<Site, Memory>
        ensures site { IfOk result (λ site. site ≡ built_in_site) }
        ensures lawful { IfOk result IsLawfulSite }
    {
        let mut pages = PageList::new(alloc);
        pages.push(built_in_page(alloc)?)?;
        Ok(Site { start: 0, pages })
    }

    /// The place of the page with that serialised address; `None` exactly where no page has it. It
    /// takes no memory, and looks at the pages in order.
    pub fn page_of(&self, address: &str) -> Option<u32>
        requires { IsLawfulSite self.now }
        ensures { result ≡ page_at (chars address.now) self.now.pages }
    {
        match place_of(self.pages.as_slice(), address) {
            Some(place) => Some(place as u32),
            None => None,
        }
    }
}

/// The place of the first page with that address.
fn place_of(pages: &[PageDef], address: &str) -> Option<usize>
    ensures place { result ≡ page_at (chars address.now) pages.now }
    ensures within { IfSome result (λ place. place < length pages.now) }
{
    pages.iter().position(|page| page.address.is(address))
}
