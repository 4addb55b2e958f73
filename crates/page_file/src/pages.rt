//! The pages of a site with their places by address.

ghost use Rattle.std.specs.Prelude.{◌≡◌};
ghost use Rattle.page_engine.specs.Links.{target_at};
ghost use Rattle.page_file.specs.Index.{IsPageIndex};

use crate::places::{Places, place_of};
use page_engine::{PageDef, PageList, Target};
use std::marker::Model;

/// The pages of a site, with their places by address. Contracts see the pages.
#[derive(Drop)]
pub struct Pages {
    pages: PageList,
    places: Places,
}

impl Model for Pages {
    ghost use Rattle.std.specs.Prelude.{List};
    ghost use Rattle.std.specs.Coded.{codes};
    ghost use Rattle.page_engine.specs.contracts.effect.Effect as effect;
    ghost use Rattle.page_engine.specs.declared.page_def.PageDef.{PageDef};
    ghost use Rattle.page_file.specs.Index.{IsPageIndex};

    ghost Value = { List PageDef };

    ghost coded = { Prim.hlevel (codes, effect.the_row.coded) };

    ghost view = { λ p. p.pages };

    ghost invariant = { λ p. IsPageIndex p.pages p.places };
}

impl Pages {
    /// These pages, with their places.
    pub fn new(pages: PageList, places: Places) -> Pages
        requires { IsPageIndex pages places }
        ensures { result ≡ pages }
    {
        Pages { pages, places }
    }

    pub fn as_slice(&self) -> &[PageDef]
        ensures { result.now ≡ self.now }
    {
        self.pages.as_slice()
    }

    pub fn into_list(self) -> PageList
        ensures { result ≡ self }
    {
        self.pages
    }

    /// Where an address leads; `None` where it is neither `about:blank` nor that of a page.
    pub fn target_at(&self, address: &str) -> Option<Target>
        ensures { result ≡ target_at self.now address.now }
    {
        if address == "about:blank" {
            return Some(Target::Blank);
        }
        Some(Target::Page(place_of(&self.places, address)?))
    }
}
