//! What follows from the definitions alone, as laws to be cited.

ghost use Rattle.std.specs.Prelude.{◌≡◌, ℕ, List, Ok};
ghost use Rattle.page_engine.specs.Pages.{IsLawfulPage};
ghost use Rattle.page_engine.specs.declared.page_def.PageDef.{PageDef as AnyPage};
ghost use Rattle.page_engine.specs.declared.site.Site.{Site as AnySite};
ghost use Rattle.page_file.specs.Listings.{listing_of, IsLawfulListing};
ghost use Rattle.page_file.specs.PageSpelled.{page_of};
ghost use Rattle.page_file.specs.SiteFiles.{FileMap, IsSiteOf, IsFirstFault, IsOfFiles};
ghost use Rattle.page_file.specs.declared.listing.Listing.{Listing as AnyListing};
ghost use Rattle.page_file.specs.declared.site_fault.SiteFault.{SiteFault as AnyFault};
ghost use Rattle.wd_json.specs.declared.value.Json.{Json as AnyJson};

/// A law, to be cited: every page that a value spells keeps the rules of a page, and every listing
/// those of a listing.
pub fn spelled_is_lawful()
    ensures pages { (address : List ℕ) (value : AnyJson) (page : AnyPage) → page_of address value ≡ Ok page → IsLawfulPage page }
    ensures listings { (value : AnyJson) (listing : AnyListing) → listing_of value ≡ Ok listing → IsLawfulListing listing }
{}

/// A law, to be cited: files that have a first fault, one that says something of what they hold,
/// spell no site.
pub fn no_site_at_fault()
    ensures { (files : FileMap) (name : List ℕ) (fault : AnyFault) (site : AnySite)
        → IsOfFiles fault → IsSiteOf files name site → IsFirstFault files name fault → ⊥ }
{}
