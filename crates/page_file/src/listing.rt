//! The listing of a site's pages.

use wd_json::{WdList, WdText};

/// What the file of a site says: its pages, and which of them is the start.
#[derive(Debug, Drop)]
pub struct Listing {
    /// The place of the start page.
    pub start: u32,
    /// The pages in their order.
    pub entries: EntryList,
}

/// A page of a site: its serialised address, and the name of its file.
#[derive(Debug, Drop)]
pub struct Entry {
    pub address: WdText,
    pub file: WdText,
}

/// Pages of a site by their places.
pub type EntryList = WdList<Entry>;
