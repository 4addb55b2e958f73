//! What a remote end is made with: its site, its offer and the number of its run.

use capabilities::Offer;
use page_engine::Site;

/// What a remote end is made with.
#[derive(Drop)]
pub struct Setting {
    /// Its pages.
    pub site: Site,
    /// What it offers to new sessions: the name of its browser.
    pub offer: Offer,
    /// The number of its run, below 2^48.
    pub run: u64,
}
