//! Where an address leads in a site.

/// Where an address leads in a site: to `about:blank`, or to the page at this place.
#[derive(Clone, Copy, Debug, PartialEq, Eq)]
pub enum Target {
    Blank,
    Page(u32),
}
