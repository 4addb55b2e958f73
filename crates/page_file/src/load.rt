//! What the weight of a page is made of.

use page_engine::Target;
use wd_json::WdList;

/// What the weight of a page is made of: how many nodes it has, and where its frames lead.
#[derive(Debug, Drop)]
pub struct Load {
    pub nodes: u32,
    pub frames: TargetList,
}

/// Where the frames of a page lead, in the order of the iframes.
pub type TargetList = WdList<Target>;

/// One for each page.
pub type LoadList = WdList<Load>;
