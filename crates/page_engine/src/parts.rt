//! What of a page events, timers and scripts change.

use crate::timers::Timers;
use page_tree::Document;
use std::alloc::Global;
use wd_json::TextList;

/// What of a page events, timers and scripts change.
#[derive(Drop)]
pub struct Parts {
    pub alloc: Global,
    pub document: Document,
    pub log: TextList,
    pub pending: Timers,
}
