//! The built-in page and `about:blank`, as tests.

use crate::parents::parents;
use page_engine::{Page, Site, blank_page};
use std::test::Fail;
use wd_json::NodeId;

#[test]
fn the_built_in_site_has_one_page(rt: HostRuntime) -> Result<(), Fail> {
    let site = Site::built_in(rt.alloc())?;
    assert_eq!(rt; site.pages.len(), 1);
    assert_eq!(rt; site.page_of("http://page.test/"), Some(0));
    assert_eq!(rt; site.page_of("http://page.test/a"), None);
    let def = site.pages.at(0);
    let page = Page::open(rt.alloc(), def, 0, 0, false)?;
    parents(&rt, &page, &[99, 0, 1, 2, 0, 4, 5, 4, 4, 8]);
    Ok(())
}

#[test]
fn about_blank_has_three_nodes_and_no_timer(rt: HostRuntime) -> Result<(), Fail> {
    let def = blank_page(rt.alloc())?;
    assert_eq!(rt; def.address.as_str(), "about:blank");
    let page = Page::open(rt.alloc(), &def, 5, 0, false)?;
    parents(&rt, &page, &[99, 0, 0]);
    assert!(rt; !page.spent());
    assert_eq!(rt; page.document().count(), 3);
    assert!(rt; page.next_due().is_none());
    let root = NodeId::of(0);
    assert_eq!(rt; page.document().tag(root), Some("html"));
    assert_eq!(rt; page.document().tag(NodeId::of(1)), Some("head"));
    assert_eq!(rt; page.document().tag(NodeId::of(2)), Some("body"));
    assert_eq!(rt; page.document().pixels(root), None);
    Ok(())
}
