//! The parents of a page's nodes, compared.

use page_engine::Page;
use std::process::Abort;
use wd_json::NodeId;

/// The parents of the nodes, 99 where there is none.
pub fn parents(rt: &impl Abort, page: &Page, expected: &[u32]) {
    assert!(rt; !page.spent());
    let document = page.document();
    for (node, parent) in (0u32..).zip(expected) {
        assert!(rt; node < document.count());
        let found = match document.parent(NodeId::of(node)) {
            Some(up) => up.number(),
            None => 99,
        };
        assert_eq!(rt; found, *parent);
    }
}
