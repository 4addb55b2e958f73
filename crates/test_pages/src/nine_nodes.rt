//! A document of nine nodes beside its root, and moves in it.

ghost use Rattle.std.specs.Prelude.{◌≡◌, ◌<◌, false, true};
ghost use Rattle.page_tree.specs.Rows.{count, is_element};

use page_tree::{Document, TreeFault};
use std::alloc::Global;
use std::process::Abort;
use std::test::Fail;
use wd_json::{NodeId, NodeList};

/// Compares nodes with their expected numbers.
pub fn same(rt: &impl Abort, list: &NodeList, expected: &[u32]) {
    let list = list.as_slice();
    assert_eq!(rt; list.len(), expected.len());
    for (node, number) in list.iter().zip(expected) {
        assert_eq!(rt; node.number(), *number);
    }
}

/// `insert`, once its conditions were seen to hold.
pub fn moved(
    rt: &impl Abort,
    page: &mut Document,
    node: u32,
    parent: u32,
    place: u32,
) -> Result<(), TreeFault> {
    assert!(rt; !page.spent());
    assert!(rt; node > 0);
    assert!(rt; node < page.count());
    assert!(rt; parent < page.count());
    assert!(rt; !page.is_shadow(NodeId::of(node)));
    assert!(rt; page.text(NodeId::of(parent)).is_none());
    page.insert(NodeId::of(node), NodeId::of(parent), place)
}

/// Elements 1 to 5 and 8, and texts 6 and 7, beside the root.
pub fn nine_nodes(rt: &impl Abort, alloc: Global) -> Result<Document, Fail> {
    let mut page = Document::new(alloc, "html")?;
    for _ in 0..5 {
        assert!(rt; !page.spent());
        page.add_element("p")?;
    }
    for _ in 0..2 {
        assert!(rt; !page.spent());
        page.add_text("x")?;
    }
    assert!(rt; !page.spent());
    page.add_element("b")?;
    Ok(page)
}

/// Sees that this node is an element of a document that isn't spent.
pub fn element(rt: &impl Abort, page: &Document, node: u32) -> NodeId
    ensures alive { page.now.spent ≡ false }
    ensures node { result ≡ node }
    ensures node_in { node < count page.now.rows }
    ensures element { is_element page.now.rows node ≡ true }
{
    let node = NodeId::of(node);
    assert!(rt; !page.spent());
    assert!(rt; node.number() < page.count());
    assert!(rt; page.tag(node).is_some());
    node
}
