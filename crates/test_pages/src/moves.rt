//! Moves of nodes in a document, and the limit of depth, as tests.

use crate::nine_nodes::{moved, nine_nodes, same};
use page_tree::{Document, TreeFault};
use std::process::Abort;
use std::test::Fail;
use wd_json::NodeId;

/// Node, parent, place, whether it goes, the parent's children and the document order after it.
const MOVES: [(u32, u32, u32, bool, &[u32], &[u32]); 16] = [
    (1, 0, 0, true, &[1], &[0, 1]),
    (2, 1, 0, true, &[2], &[0, 1, 2]),
    (3, 1, 9, true, &[2, 3], &[0, 1, 2, 3]),
    (4, 1, 1, true, &[2, 4, 3], &[0, 1, 2, 4, 3]),
    (2, 1, 1, true, &[4, 2, 3], &[0, 1, 4, 2, 3]),
    (3, 1, 0, true, &[3, 4, 2], &[0, 1, 3, 4, 2]),
    (6, 2, 0, true, &[6], &[0, 1, 3, 4, 2, 6]),
    (7, 2, 0, true, &[7, 6], &[0, 1, 3, 4, 2, 7, 6]),
    (5, 0, 0, true, &[5, 1], &[0, 5, 1, 3, 4, 2, 7, 6]),
    (1, 2, 0, false, &[7, 6], &[0, 5, 1, 3, 4, 2, 7, 6]),
    (2, 2, 0, false, &[7, 6], &[0, 5, 1, 3, 4, 2, 7, 6]),
    (2, 5, 3, true, &[2], &[0, 5, 2, 7, 6, 1, 3, 4]),
    (8, 3, 0, true, &[8], &[0, 5, 2, 7, 6, 1, 3, 8, 4]),
    (3, 0, 1, true, &[5, 3, 1], &[0, 5, 2, 7, 6, 3, 8, 1, 4]),
    (5, 0, 2, true, &[3, 1, 5], &[0, 3, 8, 1, 4, 5, 2, 7, 6]),
    (5, 0, 1, true, &[3, 5, 1], &[0, 3, 8, 5, 2, 7, 6, 1, 4]),
];

#[test]
fn nodes_move(rt: HostRuntime) -> Result<(), Fail> {
    let mut page = nine_nodes(&rt, rt.alloc())?;
    for (node, parent, place, goes, children, order) in MOVES {
        match moved(&rt, &mut page, node, parent, place) {
            Ok(()) => assert!(rt; goes),
            Err(fault) => {
                assert!(rt; !goes);
                assert_eq!(rt; fault, TreeFault::Cycle);
            }
        }
        assert!(rt; !page.spent());
        assert!(rt; parent < page.count());
        same(&rt, &page.children(NodeId::of(parent))?, children);
        same(&rt, &page.in_order()?, order);
    }
    Ok(())
}

#[test]
fn depth_ends_at_200(rt: HostRuntime) -> Result<(), Fail> {
    let mut page = Document::new(rt.alloc(), "html")?;
    for number in 1..201 {
        assert!(rt; !page.spent());
        page.add_element("p")?;
        let goes = number < 200;
        match moved(&rt, &mut page, number, number - 1, 0) {
            Ok(()) => assert!(rt; goes),
            Err(fault) => {
                assert!(rt; !goes);
                assert_eq!(rt; fault, TreeFault::Depth);
            }
        }
    }
    assert!(rt; !page.spent());
    assert_eq!(rt; page.count(), 201);
    assert_eq!(rt; page.in_order()?.len(), 200);
    assert!(rt; page.connected(NodeId::of(199)));
    assert!(rt; !page.connected(NodeId::of(200)));
    Ok(())
}

#[test]
fn depth_counts_what_is_below(rt: HostRuntime) -> Result<(), Fail> {
    let mut page = Document::new(rt.alloc(), "html")?;
    // node 197 stands at depth 198
    for number in 1..198 {
        assert!(rt; !page.spent());
        page.add_element("p")?;
        moved(&rt, &mut page, number, number - 1, 0)?;
    }
    // a host with a text in its shadow tree has three levels
    assert!(rt; !page.spent());
    let host = page.add_element("p")?;
    assert!(rt; page.tag(host).is_some());
    assert!(rt; page.shadow_of(host).is_none());
    page.add_shadow(host)?;
    assert!(rt; !page.spent());
    page.add_text("x")?;
    moved(&rt, &mut page, 200, 199, 0)?;
    match moved(&rt, &mut page, 198, 197, 0) {
        Ok(()) => assert!(rt; false),
        Err(fault) => assert_eq!(rt; fault, TreeFault::Depth),
    }
    moved(&rt, &mut page, 198, 196, 0)?;
    assert!(rt; !page.spent());
    assert!(rt; page.count() == 201);
    assert!(rt; page.connected(NodeId::of(200)));
    Ok(())
}
