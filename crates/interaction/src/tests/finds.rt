//! What is found by links, tags and selectors in scopes of one page, as tests.

use crate::tests::pages::{Row, page};
use crate::{By, find};
use page_tree::Document;
use selectors::{Scope, SelFault};
use std::alloc::Global;
use std::process::Abort;
use std::test::Fail;
use wd_json::NodeId;

/// Links: 2 is shown, 5 stands in a host and has a bold part, 7 is hidden, 10 stands in a shadow tree.
const LINKS: [Row<'static>; 13] = [
    (0, "body"),
    (1, "a"),
    (2, "=Home"),
    (1, "div"),
    (4, "a"),
    (5, "= go \n home "),
    (1, "!a"),
    (7, "=Home"),
    (4, "#"),
    (9, "a"),
    (10, "=Home"),
    (5, "b"),
    (12, "=!"),
];

const ALL: Scope = Scope::Document;

/// Where, how and by what is looked for, and what is found.
const FINDS: [(Scope, By, &str, &[u32]); 19] = [
    (ALL, By::Link, "Home", &[2]),
    (ALL, By::Link, "go home !", &[5]),
    (ALL, By::Link, " go \n home ", &[]),
    (ALL, By::Link, "", &[7]),
    (ALL, By::PartialLink, "ome", &[2, 5]),
    (ALL, By::PartialLink, "Home", &[2]),
    (ALL, By::PartialLink, "", &[2, 5, 7]),
    (ALL, By::Tag, "A", &[2, 5, 7]),
    (ALL, By::Tag, ">", &[]),
    (ALL, By::Tag, "*", &[0, 1, 2, 4, 5, 12, 7]),
    (ALL, By::Css, "div a", &[5]),
    (ALL, By::Css, "b, a", &[2, 5, 12, 7]),
    (Scope::Under(NodeId(1)), By::Link, "Home", &[2]),
    (Scope::Under(NodeId(4)), By::Tag, "*", &[5, 12]),
    (Scope::Under(NodeId(5)), By::Tag, "a", &[]),
    (Scope::Under(NodeId(5)), By::Link, "go home !", &[]),
    (Scope::Under(NodeId(5)), By::Css, "a b", &[12]),
    (Scope::Under(NodeId(9)), By::Link, "Home", &[10]),
    (Scope::Under(NodeId(9)), By::Css, "a", &[10]),
];

fn finds(
    rt: &impl Abort,
    alloc: Global,
    page: &Document,
    scope: Scope,
    by: By,
    value: &str,
    expected: &[u32],
) -> Result<(), Fail> {
    assert!(rt; !page.spent());
    if let Scope::Under(node) = scope {
        assert!(rt; node.number() < page.count());
    }
    let found = find(alloc, page, scope, by, value)?;
    let found = found.as_slice();
    assert_eq!(rt; found.len(), expected.len());
    for (node, number) in found.iter().zip(expected) {
        assert_eq!(rt; node.number(), *number);
    }
    Ok(())
}

#[test]
fn links_tags_and_selectors_are_found(rt: HostRuntime) -> Result<(), Fail> {
    let page = page(&rt, rt.alloc(), &LINKS)?;
    for (scope, by, value, expected) in FINDS {
        finds(&rt, rt.alloc(), &page, scope, by, value, expected)?;
    }
    Ok(())
}

#[test]
fn a_text_that_is_no_selector_is_refused(rt: HostRuntime) -> Result<(), Fail> {
    let page = page(&rt, rt.alloc(), &LINKS)?;
    assert!(rt; !page.spent());
    match find(rt.alloc(), &page, ALL, By::Css, ">") {
        Ok(_) => assert!(rt; false),
        Err(fault) => assert_eq!(rt; fault, SelFault::Invalid),
    }
    Ok(())
}
