//! Attributes, shadow roots and texts as leaves of a document, as tests.

use crate::nine_nodes::{element, moved, nine_nodes, same};
use page_tree::Document;
use std::alloc::Global;
use std::process::Abort;
use std::test::Fail;
use wd_json::NodeId;

#[test]
fn attributes_and_shadow_roots(rt: HostRuntime) -> Result<(), Fail> {
    let mut page = Document::new(rt.alloc(), "html")?;
    let root = NodeId::of(0);
    assert!(rt; page.tag(root).is_some());
    page.set_attr(root, "lang", Some("de"))?;
    page.set_attr(root, "class", Some("a b"))?;
    page.set_attr(root, "lang", Some("en"))?;
    page.set_attr(root, "class", None)?;
    assert_eq!(rt; page.attr(root, "lang"), Some("en"));
    assert!(rt; page.attr(root, "class").is_none());
    let all = page.attributes(root);
    assert_eq!(rt; all.len(), 1);
    assert_eq!(rt; all[0].0.as_str(), "lang");
    assert_eq!(rt; all[0].1.as_str(), "en");
    assert!(rt; page.shadow_of(root).is_none());
    let shadow = page.add_shadow(root)?;
    let text = page.add_text("under")?;
    page.insert(text, shadow, 0)?;
    assert_eq!(rt; page.tag(root), Some("html"));
    assert_eq!(rt; page.text(text), Some("under"));
    assert_eq!(rt; page.parent(shadow), Some(root));
    assert!(rt; page.connected(text));
    assert_eq!(rt; page.in_order()?.len(), 1);
    page.remove(text);
    assert!(rt; !page.connected(text));
    Ok(())
}

/// Nine nodes, with 1 in the root, text 6 and the shadow root 9 in 1, and text 7 in 9.
fn with_a_host(rt: &impl Abort, alloc: Global) -> Result<Document, Fail> {
    let mut page = nine_nodes(rt, alloc)?;
    moved(rt, &mut page, 1, 0, 0)?;
    moved(rt, &mut page, 6, 1, 0)?;
    let host = element(rt, &page, 1);
    assert!(rt; page.shadow_of(host).is_none());
    page.add_shadow(host)?;
    moved(rt, &mut page, 7, 9, 0)?;
    Ok(page)
}

/// Attributes of node 1 that are set one after another, or taken away.
const CHANGES: [(&str, Option<&str>); 7] = [
    ("id", Some("a")),
    ("class", Some("b")),
    ("id", Some("c")),
    ("ID", Some("d")),
    ("class", None),
    ("lang", Some("")),
    ("class", Some("e")),
];

#[test]
fn names_of_attributes_differ(rt: HostRuntime) -> Result<(), Fail> {
    let mut page = with_a_host(&rt, rt.alloc())?;
    for (name, value) in CHANGES {
        let host = element(&rt, &page, 1);
        page.set_attr(host, name, value)?;
    }
    let host = element(&rt, &page, 1);
    let attributes = page.attributes(host);
    let expected = [("id", "c"), ("ID", "d"), ("lang", ""), ("class", "e")];
    assert_eq!(rt; attributes.len(), expected.len());
    for (attribute, (name, value)) in attributes.iter().zip(&expected) {
        assert_eq!(rt; attribute.0.as_str(), *name);
        assert_eq!(rt; attribute.1.as_str(), *value);
    }
    Ok(())
}

#[test]
fn texts_are_leaves(rt: HostRuntime) -> Result<(), Fail> {
    let page = with_a_host(&rt, rt.alloc())?;
    for number in 0..10 {
        let node = NodeId::of(number);
        assert!(rt; !page.spent());
        assert!(rt; number < page.count());
        assert_eq!(rt; page.text(node).is_some(), number == 6 || number == 7);
        assert_eq!(rt; page.shadow_of(node).is_some(), number == 1);
        let expected: &[u32] = match number {
            0 => &[1],
            1 => &[6],
            9 => &[7],
            _ => &[],
        };
        same(&rt, &page.children(node)?, expected);
    }
    Ok(())
}
