//! The two pages on which selectors are tested.

use page_tree::Document;
use std::alloc::Global;
use std::process::Abort;
use std::test::Fail;
use wd_json::NodeId;

/// Adds an element with an attribute, or where there is no tag a text, last under a node if there is one.
fn add(
    rt: &impl Abort,
    page: &mut Document,
    tag: &str,
    up: Option<u32>,
    name: &str,
    value: &str,
) -> Result<(), Fail> {
    assert!(rt; !page.spent());
    let node = if tag.is_empty() {
        page.add_text(value)?
    } else {
        page.add_element(tag)?
    };
    if !name.is_empty() {
        set(rt, page, node.number(), name, value)?;
    }
    if let Some(up) = up {
        assert!(rt; !page.spent());
        assert!(rt; 0 < node.number());
        assert!(rt; node.number() < page.count());
        assert!(rt; up < page.count());
        assert!(rt; !page.is_shadow(node));
        assert!(rt; page.text(NodeId::of(up)).is_none());
        page.insert(node, NodeId::of(up), 1000)?;
    }
    Ok(())
}

fn set(
    rt: &impl Abort,
    page: &mut Document,
    node: u32,
    name: &str,
    value: &str,
) -> Result<(), Fail> {
    let node = NodeId::of(node);
    assert!(rt; !page.spent());
    assert!(rt; node.number() < page.count());
    assert!(rt; page.tag(node).is_some());
    page.set_attr(node, name, Some(value))?;
    Ok(())
}

/// A page with a shadow tree, 16 and 17, whose host is 6, and with 9 standing alone.
pub fn worked_page(rt: &impl Abort, alloc: Global) -> Result<Document, Fail> {
    let mut page = Document::new(alloc, "html")?;
    let rows = [
        ("body", Some(0), "", ""),
        ("p", Some(1), "id", "a1b"),
        ("", Some(2), "", "one  two"),
        ("button", Some(1), "id", "out"),
        ("button", Some(1), "id", "in"),
        ("div", Some(1), "id", "under"),
        ("div", Some(1), "id", "over"),
        ("i", Some(1), "id", "thin"),
        ("em", None, "id", "late"),
        ("input", Some(1), "id", "1x"),
        ("button", Some(1), "id", "ask"),
        ("nav", Some(1), "", ""),
        ("ul", Some(12), "", ""),
        ("ul", Some(13), "", ""),
        ("li", Some(14), "", ""),
    ];
    for (tag, up, name, value) in rows {
        add(rt, &mut page, tag, up, name, value)?;
    }
    let host = NodeId::of(6);
    assert!(rt; !page.spent());
    assert!(rt; host.number() < page.count());
    assert!(rt; page.tag(host).is_some());
    assert!(rt; page.shadow_of(host).is_none());
    page.add_shadow(host)?;
    add(rt, &mut page, "b", Some(16), "id", "deep")?;
    Ok(page)
}

/// A page with classes, a text between elements, empty elements and a form.
pub fn second_page(rt: &impl Abort, alloc: Global) -> Result<Document, Fail> {
    let mut page = Document::new(alloc, "html")?;
    let rows = [
        ("body", Some(0), "", ""),
        ("p", Some(1), "class", "a\tb c"),
        ("", Some(1), "", "x"),
        ("p", Some(1), "class", "ab"),
        ("DIV", Some(1), "", ""),
        ("", Some(5), "", ""),
        ("p", Some(1), "class", "c"),
        ("fieldset", Some(1), "disabled", ""),
        ("input", Some(8), "type", "checkbox"),
        ("form", Some(8), "", ""),
        ("button", Some(10), "", ""),
        ("select", Some(10), "", ""),
        ("option", Some(12), "", ""),
        ("select", Some(1), "disabled", "x"),
        ("optgroup", Some(14), "", ""),
        ("option", Some(15), "", ""),
        ("input", Some(1), "type", "CHECKBOX"),
        ("input", Some(1), "type", "radio"),
    ];
    for (tag, up, name, value) in rows {
        add(rt, &mut page, tag, up, name, value)?;
    }
    set(rt, &mut page, 7, "Class", "z")?;
    set(rt, &mut page, 2, "lang", "en")?;
    set(rt, &mut page, 4, "lang", "en-GB")?;
    for node in [9, 13, 17, 18] {
        assert!(rt; !page.spent());
        assert!(rt; node < page.count());
        assert!(rt; page.tag(NodeId::of(node)).is_some());
        page.set_checked(NodeId::of(node), true);
    }
    Ok(page)
}
