//! Effects that set one field of a node and no other, as a test.

use crate::twelve_nodes::applied;
use page_engine::{Effect, Page};
use page_tree::PixelBox;
use std::alloc::Global;
use std::process::Abort;
use std::test::Fail;
use wd_json::{NodeId, WdText};

/// The effects that set a field of a node.
#[derive(Clone, Copy, Debug, PartialEq, Eq)]
enum Field {
    Attribute,
    NoAttribute,
    Text,
    Pixels,
    NoPixels,
    Layer,
    Hidden,
    Value,
    Checked,
}

/// What the effect sets is always the same: the attribute `a` and every text to `t`, the box to 1, 2, 3, 4, the
/// layer to 5.
fn effect(alloc: Global, field: Field, node: u32) -> Result<Effect, Fail> {
    let text = WdText::of(alloc, "t")?;
    Ok(match field {
        Field::Attribute => Effect::Attr {
            node,
            name: WdText::of(alloc, "a")?,
            value: Some(text),
        },
        Field::NoAttribute => Effect::Attr {
            node,
            name: WdText::of(alloc, "a")?,
            value: None,
        },
        Field::Text => Effect::Text { node, text },
        Field::Pixels => Effect::Pixels {
            node,
            pixels: Some(PixelBox {
                x: 1,
                y: 2,
                w: 3,
                h: 4,
            }),
        },
        Field::NoPixels => Effect::Pixels { node, pixels: None },
        Field::Layer => Effect::Layer { node, layer: 5 },
        Field::Hidden => Effect::Hidden { node, hidden: true },
        Field::Value => Effect::Value { node, text },
        Field::Checked => Effect::Checked {
            node,
            checked: true,
        },
    })
}

/// A row as a text: its tag or its characters, its attribute `a`, its value, whether it is checked, whether it
/// is hidden, its layer, and the width of its box.
fn row(rt: &impl Abort, alloc: Global, page: &Page, number: u32) -> Result<String, Fail> {
    assert!(rt; !page.spent());
    let document = page.document();
    assert!(rt; number < document.count());
    let node = NodeId::of(number);
    let tag = document.tag(node).unwrap_or("-");
    let text = document.text(node).unwrap_or("-");
    let attribute = document.attr(node, "a").unwrap_or("-");
    let value = document.value(node);
    let checked = document.checked(node);
    let hidden = document.hidden(node);
    let layer = document.layer(node);
    let width = match document.pixels(node) {
        Some(pixels) => pixels.w,
        None => 0,
    };
    Ok(format!(in alloc; "{tag} {text} {attribute} {value} {checked} {hidden} {layer} {width}")?)
}

/// The rows before any effect.
const ROWS: [&str; 12] = [
    "html - -  false false 0 0",
    "head - -  false false 0 0",
    "body - -  false false 0 0",
    "p - -  false false 0 0",
    "- one -  false false 0 0",
    "input - -  false false 0 0",
    "div - -  false false 0 0",
    "- - -  false false 0 0",
    "b - -  false false 0 0",
    "em - -  false false 0 0",
    "ul - -  false false 0 0",
    "- x -  false false 0 0",
];

/// Compares all rows: that of one node with a text, the others with what they were before.
fn rows(
    rt: &impl Abort,
    alloc: Global,
    page: &Page,
    changed: u32,
    expected: &str,
) -> Result<(), Fail> {
    for (number, before) in (0u32..).zip(ROWS) {
        let found = row(rt, alloc, page, number)?;
        let wanted = if number == changed { expected } else { before };
        assert_eq!(rt; found.as_str(), wanted);
    }
    Ok(())
}

/// The field, the node, and its row after it: an element, a detached one, a text, a shadow root, no node.
const STEPS: [(Field, u32, &str); 28] = [
    (Field::Attribute, 5, "input - t  false false 0 0"),
    (Field::Attribute, 4, "- one -  false false 0 0"),
    (Field::Attribute, 70, ""),
    (Field::NoAttribute, 5, "input - -  false false 0 0"),
    (Field::NoAttribute, 7, "- - -  false false 0 0"),
    (Field::Text, 4, "- t -  false false 0 0"),
    (Field::Text, 11, "- t -  false false 0 0"),
    (Field::Text, 3, "p - -  false false 0 0"),
    (Field::Text, 7, "- - -  false false 0 0"),
    (Field::Text, 70, ""),
    (Field::Pixels, 9, "em - -  false false 0 3"),
    (Field::Pixels, 4, "- one -  false false 0 0"),
    (Field::Pixels, 70, ""),
    (Field::NoPixels, 5, "input - -  false false 0 0"),
    (Field::Layer, 0, "html - -  false false 5 0"),
    (Field::Layer, 11, "- x -  false false 0 0"),
    (Field::Layer, 70, ""),
    (Field::Hidden, 8, "b - -  false true 0 0"),
    (Field::Hidden, 7, "- - -  false false 0 0"),
    (Field::Hidden, 70, ""),
    (Field::Value, 5, "input - - t false false 0 0"),
    (Field::Value, 10, "ul - - t false false 0 0"),
    (Field::Value, 4, "- one -  false false 0 0"),
    (Field::Value, 70, ""),
    (Field::Checked, 5, "input - -  true false 0 0"),
    (Field::Checked, 4, "- one -  false false 0 0"),
    (Field::Checked, 7, "- - -  false false 0 0"),
    (Field::Checked, 70, ""),
];

#[test]
fn each_field_is_set_where_it_is_and_nowhere_else(rt: HostRuntime) -> Result<(), Fail> {
    let alloc = rt.alloc();
    for (field, node, expected) in STEPS {
        let page = applied(&rt, alloc, effect(alloc, field, node)?)?;
        rows(&rt, alloc, &page, node, expected)?;
    }
    Ok(())
}
