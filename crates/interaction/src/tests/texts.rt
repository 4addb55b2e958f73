//! The rendered texts of small pages, as a test.

use crate::rendered_text;
use crate::tests::pages::{Row, page};
use std::alloc::Global;
use std::process::Abort;
use std::test::Fail;
use wd_json::{NodeId, WdText};

/// Pages, and the rendered text of each root.
const PAGES: [(&[Row<'static>], &str); 32] = [
    (&[(0, "p"), (1, "=hello")], "hello"),
    (&[(0, "p"), (1, "=  a  b\t\nc ")], "a b c"),
    (&[(0, "p"), (1, "=a"), (0, "p"), (3, "=b")], "a\nb"),
    (&[(0, "span"), (1, "=a"), (0, "span"), (3, "=b")], "ab"),
    (&[(0, "span"), (1, "=a "), (0, "span"), (3, "= b")], "a b"),
    (&[(0, "=a"), (0, "br"), (0, "=b")], "a\nb"),
    (&[(0, "=a"), (0, "br"), (0, "br"), (0, "=b")], "a\nb"),
    (&[(0, "br"), (0, "=a"), (0, "br")], "a"),
    (&[(0, "div"), (1, "div"), (2, "=a")], "a"),
    (&[(0, "div"), (1, "=a"), (0, "=b")], "a\nb"),
    (&[(0, "=a"), (0, "div"), (2, "=b"), (0, "=c")], "a\nb\nc"),
    (&[(0, "=a "), (0, "b"), (2, "=b"), (0, "= c")], "a b c"),
    // what isn't shown is left out, and breaks no line
    (&[(0, "=a"), (0, "!b"), (2, "=x"), (0, "=c")], "ac"),
    (&[(0, "=a"), (0, "!div"), (2, "=x"), (0, "=c")], "ac"),
    (&[(0, "=a"), (0, "script"), (2, "=x"), (0, "=b")], "ab"),
    (&[(0, "div"), (1, "!div"), (2, "p"), (3, "=x")], ""),
    (
        &[(0, "head"), (1, "title"), (2, "=T"), (0, "body"), (4, "=x")],
        "x",
    ),
    // a shadow tree is left out
    (&[(0, "div"), (1, "#"), (2, "b"), (3, "=x"), (1, "=y")], "y"),
    (&[], ""),
    (&[(0, "p"), (1, "= \n ")], ""),
    (
        &[(0, "ul"), (1, "li"), (2, "=a"), (1, "li"), (4, "=b")],
        "a\nb",
    ),
    (
        &[(0, "tr"), (1, "td"), (2, "=1"), (1, "td"), (4, "=2")],
        "1\n2",
    ),
    (
        &[
            (0, "select"),
            (1, "option"),
            (2, "=x"),
            (1, "option"),
            (4, "=y"),
        ],
        "x\ny",
    ),
    (&[(0, "optgroup"), (1, "=a"), (0, "=b")], "ab"),
    (&[(0, "p"), (1, "=\u{a0}a\u{a0}")], "\u{a0}a\u{a0}"),
    (&[(0, "=a"), (0, "br"), (2, "=b")], "a\nb"),
    (&[(0, "pre"), (1, "=a\nb")], "a b"),
    (
        &[(0, "span"), (1, "b"), (2, "=a"), (0, "i"), (4, "= b")],
        "a b",
    ),
    (&[(0, "=a\u{c}\rb")], "a b"),
    (&[(0, "h1"), (1, "=t"), (0, "=x")], "t\nx"),
    (&[(0, "=a\u{b}b")], "a\u{b}b"),
    (&[(0, "=a "), (0, "div"), (2, "=b")], "a\nb"),
];

fn text_of(rt: &impl Abort, alloc: Global, rows: &[Row<'_>]) -> Result<WdText, Fail> {
    let page = page(rt, alloc, rows)?;
    assert!(rt; !page.spent());
    assert!(rt; 0 < page.count());
    Ok(rendered_text(alloc, &page, NodeId::of(0))?)
}

#[test]
fn pages_have_their_texts(rt: HostRuntime) -> Result<(), Fail> {
    for (rows, expected) in PAGES {
        let text = text_of(&rt, rt.alloc(), rows)?;
        assert_eq!(rt; text.as_str(), expected);
    }
    Ok(())
}
