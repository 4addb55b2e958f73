//! What selectors name on two pages, by combinators, places, scopes and attributes: as tests.

use crate::pages::{second_page, worked_page};
use crate::pieces::{Piece, built};
use page_tree::Document;
use selectors::{Combinator, Scope, Test, first, nth_is_exact, select};
use std::alloc::Global;
use std::process::Abort;
use std::test::Fail;
use wd_json::{NodeId, NodeList};

fn same(rt: &impl Abort, list: &NodeList, expected: &[u32]) {
    let list = list.as_slice();
    assert_eq!(rt; list.len(), expected.len());
    for (node, number) in list.iter().zip(expected) {
        assert_eq!(rt; node.number(), *number);
    }
}

/// Compares `select` and `first` with the expected nodes.
fn names(
    rt: &impl Abort,
    alloc: Global,
    page: &Document,
    scope: Scope,
    pieces: &[Piece],
    expected: &[u32],
) -> Result<(), Fail> {
    let selector = built(alloc, pieces)?;
    assert!(rt; !page.spent());
    if let Scope::Under(node) = scope {
        assert!(rt; node.number() < page.count());
    }
    same(rt, &select(alloc, page, scope, &selector)?, expected);
    let found = first(alloc, page, scope, &selector)?;
    assert_eq!(rt; found, expected.first().map(|number| NodeId::of(*number)));
    Ok(())
}

const ALL: &[u32] = &[0, 1, 2, 4, 5, 6, 7, 8, 10, 11, 12, 13, 14, 15];

const CHILD: Piece = Piece::Join(Combinator::Child);

const BELOW: Piece = Piece::Join(Combinator::Descendant);

const NEXT: Piece = Piece::Join(Combinator::Next);

const LATER: Piece = Piece::Join(Combinator::Later);

const NAMES_AND_COMBINATORS: [(&[Piece], &[u32]); 24] = [
    (&[Piece::Any], ALL),
    (&[Piece::Tag("button")], &[4, 5, 11]),
    (&[Piece::Tag("BUTTON")], &[4, 5, 11]),
    (&[Piece::Id("out")], &[4]),
    (&[Piece::Id("OUT")], &[]),
    (&[Piece::Id("1x")], &[10]),
    (&[Piece::Id("late")], &[]),
    (&[Piece::Id("deep")], &[]),
    (
        &[
            Piece::Tag("nav"),
            CHILD,
            Piece::Tag("ul"),
            BELOW,
            Piece::Tag("li"),
        ],
        &[15],
    ),
    (&[Piece::Tag("nav"), BELOW, Piece::Tag("ul")], &[13, 14]),
    (&[Piece::Tag("ul"), BELOW, Piece::Tag("ul")], &[14]),
    (&[Piece::Tag("nav"), CHILD, Piece::Tag("li")], &[]),
    (&[Piece::Tag("ul"), CHILD, Piece::Tag("li")], &[15]),
    (&[Piece::Tag("p"), NEXT, Piece::Tag("button")], &[4]),
    (&[Piece::Tag("button"), NEXT, Piece::Tag("button")], &[5]),
    (&[Piece::Tag("p"), LATER, Piece::Tag("button")], &[4, 5, 11]),
    (&[Piece::Tag("button"), LATER, Piece::Tag("div")], &[6, 7]),
    (&[Piece::Tag("div"), NEXT, Piece::Tag("i")], &[8]),
    (&[Piece::Tag("p"), NEXT, Piece::Tag("div")], &[]),
    (
        &[
            Piece::Tag("html"),
            BELOW,
            Piece::Tag("body"),
            BELOW,
            Piece::Tag("nav"),
        ],
        &[12],
    ),
    (&[Piece::Tag("html"), CHILD, Piece::Tag("nav")], &[]),
    (
        &[Piece::Tag("button"), Piece::Or, Piece::Tag("p")],
        &[2, 4, 5, 11],
    ),
    (&[Piece::Tag("p"), Piece::Or, Piece::Tag("p")], &[2]),
    (
        &[
            Piece::Tag("button"),
            Piece::Or,
            Piece::Any,
            Piece::NotTag("button"),
        ],
        ALL,
    ),
];

#[test]
fn the_worked_page_by_names_and_combinators(rt: HostRuntime) -> Result<(), Fail> {
    let page = worked_page(&rt, rt.alloc())?;
    for (pieces, expected) in NAMES_AND_COMBINATORS {
        names(&rt, rt.alloc(), &page, Scope::Document, pieces, expected)?;
    }
    Ok(())
}

const PLACES: [(&[Piece], &[u32]); 20] = [
    (&[Piece::FirstChild], &[0, 1, 2, 13, 14, 15]),
    (&[Piece::LastChild], &[0, 1, 12, 13, 14, 15]),
    (&[Piece::Tag("body"), CHILD, Piece::FirstChild], &[2]),
    (&[Piece::Tag("body"), CHILD, Piece::Nth(0, 2)], &[4]),
    (
        &[Piece::Tag("body"), CHILD, Piece::Nth(2, 0)],
        &[4, 6, 8, 11],
    ),
    (
        &[Piece::Tag("body"), CHILD, Piece::Nth(2, 1)],
        &[2, 5, 7, 10, 12],
    ),
    (&[Piece::Tag("body"), CHILD, Piece::Nth(-1, 3)], &[2, 4, 5]),
    (&[Piece::Tag("body"), CHILD, Piece::Nth(3, -1)], &[4, 7, 11]),
    (&[Piece::Tag("body"), CHILD, Piece::Nth(-2, 5)], &[2, 5, 7]),
    (&[Piece::Nth(0, 1)], &[0, 1, 2, 13, 14, 15]),
    (&[Piece::Nth(1, 0)], ALL),
    (&[Piece::Nth(-1, 0)], &[]),
    (&[Piece::Nth(-999_999_999, -999_999_999)], &[]),
    (&[Piece::Root], &[0]),
    (&[Piece::Empty], &[4, 5, 6, 7, 8, 10, 11, 15]),
    (
        &[Piece::Tag("body"), CHILD, Piece::NotTag("button")],
        &[2, 6, 7, 8, 10, 12],
    ),
    (&[Piece::Enabled], &[4, 5, 10, 11]),
    (&[Piece::Disabled], &[]),
    (&[Piece::Checked], &[]),
    (&[Piece::Root, CHILD, Piece::Any], &[1]),
];

#[test]
fn the_worked_page_by_places(rt: HostRuntime) -> Result<(), Fail> {
    let page = worked_page(&rt, rt.alloc())?;
    for (pieces, expected) in PLACES {
        names(&rt, rt.alloc(), &page, Scope::Document, pieces, expected)?;
    }
    nth_is_exact();
    Ok(())
}

/// The scope, the selector, the nodes: 6 is a host, 16 its shadow root, 9 stands alone.
const SCOPES: [(u32, &[Piece], &[u32]); 14] = [
    (12, &[Piece::Tag("ul")], &[13, 14]),
    (13, &[Piece::Tag("ul")], &[14]),
    (12, &[Piece::Tag("nav")], &[]),
    (
        14,
        &[
            Piece::Tag("nav"),
            CHILD,
            Piece::Tag("ul"),
            BELOW,
            Piece::Tag("li"),
        ],
        &[15],
    ),
    (0, &[Piece::Tag("button")], &[4, 5, 11]),
    (16, &[Piece::Tag("b")], &[17]),
    (16, &[Piece::Id("deep")], &[17]),
    (16, &[Piece::Tag("div"), BELOW, Piece::Tag("b")], &[]),
    (16, &[Piece::FirstChild], &[17]),
    (9, &[Piece::Any], &[]),
    (6, &[Piece::Tag("b")], &[]),
    (1, &[Piece::Tag("b"), Piece::Or, Piece::Tag("li")], &[15]),
    (1, &[Piece::Tag("body"), Piece::Or, Piece::Tag("i")], &[8]),
    (17, &[Piece::Any], &[]),
];

#[test]
fn scopes(rt: HostRuntime) -> Result<(), Fail> {
    let page = worked_page(&rt, rt.alloc())?;
    for (node, pieces, expected) in SCOPES {
        names(
            &rt,
            rt.alloc(),
            &page,
            Scope::Under(NodeId::of(node)),
            pieces,
            expected,
        )?;
    }
    Ok(())
}

const CLASSES_TEXTS_AND_FORMS: [(&[Piece], &[u32]); 25] = [
    (&[Piece::Class("a")], &[2]),
    (&[Piece::Class("b")], &[2]),
    (&[Piece::Class("ab")], &[4]),
    (&[Piece::Class("A")], &[]),
    (&[Piece::Class("c")], &[2, 7]),
    (&[Piece::Class("z")], &[]),
    (&[Piece::Tag("div")], &[5]),
    (&[Piece::Tag("p"), NEXT, Piece::Tag("p")], &[4]),
    (&[Piece::Tag("p"), NEXT, Piece::Tag("div")], &[5]),
    (&[Piece::Tag("div"), NEXT, Piece::Tag("p")], &[7]),
    (&[Piece::Tag("p"), LATER, Piece::Tag("p")], &[4, 7]),
    (&[Piece::Class("a"), Piece::Class("c")], &[2]),
    (&[Piece::Tag("p"), Piece::Class("c")], &[2, 7]),
    (&[Piece::Tag("p"), Piece::NotClass("c")], &[4]),
    (&[Piece::Tag("p"), Piece::Empty], &[2, 4, 7]),
    (&[Piece::Tag("div"), Piece::Empty], &[5]),
    (&[Piece::Tag("body"), Piece::Empty], &[]),
    (&[Piece::Disabled], &[8, 9, 11, 12, 13, 14, 16]),
    (&[Piece::Enabled], &[15, 17, 18]),
    (&[Piece::Checked], &[9, 13, 18]),
    (
        &[Piece::Tag("fieldset"), BELOW, Piece::Tag("option")],
        &[13],
    ),
    (&[Piece::Tag("select"), CHILD, Piece::Tag("option")], &[13]),
    (
        &[Piece::Tag("select"), BELOW, Piece::Tag("option")],
        &[13, 16],
    ),
    (&[Piece::Class("c"), Piece::Or, Piece::Class("a")], &[2, 7]),
    (
        &[Piece::Tag("option"), Piece::Or, Piece::Tag("select")],
        &[12, 13, 14, 16],
    ),
];

#[test]
fn classes_texts_and_forms(rt: HostRuntime) -> Result<(), Fail> {
    let page = second_page(&rt, rt.alloc())?;
    for (pieces, expected) in CLASSES_TEXTS_AND_FORMS {
        names(&rt, rt.alloc(), &page, Scope::Document, pieces, expected)?;
    }
    Ok(())
}

#[test]
fn attributes_of_the_worked_page(rt: HostRuntime) -> Result<(), Fail> {
    let page = worked_page(&rt, rt.alloc())?;
    let rows: [(&[Piece], &[u32]); 15] = [
        (&[Piece::Has("id")], &[2, 4, 5, 6, 7, 8, 10, 11]),
        (&[Piece::Has("ID")], &[2, 4, 5, 6, 7, 8, 10, 11]),
        (&[Piece::Has("name")], &[]),
        (&[Piece::Attr("id", Test::Equal, "out")], &[4]),
        (&[Piece::Attr("iD", Test::Equal, "a1b")], &[2]),
        (&[Piece::Attr("id", Test::Equal, "OUT")], &[]),
        (&[Piece::Attr("id", Test::Starts, "o")], &[4, 7]),
        (&[Piece::Attr("id", Test::Ends, "n")], &[5, 8]),
        (&[Piece::Attr("id", Test::Holds, "e")], &[6, 7]),
        (&[Piece::Attr("id", Test::Starts, "")], &[]),
        (&[Piece::Attr("id", Test::Ends, "")], &[]),
        (&[Piece::Attr("id", Test::Holds, "")], &[]),
        (&[Piece::Attr("id", Test::Word, "in")], &[5]),
        (&[Piece::Attr("id", Test::Dash, "a1b")], &[2]),
        (&[Piece::Attr("id", Test::Dash, "a")], &[]),
    ];
    for (pieces, expected) in rows {
        names(&rt, rt.alloc(), &page, Scope::Document, pieces, expected)?;
    }
    Ok(())
}

#[test]
fn attributes_of_the_second_page(rt: HostRuntime) -> Result<(), Fail> {
    let page = second_page(&rt, rt.alloc())?;
    let rows: [(&[Piece], &[u32]); 14] = [
        (&[Piece::Attr("class", Test::Word, "b")], &[2]),
        (&[Piece::Attr("class", Test::Word, "a\tb")], &[]),
        (&[Piece::Attr("class", Test::Word, "")], &[]),
        (&[Piece::Attr("class", Test::Equal, "c")], &[7]),
        (&[Piece::Attr("class", Test::Equal, "z")], &[7]),
        (&[Piece::Attr("class", Test::Starts, "a")], &[2, 4]),
        (&[Piece::Has("disabled")], &[8, 14]),
        (&[Piece::Attr("disabled", Test::Equal, "")], &[8]),
        (&[Piece::Attr("disabled", Test::Dash, "")], &[8]),
        (&[Piece::Attr("type", Test::Ends, "BOX")], &[17]),
        (&[Piece::Has("type")], &[9, 17, 18]),
        (&[Piece::Attr("lang", Test::Dash, "en")], &[2, 4]),
        (&[Piece::Attr("lang", Test::Dash, "e")], &[]),
        (
            &[Piece::Tag("p"), Piece::Attr("lang", Test::Holds, "GB")],
            &[4],
        ),
    ];
    for (pieces, expected) in rows {
        names(&rt, rt.alloc(), &page, Scope::Document, pieces, expected)?;
    }
    Ok(())
}
