//! The limits of pages and sites in depth, nodes, timers and bytes, as tests.

use crate::told::told;
use std::alloc::{AllocError, Global};
use std::process::Abort;
use std::test::Fail;

const SITE: &str = r#"{"wdsite":1,"start":"http://a.test/","pages":[["http://a.test/","a.json"]]}"#;

/// Four pages, of which the last has a file of its own.
const FOUR: &str =
    r#"{"wdsite":1,"start":"http://a.test/","pages":[["http://a.test/","a.json"],["http://b.test/","a.json"],["http://c.test/","a.json"],["http://d.test/","d.json"]]}"#;

const PAGE: &str = r#"{"wdpage":1,"nodes":[{"tag":"html"}]}"#;

/// The most bytes of a file, and of all files of a site together.
const FILE_LIMIT: usize = 8_388_608;

const FILES_LIMIT: usize = 33_554_432;

/// A text with spaces behind it, so that it has so many bytes.
fn padded(alloc: Global, text: &str, size: usize) -> Result<String, AllocError> {
    let mut whole = String::from_str(alloc, text)?;
    for _ in text.len()..size {
        whole.push(' ')?;
    }
    Ok(whole)
}

/// A page of so many nodes, each of them in the one before it.
fn nested(alloc: Global, count: u32) -> Result<String, AllocError> {
    let mut page = String::from_str(alloc, r#"{"wdpage":1,"nodes":[{"tag":"html"}"#)?;
    for up in 0..count.saturating_sub(1) {
        let node = format!(in alloc; ",{{\"tag\":\"i\",\"up\":{up}}}")?;
        page.push_str(node.as_str())?;
    }
    page.push_str("]}")?;
    Ok(page)
}

/// A text, so many times a piece, and a text.
fn repeated(
    alloc: Global,
    front: &str,
    piece: &str,
    count: u32,
    back: &str,
) -> Result<String, AllocError> {
    let mut whole = String::from_str(alloc, front)?;
    for _ in 0..count {
        whole.push_str(piece)?;
    }
    whole.push_str(back)?;
    Ok(whole)
}

/// What a run over a site of this one page told, which is handed in as it was made.
fn page_is_told(
    rt: &impl Abort,
    alloc: Global,
    page: Result<String, AllocError>,
    expected: &str,
) -> Result<(), Fail> {
    let page = page?;
    let files = [("a.site", SITE), ("a.json", page.as_str())];
    let found = told(alloc, &["pipe", "a.site"], &files, None)?;
    assert_eq!(rt; found.as_str(), expected);
    Ok(())
}

#[test]
fn nodes_stand_at_depth_200_at_most(rt: HostRuntime) -> Result<(), Fail> {
    let alloc = rt.alloc();
    page_is_told(&rt, alloc, nested(alloc, 200), "0 ")?;
    page_is_told(
        &rt,
        alloc,
        nested(alloc, 201),
        "3 webdriverd: a.json: row 200: depth\n",
    )
}

#[test]
fn a_page_has_50000_nodes_at_most(rt: HostRuntime) -> Result<(), Fail> {
    let alloc = rt.alloc();
    let front = r#"{"wdpage":1,"nodes":[{"tag":"html"}"#;
    let node = r#",{"text":"","up":0}"#;
    page_is_told(&rt, alloc, repeated(alloc, front, node, 49_999, "]}"), "0 ")?;
    page_is_told(
        &rt,
        alloc,
        repeated(alloc, front, node, 50_000, "]}"),
        "3 webdriverd: a.json: row 50000: nodes\n",
    )
}

#[test]
fn a_page_has_1000_timers_at_most(rt: HostRuntime) -> Result<(), Fail> {
    let alloc = rt.alloc();
    let front = r#"{"wdpage":1,"nodes":[{"tag":"html"}],"timers":[{"at":1,"do":[]}"#;
    let timer = r#",{"at":1,"do":[]}"#;
    page_is_told(&rt, alloc, repeated(alloc, front, timer, 999, "]}"), "0 ")?;
    page_is_told(
        &rt,
        alloc,
        repeated(alloc, front, timer, 1000, "]}"),
        "3 webdriverd: a.json: row 1000: timer\n",
    )
}

/// A page in its own frame stands at eight depths, and a blank page with three nodes in the last.
#[test]
fn a_page_with_its_frames_has_100000_nodes_at_most(rt: HostRuntime) -> Result<(), Fail> {
    let alloc = rt.alloc();
    let front =
        r#"{"wdpage":1,"nodes":[{"tag":"html"},{"tag":"iframe","up":0,"attrs":{"src":"/"}}"#;
    let node = r#",{"text":"","up":0}"#;
    page_is_told(&rt, alloc, repeated(alloc, front, node, 12_497, "]}"), "0 ")?;
    page_is_told(
        &rt,
        alloc,
        repeated(alloc, front, node, 12_498, "]}"),
        "3 webdriverd: a.json: row 0: weight\n",
    )
}

#[test]
fn a_file_has_so_many_bytes_at_most(rt: HostRuntime) -> Result<(), Fail> {
    let alloc = rt.alloc();
    page_is_told(&rt, alloc, padded(alloc, PAGE, FILE_LIMIT), "0 ")?;
    page_is_told(
        &rt,
        alloc,
        padded(alloc, PAGE, FILE_LIMIT + 1),
        "3 webdriverd: a.json: too long\n",
    )
}

#[test]
fn the_files_together_have_so_many_bytes_at_most(rt: HostRuntime) -> Result<(), Fail> {
    let alloc = rt.alloc();
    let page = padded(alloc, PAGE, FILE_LIMIT)?;
    let left = FILES_LIMIT - 3 * FILE_LIMIT - FOUR.len();
    for (size, expected) in [(left, "0 "), (left + 1, "3 webdriverd: d.json: too long\n")] {
        let last = padded(alloc, PAGE, size)?;
        let files = [
            ("a.site", FOUR),
            ("a.json", page.as_str()),
            ("d.json", last.as_str()),
        ];
        let found = told(alloc, &["pipe", "a.site"], &files, None)?;
        assert_eq!(rt; found.as_str(), expected);
    }
    Ok(())
}
