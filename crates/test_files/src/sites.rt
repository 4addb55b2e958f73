//! What `read_site` answers for sites in memory: good ones and each fault, as tests.

use page_file::{SiteFault, read_site};
use std::alloc::Global;
use std::test::Fail;
use timed::{Named, in_memory};

/// The file of a site with two pages, and what stands in front of a page's further members.
const TWO: &str =
    r#"{"wdsite":1,"start":"http://w.test/","pages":[["http://w.test/","a.json"],["http://w.test/b","b.json"]]}"#;

/// A page with nothing on it.
const BARE: &str = r#"{"wdpage":1,"nodes":[{"tag":"html"}]}"#;

/// The file of a site, those of its pages `a.json` and `b.json`, and what it is told as.
type Row = (&'static str, &'static str, &'static str, &'static str);

/// Sites that are good, and one for each word and each place of a fault.
const SITES: &[Row] = &[
    (TWO, BARE, BARE, "2 pages, start 0"),
    (
        r#"{"wdsite":1,"start":"http://w.test:80/b","pages":[["http://w.test/","a.json"],["HTTP://w.test/b","a.json"]]}"#,
        BARE,
        "",
        "2 pages, start 1",
    ),
    ("", BARE, BARE, "w.site: row 0: json"),
    (r#"{"wdsite":1.0}"#, BARE, BARE, "w.site: row 0: json"),
    (TWO, "[", BARE, "a.json: row 0: json"),
    (r#"{"wdsite":1}"#, BARE, BARE, "w.site: row 0: shape"),
    (
        r#"{"wdsite":1,"start":"http://w.test/","pages":[["http://w.test/","a.json"]],"title":""}"#,
        BARE,
        BARE,
        "w.site: row 0: shape",
    ),
    (
        r#"{"wdsite":1,"start":"http://w.test/","pages":[]}"#,
        BARE,
        BARE,
        "w.site: row 0: shape",
    ),
    (
        TWO,
        r#"{"wdpage":1,"nodes":[]}"#,
        BARE,
        "a.json: row 0: shape",
    ),
    (
        r#"{"wdsite":1,"start":"http://w.test/","pages":[["http://w.test/","a.json"],["http://w.test:80/","b.json"]]}"#,
        BARE,
        BARE,
        "w.site: row 1: address",
    ),
    (
        r##"{"wdsite":1,"start":"no","pages":[["http://w.test/","a.json"],["http://w.test/b#c","b.json"]]}"##,
        BARE,
        BARE,
        "w.site: row 1: address",
    ),
    (
        r#"{"wdsite":1,"start":"about:blank","pages":[["http://w.test/","a.json"]]}"#,
        BARE,
        BARE,
        "w.site: row 1: address",
    ),
    (
        TWO,
        r#"{"wdpage":1,"nodes":[{"tag":"html"},{"tag":"p","up":0,"box":null}]}"#,
        "[]",
        "a.json: row 1: node",
    ),
    (
        TWO,
        BARE,
        r#"{"wdpage":1,"nodes":[{"tag":"html","on":{"tap":[]}}]}"#,
        "b.json: row 0: effect",
    ),
    (
        TWO,
        r#"{"wdpage":1,"nodes":[{"tag":"html"}],"timers":[{"at":1,"do":[]},{"at":0,"do":[]}]}"#,
        BARE,
        "a.json: row 1: timer",
    ),
    (
        TWO,
        r#"{"wdpage":1,"nodes":[{"tag":"html"}],"scripts":[{}]}"#,
        BARE,
        "a.json: row 0: script",
    ),
    (TWO, "[]", "-", "a.json: row 0: shape"),
    ("[]", "-", "-", "w.site: row 0: shape"),
];

/// Five frames of the same page in one another, which are too heavy.
const HEAVY: &str =
    r#"{"wdpage":1,"nodes":[{"tag":"html"},{"tag":"iframe","up":0,"attrs":{"src":"/"}},{"tag":"iframe","up":0,"attrs":{"src":"/"}},{"tag":"iframe","up":0,"attrs":{"src":"/"}},{"tag":"iframe","up":0,"attrs":{"src":"/"}},{"tag":"iframe","up":0,"attrs":{"src":"/#top"}}]}"#;

/// Where pages lead, and how heavy they are.
const LINKS: &[Row] = &[
    (
        TWO,
        r#"{"wdpage":1,"nodes":[{"tag":"html"},{"tag":"iframe","up":0},{"tag":"iframe","up":null,"attrs":{"src":"b#x"}}]}"#,
        r#"{"wdpage":1,"nodes":[{"tag":"html","on":{"click":[["go","about:blank"],["open","//w.test"]]}}]}"#,
        "2 pages, start 0",
    ),
    (
        TWO,
        BARE,
        r#"{"wdpage":1,"nodes":[{"tag":"html"},{"tag":"iframe","up":0,"attrs":{"src":"/c"}}]}"#,
        "b.json: links",
    ),
    (
        TWO,
        r#"{"wdpage":1,"nodes":[{"tag":"html","on":{"blur":[["after",1,[["go","/B"]]]]}}]}"#,
        BARE,
        "a.json: links",
    ),
    (
        TWO,
        r#"{"wdpage":1,"nodes":[{"tag":"html"}],"timers":[{"at":1,"do":[["prompt","alert","","",[],[["open","http://"]]]]}]}"#,
        BARE,
        "a.json: links",
    ),
    (
        TWO,
        r#"{"wdpage":1,"nodes":[{"tag":"html"}],"scripts":[{"script":"s","cells":[["null"]],"root":0,"effects":[["go","?q"]]}]}"#,
        BARE,
        "a.json: links",
    ),
    (TWO, HEAVY, BARE, "a.json: row 0: weight"),
    (
        TWO,
        HEAVY,
        r#"{"wdpage":1,"nodes":[{"tag":"html","on":{"click":[["go","/c"]]}}]}"#,
        "b.json: links",
    ),
];

/// What the site is told as that these files spell, where the read of this number fails.
fn told_of(alloc: Global, files: &[Named], failing: Option<u64>) -> Result<String, Fail> {
    let mut files = in_memory(alloc, files, failing)?;
    match read_site(alloc, &mut files, "w.site") {
        Ok(site) => {
            let start = site.start;
            let pages = site.pages.len();
            Ok(format!(in alloc; "{pages} pages, start {start}")?)
        }
        Err(fault) => Ok(format!(in alloc; "{fault}")?),
    }
}

/// What the site of that file and two pages is told as.
fn told(alloc: Global, site: &str, a: &str, b: &str) -> Result<String, Fail> {
    told_of(
        alloc,
        &[("w.site", site), ("a.json", a), ("b.json", b)],
        None,
    )
}

/// The first row that is told as something else, with what it was told as; empty where there is none.
fn differing(alloc: Global, rows: &[Row]) -> Result<String, Fail> {
    for row in rows {
        let answer = told(alloc, row.0, row.1, row.2)?;
        if answer.as_str() != row.3 {
            let expected = row.3;
            return Ok(format!(in alloc; "{answer} in place of {expected}")?);
        }
    }
    Ok(String::new(alloc))
}

#[test]
fn sites_are_told(rt: HostRuntime) -> Result<(), Fail> {
    assert_eq!(rt; differing(rt.alloc(), SITES)?.as_str(), "");
    Ok(())
}

#[test]
fn links_and_weights_are_told(rt: HostRuntime) -> Result<(), Fail> {
    assert_eq!(rt; differing(rt.alloc(), LINKS)?.as_str(), "");
    Ok(())
}

/// What a good site is told as, where the read of this number fails.
fn failing(alloc: Global, fails: u64) -> Result<String, Fail> {
    told_of(
        alloc,
        &[("w.site", TWO), ("a.json", BARE), ("b.json", BARE)],
        Some(fails),
    )
}

/// What a site is told as whose second page has no file.
fn missing(alloc: Global, first: &str) -> Result<String, Fail> {
    told_of(alloc, &[("w.site", TWO), ("a.json", first)], None)
}

#[test]
fn reads_that_fail_are_told(rt: HostRuntime) -> Result<(), Fail> {
    let alloc = rt.alloc();
    assert_eq!(rt; failing(alloc, 1)?.as_str(), "file fault");
    assert_eq!(rt; failing(alloc, 3)?.as_str(), "file fault");
    assert_eq!(rt; failing(alloc, 4)?.as_str(), "2 pages, start 0");
    assert_eq!(rt; missing(alloc, BARE)?.as_str(), "file fault");
    assert_eq!(rt; missing(alloc, "[]")?.as_str(), "a.json: row 0: shape");
    Ok(())
}

#[test]
fn the_fault_of_memory_is_told(rt: HostRuntime) -> Result<(), Fail> {
    let fault = SiteFault::Memory;
    assert_eq!(rt;
        format!(in rt.alloc(); "{fault}")?.as_str(),
        "out of memory"
    );
    Ok(())
}
