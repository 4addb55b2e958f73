//! What a run tells of a site's file that breaks a rule, is named wrongly or can't be read: as tests.

use crate::told::told;
use std::alloc::Global;
use std::process::Abort;
use std::test::Fail;

const PAGE: &str = r#"{"wdpage":1,"nodes":[{"tag":"html"}]}"#;

const SITE: &str = r#"{"wdsite":1,"start":"http://a.test/","pages":[["http://a.test/","a.json"]]}"#;

/// A page that is no page, and one that leads nowhere.
const BAD_PAGE: &str = r#"{"wdpage":1,"nodes":[]}"#;

const LOST_PAGE: &str =
    r#"{"wdpage":1,"nodes":[{"tag":"html","on":{"click":[["go","http://none.test/"]]}}]}"#;

/// Sites of one good page, and what is told of each.
const SITES: [(&str, &str); 33] = [
    (SITE, "0 "),
    (
        r#"{"pages":[["HTTP://A.test","a.json"],["http://b.test/x","a.json"]],"start":"http://b.test/x","wdsite":1}"#,
        "0 ",
    ),
    ("", "3 webdriverd: s.site: row 0: json\n"),
    (r#"{"wdsite":1"#, "3 webdriverd: s.site: row 0: json\n"),
    (r#"{"wdsite":1e0}"#, "3 webdriverd: s.site: row 0: json\n"),
    ("null", "3 webdriverd: s.site: row 0: shape\n"),
    ("{}", "3 webdriverd: s.site: row 0: shape\n"),
    (
        r#"{"start":"http://a.test/","pages":[["http://a.test/","a.json"]]}"#,
        "3 webdriverd: s.site: row 0: shape\n",
    ),
    (
        r#"{"wdsite":"1","start":"http://a.test/","pages":[["http://a.test/","a.json"]]}"#,
        "3 webdriverd: s.site: row 0: shape\n",
    ),
    (
        r#"{"wdsite":0,"start":"http://a.test/","pages":[["http://a.test/","a.json"]]}"#,
        "3 webdriverd: s.site: row 0: shape\n",
    ),
    (
        r#"{"wdsite":1,"pages":[["http://a.test/","a.json"]]}"#,
        "3 webdriverd: s.site: row 0: shape\n",
    ),
    (
        r#"{"wdsite":1,"start":null,"pages":[["http://a.test/","a.json"]]}"#,
        "3 webdriverd: s.site: row 0: shape\n",
    ),
    (
        r#"{"wdsite":1,"start":"http://a.test/"}"#,
        "3 webdriverd: s.site: row 0: shape\n",
    ),
    (
        r#"{"wdsite":1,"start":"http://a.test/","pages":{}}"#,
        "3 webdriverd: s.site: row 0: shape\n",
    ),
    (
        r#"{"wdsite":1,"start":"http://a.test/","pages":[]}"#,
        "3 webdriverd: s.site: row 0: shape\n",
    ),
    (
        r#"{"wdsite":1,"start":"http://a.test/","pages":[["http://a.test/","a.json"]],"name":"a"}"#,
        "3 webdriverd: s.site: row 0: shape\n",
    ),
    (
        r#"{"wdsite":1,"start":"http://a.test/","pages":[1]}"#,
        "3 webdriverd: s.site: row 0: address\n",
    ),
    (
        r#"{"wdsite":1,"start":"http://a.test/","pages":[[]]}"#,
        "3 webdriverd: s.site: row 0: address\n",
    ),
    (
        r#"{"wdsite":1,"start":"http://a.test/","pages":[["http://a.test/"]]}"#,
        "3 webdriverd: s.site: row 0: address\n",
    ),
    (
        r#"{"wdsite":1,"start":"http://a.test/","pages":[["http://a.test/","a.json","b"]]}"#,
        "3 webdriverd: s.site: row 0: address\n",
    ),
    (
        r#"{"wdsite":1,"start":"http://a.test/","pages":[["http://a.test/",1]]}"#,
        "3 webdriverd: s.site: row 0: address\n",
    ),
    (
        r#"{"wdsite":1,"start":"http://a.test/","pages":[["http://a.test/","a.json"],["b","a.json"]]}"#,
        "3 webdriverd: s.site: row 1: address\n",
    ),
    (
        r#"{"wdsite":1,"start":"http://a.test/","pages":[["http://a.test/","a.json"],["","a.json"]]}"#,
        "3 webdriverd: s.site: row 1: address\n",
    ),
    (
        r##"{"wdsite":1,"start":"http://a.test/","pages":[["http://a.test/","a.json"],["http://b.test/#c","a.json"]]}"##,
        "3 webdriverd: s.site: row 1: address\n",
    ),
    (
        r##"{"wdsite":1,"start":"http://a.test/","pages":[["http://a.test/","a.json"],["http://b.test/#","a.json"]]}"##,
        "3 webdriverd: s.site: row 1: address\n",
    ),
    (
        r#"{"wdsite":1,"start":"http://a.test/","pages":[["http://a.test/","a.json"],["about:blank","a.json"]]}"#,
        "3 webdriverd: s.site: row 1: address\n",
    ),
    (
        r#"{"wdsite":1,"start":"http://a.test/","pages":[["http://a.test/","a.json"],["HTTP://A.TEST:80","a.json"]]}"#,
        "3 webdriverd: s.site: row 1: address\n",
    ),
    (
        r#"{"wdsite":1,"start":"http://b.test/","pages":[["http://a.test/","a.json"]]}"#,
        "3 webdriverd: s.site: row 1: address\n",
    ),
    (
        r##"{"wdsite":1,"start":"http://a.test/#","pages":[["http://a.test/","a.json"]]}"##,
        "3 webdriverd: s.site: row 1: address\n",
    ),
    (
        r#"{"wdsite":1,"start":"about:blank","pages":[["http://a.test/","a.json"]]}"#,
        "3 webdriverd: s.site: row 1: address\n",
    ),
    // a file that isn't there, and one of each fault before it and behind it
    (
        r#"{"wdsite":1,"start":"http://a.test/","pages":[["http://a.test/","none.json"],["http://b.test/","bad.json"]]}"#,
        "4 webdriverd: file fault\n",
    ),
    (
        r#"{"wdsite":1,"start":"http://a.test/","pages":[["http://a.test/","bad.json"],["http://b.test/","none.json"]]}"#,
        "3 webdriverd: bad.json: row 0: shape\n",
    ),
    (
        r#"{"wdsite":1,"start":"http://a.test/","pages":[["http://a.test/","lost.json"],["http://b.test/","bad.json"]]}"#,
        "3 webdriverd: bad.json: row 0: shape\n",
    ),
];

/// Each site, and what a run over it told.
fn sites_are_told(rt: &impl Abort, alloc: Global, sites: &[(&str, &str)]) -> Result<(), Fail> {
    for (site, expected) in sites {
        let files = [
            ("s.site", *site),
            ("a.json", PAGE),
            ("bad.json", BAD_PAGE),
            ("lost.json", LOST_PAGE),
        ];
        let found = told(alloc, &["pipe", "s.site"], &files, None)?;
        assert_eq!(rt; found.as_str(), *expected, "{site}");
    }
    Ok(())
}

#[test]
fn each_fault_of_a_site_is_told(rt: HostRuntime) -> Result<(), Fail> {
    sites_are_told(&rt, rt.alloc(), &SITES)
}

/// The words, and what a run with them told over the good site `s.site`, of which there is one named `-` too.
const WORDS: [(&[&str], &str); 27] = [
    (&["pipe", "s.site"], "0 "),
    (&["pipe", "-"], "0 "),
    (&["pipe", "s.site", "--name", "a"], "0 "),
    (&["pipe", "--name", "a", "s.site"], "0 "),
    (&["pipe", "s.site", "--name=a"], "0 "),
    (&["pipe", "--name=a", "s.site"], "0 "),
    (&["pipe", "--name=-a", "-"], "0 "),
    (&["pipe", "--name", "-", "-"], "0 "),
    (&["pipe", "none.site"], "4 webdriverd: file fault\n"),
    (
        &["pipe", "--name=a", "none.site"],
        "4 webdriverd: file fault\n",
    ),
    (&["pipe", ""], "2 webdriverd: bad words\n"),
    (&["pipe", "-s.site"], "2 webdriverd: bad words\n"),
    (&["pipe", "--"], "0 "),
    (&["pipe", "--", "s.site"], "0 "),
    (&["pipe", "--name"], "2 webdriverd: bad words\n"),
    (&["pipe", "--name="], "2 webdriverd: bad words\n"),
    (&["pipe", "s.site", "--name"], "2 webdriverd: bad words\n"),
    (&["pipe", "--name", "a", ""], "2 webdriverd: bad words\n"),
    (
        &["pipe", "--name", "-a", "s.site"],
        "2 webdriverd: bad words\n",
    ),
    (
        &["pipe", "--name", "", "s.site"],
        "2 webdriverd: bad words\n",
    ),
    (&["pipe", "--name=", "s.site"], "2 webdriverd: bad words\n"),
    (&["pipe", "s.site", "s.site"], "2 webdriverd: bad words\n"),
    (
        &["pipe", "--name=a", "--name=b"],
        "2 webdriverd: bad words\n",
    ),
    (
        &["pipe", "--name", "a", "--name=b"],
        "2 webdriverd: bad words\n",
    ),
    (
        &["pipe", "--name", "a", "--name", "b", "s.site"],
        "2 webdriverd: bad words\n",
    ),
    (
        &["pipe", "s.site", "--port", "1"],
        "2 webdriverd: bad words\n",
    ),
    (&["s.site", "pipe"], "2 webdriverd: bad words\n"),
];

#[test]
fn a_site_is_named_once_before_or_behind_the_name(rt: HostRuntime) -> Result<(), Fail> {
    let alloc = rt.alloc();
    let files = [("s.site", SITE), ("-", SITE), ("a.json", PAGE)];
    for (words, expected) in &WORDS {
        let found = told(alloc, words, &files, None)?;
        assert_eq!(rt; found.as_str(), *expected, "{words:?}");
    }
    Ok(())
}

/// Each read of a site of two pages failing in turn. The fourth call of the files isn't made.
#[test]
fn each_read_fails_in_turn(rt: HostRuntime) -> Result<(), Fail> {
    let alloc = rt.alloc();
    let site =
        r#"{"wdsite":1,"start":"http://a.test/","pages":[["http://a.test/","a.json"],["http://b.test/","a.json"]]}"#;
    let files = [("s.site", site), ("a.json", PAGE)];
    for number in 1..5 {
        let found = told(alloc, &["pipe", "s.site"], &files, Some(number))?;
        let expected = if number < 4 {
            "4 webdriverd: file fault\n"
        } else {
            "0 "
        };
        assert_eq!(rt; found.as_str(), expected, "{number}");
    }
    Ok(())
}

#[test]
fn a_site_that_is_not_there_is_a_file_fault(rt: HostRuntime) -> Result<(), Fail> {
    let found = told(rt.alloc(), &["pipe", "none.site"], &[], None)?;
    assert_eq!(rt; found.as_str(), "4 webdriverd: file fault\n");
    Ok(())
}
