//! What is told of each rule that a page's file breaks, as tests.

use crate::told::told;
use std::alloc::Global;
use std::process::Abort;
use std::test::Fail;

const SITE: &str = r#"{"wdsite":1,"start":"http://a.test/","pages":[["http://a.test/","a.json"]]}"#;

/// What a run over a site of this one page told.
fn told_of(alloc: Global, page: &str) -> Result<String, Fail> {
    told(
        alloc,
        &["pipe", "a.site"],
        &[("a.site", SITE), ("a.json", page)],
        None,
    )
}

/// What a page with this node at place 1 told.
fn told_of_node(alloc: Global, node: &str) -> Result<String, Fail> {
    let page = format!(in alloc; "{{\"wdpage\":1,\"nodes\":[{{\"tag\":\"html\"}},{node}]}}")?;
    told_of(alloc, page.as_str())
}

/// Nodes in which no rule is broken, among them each member at the ends of its range.
const GOOD_NODES: [&str; 17] = [
    r#"{"tag":"a","up":0}"#,
    r#"{"tag":"a-1","up":null}"#,
    r#"{"text":"","up":0}"#,
    r#"{"text":"A\u0000","up":null}"#,
    r#"{"shadow":"open","up":0}"#,
    r#"{"shadow":"closed","up":0}"#,
    r#"{"tag":"a","up":0,"attrs":{}}"#,
    r#"{"tag":"a","up":0,"attrs":{"a1_:-":"A"}}"#,
    r#"{"tag":"a","up":0,"box":[1000000,1000000,1000000,1000000]}"#,
    r#"{"tag":"a","up":0,"box":[-1000000,-1000000,0,0]}"#,
    r#"{"tag":"a","up":0,"layer":1000}"#,
    r#"{"tag":"a","up":0,"layer":-1000}"#,
    r#"{"tag":"a","up":0,"hidden":true}"#,
    r#"{"tag":"a","up":0,"hidden":false}"#,
    r#"{"tag":"a","up":0,"on":{}}"#,
    r#"{"tag":"a","up":0,"on":{"click":[]}}"#,
    r#"{"tag":"a","up":0,"on":{"click":[["remove",9]],"blur":[["go","http://a.test/"]]}}"#,
];

/// Nodes that break a rule on nodes.
const BAD_NODES: [&str; 62] = [
    r#"1"#,
    r#"[]"#,
    r#"{}"#,
    // none of the three kinds, or two of them
    r#"{"up":0}"#,
    r#"{"tag":"a","text":"b","up":0}"#,
    r#"{"tag":"a","shadow":"open","up":0}"#,
    r#"{"text":"b","shadow":"open","up":0}"#,
    // the tag
    r#"{"tag":1,"up":0}"#,
    r#"{"tag":null,"up":0}"#,
    r#"{"tag":"","up":0}"#,
    r#"{"tag":"A","up":0}"#,
    r#"{"tag":"1a","up":0}"#,
    r#"{"tag":"-a","up":0}"#,
    r#"{"tag":"a_","up":0}"#,
    // the text
    r#"{"text":1,"up":0}"#,
    r#"{"text":null,"up":0}"#,
    // the kind of a shadow root
    r#"{"shadow":true,"up":0}"#,
    r#"{"shadow":"half","up":0}"#,
    r#"{"shadow":"","up":0}"#,
    // the parent
    r#"{"tag":"a"}"#,
    r#"{"text":"a"}"#,
    r#"{"shadow":"open"}"#,
    r#"{"tag":"a","up":"0"}"#,
    r#"{"tag":"a","up":false}"#,
    r#"{"tag":"a","up":-1}"#,
    r#"{"tag":"a","up":1}"#,
    r#"{"tag":"a","up":2}"#,
    r#"{"text":"a","up":1}"#,
    r#"{"shadow":"open","up":null}"#,
    r#"{"shadow":"open","up":1}"#,
    // the attributes
    r#"{"tag":"a","up":0,"attrs":[]}"#,
    r#"{"tag":"a","up":0,"attrs":null}"#,
    r#"{"tag":"a","up":0,"attrs":{"a":1}}"#,
    r#"{"tag":"a","up":0,"attrs":{"a":null}}"#,
    r#"{"tag":"a","up":0,"attrs":{"":"b"}}"#,
    r#"{"tag":"a","up":0,"attrs":{"A":"b"}}"#,
    r#"{"tag":"a","up":0,"attrs":{"1":"b"}}"#,
    // the box
    r#"{"tag":"a","up":0,"box":null}"#,
    r#"{"tag":"a","up":0,"box":{}}"#,
    r#"{"tag":"a","up":0,"box":[0,0,1]}"#,
    r#"{"tag":"a","up":0,"box":[0,0,1,1,1]}"#,
    r#"{"tag":"a","up":0,"box":["0",0,1,1]}"#,
    r#"{"tag":"a","up":0,"box":[1000001,0,1,1]}"#,
    r#"{"tag":"a","up":0,"box":[-1000001,0,1,1]}"#,
    r#"{"tag":"a","up":0,"box":[0,1000001,1,1]}"#,
    r#"{"tag":"a","up":0,"box":[0,-1000001,1,1]}"#,
    r#"{"tag":"a","up":0,"box":[0,0,1000001,1]}"#,
    r#"{"tag":"a","up":0,"box":[0,0,-1,1]}"#,
    r#"{"tag":"a","up":0,"box":[0,0,1,1000001]}"#,
    r#"{"tag":"a","up":0,"box":[0,0,1,-1]}"#,
    // the layer
    r#"{"tag":"a","up":0,"layer":"1"}"#,
    r#"{"tag":"a","up":0,"layer":1001}"#,
    r#"{"tag":"a","up":0,"layer":-1001}"#,
    // hidden
    r#"{"tag":"a","up":0,"hidden":0}"#,
    r#"{"tag":"a","up":0,"hidden":"true"}"#,
    // the handlers
    r#"{"tag":"a","up":0,"on":[]}"#,
    r#"{"tag":"a","up":0,"on":null}"#,
    // members that the kind doesn't have, or that nothing has
    r#"{"tag":"a","up":0,"id":"b"}"#,
    r#"{"text":"a","up":0,"attrs":{}}"#,
    r#"{"text":"a","up":0,"box":[0,0,1,1]}"#,
    r#"{"shadow":"open","up":0,"layer":0}"#,
    r#"{"shadow":"open","up":0,"on":{}}"#,
];

/// Nodes whose handlers break a rule on effects.
const BAD_HANDLERS: [&str; 19] = [
    r#"{"tag":"a","up":0,"on":{"clicked":[]}}"#,
    r#"{"tag":"a","up":0,"on":{"click":{}}}"#,
    r#"{"tag":"a","up":0,"on":{"click":[{}]}}"#,
    r#"{"tag":"a","up":0,"on":{"click":[[]]}}"#,
    r#"{"tag":"a","up":0,"on":{"click":[["vanish",1]]}}"#,
    r#"{"tag":"a","up":0,"on":{"click":[["remove"]]}}"#,
    r#"{"tag":"a","up":0,"on":{"click":[["remove","1"]]}}"#,
    r#"{"tag":"a","up":0,"on":{"click":[["remove",-1]]}}"#,
    r#"{"tag":"a","up":0,"on":{"click":[["remove",4294967296]]}}"#,
    r#"{"tag":"a","up":0,"on":{"click":[["layer",1,1001]]}}"#,
    r#"{"tag":"a","up":0,"on":{"click":[["box",1,[0,0,-1,0]]]}}"#,
    r#"{"tag":"a","up":0,"on":{"click":[["hidden",1,0]]}}"#,
    r#"{"tag":"a","up":0,"on":{"click":[["after",0,[]]]}}"#,
    r#"{"tag":"a","up":0,"on":{"click":[["after",1099511627777,[]]]}}"#,
    r#"{"tag":"a","up":0,"on":{"click":[["after",1,[["after",1,[]]]]]}}"#,
    r#"{"tag":"a","up":0,"on":{"click":[["prompt","ask","","",[],[]]]}}"#,
    r#"{"tag":"a","up":0,"on":{"click":[["prompt","alert","","",[]]]}}"#,
    r#"{"tag":"a","up":0,"on":{"click":[["prompt","alert","","",[["after",1,[]]],[]]]}}"#,
    r#"{"tag":"a","up":0,"on":{"click":[["prompt","alert","","",[],[["prompt","alert","","",[],[]]]]]}}"#,
];

/// Whole pages, each with what is told of it behind its name.
const BAD_PAGES: [(&str, &str); 53] = [
    ("", "row 0: json"),
    ("{", "row 0: json"),
    (r#"{"wdpage":1,"nodes":[{"tag":"html"}]}}"#, "row 0: json"),
    (r#"{"wdpage":1.0,"nodes":[{"tag":"html"}]}"#, "row 0: json"),
    (
        r#"{"wdpage":1,"nodes":[{"tag":"html","layer":0.5}]}"#,
        "row 0: json",
    ),
    (r#"[]"#, "row 0: shape"),
    (r#"{"nodes":[{"tag":"html"}]}"#, "row 0: shape"),
    (r#"{"wdpage":"1","nodes":[{"tag":"html"}]}"#, "row 0: shape"),
    (r#"{"wdpage":2,"nodes":[{"tag":"html"}]}"#, "row 0: shape"),
    (r#"{"wdsite":1,"nodes":[{"tag":"html"}]}"#, "row 0: shape"),
    (r#"{"wdpage":1}"#, "row 0: shape"),
    (r#"{"wdpage":1,"nodes":{}}"#, "row 0: shape"),
    (r#"{"wdpage":1,"nodes":[]}"#, "row 0: shape"),
    (
        r#"{"wdpage":1,"nodes":[{"tag":"html"}],"title":"a"}"#,
        "row 0: shape",
    ),
    (
        r#"{"wdpage":1,"nodes":[{"tag":"html"}],"eager":"0"}"#,
        "row 0: shape",
    ),
    (
        r#"{"wdpage":1,"nodes":[{"tag":"html"}],"eager":-1,"load":0}"#,
        "row 0: shape",
    ),
    (
        r#"{"wdpage":1,"nodes":[{"tag":"html"}],"load":-1}"#,
        "row 0: shape",
    ),
    (
        r#"{"wdpage":1,"nodes":[{"tag":"html"}],"load":3600001}"#,
        "row 0: shape",
    ),
    (
        r#"{"wdpage":1,"nodes":[{"tag":"html"}],"load":null}"#,
        "row 0: shape",
    ),
    (
        r#"{"wdpage":1,"nodes":[{"tag":"html"}],"eager":1}"#,
        "row 0: shape",
    ),
    (
        r#"{"wdpage":1,"nodes":[{"tag":"html"}],"eager":2,"load":1}"#,
        "row 0: shape",
    ),
    (
        r#"{"wdpage":1,"nodes":[{"tag":"html"}],"timers":{}}"#,
        "row 0: shape",
    ),
    (
        r#"{"wdpage":1,"nodes":[{"tag":"html"}],"scripts":null}"#,
        "row 0: shape",
    ),
    // the first node
    (r#"{"wdpage":1,"nodes":[{"text":"a"}]}"#, "row 0: node"),
    (r#"{"wdpage":1,"nodes":[{"shadow":"open"}]}"#, "row 0: node"),
    (
        r#"{"wdpage":1,"nodes":[{"tag":"html","up":null}]}"#,
        "row 0: node",
    ),
    (
        r#"{"wdpage":1,"nodes":[{"tag":"html","up":0}]}"#,
        "row 0: node",
    ),
    // a text has no children, and a host has one shadow root
    (
        r#"{"wdpage":1,"nodes":[{"tag":"html"},{"text":"a","up":0},{"tag":"b","up":1}]}"#,
        "row 2: node",
    ),
    (
        r#"{"wdpage":1,"nodes":[{"tag":"html"},{"text":"a","up":0},{"shadow":"open","up":1}]}"#,
        "row 2: node",
    ),
    (
        r#"{"wdpage":1,"nodes":[{"tag":"html"},{"shadow":"open","up":0},{"shadow":"open","up":0}]}"#,
        "row 2: node",
    ),
    (
        r#"{"wdpage":1,"nodes":[{"tag":"html"},{"shadow":"open","up":0},{"shadow":"open","up":1}]}"#,
        "row 2: node",
    ),
    (
        r#"{"wdpage":1,"nodes":[{"tag":"html"},{"tag":"p","up":0},{"tag":"b","up":5}]}"#,
        "row 2: node",
    ),
    // the first fault counts: a node before its handlers, and both before what stands further on
    (
        r#"{"wdpage":1,"nodes":[{"tag":"html","on":{"x":[]}},{"tag":"A","up":0}]}"#,
        "row 0: effect",
    ),
    (
        r#"{"wdpage":1,"nodes":[{"tag":"html","layer":2000,"on":{"x":[]}}]}"#,
        "row 0: node",
    ),
    (
        r#"{"wdpage":1,"nodes":[{"tag":"A"}],"timers":[{}],"scripts":[{}]}"#,
        "row 0: node",
    ),
    (
        r#"{"wdpage":1,"nodes":[{"tag":"html"}],"timers":[{}],"scripts":[{}]}"#,
        "row 0: timer",
    ),
    // timers
    (
        r#"{"wdpage":1,"nodes":[{"tag":"html"}],"timers":[1]}"#,
        "row 0: timer",
    ),
    (
        r#"{"wdpage":1,"nodes":[{"tag":"html"}],"timers":[{"at":1,"do":[]},{"at":"1","do":[]}]}"#,
        "row 1: timer",
    ),
    (
        r#"{"wdpage":1,"nodes":[{"tag":"html"}],"timers":[{"at":0,"do":[]}]}"#,
        "row 0: timer",
    ),
    (
        r#"{"wdpage":1,"nodes":[{"tag":"html"}],"timers":[{"at":1099511627777,"do":[]}]}"#,
        "row 0: timer",
    ),
    (
        r#"{"wdpage":1,"nodes":[{"tag":"html"}],"timers":[{"do":[]}]}"#,
        "row 0: timer",
    ),
    (
        r#"{"wdpage":1,"nodes":[{"tag":"html"}],"timers":[{"at":1}]}"#,
        "row 0: timer",
    ),
    (
        r#"{"wdpage":1,"nodes":[{"tag":"html"}],"timers":[{"at":1,"do":[["x"]]}]}"#,
        "row 0: timer",
    ),
    (
        r#"{"wdpage":1,"nodes":[{"tag":"html"}],"timers":[{"at":1,"do":[["after",1,[]]]}]}"#,
        "row 0: timer",
    ),
    (
        r#"{"wdpage":1,"nodes":[{"tag":"html"}],"timers":[{"at":1,"do":[],"to":2}]}"#,
        "row 0: timer",
    ),
    // scripts
    (
        r#"{"wdpage":1,"nodes":[{"tag":"html"}],"scripts":[{"cells":[["null"]],"root":0}]}"#,
        "row 0: script",
    ),
    (
        r#"{"wdpage":1,"nodes":[{"tag":"html"}],"scripts":[{"script":1,"cells":[["null"]],"root":0}]}"#,
        "row 0: script",
    ),
    (
        r#"{"wdpage":1,"nodes":[{"tag":"html"}],"scripts":[{"script":"a","cells":[["null"]],"root":1}]}"#,
        "row 0: script",
    ),
    (
        r#"{"wdpage":1,"nodes":[{"tag":"html"}],"scripts":[{"script":"a","cells":[["nil"]],"root":0}]}"#,
        "row 0: script",
    ),
    (
        r#"{"wdpage":1,"nodes":[{"tag":"html"}],"scripts":[{"script":"a","cells":[["null"]],"root":0},{"script":"a","cells":[["null"]],"root":0}]}"#,
        "row 1: script",
    ),
    // where a page leads
    (
        r#"{"wdpage":1,"nodes":[{"tag":"html"},{"tag":"iframe","up":0,"attrs":{"src":"b"}}]}"#,
        "links",
    ),
    (
        r#"{"wdpage":1,"nodes":[{"tag":"html","on":{"click":[["go","http://b.test/"]]}}]}"#,
        "links",
    ),
    (
        r#"{"wdpage":1,"nodes":[{"tag":"html"}],"timers":[{"at":1,"do":[["open","b"]]}]}"#,
        "links",
    ),
];

/// Each page, and what is told of it.
fn pages_are_told(rt: &impl Abort, alloc: Global, pages: &[(&str, &str)]) -> Result<(), Fail> {
    for (page, expected) in pages {
        let line = format!(in alloc; "3 webdriverd: a.json: {expected}\n")?;
        let found = told_of(alloc, page)?;
        assert_eq!(rt; found.as_str(), line.as_str(), "{page}");
    }
    Ok(())
}

/// Each node at place 1, of all of which the same is told.
fn nodes_are_told(
    rt: &impl Abort,
    alloc: Global,
    nodes: &[&str],
    expected: &str,
) -> Result<(), Fail> {
    for node in nodes {
        let found = told_of_node(alloc, node)?;
        assert_eq!(rt; found.as_str(), expected, "{node}");
    }
    Ok(())
}

#[test]
fn nodes_in_which_no_rule_is_broken_are_served(rt: HostRuntime) -> Result<(), Fail> {
    nodes_are_told(&rt, rt.alloc(), &GOOD_NODES, "0 ")
}

#[test]
fn each_bad_member_of_a_node_is_told(rt: HostRuntime) -> Result<(), Fail> {
    nodes_are_told(
        &rt,
        rt.alloc(),
        &BAD_NODES,
        "3 webdriverd: a.json: row 1: node\n",
    )
}

#[test]
fn each_bad_handler_is_told(rt: HostRuntime) -> Result<(), Fail> {
    nodes_are_told(
        &rt,
        rt.alloc(),
        &BAD_HANDLERS,
        "3 webdriverd: a.json: row 1: effect\n",
    )
}

#[test]
fn each_fault_of_a_page_is_told(rt: HostRuntime) -> Result<(), Fail> {
    pages_are_told(&rt, rt.alloc(), &BAD_PAGES)
}
