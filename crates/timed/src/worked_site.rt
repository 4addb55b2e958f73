//! The files of the worked site.

/// The worked site, as it stands in examples/.
pub const W_SITE: &str =
    r#"{"wdsite":1,"start":"http://w.test/","pages":[["http://w.test/","w.json"]]}"#;

/// Its one page.
pub const W_JSON: &str = r##"{"wdpage":1,"nodes":[{"tag":"html"},
{"tag":"body","up":0,"box":[0,0,1280,800]},
{"tag":"p","up":1,"attrs":{"id":"a1b"},"box":[0,0,100,20]},
{"text":"one  two","up":2},
{"tag":"button","up":1,"attrs":{"id":"out"},"box":[0,40,80,20],"on":{"click":[["remove",2]]}},
{"tag":"button","up":1,"attrs":{"id":"in"},"box":[0,80,80,20],"on":{"click":[["insert",2,1,0]]}},
{"tag":"div","up":1,"attrs":{"id":"under"},"box":[200,0,100,100]},
{"tag":"div","up":1,"attrs":{"id":"over"},"box":[240,0,100,100],"layer":1},
{"tag":"i","up":1,"attrs":{"id":"thin"},"box":[400,0,0,20]},
{"tag":"em","up":null,"attrs":{"id":"late"},"box":[0,200,50,20]},
{"tag":"input","up":1,"attrs":{"id":"1x"},"box":[0,120,200,20]},
{"tag":"button","up":1,"attrs":{"id":"ask"},"box":[0,160,80,20],
 "on":{"click":[["prompt","alert","Sure?","",[],[]]]}},
{"tag":"nav","up":1},{"tag":"ul","up":12},{"tag":"ul","up":13},{"tag":"li","up":14},
{"shadow":"open","up":6},
{"tag":"b","up":16,"attrs":{"id":"deep"},"box":[200,0,10,10]}],
"timers":[{"at":40,"do":[["insert",9,1,99]]},{"at":60,"do":[["remove",9]]}],
"scripts":[{"script":"return log","cells":[["log"]],"root":0},
{"script":"return twice","cells":[["text","v"],["list",[0,0]]],"root":1},
{"script":"return loop","cells":[["list",[0]]],"root":0},
{"script":"return half","cells":[["fraction","1.5"]],"root":0},
{"script":"return never","cells":[["null"]],"root":0,"after":null}]}"##;
