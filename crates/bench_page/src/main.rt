//! For bench/page: opens a page of so many fields and so many timers, so many times over, and runs
//! the timers of each. Its words are the number of fields, the number of timers and the number of
//! times. It prints how many timers ran in all.
#![tactic(auto)]

ghost use Rattle.std.specs.Prelude.{◌≡◌, ◌∷◌, ◌<◌, ◌≤◌, [], None, false, codes, IfOk};
ghost use Rattle.std.specs.Str.{IsAscii};
ghost use Rattle.page_engine.specs.BuiltIn.{an_element};
ghost use Rattle.page_engine.specs.Pages.{IsLawfulPage};
ghost use Rattle.bench_page.specs.Flat.{a_root, a_field, a_timer, repeated};

use page_engine::{
    AttrList, Book, Effect, EffectList, HandlerList, NodeDef, NodeDefList, NodeKind, Page, PageDef,
    TimerDef, TimerList,
};
use std::alloc::Global;
use std::{env, io};
use wd_json::{Memory, WdText};

/// The last moment.
const LAST: u64 = 1 << 62;

fn ascii(alloc: Global, text: &str) -> Result<WdText, Memory>
    requires { IsAscii text.now }
    ensures { IfOk result (λ t. t ≡ text.now) }
{
    WdText::of(alloc, text)
}

fn element(alloc: Global, tag: &str, up: Option<u32>, attrs: AttrList) -> Result<NodeDef, Memory>
    requires { IsAscii tag.now }
    ensures { IfOk result (λ node. node ≡ an_element tag.now up attrs None) }
{
    Ok(NodeDef {
        kind: NodeKind::Element(ascii(alloc, tag)?),
        up,
        attrs,
        pixels: None,
        layer: 0,
        hidden: false,
        on: HandlerList::new(alloc),
    })
}

/// A field with a value, in the root.
fn field(alloc: Global) -> Result<NodeDef, Memory>
    ensures { IfOk result (λ node. node ≡ a_field) }
{
    let mut attrs = AttrList::new(alloc);
    attrs.push((ascii(alloc, "value")?, ascii(alloc, "v")?))?;
    element(alloc, "input", Some(0), attrs)
}

/// A timer that changes a layer.
fn timer(alloc: Global) -> Result<TimerDef, Memory>
    ensures { IfOk result (λ timer. timer ≡ a_timer) }
{
    let mut effects = EffectList::new(alloc);
    effects.push(Effect::Layer { node: 1, layer: 2 })?;
    Ok(TimerDef { at: 5, effects })
}

fn nodes_of(alloc: Global, fields: u32) -> Result<NodeDefList, Memory>
    ensures { IfOk result (λ nodes. nodes ≡ a_root ∷ repeated fields a_field) }
{
    let mut nodes = NodeDefList::new(alloc);
    nodes.push(element(alloc, "html", None, AttrList::new(alloc))?)?;
    for _i in 0..fields {
        nodes.push(field(alloc)?)?;
    }
    Ok(nodes)
}

fn timers_of(alloc: Global, timers: u32) -> Result<TimerList, Memory>
    ensures { IfOk result (λ list. list ≡ repeated timers a_timer) }
{
    let mut list = TimerList::new(alloc);
    for _i in 0..timers {
        list.push(timer(alloc)?)?;
    }
    Ok(list)
}

/// A root with so many fields, and so many timers.
fn page_of(alloc: Global, fields: u32, timers: u32) -> Result<PageDef, Memory>
    requires few { fields < 50000 }
    requires rare { timers ≤ 1000 }
    ensures { IfOk result IsLawfulPage }
{
    Ok(PageDef {
        address: ascii(alloc, "http://page.test/")?,
        nodes: nodes_of(alloc, fields)?,
        timers: timers_of(alloc, timers)?,
        book: Book::new(alloc),
        eager: 0,
        load: 0,
    })
}

/// Runs all timers, and answers how many there were.
fn run(page: &mut Page) -> u32 {
    let mut ran = 0u32;
    for _i in 0..1000 {
        if page.spent() {
            return ran;
        }
        let Some(due) = page.next_due() else {
            return ran;
        };
        if due.moment > LAST || page.run_due(due.moment).is_err() {
            return ran;
        }
        ran = ran.saturating_add(1);
    }
    ran
}

fn timed(alloc: Global, def: &PageDef, times: u32) -> Result<u32, Memory>
    requires { IsLawfulPage def.now }
{
    let mut ran = 0u32;
    for _i in 0..times {
        let mut page = Page::open(alloc, def, 0, 0, false)?;
        ran = ran.saturating_add(run(&mut page));
    }
    Ok(ran)
}

fn main(rt: HostRuntime) -> io::Result<()> {
    let alloc = rt.alloc();
    let mut numbers = [0u32; 3];
    let mut place = 0usize;
    for word in env::args(&rt)? {
        if 1 <= place && place <= 3 {
            numbers[place - 1] = word.as_str().parse::<u32>().unwrap_or(0);
        }
        place = place.saturating_add(1);
    }
    let [fields, timers, times] = numbers;
    let mut ran = 0u32;
    if fields < 50_000 && timers <= 1000 {
        if let Ok(def) = page_of(alloc, fields, timers) {
            ran = timed(alloc, &def, times).unwrap_or(0);
        }
    }
    println!(rt; "{ran}")
}
